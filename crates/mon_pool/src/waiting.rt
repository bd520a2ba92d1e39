//! The jobs that the queue did not take yet.

ghost use Rattle.std.specs.Prelude.{◌≡◌, ◌+◌, ◌<◌, ◌++◌, ◌∷◌, []};
ghost use Rattle.std.specs.VecDeque.{deque_len, deque_capacity};

use mon_job::Job;
use std::alloc::Global;
use std::collections::VecDeque;
use std::sync::Arc;

/// One more job at the back, where there is room.
pub(crate) fn append(waiting: &mut VecDeque<Arc<Job, Global>>, job: Arc<Job, Global>)
    requires { deque_len waiting.old < deque_capacity waiting.old }
    ensures items { waiting.new.items ≡ waiting.old.items ++ job ∷ [] }
    ensures len { deque_len waiting.new ≡ deque_len waiting.old + 1 }
    ensures capacity { deque_capacity waiting.new ≡ deque_capacity waiting.old }
{
    let _ = waiting.push_back(job);
}

/// One more job at the front, where there is room.
pub(crate) fn prepend(waiting: &mut VecDeque<Arc<Job, Global>>, job: Arc<Job, Global>)
    requires { deque_len waiting.old < deque_capacity waiting.old }
    ensures items { waiting.new.items ≡ job ∷ waiting.old.items }
    ensures len { deque_len waiting.new ≡ deque_len waiting.old + 1 }
    ensures capacity { deque_capacity waiting.new ≡ deque_capacity waiting.old }
{
    let _ = waiting.push_front(job);
}
