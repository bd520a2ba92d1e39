//! A queue from which comes what was put into it, each as often.
//!
//! Threads share a queue, and each holds a pass for it. A `Tally` is what one pass knows: what it put into the queue, what
//! it took, and which of that it dropped. It exists in proofs alone, so no list is kept while a program runs. The rule
//! (`specs/Tallies.antt`) says of any schedule: what all passes put is what they took or dropped and what the queue holds,
//! each element as often, however the elements are weighed. The right to know the whole is cut into 65 parts, one for each
//! of 64 workers and one for who gave the work out; who has all parts again learns what is left.
//!
//! `proofs/Counts.antt` shows that each step of a queue keeps the rule, and `proofs/Closing.antt` what two such queues, of
//! jobs and of answers, say together once each worker answered what it took: no answer was dropped, and each job is
//! accounted for. No clause says that anybody ever takes.
#![tactic(auto)]

mod counted;

pub use counted::Tally;
