//! Who sleeps, and who is woken. No clause speaks of it.

use crate::pool::Pool;
use std::sync::atomic::Ordering;

impl Pool {
    /// Wakes one idle worker, where there is one.
    pub(crate) fn wake_one(&self) {
        for _ in 0..64 {
            let idle = self.idle.load(Ordering::SeqCst);
            if idle == 0 {
                return;
            }
            let bit = idle & idle.wrapping_neg();
            if self.idle.fetch_and(!bit, Ordering::SeqCst) & bit != 0 {
                if let Some(waker) = self.wakers.get(bit.trailing_zeros() as usize) {
                    waker.unpark();
                }
                return;
            }
        }
    }

    /// Wakes all.
    pub(crate) fn wake_all(&self) {
        for waker in &self.wakers {
            waker.unpark();
        }
    }

    /// Says that the worker is idle.
    pub(crate) fn set_idle(&self, bit: u64) {
        self.idle.fetch_or(bit, Ordering::SeqCst);
    }

    /// Says that the worker is idle no more.
    pub(crate) fn set_awake(&self, bit: u64) {
        self.idle.fetch_and(!bit, Ordering::SeqCst);
    }

    /// Says that the worker, which was idle, has a job. Where it was to be woken for another one, another worker is.
    pub(crate) fn set_busy(&self, bit: u64) {
        if self.idle.fetch_and(!bit, Ordering::SeqCst) & bit == 0 {
            self.wake_one();
        }
    }
}
