//! Those who let a worker go on.

/// What a worker passes before it decides a job.
pub trait Gate {
    /// Comes back once the job of this number may be decided. It may wait.
    fn pass(&self, job: u64);
}
