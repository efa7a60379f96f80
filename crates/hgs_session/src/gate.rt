//! What is called before and after each job of a session.

/// Is told of each job by the worker that does it, outside the lock. Nothing is promised of it.
pub trait Gate: Sync {
    /// A worker is about to do this job. Both have their numbers, from 0.
    fn before(&self, worker: u32, job: u32);

    /// It has done it.
    fn after(&self, worker: u32, job: u32);
}

/// Nothing is done.
pub struct OpenGate;

impl Gate for OpenGate {
    fn before(&self, _worker: u32, _job: u32) {}

    fn after(&self, _worker: u32, _job: u32) {}
}
