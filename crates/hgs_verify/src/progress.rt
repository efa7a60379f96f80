//! How far a verification is, for somebody who looks on.

/// Somebody who looks on. Nothing that is read, found or answered depends on it.
pub trait Progress {
    /// The filelogs of so many of all used paths are judged.
    fn tell(&mut self, done: usize, all: usize);

    /// No more are told of.
    fn end(&mut self);
}

/// Nobody looks on.
#[derive(Drop)]
pub struct Unseen;

impl Progress for Unseen {
    fn tell(&mut self, _done: usize, _all: usize) {}

    fn end(&mut self) {}
}
