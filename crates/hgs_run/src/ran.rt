//! What a run comes to.

use hgs_files::yard::{Left, Yard};

/// The exit status of a run, and what it leaves of the yard.
#[derive(Drop)]
pub struct Ran<Y: Yard> {
    pub status: u8,
    pub left: Left<Y>,
}
