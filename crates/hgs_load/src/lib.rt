//! Loading a repository without locks, while others may write: what is asked of the files, and what is loaded of them.
#![tactic(auto)]

pub mod answer;
pub mod ask;
pub mod laws;
pub mod load;
pub mod loaded;
pub mod marks;
pub mod paths;
pub mod pieces;
pub mod refresh;
pub mod refusal;
pub mod requirements;
pub mod step;
pub mod whole;
