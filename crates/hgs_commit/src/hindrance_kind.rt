//! Why a text cannot become a revision.
use hgs_index::kinds::Which;

/// Why a text cannot become a revision of its revlog.
#[derive(Clone, Copy, Debug, PartialEq, Eq)]
pub enum Hindrance {
    /// There would be more of this than there may be.
    Limit(Which),
    /// This revision has its node, with another text or other parents.
    Collision(u32),
}
