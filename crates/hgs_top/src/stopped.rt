//! What a command came to.
use hgs_files::streams::IoFault;
use hgs_load::answer::ReadAnswer;

/// Why a command did not come to its end.
#[derive(Debug, Drop)]
pub enum Stopped {
    /// The reader refused.
    Refused(ReadAnswer),
    /// The output took no more.
    Unwritten(IoFault),
}

/// What a command that came to its end has said.
#[derive(Clone, Copy, Debug, PartialEq, Eq)]
pub enum Said {
    /// All of its text.
    Whole,
    /// Nothing, since no revision has the name, or one of the names.
    UnknownRevision,
    /// Nothing, since the text is no set, from this place on.
    BadSet(usize),
}
