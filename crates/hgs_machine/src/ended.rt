//! How a transaction ended.

/// Whether a transaction that was left unfinished is published.
#[derive(Clone, Copy, Debug, PartialEq, Eq)]
pub enum Published {
    No,
    Yes,
    /// The publishing append failed, and its file's size could not be had.
    Unknown,
}

/// How a transaction ended.
#[derive(Clone, Copy, Debug, PartialEq, Eq)]
pub enum Short {
    /// It is published, and its journal is removed.
    Done,
    /// An operation failed, and all is taken back.
    Fault,
    /// It is neither finished nor taken back, and its journal may stand.
    Unfinished(Published),
    /// An operation found no memory, and all is taken back.
    Memory,
}

/// How a transaction ended, and whether all that was to be removed behind it is.
#[derive(Clone, Copy, Debug, PartialEq, Eq)]
pub struct Ended {
    pub outcome: Short,
    pub swept: bool,
}
