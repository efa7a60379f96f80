//! Small types that the crates above share.
ghost use Rattle.std.specs.Prelude.{◌≡◌};
ghost use Rattle.hgs_index.specs.Limit.{limit_number};

/// What kind of file a manifest names.
#[derive(Clone, Copy, Debug, PartialEq, Eq)]
pub enum Flag {
    Plain,
    Exec,
    Link,
}

/// A place in a file or a text: `len` bytes from byte `from` on.
#[derive(Clone, Copy, Debug, PartialEq, Eq)]
pub struct Span {
    pub from: u64,
    pub len: u64,
}

/// The limit that a quantity is above. Refusals print its number.
#[derive(Clone, Copy, Debug, PartialEq, Eq)]
pub enum Which {
    FileText,
    Tree,
    Changesets,
    Text,
    Data,
    Bookmarks,
    Record,
    Inline,
    Part,
}

impl Which {
    /// The number that a refusal prints for this limit.
    pub fn number(self) -> u32
        ensures { result ≡ limit_number self }
    {
        match self {
            Which::FileText => 1,
            Which::Tree => 2,
            Which::Changesets => 3,
            Which::Text => 4,
            Which::Data => 5,
            Which::Bookmarks => 6,
            Which::Record => 7,
            Which::Inline => 8,
            Which::Part => 9,
        }
    }
}
