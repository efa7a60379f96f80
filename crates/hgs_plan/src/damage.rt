//! Which file is damaged, and how.
ghost use Rattle.std.specs.Prelude.{◌≡◌};
ghost use Rattle.hgs_plan.specs.Damage.{part_name};

use hgs_files::path::StorePath;

/// What of a repository is damaged.
#[derive(Clone, Copy, Debug, PartialEq, Eq)]
pub enum Part {
    Revlog,
    Manifest,
    Change,
    Roots,
    Bookmarks,
    Dirstate,
    Fncache,
    Journal,
    Shrunk,
}

impl Part {
    /// The variant's name in lower case, as it is printed.
    pub fn name(self) -> &'static [u8]
        ensures { result.now ≡ part_name self }
    {
        match self {
            Part::Revlog => b"revlog",
            Part::Manifest => b"manifest",
            Part::Change => b"change",
            Part::Roots => b"roots",
            Part::Bookmarks => b"bookmarks",
            Part::Dirstate => b"dirstate",
            Part::Fncache => b"fncache",
            Part::Journal => b"journal",
            Part::Shrunk => b"shrunk",
        }
    }
}

/// A fault: its number among the faults of that part, and its revision, line or byte, 0 where it has none.
#[derive(Clone, Copy, Debug, PartialEq, Eq)]
pub struct What {
    pub part: Part,
    pub number: u32,
    pub place: u64,
}

/// A damaged file and its fault.
#[derive(Debug, Drop)]
pub struct Damage {
    pub path: StorePath,
    pub what: What,
}
