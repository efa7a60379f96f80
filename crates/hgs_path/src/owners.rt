//! The paths that have a name, where several can have one.
ghost use Rattle.std.specs.Prelude.{List, ℕ, Bool, false, OnOk, option_map};
ghost use Rattle.hgs_path.specs.Owners.{Keeps, with_owner, IsOther};

use hgs_bytes::bytes::Bytes;
use hgs_bytes::parts::equal;
use hgs_files::path::StorePath;
use std::alloc::{AllocError, Global};
use std::collections::BTreeMap;

/// Of the paths that own a name, one, and another where several do. So of any path it can tell whether another owns the
/// name, in logarithmic time.
#[derive(Debug, Drop)]
pub struct Owners {
    first: BTreeMap<StorePath, Bytes>,
    second: BTreeMap<StorePath, Bytes>,
}

impl Owners {
    pub(crate) fn new(alloc: Global) -> Owners
        ensures { Keeps (λ name path. false) result }
    {
        Owners {
            first: BTreeMap::new(alloc),
            second: BTreeMap::new(alloc),
        }
    }

    pub(crate) fn add(
        &mut self,
        alloc: Global,
        name: StorePath,
        path: &[u8],
    ) -> Result<(), AllocError>
        ensures { OnOk result ((owns : List ℕ → List ℕ → Bool) → Keeps owns self.old → Keeps (with_owner owns name path.now) self.new) }
    {
        match self.first.get(&name) {
            None => {
                self.first.insert(name, Bytes::from_slice(alloc, path)?)?;
            }
            Some(first) => {
                if !equal(first.as_slice(), path) {
                    self.second.insert(name, Bytes::from_slice(alloc, path)?)?;
                }
            }
        }
        Ok(())
    }

    /// An owner of the name that is another path than this.
    pub(crate) fn other(&self, name: &StorePath, path: &[u8]) -> Option<&[u8]>
        ensures { (owns : List ℕ → List ℕ → Bool) → Keeps owns self.now → IsOther (owns name.now) path.now (option_map (λ q. q.now) result) }
    {
        match self.first.get(name) {
            Some(first) if !equal(first.as_slice(), path) => Some(first.as_slice()),
            Some(_) => match self.second.get(name) {
                Some(second) => Some(second.as_slice()),
                None => None,
            },
            None => None,
        }
    }
}
