//! The place of a repository on the disk.
ghost use Rattle.std.specs.Prelude.{◌≡◌, All, IfErr, IfOk, vec_len};
ghost use Rattle.std.specs.List.{AllZip};
ghost use Rattle.hgs_files.specs.Ends.{EndsWithin, Follow, total_of};
ghost use Rattle.hgs_files.specs.Reads.{counted};
ghost use Rattle.hgs_files.specs.Ties.{untied};
ghost use Rattle.hgs_os.specs.Disk.{untold, untold_start};

use crate::files::{OsFiles, OsFront, OsReader};
use hgs_files::ends::{Follows, Leads, Told};
use hgs_files::files::{Files, Reads};
use hgs_files::yard::Yard;
use std::alloc::{AllocError, Global};

/// The place of a repository whose files are an operating system's.
#[derive(Drop)]
pub struct OsYard {
    alloc: Global,
    files: OsFiles,
}

impl OsYard {
    /// The yard of these files. Takes no memory.
    pub fn new(alloc: Global, files: OsFiles) -> OsYard {
        OsYard { alloc, files }
    }
}

// So many reading ends over the same folder.
fn readers_over(alloc: Global, files: &OsFiles, n: u32) -> Result<Vec<OsReader>, AllocError>
    ensures count { IfOk result (λ readers. vec_len readers ≡ n) }
    ensures uncounted { IfOk result (λ readers. All (λ r. (r.files.tally.faults ≡ 0) × (r.files.tally.denied ≡ 0)) readers.items) }
{
    let mut readers = Vec::new(alloc);
    for _ in 0..n {
        readers.push(files.reader()?)?;
    }
    Ok(readers)
}

// How often reading ends failed together.
fn faults_of(readers: &[OsReader]) -> u64
    ensures { result ≡ total_of (λ r. r.files.tally.faults) readers.now }
{
    readers.iter().fold(
        0,
        |sum: u64, reader| sum.saturating_add(reader.faults_so_far()),
    )
}

// How often they found no memory together.
fn denied_of(readers: &[OsReader]) -> u64
    ensures { result ≡ total_of (λ r. r.files.tally.denied) readers.now }
{
    readers.iter().fold(
        0,
        |sum: u64, reader| sum.saturating_add(reader.denied_so_far()),
    )
}

impl Yard for OsYard {
    type A = OsFiles;

    type Rest = Global;

    type Front = OsFront;

    type W = OsFiles;

    type R = OsReader;

    ghost files = { λ yard. yard.files };

    fn alone(self) -> (OsFiles, Global) {
        (self.files, self.alloc)
    }

    fn again(at_rest: OsFiles, alloc: Global) -> OsYard {
        OsYard {
            alloc,
            files: at_rest,
        }
    }

    fn start(self, n: u32) -> Result<(OsFiles, Vec<OsReader>), OsYard> {
        match readers_over(self.alloc, &self.files, n) {
            Ok(readers) => Ok((self.files, readers)),
            Err(_) => Err(self),
        }
    }

    fn finish(w: OsFiles, rs: Vec<OsReader>) -> Result<OsYard, (OsFiles, Vec<OsReader>)>
        requires { All (λ r. untied.home ≡ untied.home) rs.items }
        ensures log { IfOk result (λ yard. Follow untied untold untold untold_start) }
        ensures readers { IfOk result (λ yard. All (λ r. EndsWithin untold untold untied.told) rs.items) }
        ensures faults { IfOk result (λ yard. yard.files.tally.faults ≡ counted w.tally.faults (total_of (λ r. r.files.tally.faults) rs.items)) }
        ensures denied { IfOk result (λ yard. yard.files.tally.denied ≡ counted w.tally.denied (total_of (λ r. r.files.tally.denied) rs.items)) }
        ensures same { IfErr result (λ ends. (untold ≡ untold) × (untold_start ≡ untold_start) × (untied ≡ untied)) }
        ensures same_counts { IfErr result (λ ends. (ends.0.tally.faults ≡ w.tally.faults) × (ends.0.tally.denied ≡ w.tally.denied)) }
        ensures same_readers { IfErr result (λ ends. AllZip (λ r s. (untied ≡ untied) × (untold ≡ untold) × (s.files.tally.faults ≡ r.files.tally.faults) × (s.files.tally.denied ≡ r.files.tally.denied)) rs.items ends.1.items) }
        ensures same_home { IfErr result (λ ends. All (λ r. untied.home ≡ untied.home) ends.1.items) }
    {
        let mut files = w;
        files.add_counts(faults_of(&rs), denied_of(&rs));
        Ok(OsYard {
            alloc: *rs.allocator(),
            files,
        })
    }

    ghost takes_all = { λ start log. tt };

    ghost shows_allowed = { λ start log shown. tt };
}
