//! The place of a repository whose files are shared.
ghost use Rattle.std.specs.Prelude.{◌≡◌, ◌≤◌, All, Some, IfOk, IfErr, vec_len};
ghost use Rattle.std.specs.List.{AllZip};
ghost use Rattle.hgs_files.specs.Reads.{counted};
ghost use Rattle.hgs_files.specs.Ends.{Begins, BeginsBeside, Follow, EndsWithin, total_of};
ghost use Rattle.hgs_mem.specs.MemFiles.{log_of, start_of, tally_of};
ghost use Rattle.hgs_hub.specs.Hub.{files_of};
ghost use Rattle.hgs_hub.specs.Reader.{seen_by, start_by, ties_by, tally_by};
ghost use Rattle.hgs_hub.specs.Writer.{done_by, base_of, ties_at, tally_at};

use crate::book::Book;
use crate::front::Front;
use crate::open::{followers, lead};
use crate::reader::HubReader;
use crate::writer::HubWriter;
use hgs_files::protocol::Protocol;
use hgs_files::yard::Yard;
use hgs_mem::mem::MemFiles;
use std::marker::PhantomData;
use std::sync::Wait;

/// The place of a repository whose files are in memory, and which one end can write while others read.
#[derive(Drop)]
pub struct Hub<P, T> {
    rt: T,
    files: MemFiles,
    of: PhantomData<P>,
}

impl<P: Protocol, T: Wait + Drop> Hub<P, T> {
    /// The place of these files. Takes no memory.
    pub fn new(rt: T, files: MemFiles) -> Hub<P, T>
        ensures { files_of result ≡ files }
    {
        Hub {
            rt,
            files,
            of: PhantomData,
        }
    }
}

impl<P: Protocol, T: Wait + Drop + Send> Yard for Hub<P, T> {
    type A = MemFiles;

    type Rest = T;

    type Front = Front;

    type W = HubWriter<P, T>;

    type R = HubReader<P>;

    ghost files = { λ hub. files_of hub };

    fn alone(self) -> (MemFiles, T) {
        let Hub { rt, files, of: _ } = self;
        (files, rt)
    }

    fn again(at_rest: MemFiles, rest: T) -> Hub<P, T> {
        Hub::new(rest, at_rest)
    }

    fn start(self, n: u32) -> Result<(HubWriter<P, T>, Vec<HubReader<P>>), Hub<P, T>>
        requires { (1 ≤ n) × (n ≤ 64) }
        ensures count { IfOk result (λ ends. vec_len ends.1 ≡ n) }
        ensures log { IfOk result (λ ends. Begins (Some (log_of (files_of self))) (start_of (files_of self)) (Some (done_by ends.0)) (base_of ends.0) (ties_at ends.0)) }
        ensures counts { IfOk result (λ ends. ((tally_at ends.0).faults ≡ (tally_of (files_of self)).faults) × ((tally_at ends.0).denied ≡ (tally_of (files_of self)).denied)) }
        ensures readers { IfOk result (λ ends. All (λ r. BeginsBeside (Some (done_by ends.0)) (base_of ends.0) (ties_at ends.0) (Some (seen_by r)) (start_by r) (ties_by r)) ends.1.items) }
        ensures uncounted { IfOk result (λ ends. All (λ r. ((tally_by r).faults ≡ 0) × ((tally_by r).denied ≡ 0)) ends.1.items) }
        ensures err { IfErr result (λ hub. hub ≡ self) }
    {
        let Hub { rt, files, of } = self;
        let book = Book::new();
        let Ok(mut writer) = lead(&rt, &files, book.seen.again(), n) else {
            return Err(Hub { rt, files, of });
        };
        match followers(files.alloc(), &mut writer, &book.front, n) {
            Ok(rs) => Ok((HubWriter::begin(rt, writer, book, files), rs)),
            Err(_) => {
                writer.take(&rt);
                Err(Hub { rt, files, of })
            }
        }
    }

    fn finish(
        w: HubWriter<P, T>,
        rs: Vec<HubReader<P>>,
    ) -> Result<Hub<P, T>, (HubWriter<P, T>, Vec<HubReader<P>>)>
        requires { All (λ r. (ties_by r).home ≡ (ties_at w).home) rs.items }
        ensures log { IfOk result (λ hub. Follow (ties_at w) (Some (done_by w)) (Some (log_of (files_of hub))) (start_of (files_of hub))) }
        ensures readers { IfOk result (λ hub. All (λ r. EndsWithin (Some (done_by w)) (Some (seen_by r)) (ties_by r).told) rs.items) }
        ensures faults { IfOk result (λ hub. (tally_of (files_of hub)).faults ≡ counted (tally_at w).faults (total_of (λ r. (tally_by r).faults) rs.items)) }
        ensures denied { IfOk result (λ hub. (tally_of (files_of hub)).denied ≡ counted (tally_at w).denied (total_of (λ r. (tally_by r).denied) rs.items)) }
        ensures same { IfErr result (λ ends. (Some (done_by ends.0) ≡ Some (done_by w)) × (base_of ends.0 ≡ base_of w) × (ties_at ends.0 ≡ ties_at w)) }
        ensures same_counts { IfErr result (λ ends. ((tally_at ends.0).faults ≡ (tally_at w).faults) × ((tally_at ends.0).denied ≡ (tally_at w).denied)) }
        ensures same_readers { IfErr result (λ ends. AllZip (λ r s. (ties_by s ≡ ties_by r) × (Some (seen_by s) ≡ Some (seen_by r)) × ((tally_by s).faults ≡ (tally_by r).faults) × ((tally_by s).denied ≡ (tally_by r).denied)) rs.items ends.1.items) }
        ensures same_home { IfErr result (λ ends. All (λ r. (ties_by r).home ≡ (ties_at w).home) ends.1.items) }
    {
        match w.close(rs) {
            Ok((rt, files)) => Ok(Hub::new(rt, files)),
            Err(ends) => Err(ends),
        }
    }

    ghost takes_all = { λ start log. tt };

    ghost shows_allowed = { λ start log h. h };
}
