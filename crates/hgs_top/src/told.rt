//! A command that changes files, and what is said of it.
ghost use Rattle.std.specs.Prelude.{◌≡◌, ◌⊎◌, ◌∷◌, [], List};
ghost use Rattle.hgs_files.specs.Reads.{Rose};
ghost use Rattle.hgs_files.specs.declared.op.Op.{Op};
ghost use Rattle.hgs_machine.specs.Refusals.{WereRefused};
ghost use Rattle.hgs_top.specs.Orders.{Does, IsFit, IsReadBy, LeavesInput, ended_status, ended_text};
ghost use Rattle.hgs_top.specs.Run.{EndsLine, IsOneOf};
ghost use Rattle.hgs_top.specs.Words.{job_of};

use crate::command::{OUT_OF_MEMORY, end_with};
use crate::ended::Ended;
use crate::obey::do_order;
use crate::orders::Order;
use hgs_files::files::Files;
use hgs_files::streams::{Sink, Source};
use std::alloc::Global;

/// The bytes of room for a line: a bookmark's name and a number, or a number and a node, and the line of what is left over.
const ROOM: usize = 512;

// Says what a command came to, by a line that has no bytes yet, and gives the status.
fn say_in<K: Sink>(mut line: Vec<u8>, alloc: Global, ended: &Ended, out: &mut K) -> u8
    requires empty { line.items ≡ [] }
    ensures line { EndsLine (ended_text ended.now) (ended_status ended.now) result (K.written out.old) (K.written out.new) }
    ensures sink { result ≡ 19 → Rose (K.faults out.old) (K.faults out.new) }
    ensures statuses { IsOneOf (19 ∷ 30 ∷ ended_status ended.now ∷ []) result }
{
    match ended.print(alloc, &mut line) {
        Ok(()) => end_with(out, &line, ended.status()),
        Err(_) => end_with(out, OUT_OF_MEMORY, 30),
    }
}

/// Says what a command came to, and gives the status.
pub fn say<K: Sink>(alloc: Global, ended: &Ended, out: &mut K) -> u8
    ensures line { EndsLine (ended_text ended.now) (ended_status ended.now) result (K.written out.old) (K.written out.new) }
    ensures sink { result ≡ 19 → Rose (K.faults out.old) (K.faults out.new) }
    ensures statuses { IsOneOf (19 ∷ 30 ∷ ended_status ended.now ∷ []) result }
{
    say_in(Vec::new(alloc), alloc, ended, out)
}

/// Does what a command asks for that changes files, says what it came to, and gives the status.
pub fn run_order<F: Files, S: Source, K: Sink>(
    alloc: Global,
    order: Order<'_>,
    files: &mut F,
    input: &mut S,
    out: &mut K,
) -> u8
    requires fit { IsFit order }
    requires allows { (log : List Op) → F.allows (F.start files.old) log }
    ensures does { Does (λ n. WereRefused n (F.faults files.old) (F.faults files.new) (F.denied files.old) (F.denied files.new)) (job_of order.entry) (S.left input.old) (F.log files.old) (F.log files.new) (F.start files.old) result (K.written out.old) (K.written out.new) }
    ensures fault { result ≡ 16 → Rose (F.faults files.old) (F.faults files.new) }
    ensures unfinished { result ≡ 17 → Rose (F.faults files.old) (F.faults files.new) ⊎ Rose (F.denied files.old) (F.denied files.new) }
    ensures failed { result ≡ 18 → Rose (S.faults input.old) (S.faults input.new) }
    ensures sink { result ≡ 19 → Rose (K.faults out.old) (K.faults out.new) }
    ensures statuses { IsOneOf (0 ∷ 1 ∷ 10 ∷ 11 ∷ 12 ∷ 13 ∷ 14 ∷ 15 ∷ 16 ∷ 17 ∷ 18 ∷ 19 ∷ 20 ∷ 21 ∷ 22 ∷ 23 ∷ 24 ∷ 25 ∷ 26 ∷ 27 ∷ 30 ∷ 31 ∷ 32 ∷ 34 ∷ []) result }
    ensures whole { IsReadBy (job_of order.entry) result (S.left input.new) }
    ensures input { LeavesInput (job_of order.entry) (S.left input.old) (S.left input.new) (S.faults input.old) (S.faults input.new) }
    ensures same_start { F.start files.new ≡ F.start files.old }
{
    // taken before anything is done, so that what is done finds room for its line
    let mut line = Vec::new(alloc);
    let _ = line.reserve(ROOM);
    let ended = do_order(alloc, order, files, input);
    say_in(line, alloc, &ended, out)
}
