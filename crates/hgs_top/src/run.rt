//! What the words of a command line ask for, done over files at rest.
ghost use Rattle.std.specs.Prelude.{◌≡◌, ◌⊎◌, Err, List, map, ℕ, [], ◌∷◌, false};
ghost use Rattle.std.specs.String.{string_bytes};
ghost use Rattle.hgs_files.specs.Reads.{Rose};
ghost use Rattle.hgs_files.specs.declared.op.Op.{Op};
ghost use Rattle.hgs_machine.specs.Refusals.{WereRefused};
ghost use Rattle.hgs_top.specs.Given.{ReadsAsked};
ghost use Rattle.hgs_top.specs.Orders.{IsRead, KeepsInput, Obeys};
ghost use Rattle.hgs_top.specs.Play.{PlaysAsked};
ghost use Rattle.hgs_top.specs.Repository.{SaysOfRepository};
ghost use Rattle.hgs_top.specs.Run.{Says, IsOneOf};
ghost use Rattle.hgs_top.specs.Words.{is_session, request_of_words};

use crate::command::{refuse_words, run_command};
use crate::generate::run_generate;
use crate::laws::replies_of_repository;
use crate::play::run_play;
use crate::told::run_order;
use crate::verified::run_verify;
use crate::words::{Asked, asked_by};
use hgs_files::files::Files;
use hgs_files::streams::{Sink, Source};
use hgs_verify::progress::Progress;
use std::alloc::Global;
use std::thread::Threads;

/// Does what the words ask for, over files at rest, and gives the status. Workers need more than that: their words are not for it.
///
/// `rt` is the runtime's handle, by which `verify` starts threads and nothing else is done, and `progress` is told how far it is. The
/// status is 0, or that of the refusal whose line was written last; 29 says that the report has findings.
pub fn run_words<T: Threads + Sync, F: Files, S: Source, K: Sink, P: Progress>(
    rt: &T,
    alloc: Global,
    words: &[String],
    files: &mut F,
    input: &mut S,
    out: &mut K,
    progress: &mut P,
) -> u8
    requires allows { (log : List Op) → F.allows (F.start files.old) log }
    requires alone { is_session (request_of_words (map string_bytes words.now)) ≡ false }
    ensures repository { SaysOfRepository (Rose (F.faults files.old) (F.faults files.new)) (request_of_words (map string_bytes words.now)) (F.log files.old) (F.start files.old) result (K.written out.old) (K.written out.new) }
    ensures says { Says (Rose (F.faults files.old) (F.faults files.new)) (request_of_words (map string_bytes words.now)) (F.log files.old) (F.start files.old) result (K.written out.old) (K.written out.new) }
    ensures statuses { IsOneOf (0 ∷ 1 ∷ 10 ∷ 11 ∷ 12 ∷ 13 ∷ 14 ∷ 15 ∷ 16 ∷ 17 ∷ 18 ∷ 19 ∷ 20 ∷ 21 ∷ 22 ∷ 23 ∷ 24 ∷ 25 ∷ 26 ∷ 27 ∷ 28 ∷ 29 ∷ 30 ∷ 31 ∷ 32 ∷ 33 ∷ 34 ∷ []) result }
    ensures words { result ≡ 28 → (place : ℕ) × (request_of_words (map string_bytes words.now) ≡ Err place) }
    ensures fault { result ≡ 16 → Rose (F.faults files.old) (F.faults files.new) }
    ensures unfinished { result ≡ 17 → Rose (F.faults files.old) (F.faults files.new) ⊎ Rose (F.denied files.old) (F.denied files.new) }
    ensures failed { result ≡ 18 → Rose (S.faults input.old) (S.faults input.new) }
    ensures sink { result ≡ 19 → Rose (K.faults out.old) (K.faults out.new) }
    ensures orders { Obeys (λ n. WereRefused n (F.faults files.old) (F.faults files.new) (F.denied files.old) (F.denied files.new)) (request_of_words (map string_bytes words.now)) (S.left input.old) (F.log files.old) (F.log files.new) (F.start files.old) result (K.written out.old) (K.written out.new) }
    ensures input { KeepsInput (request_of_words (map string_bytes words.now)) (S.left input.old) (S.left input.new) (S.faults input.old) (S.faults input.new) }
    ensures whole { IsRead (request_of_words (map string_bytes words.now)) result (S.left input.new) }
    ensures plays { PlaysAsked (request_of_words (map string_bytes words.now)) (S.left input.old) result (K.written out.old) (K.written out.new) }
    ensures given { ReadsAsked (request_of_words (map string_bytes words.now)) (F.given files.old) (F.given files.new) (F.seen files.old) (F.start files.old) (F.seen files.new) }
    ensures same_start { F.start files.new ≡ F.start files.old }
{
    replies_of_repository();
    match asked_by(words) {
        Ok(Asked::Question(command)) => run_command(alloc, command, files, out),
        Ok(Asked::Order(order)) => run_order(alloc, order, files, input, out),
        Ok(Asked::Play) => run_play(alloc, input, out),
        Ok(Asked::Session) => unreachable!(),
        Ok(Asked::Verify { jobs }) => run_verify(rt, alloc, files, jobs, out, progress),
        Ok(Asked::Generate { seed, count }) => run_generate(rt, alloc, files, seed, count, out),
        Err(place) => refuse_words(alloc, place, out),
    }
}
