//! What needs no workers: it is done over the files at rest of a yard.
ghost use Rattle.std.specs.Prelude.{◌≡◌, ◌⊎◌, Err, map, ℕ, [], ◌∷◌, false};
ghost use Rattle.std.specs.String.{string_bytes};
ghost use Rattle.hgs_files.specs.Reads.{Rose};
ghost use Rattle.hgs_files.specs.Yard.{IfWhole};
ghost use Rattle.hgs_machine.specs.Refusals.{WereRefused};
ghost use Rattle.hgs_session.specs.Session.{IsWhole};
ghost use Rattle.hgs_top.specs.Given.{ReadsAsked};
ghost use Rattle.hgs_top.specs.Growth.{GrowsRepository};
ghost use Rattle.hgs_top.specs.Histories.{MakesHistory};
ghost use Rattle.hgs_top.specs.Orders.{IsRead, KeepsInput, Obeys};
ghost use Rattle.hgs_top.specs.Play.{PlaysAsked};
ghost use Rattle.hgs_top.specs.Repository.{SaysOfRepository};
ghost use Rattle.hgs_top.specs.Run.{Says, IsOneOf};
ghost use Rattle.hgs_top.specs.Words.{is_session, request_of_words};

use crate::ran::Ran;
use hgs_files::streams::{Sink, Source};
use hgs_files::yard::{Left, Yard};
use hgs_top::laws::{runs_grow_repositories, runs_make_histories};
use hgs_top::run::run_words;
use hgs_verify::progress::Progress;
use std::alloc::Global;
use std::thread::Threads;

/// Does what words ask for that need no workers, over the files of the yard, and writes what it says to `out`.
///
/// `rt` is the runtime's handle, by which `verify` starts threads and nothing else is done, and `progress` is told how far it is. The
/// status is 0, or that of the refusal whose line was written last; 29 says that the report has findings.
pub fn run_alone<T: Threads + Sync, Y: Yard, S: Source, K: Sink, P: Progress>(
    rt: &T,
    alloc: Global,
    words: &[String],
    yard: Y,
    input: &mut S,
    out: &mut K,
    progress: &mut P,
) -> Ran<Y>
    requires alone { is_session (request_of_words (map string_bytes words.now)) ≡ false }
    ensures repository { SaysOfRepository (IfWhole result.left (λ y. Rose (Y.A.faults (Y.files yard)) (Y.A.faults (Y.files y)))) (request_of_words (map string_bytes words.now)) (Y.A.log (Y.files yard)) (Y.A.start (Y.files yard)) result.status (K.written out.old) (K.written out.new) }
    ensures says { Says (IfWhole result.left (λ y. Rose (Y.A.faults (Y.files yard)) (Y.A.faults (Y.files y)))) (request_of_words (map string_bytes words.now)) (Y.A.log (Y.files yard)) (Y.A.start (Y.files yard)) result.status (K.written out.old) (K.written out.new) }
    ensures statuses { IsOneOf (0 ∷ 1 ∷ 10 ∷ 11 ∷ 12 ∷ 13 ∷ 14 ∷ 15 ∷ 16 ∷ 17 ∷ 18 ∷ 19 ∷ 20 ∷ 21 ∷ 22 ∷ 23 ∷ 24 ∷ 25 ∷ 26 ∷ 27 ∷ 28 ∷ 29 ∷ 30 ∷ 31 ∷ 32 ∷ 33 ∷ 34 ∷ []) result.status }
    ensures words { result.status ≡ 28 → (place : ℕ) × (request_of_words (map string_bytes words.now) ≡ Err place) }
    ensures fault { result.status ≡ 16 → IfWhole result.left (λ y. Rose (Y.A.faults (Y.files yard)) (Y.A.faults (Y.files y))) }
    ensures unfinished { result.status ≡ 17 → IfWhole result.left (λ y. Rose (Y.A.faults (Y.files yard)) (Y.A.faults (Y.files y)) ⊎ Rose (Y.A.denied (Y.files yard)) (Y.A.denied (Y.files y))) }
    ensures failed { result.status ≡ 18 → Rose (S.faults input.old) (S.faults input.new) }
    ensures sink { result.status ≡ 19 → Rose (K.faults out.old) (K.faults out.new) }
    ensures orders { IfWhole result.left (λ y. Obeys (λ n. WereRefused n (Y.A.faults (Y.files yard)) (Y.A.faults (Y.files y)) (Y.A.denied (Y.files yard)) (Y.A.denied (Y.files y))) (request_of_words (map string_bytes words.now)) (S.left input.old) (Y.A.log (Y.files yard)) (Y.A.log (Y.files y)) (Y.A.start (Y.files yard)) result.status (K.written out.old) (K.written out.new)) }
    ensures history { IfWhole result.left (λ y. MakesHistory (map string_bytes words.now) (S.left input.old) (Y.A.log (Y.files yard)) (Y.A.log (Y.files y)) (Y.A.start (Y.files yard))) }
    ensures growth { IfWhole result.left (λ y. GrowsRepository (map string_bytes words.now) (Y.A.log (Y.files yard)) (Y.A.log (Y.files y)) (Y.A.start (Y.files yard)) result.status) }
    ensures given { IfWhole result.left (λ y. ReadsAsked (request_of_words (map string_bytes words.now)) (Y.A.given (Y.files yard)) (Y.A.given (Y.files y)) (Y.A.seen (Y.files yard)) (Y.A.start (Y.files yard)) (Y.A.seen (Y.files y))) }
    ensures same_start { IfWhole result.left (λ y. Y.A.start (Y.files y) ≡ Y.A.start (Y.files yard)) }
    ensures input { KeepsInput (request_of_words (map string_bytes words.now)) (S.left input.old) (S.left input.new) (S.faults input.old) (S.faults input.new) }
    ensures read { IsRead (request_of_words (map string_bytes words.now)) result.status (S.left input.new) }
    ensures plays { PlaysAsked (request_of_words (map string_bytes words.now)) (S.left input.old) result.status (K.written out.old) (K.written out.new) }
    ensures whole { IsWhole result.left }
{
    runs_make_histories();
    runs_grow_repositories();
    let (mut files, rest) = yard.alone();
    let status = run_words(rt, alloc, words, &mut files, input, out, progress);
    Ran {
        status,
        left: Left::Whole(Y::again(files, rest)),
    }
}
