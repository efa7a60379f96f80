//! The top call.
ghost use Rattle.std.specs.Prelude.{◌≡◌, ◌⊎◌, ⊤, Err, Ok, map, ℕ, [], ◌∷◌};
ghost use Rattle.std.specs.String.{string_bytes};
ghost use Rattle.hgs_files.specs.Reads.{Rose};
ghost use Rattle.hgs_files.specs.Yard.{IfWhole};
ghost use Rattle.hgs_machine.specs.Refusals.{WereRefused};
ghost use Rattle.hgs_run.specs.Session.{GaveScript, KeepsStart, KeepsYard, RunsSession, Stays};
ghost use Rattle.hgs_script.specs.Script.{CanBeRun};
ghost use Rattle.hgs_script.specs.declared.script.Script.{Script};
ghost use Rattle.hgs_session.specs.Session.{AreCounted, AreOfOneStart, IfParts, IsAt, IsWhole, LeftAs, MayRun, RestsOn};
ghost use Rattle.hgs_top.specs.Given.{ReadsAsked};
ghost use Rattle.hgs_top.specs.Growth.{GrowsRepository};
ghost use Rattle.hgs_top.specs.Histories.{MakesHistory};
ghost use Rattle.hgs_top.specs.Orders.{IsRead, KeepsInput, Obeys};
ghost use Rattle.hgs_top.specs.Play.{PlaysAsked};
ghost use Rattle.hgs_top.specs.Repository.{SaysOfRepository};
ghost use Rattle.hgs_top.specs.Run.{Says, IsOneOf};
ghost use Rattle.hgs_top.specs.Words.{request_of_words, to_session};

use crate::alone::run_alone;
use crate::ran::Ran;
use crate::session::run_session;
use hgs_files::streams::{Sink, Source};
use hgs_files::yard::Yard;
use hgs_top::words::asks_session;
use hgs_verify::progress::Progress;
use std::alloc::Global;
use std::sync::Wait;
use std::thread::Threads;

/// Does what the words ask for, over the yard, and writes what it says to `out`.
///
/// `rt` is the runtime's handle, by which `verify` and `session` start threads, and `session` waits; nothing else is done by it. `progress`
/// is told how far a report is. The status is 0, or that of the refusal whose line was written last; 29 says that the report has
/// findings. The writing end of a session need take no more than what the script on the input may leave. The yard is left whole, but for a
/// session that found no memory to put its ends together: then these are left.
pub fn run<T: Threads + Wait + Sync, Y: Yard, S: Source, K: Sink, P: Progress>(
    rt: &T,
    alloc: Global,
    words: &[String],
    yard: Y,
    input: &mut S,
    out: &mut K,
    progress: &mut P,
) -> Ran<Y>
where
    Y::W: Send,
    Y::R: Drop + Send,
    requires allows { request_of_words (map string_bytes words.now) ≡ Ok to_session → (script : Script) → CanBeRun script → GaveScript (S.left input.old) (Ok script) → MayRun script.workers (Y.A.log (Y.files yard)) (Y.A.start (Y.files yard)) Y.W.allows }
    ensures repository { SaysOfRepository (IfWhole result.left (λ y. Rose (Y.A.faults (Y.files yard)) (Y.A.faults (Y.files y)))) (request_of_words (map string_bytes words.now)) (Y.A.log (Y.files yard)) (Y.A.start (Y.files yard)) result.status (K.written out.old) (K.written out.new) }
    ensures says { Says (IfWhole result.left (λ y. Rose (Y.A.faults (Y.files yard)) (Y.A.faults (Y.files y)))) (request_of_words (map string_bytes words.now)) (Y.A.log (Y.files yard)) (Y.A.start (Y.files yard)) result.status (K.written out.old) (K.written out.new) }
    ensures statuses { IsOneOf (0 ∷ 1 ∷ 10 ∷ 11 ∷ 12 ∷ 13 ∷ 14 ∷ 15 ∷ 16 ∷ 17 ∷ 18 ∷ 19 ∷ 20 ∷ 21 ∷ 22 ∷ 23 ∷ 24 ∷ 25 ∷ 26 ∷ 27 ∷ 28 ∷ 29 ∷ 30 ∷ 31 ∷ 32 ∷ 33 ∷ 34 ∷ []) result.status }
    ensures words { result.status ≡ 28 → (place : ℕ) × (request_of_words (map string_bytes words.now) ≡ Err place) }
    ensures fault { result.status ≡ 16 → IfWhole result.left (λ y. Rose (Y.A.faults (Y.files yard)) (Y.A.faults (Y.files y))) }
    ensures unfinished { result.status ≡ 17 → IfWhole result.left (λ y. Rose (Y.A.faults (Y.files yard)) (Y.A.faults (Y.files y)) ⊎ Rose (Y.A.denied (Y.files yard)) (Y.A.denied (Y.files y))) }
    ensures failed { result.status ≡ 18 → Rose (S.faults input.old) (S.faults input.new) }
    ensures sink { result.status ≡ 19 → Rose (K.faults out.old) (K.faults out.new) }
    ensures orders { IfWhole result.left (λ y. Obeys (λ n. WereRefused n (Y.A.faults (Y.files yard)) (Y.A.faults (Y.files y)) (Y.A.denied (Y.files yard)) (Y.A.denied (Y.files y))) (request_of_words (map string_bytes words.now)) (S.left input.old) (Y.A.log (Y.files yard)) (Y.A.log (Y.files y)) (Y.A.start (Y.files yard)) result.status (K.written out.old) (K.written out.new)) }
    ensures history { IfWhole result.left (λ y. MakesHistory (map string_bytes words.now) (S.left input.old) (Y.A.log (Y.files yard)) (Y.A.log (Y.files y)) (Y.A.start (Y.files yard))) }
    ensures growth { IfWhole result.left (λ y. GrowsRepository (map string_bytes words.now) (Y.A.log (Y.files yard)) (Y.A.log (Y.files y)) (Y.A.start (Y.files yard)) result.status) }
    ensures given { IfWhole result.left (λ y. ReadsAsked (request_of_words (map string_bytes words.now)) (Y.A.given (Y.files yard)) (Y.A.given (Y.files y)) (Y.A.seen (Y.files yard)) (Y.A.start (Y.files yard)) (Y.A.seen (Y.files y))) }
    ensures same_start { IfWhole result.left (λ y. KeepsStart (request_of_words (map string_bytes words.now)) (Y.A.start (Y.files yard)) (Y.A.start (Y.files y))) }
    ensures input { KeepsInput (request_of_words (map string_bytes words.now)) (S.left input.old) (S.left input.new) (S.faults input.old) (S.faults input.new) }
    ensures read { IsRead (request_of_words (map string_bytes words.now)) result.status (S.left input.new) }
    ensures plays { PlaysAsked (request_of_words (map string_bytes words.now)) (S.left input.old) result.status (K.written out.old) (K.written out.new) }
    ensures session { request_of_words (map string_bytes words.now) ≡ Ok to_session → RunsSession (S.left input.old) (Y.A.log (Y.files yard)) (Y.A.start (Y.files yard)) (Y.A.faults (Y.files yard)) (Y.A.denied (Y.files yard)) result.status (K.written out.old) (K.written out.new) (LeftAs result.left (λ y. Stays (Y.A.log (Y.files yard)) (Y.A.start (Y.files yard)) (Y.A.log (Y.files y)) (Y.A.start (Y.files y))) (λ w. ⊥)) (λ last. LeftAs result.left (λ y. RestsOn (Y.A.log (Y.files yard)) (Y.A.start (Y.files yard)) last.log (Y.A.log (Y.files y)) (Y.A.start (Y.files y))) (λ w. IsAt last (Y.W.log w) (Y.W.faults w) (Y.W.denied w))) (λ last states. LeftAs result.left (λ y. AreCounted last states (Y.A.faults (Y.files y)) (Y.A.denied (Y.files y))) (λ w. ⊤)) (IsWhole result.left) }
    ensures parts { IfParts result.left (λ w rs. AreOfOneStart (Y.A.log (Y.files yard)) (Y.A.start (Y.files yard)) (Y.W.ties w) (λ r. Y.R.ties r) rs) }
    ensures whole { KeepsYard (request_of_words (map string_bytes words.now)) result.status (IsWhole result.left) }
{
    if asks_session(words) {
        run_session(rt, alloc, yard, input, out)
    } else {
        run_alone(rt, alloc, words, yard, input, out, progress)
    }
}
