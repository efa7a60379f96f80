//! A session whose script stands on the input.
ghost use Rattle.std.specs.Prelude.{◌≡◌, ◌≤◌, ⊤, [], ◌∷◌, Err, Ok};
ghost use Rattle.hgs_bytes.specs.Answer.{Gives};
ghost use Rattle.hgs_files.specs.Reads.{Rose};
ghost use Rattle.hgs_files.specs.Yard.{IfWhole};
ghost use Rattle.hgs_load.specs.Answer.{is_of_outside};
ghost use Rattle.hgs_load.specs.declared.answer.ReadAnswer.TheVariants.{Fault};
ghost use Rattle.hgs_loading.specs.Found.{required_in};
ghost use Rattle.hgs_run.specs.Session.{GaveScript, RunsScript, RunsSession, Stays, TellsSession};
ghost use Rattle.hgs_script.specs.Script.{CanBeRun};
ghost use Rattle.hgs_script.specs.declared.script.Script.{Script};
ghost use Rattle.hgs_session.specs.Session.{AreCounted, AreOfOneStart, IfParts, IsAt, IsWhole, LeftAs, MayRun, RestsOn};
ghost use Rattle.hgs_top.specs.Orders.{IsAtEnd};
ghost use Rattle.hgs_top.specs.Run.{IsOneOf, OfTree};

use crate::ran::Ran;
use crate::script::script_from;
use hgs_files::streams::{Sink, Source};
use hgs_files::yard::{Left, Yard};
use hgs_load::answer::ReadAnswer;
use hgs_loading::whole::test_requires;
use hgs_script::result::SessionResult;
use hgs_script::script::Script;
use hgs_session::gate::OpenGate;
use hgs_session::session::{NoResult, SessionEnd, session};
use hgs_top::command::{OUT_OF_MEMORY, end_with, refuse};
use hgs_top::told::say;
use std::alloc::Global;
use std::sync::Wait;
use std::thread::Threads;

// Tests what the repository requires.
fn test<Y: Yard>(alloc: Global, yard: Y) -> (Y, Result<(), ReadAnswer>)
    ensures stays { Stays (Y.A.log (Y.files yard)) (Y.A.start (Y.files yard)) (Y.A.log (Y.files result.0)) (Y.A.start (Y.files result.0)) }
    ensures found { OfTree (Y.A.log (Y.files yard)) (Y.A.start (Y.files yard)) (λ t. Gives is_of_outside (λ x. x) result.1 (required_in t)) }
    ensures faults { Y.A.faults (Y.files yard) ≤ Y.A.faults (Y.files result.0) }
    ensures denied { Y.A.denied (Y.files yard) ≤ Y.A.denied (Y.files result.0) }
    ensures cause { result.1 ≡ Err Fault → Rose (Y.A.faults (Y.files yard)) (Y.A.faults (Y.files result.0)) }
{
    let (mut files, rest) = yard.alone();
    let tested = test_requires(alloc, &mut files);
    (Y::again(files, rest), tested)
}

// Says what a session came to, and gives the status.
fn tell<K: Sink>(alloc: Global, told: &Result<SessionResult, NoResult>, out: &mut K) -> u8
    ensures tells { TellsSession told.now result (K.written out.old) (K.written out.new) }
    ensures sink { result ≡ 19 → Rose (K.faults out.old) (K.faults out.new) }
    ensures statuses { IsOneOf (0 ∷ 19 ∷ 30 ∷ []) result }
{
    let Ok(told) = told else {
        return end_with(out, OUT_OF_MEMORY, 30);
    };
    match told.text(alloc) {
        Ok(text) => end_with(out, &text, 0),
        Err(_) => end_with(out, OUT_OF_MEMORY, 30),
    }
}

// The status of a script that was run: where the ends could not be put together, that there was no memory.
fn status_with<Y: Yard>(left: &Left<Y>, told: u8) -> u8
    ensures whole { (result ≡ 30 → ⊥) → IsWhole left.now }
    ensures same { IsWhole left.now → result ≡ told }
    ensures parts { (IsWhole left.now → ⊥) → result ≡ 30 }
    ensures sink { result ≡ 19 → told ≡ 19 }
    ensures statuses { IsOneOf (0 ∷ 19 ∷ 30 ∷ []) told → IsOneOf (0 ∷ 19 ∷ 30 ∷ []) result }
{
    match left {
        Left::Whole(_) => told,
        Left::Parts(_, _) => 30,
    }
}

// Runs a script, and says what it came to.
fn run_script<T: Threads + Wait + Sync, Y: Yard, K: Sink>(
    rt: &T,
    alloc: Global,
    yard: Y,
    script: &Script,
    out: &mut K,
) -> Ran<Y>
where
    Y::W: Send,
    Y::R: Drop + Send,
    requires can { CanBeRun script.now }
    requires allows { MayRun script.now.workers (Y.A.log (Y.files yard)) (Y.A.start (Y.files yard)) Y.W.allows }
    ensures runs { ∥ RunsScript script.now.workers (Y.A.log (Y.files yard)) (Y.A.start (Y.files yard)) (Y.A.faults (Y.files yard)) (Y.A.denied (Y.files yard)) result.status (K.written out.old) (K.written out.new) (λ last. LeftAs result.left (λ y. RestsOn (Y.A.log (Y.files yard)) (Y.A.start (Y.files yard)) last.log (Y.A.log (Y.files y)) (Y.A.start (Y.files y))) (λ w. IsAt last (Y.W.log w) (Y.W.faults w) (Y.W.denied w))) (λ last states. LeftAs result.left (λ y. AreCounted last states (Y.A.faults (Y.files y)) (Y.A.denied (Y.files y))) (λ w. ⊤)) (IsWhole result.left) ∥₁ }
    ensures parts { IfParts result.left (λ w rs. AreOfOneStart (Y.A.log (Y.files yard)) (Y.A.start (Y.files yard)) (Y.W.ties w) (λ r. Y.R.ties r) rs) }
    ensures sink { result.status ≡ 19 → Rose (K.faults out.old) (K.faults out.new) }
    ensures statuses { IsOneOf (0 ∷ 19 ∷ 30 ∷ []) result.status }
    ensures whole { (result.status ≡ 30 → ⊥) → IsWhole result.left }
{
    let SessionEnd { left, result } = session(rt, alloc, yard, script, &OpenGate);
    let told = tell(alloc, &result, out);
    let status = status_with(&left, told);
    Ran { status, left }
}

/// Runs the script that stands on the input, if the repository is of the profile, and says what it came to. The input is read whole
/// before anything else is done.
pub fn run_session<T: Threads + Wait + Sync, Y: Yard, S: Source, K: Sink>(
    rt: &T,
    alloc: Global,
    yard: Y,
    input: &mut S,
    out: &mut K,
) -> Ran<Y>
where
    Y::W: Send,
    Y::R: Drop + Send,
    requires allows { (script : Script) → CanBeRun script → GaveScript (S.left input.old) (Ok script) → MayRun script.workers (Y.A.log (Y.files yard)) (Y.A.start (Y.files yard)) Y.W.allows }
    ensures session { RunsSession (S.left input.old) (Y.A.log (Y.files yard)) (Y.A.start (Y.files yard)) (Y.A.faults (Y.files yard)) (Y.A.denied (Y.files yard)) result.status (K.written out.old) (K.written out.new) (LeftAs result.left (λ y. Stays (Y.A.log (Y.files yard)) (Y.A.start (Y.files yard)) (Y.A.log (Y.files y)) (Y.A.start (Y.files y))) (λ w. ⊥)) (λ last. LeftAs result.left (λ y. RestsOn (Y.A.log (Y.files yard)) (Y.A.start (Y.files yard)) last.log (Y.A.log (Y.files y)) (Y.A.start (Y.files y))) (λ w. IsAt last (Y.W.log w) (Y.W.faults w) (Y.W.denied w))) (λ last states. LeftAs result.left (λ y. AreCounted last states (Y.A.faults (Y.files y)) (Y.A.denied (Y.files y))) (λ w. ⊤)) (IsWhole result.left) }
    ensures parts { IfParts result.left (λ w rs. AreOfOneStart (Y.A.log (Y.files yard)) (Y.A.start (Y.files yard)) (Y.W.ties w) (λ r. Y.R.ties r) rs) }
    ensures fault { result.status ≡ 16 → IfWhole result.left (λ y. Rose (Y.A.faults (Y.files yard)) (Y.A.faults (Y.files y))) }
    ensures failed { result.status ≡ 18 → Rose (S.faults input.old) (S.faults input.new) }
    ensures sink { result.status ≡ 19 → Rose (K.faults out.old) (K.faults out.new) }
    ensures statuses { IsOneOf (0 ∷ 14 ∷ 15 ∷ 16 ∷ 18 ∷ 19 ∷ 20 ∷ 23 ∷ 24 ∷ 27 ∷ 30 ∷ []) result.status }
    ensures read { result.status ≡ 0 → IsAtEnd (S.left input.new) }
    ensures whole { (result.status ≡ 30 → ⊥) → IsWhole result.left }
{
    let script = match script_from(alloc, input) {
        Ok(script) => script,
        Err(ended) => {
            return Ran {
                status: say(alloc, &ended, out),
                left: Left::Whole(yard),
            };
        }
    };
    let (yard, tested) = test(alloc, yard);
    match tested {
        Ok(()) => run_script(rt, alloc, yard, &script, out),
        Err(refusal) => Ran {
            status: refuse(alloc, &refusal, out),
            left: Left::Whole(yard),
        },
    }
}
