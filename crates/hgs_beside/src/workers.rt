//! Workers that commit and ask at the same time, over such files.
ghost use Rattle.std.specs.Prelude.{◌≡◌, ⊤, List, IfOk, IsOk, Some};
ghost use Rattle.hgs_files.specs.Tree.{Tree, after_all};
ghost use Rattle.hgs_files.specs.declared.op.Op.{Op};
ghost use Rattle.hgs_legal.specs.LegalLog.{IsLegal};
ghost use Rattle.hgs_legal.specs.ListsPaths.{ListsOnlyPaths};
ghost use Rattle.hgs_script.specs.Script.{CanBeRun};
ghost use Rattle.hgs_session.specs.Calls.{Beginning};
ghost use Rattle.hgs_beside.specs.Keeps.{Keeps};
ghost use Rattle.hgs_session.specs.Session.{AreCounted, AreOfOneStart, BeginsOver, Comes, IfParts, IsAt, IsWhole, LeftAs, RestsOn};

use hgs_files::yard::Yard;
use hgs_history::laws::{sessions_keep_their_history, sessions_make_legal_logs};
use hgs_script::script::Script;
use hgs_session::gate::Gate;
use hgs_session::session::{SessionEnd, session};
use std::alloc::Global;
use std::sync::Wait;
use std::thread::Threads;

/// Runs a script over files whose writing end takes what writers of a repository may do, and no more, as the ends of shared files under
/// its protocol: over files whose list of filelogs has only names of paths, whatever the workers do is that. Where the files stand for a
/// repository, and there is a result, its log publishes what the result lists, and each question is answered with the text of the
/// repository that its view shows.
pub fn work<T: Threads + Wait + Sync, Y: Yard, G: Gate>(
    rt: &T,
    alloc: Global,
    yard: Y,
    script: &Script,
    gate: &G,
) -> SessionEnd<Y>
where
    Y::W: Send,
    Y::R: Drop + Send,
    requires can { CanBeRun script.now }
    requires protocol { (start : Tree) (log : List Op) → ∥ IsLegal start log ∥₁ → Y.W.allows start log }
    requires lists { (old : List Op) × (Y.A.log (Y.files yard) ≡ Some old) × ListsOnlyPaths (after_all old (Y.A.start (Y.files yard))) }
    ensures comes { ∥ ((x : Beginning) × BeginsOver x script.now.workers (Y.A.log (Y.files yard)) (Y.A.start (Y.files yard)) (Y.A.faults (Y.files yard)) (Y.A.denied (Y.files yard)) × (came : Comes x (λ last. LeftAs result.left (λ y. RestsOn (Y.A.log (Y.files yard)) (Y.A.start (Y.files yard)) last.log (Y.A.log (Y.files y)) (Y.A.start (Y.files y))) (λ w. IsAt last (Y.W.log w) (Y.W.faults w) (Y.W.denied w))) (λ last states. LeftAs result.left (λ y. AreCounted last states (Y.A.faults (Y.files y)) (Y.A.denied (Y.files y))) (λ w. ⊤)) result.result) × IfOk result.result (Keeps x came.calls came.last came.makes)) ∥₁ }
    ensures parts { IfParts result.left (λ w rs. AreOfOneStart (Y.A.log (Y.files yard)) (Y.A.start (Y.files yard)) (Y.W.ties w) (λ r. Y.R.ties r) rs) }
    ensures whole { IsOk result.result → IsWhole result.left }
{
    sessions_make_legal_logs();
    sessions_keep_their_history();
    session(rt, alloc, yard, script, gate)
}
