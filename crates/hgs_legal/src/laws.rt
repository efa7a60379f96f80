//! What the definitions of this crate imply. Each function is one law; none does anything.
ghost use Rattle.std.specs.Prelude.{◌≡◌, ◌⊎◌, ◌<◌, ◌≤◌, ◌++◌, ◌∷◌, [], List, None, Option, Some, false, suc, ℕ};
ghost use Rattle.hgs_bytes.specs.Bytes.{IsPrefixOf, among, same};
ghost use Rattle.hgs_files.specs.declared.op.Op.{Op};
ghost use Rattle.hgs_files.specs.Log.{IsDone, IsPiece};
ghost use Rattle.hgs_files.specs.Stop.{IsStopped, StopLeaves};
ghost use Rattle.hgs_files.specs.Tree.{Tree, after_all, bytes_at};
ghost use Rattle.hgs_journal.specs.Covers.{is_loose};
ghost use Rattle.hgs_journal.specs.Names.{journal_path};
ghost use Rattle.hgs_model.specs.IsRepo.{IsRepo};
ghost use Rattle.hgs_model.specs.Repo.{Repo};
ghost use Rattle.hgs_stands.specs.Places.{bookmarks_path, dirstate_path, roots_path};
ghost use Rattle.hgs_stands.specs.Shows.{Shows};
ghost use Rattle.hgs_stands.specs.Stands.{HoldsChangesets, IsClean, Stands};
ghost use Rattle.hgs_ops.specs.Operations.{lock_path, operations, removals, strays, wlock_path};
ghost use Rattle.hgs_ops.specs.Shown.{lacks_bookmarks, lacks_dirstate};
ghost use Rattle.hgs_ops.specs.Stops.{IsBetween};
ghost use Rattle.hgs_legal.specs.LegalLog.{Goes, Idle, IsLegal, IsRun, IsTurn, Published, Run, State, Turn, last_repo, lock_removals, state_at, through_publishing, through_removal};
ghost use Rattle.hgs_legal.specs.Numbers.{StopsAt, acknowledged_of, adds_changesets, b_of, n_of, repo_at, w_of};
ghost use Rattle.hgs_legal.specs.Pieces.{Early, Front, LeavesJournal, Piece, Pieces};
ghost use Rattle.hgs_stands.specs.Open.{IsOpen};
ghost use Rattle.hgs_legal.specs.Recovers.{Recovers};

use hgs_journal::laws::{
    transactions_stay_covered, undo_leads_back as journal_undo_leads_back, undo_may_stop,
};
use hgs_model::laws::step_keeps_repositories;
use hgs_ops::laws::{
    files_only_grow, steps_go_on, strays_are_apart, transactions_cover_their_start,
    transactions_show, transactions_stay_open, undo_leads_back,
};
use hgs_stands::laws::{
    filelogs_stand_apart, files_are_not_loose, open_trees_lead_back, other_files_do_not_matter,
    standing_trees_show,
};

/// These are legal after any legal log that left no journal: a whole transaction, with its removals, which is published; one
/// that has come to any part behind its journal's first byte and is undone whole, in any parts; and one that breaks off there,
/// after which only the locks of writers that are refused follow. Such writers may also come at any time between
/// transactions.
pub fn pieces_are_legal()
    ensures whole { (t : Tree) (r : Repo) (published : List Turn) (rest : List Op) (x : Turn) → IsTurn t (last_repo r published) x → (s : State) × Run (state_at t r published (Idle None rest)) (operations x.ops) s × (s.published ≡ published ++ x ∷ []) × (s.doing ≡ Idle None []) × (s.first ≡ r) }
    ensures undone { (t : Tree) (r : Repo) (published : List Turn) (rest : List Op) (x : Turn) → IsTurn t (last_repo r published) x → (op : Op) (done : List Op) (o : Op) (left : List Op) → IsDone (through_publishing x.ops) (op ∷ done) (o ∷ left) → (u : Op) (log : List Op) → IsDone x.ops.undo (u ∷ log) [] → (s : State) × Run (state_at t r published (Idle None rest)) (x.ops.before ++ ((op ∷ done) ++ ((u ∷ log) ++ removals))) s × (s.published ≡ published) × (s.doing ≡ Idle None []) }
    ensures broken { (t : Tree) (r : Repo) (published : List Turn) (rest : List Op) (x : Turn) → IsTurn t (last_repo r published) x → (op : Op) (done : List Op) (o : Op) (left : List Op) → IsDone (through_publishing x.ops) (op ∷ done) (o ∷ left) → (s : State) × Run (state_at t r published (Idle None rest)) (x.ops.before ++ ((op ∷ done) ++ lock_removals)) s × (s.published ≡ published) × (s.doing ≡ Idle (Some []) []) }
    ensures refused { (t : Tree) (r : Repo) (published : List Turn) (left : Option (List Op)) (rest : List Op) (who : List ℕ) → (s : State) × Run (state_at t r published (Idle left rest)) (Op.Create wlock_path who ∷ Op.Create lock_path who ∷ lock_removals) s × (s.published ≡ published) × (s.doing ≡ Idle left []) }
{}

/// From a clean tree a log is legal exactly where it is made of whole pieces, or, what is the same by what follows, of a front
/// of such: whole transactions, undone ones, ones that were given up before their journal, and refused writers, one after
/// another; and at the end once one that leaves its journal, with refused writers behind it.
pub fn legal_logs_are_pieces()
    ensures of_pieces { (t : Tree) (r : Repo) (log : List Op) → IsClean t r → IsLegal t log → Pieces t r log }
    ensures from_pieces { (t : Tree) (log : List Op) → ((r : Repo) → IsClean t r → Pieces t r log) → IsLegal t log }
{}

/// Each front of a legal log is legal, also where the last operation is done on a front of its bytes alone, and so is what a
/// stop leaves of it.
pub fn fronts_are_legal()
    ensures empty { (t : Tree) → IsLegal t [] }
    ensures fronts { (t : Tree) (log more : List Op) → IsLegal t (log ++ more) → IsLegal t log }
    ensures pieces { (t : Tree) (log : List Op) (op piece : Op) (rest : List Op) → IsLegal t (log ++ op ∷ []) → IsPiece op piece rest → IsLegal t (log ++ piece ∷ []) }
    ensures stops { (t : Tree) (log done : List Op) → IsLegal t log → IsStopped log done → IsLegal t done }
{}

/// The files of a run are those after its log. No number of it falls, the bookmarks are no newer than the working parents,
/// and these no newer than the changesets; each repository stays.
pub fn numbers_rise()
    ensures files { (t : Tree) (r : Repo) (log : List Op) (s : State) → IsRun t r log s → s.files ≡ after_all log t }
    ensures order { (s : State) → (b_of s ≤ w_of s) × (w_of s ≤ n_of s) }
    ensures rise { (s : State) (log : List Op) (s' : State) → Run s log s' → (b_of s ≤ b_of s') × (w_of s ≤ w_of s') × (n_of s ≤ n_of s') }
    ensures stay { (s : State) (log : List Op) (s' : State) (i : ℕ) → Run s log s' → i ≤ n_of s → repo_at s' i ≡ repo_at s i }
{}

/// The last published transaction's working parents and bookmarks are behind where it is a commit or an import whose renames
/// are still to do: both right behind its publishing operation, and neither where it is another command.
pub fn renames_come_behind()
    ensures published { (s : State) (op : Op) (s' : State) → Goes s op s' → n_of s < n_of s' → (x : Turn) × (s'.published ≡ s.published ++ x ∷ []) × (s'.doing ≡ Published x (through_removal x.ops)) }
    ensures left { (t : Tree) (r : Repo) (x : Turn) → IsTurn t r x → (lacks_dirstate (through_removal x.ops) ≡ adds_changesets x.command) × (lacks_bookmarks (through_removal x.ops) ≡ adds_changesets x.command) }
{}

/// Wherever a legal log stops, its tree stands for the repository after the acknowledged transactions, or is open for it: it
/// stands where no journal was begun, or where it was removed. A stop within an operation is such a place of another legal
/// log.
pub fn stops_are_safe()
    ensures ends { (t : Tree) (r : Repo) (log : List Op) (s : State) → Stands t r → IsRun t r log s → StopsAt s.doing (after_all log t) (repo_at s (acknowledged_of s)) }
    ensures stops { (t : Tree) (r : Repo) (log : List Op) (s : State) → Stands t r → IsRun t r log s → (u : Tree) → StopLeaves t log u → (done : List Op) × (s' : State) × IsRun t r done s' × (u ≡ after_all done t) × StopsAt s'.doing u (repo_at s' (acknowledged_of s')) }
{
    transactions_stay_open();
    undo_leads_back();
    transactions_show();
    strays_are_apart();
    transactions_stay_covered();
    journal_undo_leads_back();
    undo_may_stop();
    other_files_do_not_matter();
    open_trees_lead_back();
    standing_trees_show();
}

/// Behind a piece the tree stands for the repository that it leads to. Behind one that leaves its journal it is open for the
/// repository before, also where that one's transaction was published. Wherever such a piece is stopped, the tree stands for
/// the repository before or is open for it, or it stands for the next one.
pub fn pieces_end()
    ensures stands { (t : Tree) (r next : Repo) (log : List Op) → Stands t r → Piece t r log next → Stands (after_all log t) next }
    ensures left_open { (t : Tree) (r : Repo) (log : List Op) → Stands t r → LeavesJournal t r log → IsOpen strays (after_all log t) r }
    ensures stops { (t : Tree) (r next : Repo) (log : List Op) (u : Tree) → Stands t r → Piece t r log next → StopLeaves t log u → IsBetween u r next }
    ensures left_stops { (t : Tree) (r : Repo) (log : List Op) (u : Tree) → Stands t r → LeavesJournal t r log → StopLeaves t log u → Stands u r ⊎ IsOpen strays u r }
{
    transactions_stay_open();
    undo_leads_back();
    transactions_show();
    strays_are_apart();
    transactions_stay_covered();
    journal_undo_leads_back();
    undo_may_stop();
    other_files_do_not_matter();
    open_trees_lead_back();
    standing_trees_show();
}

/// Where a piece is stopped, what was done of it is nothing, a piece, or one that leaves its journal; and it leads on to the
/// next repository only as a piece that does.
pub fn fronts_are_pieces()
    ensures of_piece { (t : Tree) (r next : Repo) (log d : List Op) → Piece t r log next → IsStopped log d → Front t r next d }
    ensures of_left { (t : Tree) (r : Repo) (log d : List Op) → LeavesJournal t r log → IsStopped log d → Early t r d }
{}

/// The number of acknowledged transactions never falls, and the repository after each of them stays.
pub fn acknowledged_stays()
    ensures { (s : State) (log : List Op) (s' : State) → Run s log s' → (acknowledged_of s ≤ acknowledged_of s') × (repo_at s' (acknowledged_of s) ≡ repo_at s (acknowledged_of s)) }
{}

/// After a legal log, wherever it ends, the tree shows the bookmarks, the working parents and the changesets with their
/// phases of the repositories of the three numbers: also within a transaction, in its pieces, while it is undone, and behind
/// a writer that broke off.
pub fn logs_show()
    ensures { (t : Tree) (r : Repo) (log : List Op) (s : State) → Stands t r → IsRun t r log s → Shows (after_all log t) (repo_at s (b_of s)) (repo_at s (w_of s)) (repo_at s (n_of s)) }
{
    transactions_stay_open();
    undo_leads_back();
    transactions_show();
    strays_are_apart();
    transactions_stay_covered();
    journal_undo_leads_back();
    undo_may_stop();
    other_files_do_not_matter();
    open_trees_lead_back();
    standing_trees_show();
}

/// From wherever a legal log stops, its tree stands for the repository after the acknowledged transactions, or the journal
/// that stands leads back to it, and undoing may be stopped anywhere.
pub fn recovering_leads_back()
    ensures { (t : Tree) (r : Repo) (log : List Op) (s : State) → Stands t r → IsRun t r log s → Stands (after_all log t) (repo_at s (acknowledged_of s)) ⊎ Recovers (after_all log t) (repo_at s (acknowledged_of s)) }
{
    transactions_stay_open();
    undo_leads_back();
    transactions_show();
    strays_are_apart();
    transactions_stay_covered();
    journal_undo_leads_back();
    undo_may_stop();
    other_files_do_not_matter();
    open_trees_lead_back();
    standing_trees_show();
}

/// The repository behind each number of published transactions is one, and a later one goes on from the changesets of an
/// earlier one.
pub fn repositories_go_on()
    ensures { (t : Tree) (r : Repo) (log : List Op) (s : State) (i j : ℕ) → Stands t r → IsRun t r log s → i ≤ j → IsRepo (repo_at s j) × IsPrefixOf (repo_at s i).changesets (repo_at s j).changesets }
{
    transactions_stay_open();
    undo_leads_back();
    transactions_show();
    strays_are_apart();
    transactions_stay_covered();
    journal_undo_leads_back();
    undo_may_stop();
    other_files_do_not_matter();
    open_trees_lead_back();
    standing_trees_show();
    step_keeps_repositories();
    steps_go_on();
}

/// An operation publishes at most one transaction, and the tree right behind one that does holds the changesets of the new
/// repository. Of each file that is not replaced, and is no journal, lock or stray, what it was at the start of a run, or
/// right behind a publishing operation, stands at its front from then on: also while a later transaction works or is undone.
pub fn published_files_stay()
    ensures one { (s : State) (op : Op) (s' : State) → Goes s op s' → n_of s' ≤ suc (n_of s) }
    ensures holds { (t : Tree) (r : Repo) (log : List Op) (s : State) (op : Op) (s' : State) → Stands t r → IsRun t r log s → Goes s op s' → n_of s < n_of s' → HoldsChangesets s'.files (repo_at s' (n_of s')).changesets }
    ensures first { (t : Tree) (r : Repo) (log : List Op) (s : State) (path : List ℕ) → Stands t r → IsRun t r log s → is_loose strays path ≡ false → same path journal_path ≡ false → among path (roots_path ∷ dirstate_path ∷ bookmarks_path ∷ []) ≡ false → IsPrefixOf (bytes_at t path) (bytes_at (after_all log t) path) }
    ensures later { (t : Tree) (r : Repo) (log : List Op) (s : State) (op : Op) (s' : State) (more : List Op) (s'' : State) (path : List ℕ) → Stands t r → IsRun t r log s → Goes s op s' → n_of s < n_of s' → Run s' more s'' → is_loose strays path ≡ false → same path journal_path ≡ false → among path (roots_path ∷ dirstate_path ∷ bookmarks_path ∷ []) ≡ false → IsPrefixOf (bytes_at s'.files path) (bytes_at s''.files path) }
{
    transactions_stay_open();
    undo_leads_back();
    transactions_show();
    strays_are_apart();
    transactions_stay_covered();
    journal_undo_leads_back();
    undo_may_stop();
    other_files_do_not_matter();
    open_trees_lead_back();
    standing_trees_show();
    transactions_cover_their_start();
    files_only_grow();
    files_are_not_loose();
    filelogs_stand_apart();
}
