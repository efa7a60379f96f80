//! What holds of trees and logs.
ghost use Rattle.std.specs.Prelude.{◌≡◌, List, ℕ, [], ◌∷◌, ◌++◌, length, Some, false};
ghost use Rattle.hgs_files.specs.declared.op.Op.{Op};
ghost use Rattle.hgs_files.specs.Tree.{Tree, apply, after_all, touches};
ghost use Rattle.hgs_files.specs.Log.{IsPiece, IsDone};
ghost use Rattle.hgs_files.specs.Stop.{StopLeaves};

/// What was appended can be cut off again.
pub fn append_then_cut()
    ensures { (t : Tree) (path old new : List ℕ) → t path ≡ Some old → apply (Op.Cut path (length old)) (apply (Op.Append path new) t) ≡ t }
{}

/// An operation leaves each path that it does not name.
pub fn others_stay()
    ensures { (op : Op) (t : Tree) (path : List ℕ) → touches op path ≡ false → apply op t path ≡ t path }
{}

/// The tree after two logs is the tree after the second from the tree after the first.
pub fn logs_join()
    ensures { (first second : List Op) (t : Tree) → after_all (first ++ second) t ≡ after_all second (after_all first t) }
{}

/// What was done in pieces, and then what is left, do what the operations do.
pub fn pieces_join()
    ensures { (ops done left : List Op) (t : Tree) → IsDone ops done left → after_all left (after_all done t) ≡ after_all ops t }
{}

/// A piece of a piece is a piece.
pub fn pieces_of_pieces()
    ensures { (op piece part : Op) (left rest : List Op) → IsPiece op piece left → IsPiece piece part rest → (l : List Op) × IsPiece op part l }
{}

/// What a stop leaves is the tree after the log as it was done in part.
pub fn stops_leave_logs_done_in_part()
    ensures { (start t : Tree) (log : List Op) → StopLeaves start log t → (done : List Op) × (left : List Op) × IsDone log done left × (t ≡ after_all done start) }
{}

/// A call that failed, or was stopped, with its operation done in part leaves what a stop in the log with that operation
/// may leave.
pub fn failed_calls_leave_stops()
    ensures { (start : Tree) (log done left : List Op) (op : Op) → IsDone (op ∷ []) done left → StopLeaves start (log ++ op ∷ []) (after_all (log ++ done) start) }
{}
