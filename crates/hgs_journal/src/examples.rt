//! The laws tried on a second commit. Each function is one example; none does anything.
ghost use Rattle.std.specs.Prelude.{List};
ghost use Rattle.std.specs.List.{AllByRecursion};
ghost use Rattle.hgs_files.specs.declared.op.Op.{Op};
ghost use Rattle.hgs_files.specs.Log.{IsDone};
ghost use Rattle.hgs_files.specs.Tree.{after_all, apply};
ghost use Rattle.hgs_journal.specs.Begun.{IsAllowed, IsPrepared, LeadsBack, bytes_before};
ghost use Rattle.hgs_journal.specs.Covers.{HasOwnStrays, Restores};
ghost use Rattle.hgs_journal.specs.Names.{journal_path, new_journal_path};
ghost use Rattle.hgs_journal.specs.Samples.{one_changeset, second_backups, second_changes, second_journal, second_prepared, second_strays};
ghost use Rattle.hgs_journal.specs.Undo.{undo_list};

/// A second commit on a store with one changeset meets all that the laws ask, and from behind any part of its appends and
/// renames its undo list leads back.
pub fn second_commit()
    ensures own { HasOwnStrays second_strays }
    ensures prepared { IsPrepared second_strays second_journal second_backups second_prepared one_changeset }
    ensures allowed { AllByRecursion (IsAllowed second_journal second_backups) second_changes }
    ensures leads { (done left : List Op) → IsDone second_changes done left → LeadsBack second_strays second_journal second_backups (after_all done (apply (Op.Rename new_journal_path journal_path) second_prepared)) one_changeset }
    ensures undone { (done left : List Op) → IsDone second_changes done left → Restores second_strays (after_all (undo_list second_journal second_backups (bytes_before one_changeset second_backups)) (after_all done (apply (Op.Rename new_journal_path journal_path) second_prepared))) one_changeset }
{}
