//! What the definitions of this crate imply. Each function is one law; none does anything.
ghost use Rattle.std.specs.Prelude.{◌≡◌, ◌↔◌, ◌⊎◌, ◌++◌, ◌||◌, [], Bool, List, ℕ, None, Ok, false, true};
ghost use Rattle.std.specs.List.{AllByRecursion};
ghost use Rattle.hgs_bytes.specs.Bytes.{among, same};
ghost use Rattle.hgs_files.specs.declared.op.Op.{Op};
ghost use Rattle.hgs_files.specs.Log.{IsDone};
ghost use Rattle.hgs_files.specs.Stop.{StopLeaves};
ghost use Rattle.hgs_files.specs.Tree.{Tree, after_all, apply, bytes_at};
ghost use Rattle.hgs_journal.specs.declared.backups.BackupLine.{BackupLine};
ghost use Rattle.hgs_journal.specs.declared.journal.JournalLine.{JournalLine};
ghost use Rattle.hgs_journal.specs.Begun.{IsAllowed, IsPrepared, LeadsBack, bytes_before, is_free};
ghost use Rattle.hgs_journal.specs.Covers.{Covers, HasOwnStrays, Restores, backup_places, is_loose, journal_paths, undo_ops};
ghost use Rattle.hgs_journal.specs.Names.{is_replaced, journal_path, locks, new_journal_path, new_name, place};
ghost use Rattle.hgs_journal.specs.Read.{read_backups, read_journal};
ghost use Rattle.hgs_journal.specs.Texts.{IsBackupLine, IsBackupsText, IsJournalLine, IsJournalText, backups_text, journal_text};
ghost use Rattle.hgs_journal.specs.Undo.{undo_list};

/// A text is read as these lines exactly where it has them; behind the lines of a journal a part of one more may stand.
pub fn texts_read()
    ensures journal { (text : List ℕ) (lines : List JournalLine) → (read_journal text ≡ Ok lines ↔ IsJournalText text lines) }
    ensures backups { (text : List ℕ) (lines : List BackupLine) → (read_backups text ≡ Ok lines ↔ IsBackupsText text lines) }
{}

/// Lines are read from their text again.
pub fn written_then_read()
    ensures journal { (lines : List JournalLine) → AllByRecursion IsJournalLine lines → read_journal (journal_text lines) ≡ Ok lines }
    ensures backups { (lines : List BackupLine) → AllByRecursion IsBackupLine lines → read_backups (backups_text lines) ≡ Ok lines }
{}

/// A journal that was cut at any byte has the first of its lines.
pub fn cut_journals()
    ensures { (lines : List JournalLine) (front back : List ℕ) → AllByRecursion IsJournalLine lines → journal_text lines ≡ front ++ back → (first : List JournalLine) × (more : List JournalLine) × (lines ≡ first ++ more) × (read_journal front ≡ Ok first) }
{}

/// Once all is ready and the journal gets its name, which is one step, the tree leads back to the one before it.
pub fn journals_begin()
    ensures { (strays : List (List ℕ)) (journal : List JournalLine) (backups : List BackupLine) (t q : Tree) → HasOwnStrays strays → IsPrepared strays journal backups t q → LeadsBack strays journal backups (apply (Op.Rename new_journal_path journal_path) t) q }
{}

/// What a transaction does while its journal stands leaves a tree that leads back to the same: an append to a file that the
/// journal names, the renaming of a new text to a file that the list names, and any part of such operations. Locks, and
/// strays that undoing does not need, may come and go.
pub fn transactions_stay_covered()
    ensures appends { (strays : List (List ℕ)) (t q : Tree) (journal : List JournalLine) (backups : List BackupLine) (path bytes : List ℕ) → HasOwnStrays strays → LeadsBack strays journal backups t q → among path (journal_paths journal) ≡ true → LeadsBack strays journal backups (apply (Op.Append path bytes) t) q }
    ensures renames { (strays : List (List ℕ)) (t q : Tree) (journal : List JournalLine) (backups : List BackupLine) (plain : Bool) (file : List ℕ) → HasOwnStrays strays → LeadsBack strays journal backups t q → is_replaced plain file ≡ true → among (place plain file) (backup_places backups) ≡ true → among (place plain file) (journal_paths journal) ≡ false → LeadsBack strays journal backups (apply (Op.Rename (place plain (new_name file)) (place plain file)) t) q }
    ensures parts { (strays : List (List ℕ)) (t q : Tree) (journal : List JournalLine) (backups : List BackupLine) (ops done left : List Op) → HasOwnStrays strays → LeadsBack strays journal backups t q → AllByRecursion (IsAllowed journal backups) ops → IsDone ops done left → LeadsBack strays journal backups (after_all done t) q }
    ensures locks { (strays : List (List ℕ)) (t u q : Tree) (journal : List JournalLine) (backups : List BackupLine) → LeadsBack strays journal backups t q → ((path : List ℕ) → among path locks ≡ false → u path ≡ t path) → LeadsBack strays journal backups u q }
    ensures free { (strays : List (List ℕ)) (t u q : Tree) (journal : List JournalLine) (backups : List BackupLine) → LeadsBack strays journal backups t q → ((path : List ℕ) → is_free strays backups path ≡ false → u path ≡ t path) → LeadsBack strays journal backups u q }
{}

/// A tree that covers another has a journal and a list of backups that are read, and the list of operations that is made of
/// them and of the backups leads to the other, locks, strays and empty files aside. The bytes that the files had before
/// serve as well as the backups.
pub fn undo_leads_back()
    ensures read { (strays : List (List ℕ)) (t q : Tree) → Covers strays t q → (journal : List JournalLine) × (backups : List BackupLine) × LeadsBack strays journal backups t q }
    ensures leads { (strays : List (List ℕ)) (t q : Tree) (journal : List JournalLine) (backups : List BackupLine) → HasOwnStrays strays → LeadsBack strays journal backups t q → Restores strays (after_all (undo_ops t journal backups) t) q }
    ensures kept { (strays : List (List ℕ)) (t q : Tree) (journal : List JournalLine) (backups : List BackupLine) → LeadsBack strays journal backups t q → undo_ops t journal backups ≡ undo_list journal backups (bytes_before q backups) }
{}

/// Wherever that list is stopped, and in whatever parts its operations are done, the tree still leads back, or all is done
/// and it has the files of the other: so it may be begun again. On the way each file has the bytes that it had when undoing
/// began, or those of the other tree.
pub fn undo_may_stop()
    ensures parts { (strays : List (List ℕ)) (t q : Tree) (journal : List JournalLine) (backups : List BackupLine) (done left : List Op) → HasOwnStrays strays → LeadsBack strays journal backups t q → IsDone (undo_ops t journal backups) done left → LeadsBack strays journal backups (after_all done t) q ⊎ ((left ≡ []) × Restores strays (after_all done t) q) }
    ensures stops { (strays : List (List ℕ)) (t q u : Tree) (journal : List JournalLine) (backups : List BackupLine) → HasOwnStrays strays → LeadsBack strays journal backups t q → StopLeaves t (undo_ops t journal backups) u → LeadsBack strays journal backups u q ⊎ Restores strays u q }
    ensures files { (strays : List (List ℕ)) (t q : Tree) (journal : List JournalLine) (backups : List BackupLine) (path : List ℕ) (done left : List Op) → HasOwnStrays strays → LeadsBack strays journal backups t q → is_loose strays path ≡ false → same path journal_path ≡ false → IsDone (undo_ops t journal backups) done left → (bytes_at (after_all done t) path ≡ bytes_at t path) ⊎ (bytes_at (after_all done t) path ≡ bytes_at q path) }
{}
