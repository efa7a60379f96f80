//! What the definitions of this crate imply. Each function is one law; none does anything.
ghost use Rattle.std.specs.Prelude.{◌≡◌, ◌+◌, ◌<◌, ◌≤◌, ◌/◌, false, true, ℕ, List, Result, Ok, Err, None, Some, length, take, slice_get};
ghost use Rattle.hgs_bytes.specs.Bytes.{IsPrefixOf};
ghost use Rattle.hgs_index.specs.declared.entry.Entry.{Entry};
ghost use Rattle.hgs_files.specs.declared.op.Op.{Op};
ghost use Rattle.hgs_files.specs.Tree.{Tree, after_all, bytes_at};
ghost use Rattle.hgs_index.specs.declared.kinds.Which.TheVariants.{Part};
ghost use Rattle.hgs_index.specs.Inline.{is_inline};
ghost use Rattle.hgs_marks.specs.Bookmarks.{Mark};
ghost use Rattle.hgs_phases.specs.Phases.{phases_by};
ghost use Rattle.hgs_phases.specs.declared.roots.Root.{Root};
ghost use Rattle.hgs_revlog.specs.Load.{most_revisions};
ghost use Rattle.hgs_revlog.specs.Log.{Log};
ghost use Rattle.hgs_load.specs.declared.answer.ReadAnswer.{ReadAnswer};
ghost use Rattle.hgs_load.specs.declared.answer.ReadAnswer.TheVariants.{Limit};
ghost use Rattle.hgs_load.specs.Asks.{at_rest, MayAnswer};
ghost use Rattle.hgs_load.specs.Form.{either_log_of, most_inline_index};
ghost use Rattle.hgs_load.specs.Given.{given_at_rest};
ghost use Rattle.hgs_load.specs.Marks.{Nodes, Working, bookmarks_answer, bookmarks_path, dirstate_answer, dirstate_path, roots_answer, roots_path, working_answer};
ghost use Rattle.hgs_load.specs.Open.{bookmarks_asks, dirstate_asks, log_asks, log_of, most_bookmarks_text, most_dirstate, most_requires, most_roots, open_asks, requires_asks, requires_path, roots_asks, separate_log_asks};
ghost use Rattle.hgs_load.specs.Refresh.{first_changed, newer_log_asks, refresh_asks, refresh_bytes, separate_whole_asks, whole_log_asks};
ghost use Rattle.hgs_load.specs.Requirements.{requires_answer};
ghost use Rattle.hgs_load.specs.View.{View, changelog_index};

/// A file within its limit is read whole. A separate index of no more entries than a revlog may have is read piece by piece to
/// its end; an inline one within its limit is read whole, and above it is refused.
pub fn files_are_read_whole()
    ensures requires_file { (t : Tree) → length (bytes_at t requires_path) ≤ most_requires → at_rest t requires_asks ≡ requires_answer (t requires_path) }
    ensures bookmarks { (t : Tree) → length (bytes_at t bookmarks_path) ≤ most_bookmarks_text → at_rest t bookmarks_asks ≡ bookmarks_answer (t bookmarks_path) }
    ensures dirstate { (t : Tree) → length (bytes_at t dirstate_path) ≤ most_dirstate → at_rest t dirstate_asks ≡ dirstate_answer (t dirstate_path) }
    ensures roots { (t : Tree) → length (bytes_at t roots_path) ≤ most_roots → at_rest t roots_asks ≡ roots_answer (t roots_path) }
    ensures index { (t : Tree) → is_inline (bytes_at t changelog_index) ≡ false → length (bytes_at t changelog_index) / 64 ≤ most_revisions → at_rest t log_asks ≡ log_of (bytes_at t changelog_index) }
    ensures inline_index { (t : Tree) → is_inline (bytes_at t changelog_index) ≡ true → length (bytes_at t changelog_index) ≤ most_inline_index → at_rest t log_asks ≡ either_log_of (bytes_at t changelog_index) }
    ensures long_index { (t : Tree) → is_inline (bytes_at t changelog_index) ≡ true → most_inline_index < length (bytes_at t changelog_index) → at_rest t log_asks ≡ Err (Limit Part) }
{}

/// What is read of the files gives the view of a load, and where no old entry changed, that of a refresh, if what was separate
/// has not become inline; the changelog of a view is what was read of the index.
pub fn parts_make_views()
    ensures opened { (t : Tree) (marks : List Mark) (nodes : Nodes) (log : Log) (roots : List Root) (working : Working) → at_rest t requires_asks ≡ Ok tt → at_rest t bookmarks_asks ≡ Ok marks → at_rest t dirstate_asks ≡ Ok nodes → at_rest t log_asks ≡ Ok log → at_rest t roots_asks ≡ Ok roots →
        working_answer log.entries nodes ≡ Ok working → at_rest t open_asks ≡ Ok (record { changelog = log; bookmarks = marks; working = working; phases = phases_by roots log.entries }) }
    ensures refreshed { (t : Tree) (old : View) (marks : List Mark) (nodes : Nodes) (log : Log) (roots : List Root) (working : Working) → at_rest t bookmarks_asks ≡ Ok marks → at_rest t dirstate_asks ≡ Ok nodes → at_rest t log_asks ≡ Ok log → at_rest t roots_asks ≡ Ok roots →
        working_answer log.entries nodes ≡ Ok working → first_changed 0 old.changelog.entries log.entries ≡ None → (old.changelog.inline ≡ false → log.inline ≡ false) → at_rest t (refresh_asks old) ≡ Ok (record { changelog = log; bookmarks = marks; working = working; phases = phases_by roots log.entries }) }
    ensures log { (t : Tree) (view : View) → at_rest t open_asks ≡ Ok view → at_rest t log_asks ≡ Ok view.changelog }
{}

/// No old entry changed exactly where the old entries are a front of the new ones; the first that changed stands behind a common
/// front, and another entry stands there now, or none.
pub fn old_entries_are_in_front()
    ensures front { (rev : ℕ) (old new : List Entry) → first_changed rev old new ≡ None → IsPrefixOf old new }
    ensures none { (rev : ℕ) (old new : List Entry) → IsPrefixOf old new → first_changed rev old new ≡ None }
    ensures first { (rev changed : ℕ) (old new : List Entry) → first_changed rev old new ≡ Some changed → (at : ℕ) × (changed ≡ rev + at) × (at < length old) × (take at old ≡ take at new) × (slice_get old at ≡ slice_get new at → ⊥) }
{}

/// The first piece of a separate index says that it is one; then it is asked for as such, whatever the moments of the reads.
pub fn separate_indexes_are_asked()
    ensures rest { (t : Tree) → is_inline (bytes_at t changelog_index) ≡ false → at_rest t log_asks ≡ at_rest t separate_log_asks }
    ensures moments { (start : Tree) (from last : List Op) (y : Result Log ReadAnswer) → ((now : List Op) → IsPrefixOf from now → IsPrefixOf now last → is_inline (bytes_at (after_all now start) changelog_index) ≡ false) → MayAnswer start from log_asks last y → MayAnswer start from separate_log_asks last y }
    ensures again { (start : Tree) (from last : List Op) (old : List Entry) (y : Result Log ReadAnswer) → ((now : List Op) → IsPrefixOf from now → IsPrefixOf now last → is_inline (bytes_at (after_all now start) changelog_index) ≡ false) → MayAnswer start from (whole_log_asks old) last y → MayAnswer start from (separate_whole_asks old) last y }
{}

/// An inline index is read at one moment: a load of it, and a refresh, answer what they would if all stood still then.
pub fn inline_indexes_are_read_at_once()
    ensures loaded { (start : Tree) (from last : List Op) (y : Result Log ReadAnswer) → ((now : List Op) → IsPrefixOf from now → IsPrefixOf now last → is_inline (bytes_at (after_all now start) changelog_index) ≡ true) → MayAnswer start from log_asks last y →
        (now : List Op) × IsPrefixOf from now × IsPrefixOf now last × (y ≡ at_rest (after_all now start) log_asks) }
    ensures again { (start : Tree) (from last : List Op) (old : Log) (y : Result Log ReadAnswer) → old.inline ≡ true → ((now : List Op) → IsPrefixOf from now → IsPrefixOf now last → is_inline (bytes_at (after_all now start) changelog_index) ≡ true) → MayAnswer start from (newer_log_asks old) last y →
        (now : List Op) × IsPrefixOf from now × IsPrefixOf now last × (y ≡ at_rest (after_all now start) (newer_log_asks old)) }
{}

/// Over files at rest a refresh is given the small files, and of a separate index an entry for each new one and two more at
/// most, however long the history is. What was opened has the form of the index, and so has what is refreshed of a separate one.
pub fn refreshes_read_what_is_new()
    ensures few { (t : Tree) (old view : View) → old.changelog.inline ≡ false → view.changelog.inline ≡ false → at_rest t (refresh_asks old) ≡ Ok view → given_at_rest t (refresh_asks old) ≤ refresh_bytes t old view }
    ensures opened { (t : Tree) (view : View) → at_rest t open_asks ≡ Ok view → view.changelog.inline ≡ is_inline (bytes_at t changelog_index) }
    ensures refreshed { (t : Tree) (old view : View) → is_inline (bytes_at t changelog_index) ≡ false → at_rest t (refresh_asks old) ≡ Ok view → view.changelog.inline ≡ false }
{}
