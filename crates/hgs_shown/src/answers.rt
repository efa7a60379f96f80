//! What is answered over files that stand for a repository. Each function is one law; none does anything.
ghost use Rattle.std.specs.Prelude.{◌≡◌, ◌<◌, ℕ, List, length, slice_get, slice_index, Some, Ok};
ghost use Rattle.hgs_files.specs.Tree.{Tree};
ghost use Rattle.hgs_model.specs.Names.{named as model_named};
ghost use Rattle.hgs_model.specs.Phase.{phase_name};
ghost use Rattle.hgs_model.specs.Repo.{Changeset, Repo};
ghost use Rattle.hgs_model.specs.declared.phase.Phase.{Phase};
ghost use Rattle.hgs_load.specs.Asks.{at_rest};
ghost use Rattle.hgs_reader.specs.Contents.{cat_asks, files_asks};
ghost use Rattle.hgs_reader.specs.Heads as reader_heads;
ghost use Rattle.hgs_reader.specs.Line.{line_asks};
ghost use Rattle.hgs_reader.specs.Names.{named};
ghost use Rattle.hgs_load.specs.Open.{open_asks};
ghost use Rattle.hgs_reader.specs.Shown as reader_shown;
ghost use Rattle.hgs_load.specs.View.{View};
ghost use Rattle.hgs_shown.specs.Answers.{IsReadable, body_answer, body_at, bookmarks_text, heads_text, log_line, parents_text, phase_word, tree_text};

use crate::laws::laws_below;

/// A load over files that stand for a repository, within a reader's limits, is not refused, and each answer of its session
/// is that of the repository: the lines of its changesets, its heads, its working parents and its bookmarks, what names name,
/// phases, the lines of a changeset's files, and each body; every other path is unknown.
pub fn answers_of_repository()
    ensures opens { (t : Tree) (r : Repo) → IsReadable t r → (view : View) × (at_rest t open_asks ≡ Ok view) }
    ensures count { (t : Tree) (r : Repo) (view : View) → IsReadable t r → at_rest t open_asks ≡ Ok view → length view.changelog.entries ≡ length r.changesets }
    ensures line { (t : Tree) (r : Repo) (view : View) → IsReadable t r → at_rest t open_asks ≡ Ok view → (rev : ℕ) (c : Changeset) → slice_get r.changesets rev ≡ Some c → at_rest t (line_asks view rev) ≡ Ok (log_line r rev c) }
    ensures heads { (t : Tree) (r : Repo) (view : View) → IsReadable t r → at_rest t open_asks ≡ Ok view → reader_heads.heads_text view ≡ heads_text r }
    ensures parents { (t : Tree) (r : Repo) (view : View) → IsReadable t r → at_rest t open_asks ≡ Ok view → reader_shown.parents_text view ≡ parents_text r }
    ensures bookmarks { (t : Tree) (r : Repo) (view : View) → IsReadable t r → at_rest t open_asks ≡ Ok view → reader_shown.marks_text view ≡ bookmarks_text r }
    ensures names { (t : Tree) (r : Repo) (view : View) → IsReadable t r → at_rest t open_asks ≡ Ok view → (name : List ℕ) → named view name ≡ model_named r name }
    ensures phase { (t : Tree) (r : Repo) (view : View) → IsReadable t r → at_rest t open_asks ≡ Ok view → (rev : ℕ) → rev < length r.changesets → (p : Phase) × (slice_get view.phases rev ≡ Some p) × (phase_name p ≡ phase_word (slice_index r.phases rev)) }
    ensures files { (t : Tree) (r : Repo) (view : View) → IsReadable t r → at_rest t open_asks ≡ Ok view → (rev : ℕ) (c : Changeset) → slice_get r.changesets rev ≡ Some c → at_rest t (files_asks view rev) ≡ Ok (tree_text r rev (Some c)) }
    ensures body { (t : Tree) (r : Repo) (view : View) → IsReadable t r → at_rest t open_asks ≡ Ok view → (rev : ℕ) (c : Changeset) → slice_get r.changesets rev ≡ Some c → (path : List ℕ) → at_rest t (cat_asks view rev path) ≡ body_answer (body_at r rev path) }
{
    laws_below();
}
