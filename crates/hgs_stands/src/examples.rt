//! The definitions tried on a small repository that Mercurial wrote. Each function is one example; none does anything
//! but to call laws that it rests on.
ghost use Rattle.std.specs.Prelude.{◌∷◌, [], codes, zero};
ghost use Rattle.hgs_bytes.specs.Text.{lines};
ghost use Rattle.hgs_journal.specs.Covers.{own_strays};
ghost use Rattle.hgs_journal.specs.Names.{journal_path};
ghost use Rattle.hgs_marks.specs.Bookmarks.{bookmarks_text};
ghost use Rattle.hgs_model.specs.declared.phase.Phase.TheVariants.{Draft, Public};
ghost use Rattle.hgs_phases.specs.Roots.{roots_text};
ghost use Rattle.hgs_stands.specs.Open.{IsOpen};
ghost use Rattle.hgs_stands.specs.Places.{bookmarks_path, fncache_path, requires_path, roots_path};
ghost use Rattle.hgs_stands.specs.Samples.{other_node, sample_names, sample_node, sample_words, third_begun_files, tracking, two_drafts, two_drafts_files, with_bytes};
ghost use Rattle.hgs_stands.specs.Shows.{Shows};
ghost use Rattle.hgs_stands.specs.Stands.{IsClean, Stands};

use hgs_index::laws::{chunk_then_text, either_form_holds, nodes_written_then_read};
use hgs_marks::laws::bookmark_lines_written_then_read;
use hgs_model::history_laws::nodes_name_revisions;
use hgs_phases::laws::read_texts;

/// The files that Mercurial 6.3.2 wrote of two changesets stand for these, and are clean.
pub fn two_drafts_stand()
    ensures { IsClean two_drafts_files two_drafts }
{
    chunk_then_text();
    either_form_holds();
    nodes_written_then_read();
    nodes_name_revisions();
    read_texts();
    bookmark_lines_written_then_read();
}

/// So do they with the tracked paths in another order and one of them twice, and with a name in the list whose file is empty.
pub fn other_files_stand()
    ensures tracked { Stands (tracking (codes "b" ∷ codes "a" ∷ codes "b" ∷ [])) two_drafts }
    ensures listed { Stands (with_bytes (with_bytes two_drafts_files fncache_path (lines (codes "data/c.i" ∷ sample_names))) (codes "store/data/c.i") []) two_drafts }
{
    chunk_then_text();
    either_form_holds();
    nodes_written_then_read();
    nodes_name_revisions();
    read_texts();
    bookmark_lines_written_then_read();
}

/// Files that differ from them in one place do not: with a journal; with a word in `requires` that is none of the profile, or
/// without one that is needed; with a filelog's file that is not listed, or a listed one that is no path's; with a path that
/// is not tracked, or one too many; with a lock, where they are to be clean; with a phase root or an overridden bookmark line of a node that is not known.
pub fn near_misses_do_not_stand()
    ensures journal { Stands (with_bytes two_drafts_files journal_path []) two_drafts → ⊥ }
    ensures foreign_word { Stands (with_bytes two_drafts_files requires_path (lines (codes "treemanifest" ∷ sample_words))) two_drafts → ⊥ }
    ensures lacking_word { Stands (with_bytes two_drafts_files requires_path (codes "fncache\nrevlogv1\nstore\n")) two_drafts → ⊥ }
    ensures unlisted { Stands (with_bytes two_drafts_files fncache_path (codes "data/a.i\ndata/a.d\ndata/b.i\n")) two_drafts → ⊥ }
    ensures foreign_file { Stands (with_bytes (with_bytes two_drafts_files fncache_path (lines (codes "data/c.i" ∷ sample_names))) (codes "store/data/c.i") (zero ∷ [])) two_drafts → ⊥ }
    ensures untracked { Stands (tracking (codes "a" ∷ [])) two_drafts → ⊥ }
    ensures tracked { Stands (tracking (codes "a" ∷ codes "b" ∷ codes "c" ∷ [])) two_drafts → ⊥ }
    ensures unknown_root { Stands (with_bytes two_drafts_files roots_path (roots_text (record { phase = Draft; node = record { 0 = sample_node 0 } } ∷ record { phase = Public; node = record { 0 = other_node } } ∷ []))) two_drafts → ⊥ }
    ensures locked { IsClean (with_bytes two_drafts_files (codes "store/lock") []) two_drafts → ⊥ }
    ensures unknown_mark { Stands (with_bytes two_drafts_files bookmarks_path (bookmarks_text (record { name = codes "main"; node = other_node } ∷ record { name = codes "main"; node = sample_node 0 } ∷ []))) two_drafts → ⊥ }
{
    chunk_then_text();
    either_form_holds();
    nodes_written_then_read();
    nodes_name_revisions();
    read_texts();
    bookmark_lines_written_then_read();
}

/// A third commit that stopped within the entry that would have published it leaves files that are open for the repository
/// before it, and still show that.
pub fn begun_commit_is_open()
    ensures covers { IsOpen own_strays third_begun_files two_drafts }
    ensures shows { Shows third_begun_files two_drafts two_drafts two_drafts }
{
    chunk_then_text();
    either_form_holds();
    nodes_written_then_read();
    nodes_name_revisions();
    read_texts();
    bookmark_lines_written_then_read();
}
