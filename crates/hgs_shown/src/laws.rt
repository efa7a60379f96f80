//! What the definitions of this crate imply. Each function is one law; none does anything but to call laws
//! that it rests on.
ghost use Rattle.std.specs.Prelude.{◌≡◌, ◌<◌, ◌≤◌, ℕ, List, true, false, length, map, Ok, None, Some, drop, slice_get, take};
ghost use Rattle.std.specs.List.{AllByRecursion, AllZip, list_all};
ghost use Rattle.hgs_files.specs.Tree.{Tree, bytes_at};
ghost use Rattle.hgs_index.specs.declared.entry.Entry.{Entry};
ghost use Rattle.hgs_index.specs.ChangeText.{Change, read_change};
ghost use Rattle.hgs_index.specs.Either.{chunks_either};
ghost use Rattle.hgs_index.specs.Inline.{chunks_apart};
ghost use Rattle.hgs_index.specs.Manifest.{Row, AscendFrom};
ghost use Rattle.hgs_index.specs.Node.{null_node};
ghost use Rattle.hgs_index.specs.Revision.{Revision};
ghost use Rattle.hgs_index.specs.Revlog.{Begins, BeginsWithRevisions, all_different};
ghost use Rattle.hgs_index.specs.TrackedPath.{is_tracked};
ghost use Rattle.hgs_manifest.specs.Held.{found_in};
ghost use Rattle.hgs_model.specs.History.{EachChangeset, changeset_nodes, no_history, node_at, parents_in, text_at};
ghost use Rattle.hgs_model.specs.Repo.{Repo, Changeset, TreeFile, tree_paths};
ghost use Rattle.hgs_path.specs.Check.{checked};
ghost use Rattle.hgs_phases.specs.Phases.{history_of};
ghost use Rattle.hgs_load.specs.Asks.{at_rest};
ghost use Rattle.hgs_reader.specs.Held.{EndsInline, HasSeparateText, HasText};
ghost use Rattle.hgs_reader.specs.Line.{change_asks, line_asks, line_text};
ghost use Rattle.hgs_load.specs.Marks.{working_answer};
ghost use Rattle.hgs_revlog.specs.Held.{Agrees, AreWithinLimits, chunk_in};
ghost use Rattle.hgs_revlog.specs.Log.{nodes_of};
ghost use Rattle.hgs_revlog.specs.Text.{span_in, text_of};
ghost use Rattle.hgs_model.specs.Names.{named as model_named};
ghost use Rattle.hgs_reader.specs.Names.{named};
ghost use Rattle.hgs_load.specs.Refresh.{first_changed, refresh_asks};
ghost use Rattle.hgs_load.specs.Open.{most_requires, requires_path, requires_asks, bookmarks_asks, dirstate_asks, roots_asks, open_asks};
ghost use Rattle.hgs_load.specs.View.{View};
ghost use Rattle.hgs_shown.specs.Below.{Below};
ghost use Rattle.hgs_shown.specs.Found.{HasPathOf, IsFound};
ghost use Rattle.hgs_shown.specs.Limits.{OpensWithin, ReadsWithin, IsSmallTree};
ghost use Rattle.hgs_shown.specs.Shown.{IsShown, IsViewOf, IsViewOver, shown_repo, working_nodes};
ghost use Rattle.hgs_bytes.specs.Bytes.{IsPrefixOf, among, same};
ghost use Rattle.hgs_model.specs.IsRepo.{IsNextChangeset, IsRepo};
ghost use Rattle.hgs_stands.specs.Places.{changelog_data, changelog_index};
ghost use Rattle.hgs_stands.specs.Requires.{IsInProfile};
ghost use Rattle.hgs_stands.specs.Shows.{BeginsAt, Shows};
ghost use Rattle.hgs_stands.specs.Stands.{Stands, mark_of};

use hgs_index::laws::{nodes_are_counted, nodes_have_places};
use hgs_index::texts::change_prints_then_reads;
use hgs_load::laws::{files_are_read_whole, parts_make_views};
use hgs_model::history_laws::{
    changesets_are_held, histories_go_on, revisions_stay, used_paths_have_revisions,
};
use hgs_model::laws::changelog_is_whole;
use hgs_path::laws::tracked_without_fault;
use hgs_reader::laws::{
    body_of_file_held, changesets_are_read, files_of_manifest_held, paths_without_row,
    revisions_have_entries,
};
use hgs_revlog::laws::{
    either_form, entries_of_revisions, held_bytes_load, ignored_rest, inline_index, places_of_nodes,
};
use hgs_stands::laws::{entries_of_changesets, standing_trees_show};

/// Over files that stand for a repository and are within the limits, a load gives its view.
pub fn load_shows_repository()
    ensures { (t : Tree) (r : Repo) → Stands t r → OpensWithin t r r → (view : View) × (at_rest t open_asks ≡ Ok view) × IsViewOf view t r }
{
    laws_below();
}

/// A refresh over them gives the same view as a load, where the history of the old one still stands, and what was separate has
/// not become inline.
pub fn refresh_shows_repository()
    ensures { (t : Tree) (r : Repo) (old view : View) → Stands t r → OpensWithin t r r → at_rest t open_asks ≡ Ok view → first_changed 0 old.changelog.entries view.changelog.entries ≡ None → (old.changelog.inline ≡ false → view.changelog.inline ≡ false) → at_rest t (refresh_asks old) ≡ Ok view }
{
    laws_below();
}

/// A name names for a reader of such files what it names in the repository.
pub fn names_name_the_same()
    ensures { (t : Tree) (r : Repo) (view : View) (name : List ℕ) → Stands t r → IsViewOf view t r → named view name ≡ model_named r name }
{
    laws_below();
}

/// While a writer is at work, a load over files as they stand between two operations gives what they show.
pub fn load_shows_what_is_shown()
    ensures { (t : Tree) (marked worked r : Repo) → Shows t marked worked r → IsRepo r → IsRepo worked → IsPrefixOf worked.changesets r.changesets → OpensWithin t marked r → (view : View) × (at_rest t open_asks ≡ Ok view) × IsViewOver view t marked worked r }
{
    laws_below();
}

/// A name names there what it names in the bookmarks, the working parents and the changesets that are shown.
pub fn names_of_what_is_shown()
    ensures { (t : Tree) (marked worked r : Repo) (view : View) (name : List ℕ) → IsRepo marked → IsRepo r → IsPrefixOf marked.changesets r.changesets → IsViewOver view t marked worked r → named view name ≡ model_named (shown_repo marked worked r) name }
{
    laws_below();
}

/// And each changeset that is shown, its files and their bodies are answered as they were committed.
pub fn contents_of_what_is_shown()
    ensures { (t : Tree) (marked worked r : Repo) (view : View) (rev : ℕ) (c : Changeset) → Shows t marked worked r → IsRepo r → IsRepo worked → IsPrefixOf worked.changesets r.changesets → OpensWithin t marked r → ReadsWithin t r → at_rest t open_asks ≡ Ok view → slice_get r.changesets rev ≡ Some c → IsShown t view rev c }
{
    laws_below();
}

/// Over files that stand for a repository each changeset, its files and their bodies are answered as they were committed.
pub fn contents_show_repository()
    ensures { (t : Tree) (r : Repo) (view : View) (rev : ℕ) (c : Changeset) → Stands t r → OpensWithin t r r → ReadsWithin t r → at_rest t open_asks ≡ Ok view → slice_get r.changesets rev ≡ Some c → IsShown t view rev c }
{
    laws_below();
}

/// Each file that a load reads whole is read as what the tree shows, where it is within the limits.
pub fn whole_files_are_read()
    ensures requirements { (t : Tree) → IsInProfile t → length (bytes_at t requires_path) ≤ most_requires → at_rest t requires_asks ≡ Ok tt }
    ensures bookmarks { (t : Tree) (marked worked r : Repo) → Shows t marked worked r → OpensWithin t marked r → at_rest t bookmarks_asks ≡ Ok (map (mark_of (changeset_nodes marked.changesets)) marked.bookmarks) }
    ensures dirstate { (t : Tree) (marked worked r : Repo) → Shows t marked worked r → OpensWithin t marked r → at_rest t dirstate_asks ≡ Ok (working_nodes worked) }
    ensures roots { (t : Tree) (marked worked r : Repo) (shows : Shows t marked worked r) → OpensWithin t marked r → at_rest t roots_asks ≡ Ok shows.phases.roots }
{
    laws_below();
}

/// Where a history goes on from that of a repository, this one's bookmarks have the same nodes in it, and its working
/// parents are found among entries with the later nodes.
pub fn older_parts_stay()
    ensures bookmarks { (marked r : Repo) → IsRepo marked → IsPrefixOf marked.changesets r.changesets → map (mark_of (changeset_nodes marked.changesets)) marked.bookmarks ≡ map (mark_of (changeset_nodes r.changesets)) marked.bookmarks }
    ensures working { (entries : List Entry) (worked r : Repo) → IsRepo worked → IsPrefixOf worked.changesets r.changesets → nodes_of entries ≡ changeset_nodes r.changesets → all_different (changeset_nodes r.changesets) ≡ true → among null_node (changeset_nodes r.changesets) ≡ false → working_answer entries (working_nodes worked) ≡ Ok worked.working }
{
    laws_below();
}

/// Entries that agree with revisions have their parents.
pub fn parents_of_entries()
    ensures { (index data_bytes : List ℕ) (entries : List Entry) (revisions : List Revision) → Agrees index data_bytes entries revisions → history_of entries ≡ parents_in revisions }
{
    entries_of_revisions();
}

/// Where two files begin with revisions, in the form that the index says, each of these is what a search by its node finds, and
/// its node is not null. Of an inline index some bytes at its front end with the text.
pub fn texts_are_found()
    ensures text { (t : Tree) (index chunks : List ℕ) (revisions : List Revision) (rev : ℕ) (node text : List ℕ) → BeginsAt t index chunks revisions → AreWithinLimits revisions (chunks_either (bytes_at t index) (bytes_at t chunks)) → rev < length revisions → node_at revisions rev ≡ node → text_at revisions rev ≡ text → HasText t index chunks node text }
    ensures apart { (t : Tree) (index chunks : List ℕ) (revisions : List Revision) (rev : ℕ) (node text : List ℕ) → BeginsWithRevisions (bytes_at t index) (bytes_at t chunks) revisions → AreWithinLimits revisions (bytes_at t chunks) → rev < length revisions → node_at revisions rev ≡ node → text_at revisions rev ≡ text → HasSeparateText t index chunks node text }
    ensures inline { (index data_bytes : List ℕ) (revisions : List Revision) (rev : ℕ) (node text : List ℕ) → Begins true index data_bytes revisions → AreWithinLimits revisions (chunks_apart index) → rev < length revisions → node_at revisions rev ≡ node → text_at revisions rev ≡ text → (front : List ℕ) × IsPrefixOf front index × EndsInline front node text }
    ensures not_null { (t : Tree) (index chunks : List ℕ) (revisions : List Revision) (rev : ℕ) (node : List ℕ) → BeginsAt t index chunks revisions → rev < length revisions → node_at revisions rev ≡ node → same node null_node ≡ false }
{
    laws_below();
}

/// The changeset of a revision is what the text in its chunk says, which stands in the data file, or in the index of an inline
/// changelog.
pub fn changeset_is_read()
    ensures placed { (t : Tree) (view : View) (rev : ℕ) (entry : Entry) (text : List ℕ) (change : Change) → view.changelog.inline ≡ true → slice_get view.changelog.entries rev ≡ Some entry → text_of view.changelog.entries rev (take entry.stored (drop (span_in true rev entry).from (bytes_at t changelog_index))) ≡ Ok text → read_change text ≡ Ok change → at_rest t (change_asks view rev) ≡ Ok change }
    ensures chunk { (t : Tree) (view : View) (rev : ℕ) (entry : Entry) (text : List ℕ) (change : Change) → view.changelog.inline ≡ false → slice_get view.changelog.entries rev ≡ Some entry → text_of view.changelog.entries rev (chunk_in (bytes_at t changelog_data) entry) ≡ Ok text → read_change text ≡ Ok change → at_rest t (change_asks view rev) ≡ Ok change }
{
    changesets_are_read();
}

/// Where the changeset of a revision is read, its line says of it what the changeset does.
pub fn lines_of_changesets()
    ensures { (t : Tree) (view : View) (rev : ℕ) (entry : Entry) (change : Change) → slice_get view.changelog.entries rev ≡ Some entry → at_rest t (change_asks view rev) ≡ Ok change → at_rest t (line_asks view rev) ≡ Ok (line_text rev entry change) }
{}

/// Of rows that ascend each is found by its path, and a path that no file has is not. The files of a changeset have tracked
/// paths, which pass the test of paths, and are as small as all files are.
pub fn files_are_found()
    ensures rows { (last : List ℕ) (rows : List Row) → AscendFrom last rows → AllByRecursion (IsFound rows) rows }
    ensures others { (path : List ℕ) (tree : List TreeFile) (rows : List Row) → AllZip HasPathOf tree rows → among path (tree_paths tree) ≡ false → found_in path rows ≡ None }
    ensures tracked { (changesets : List Changeset) (rev : ℕ) (c : Changeset) → EachChangeset IsNextChangeset no_history changesets → slice_get changesets rev ≡ Some c → list_all is_tracked (tree_paths c.tree) ≡ true }
    ensures pass { (path : List ℕ) → is_tracked path ≡ true → checked path ≡ Ok tt }
    ensures small { (changesets : List Changeset) (rev : ℕ) (c : Changeset) → AllByRecursion (λ (x : Changeset). IsSmallTree x.tree) changesets → slice_get changesets rev ≡ Some c → IsSmallTree c.tree }
{
    laws_below();
}

/// What the laws of the crates below say.
pub(crate) fn laws_below()
    ensures { Below }
{
    change_prints_then_reads();
    nodes_are_counted();
    nodes_have_places();
    changesets_are_held();
    histories_go_on();
    revisions_stay();
    used_paths_have_revisions();
    changelog_is_whole();
    tracked_without_fault();
    entries_of_revisions();
    places_of_nodes();
    ignored_rest();
    held_bytes_load();
    either_form();
    inline_index();
    files_are_read_whole();
    parts_make_views();
    changesets_are_read();
    revisions_have_entries();
    files_of_manifest_held();
    body_of_file_held();
    paths_without_row();
    entries_of_changesets();
    standing_trees_show();
}
