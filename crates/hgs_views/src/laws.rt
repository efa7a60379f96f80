//! What the definitions of this crate imply. Each function is one law; none does anything but name the laws below that
//! its proof takes.
ghost use Rattle.std.specs.Prelude.{◌≡◌, ◌<◌, ◌*◌, ℕ, false, List, [], ◌∷◌, ◌++◌, Result, Ok, Some, take, length, map, slice_get};
ghost use Rattle.hgs_files.specs.declared.op.Op.{Op};
ghost use Rattle.hgs_files.specs.declared.op.Op.TheVariants.{Append, Remove};
ghost use Rattle.hgs_files.specs.Tree.{Tree, bytes_at, after_all};
ghost use Rattle.hgs_model.specs.Names.{named as model_named};
ghost use Rattle.hgs_reader.specs.Names.{named};
ghost use Rattle.hgs_shown.specs.Shown.{IsViewOf};
ghost use Rattle.hgs_load.specs.declared.answer.ReadAnswer.{ReadAnswer};
ghost use Rattle.hgs_load.specs.Asks.{Asks, answer, then_asks, MayAnswer, Answers, AddsAnswer, AddsGiven};
ghost use Rattle.hgs_load.specs.Given.{GoesTo};
ghost use Rattle.hgs_load.specs.Load.{Refreshes};
ghost use Rattle.hgs_load.specs.Open.{open_asks};
ghost use Rattle.hgs_revlog.specs.Log.{Log, nodes_of};
ghost use Rattle.hgs_model.specs.History.{changeset_nodes, node_at, text_at};
ghost use Rattle.hgs_load.specs.Refresh.{refresh_asks};
ghost use Rattle.hgs_load.specs.View.{View, pieces_then, piece_length, most_pieces};
ghost use Rattle.hgs_views.specs.Answered.{IsAnswered, OnlyAnswers};
ghost use Rattle.hgs_views.specs.Course.{Course, IsBetween, IsCourse, OpensAlong, ReadsAlong, IsStep, KeepsFronts, AreSame, tree_after, whole_files, still};
ghost use Rattle.hgs_views.specs.Says.{SaysOf, TellsOf};
ghost use Rattle.hgs_views.specs.Samples.{committing, publishing};
ghost use Rattle.hgs_reader.specs.Find.{text_asks};
ghost use Rattle.hgs_index.specs.Inline.{is_inline};
ghost use Rattle.hgs_index.specs.Revision.{Revision};
ghost use Rattle.hgs_views.specs.Moments.{WholeStays, StaysAt};
ghost use Rattle.hgs_views.specs.Seen.{Numbers, NoneFell, IsGivenFew, IsLoadedBetween, Given, Refreshed, seen};
ghost use Rattle.hgs_bytes.specs.Bytes.{IsPrefixOf, same, among};
ghost use Rattle.hgs_model.specs.IsRepo.{IsRepo};
ghost use Rattle.hgs_model.specs.Phase.{phase_number};
ghost use Rattle.hgs_model.specs.Repo.{Repo, Changeset};
ghost use Rattle.hgs_phases.specs.declared.roots.Root.{Root};
ghost use Rattle.hgs_phases.specs.Phases.{phases_by};
ghost use Rattle.hgs_stands.specs.Places.{changelog_index, roots_path};
ghost use Rattle.hgs_stands.specs.Shows.{Shows};
ghost use Rattle.hgs_stands.specs.Stands.{HoldsChangesets, Stands, changeset_entries};

use hgs_index::laws::{ancestor_test, held_index_length, nodes_are_counted, nodes_have_places};
use hgs_index::texts::{change_prints_then_reads, manifest_prints_then_reads};
use hgs_model::history_laws::{changesets_are_held, histories_go_on, used_paths_have_revisions};
use hgs_model::laws::{ancestors_of_a_front, changelog_is_whole};
use hgs_phases::laws::phases_of_nodes_and_parents;
use hgs_reader::laws::{
    inline_text_at_moments, nodes_among_entries, revisions_have_entries, separate_texts_are_asked,
};
use hgs_revlog::laws::{
    either_form, entries_of_revisions, ignored_rest, inline_index, places_go_on, places_of_nodes,
    until_node,
};
use hgs_shown::laws::{
    changeset_is_read, files_are_found, lines_of_changesets, names_of_what_is_shown,
    older_parts_stay, parents_of_entries, texts_are_found, whole_files_are_read,
};
use hgs_stands::laws::{entries_of_changesets, filelogs_stand_apart, standing_trees_show};

/// The phase roots of a repository give the changesets that it goes on from the first of its phases.
pub fn roots_of_later_repository()
    ensures { (roots : List Root) (r s : Repo) → IsRepo r → IsRepo s → IsPrefixOf r.changesets s.changesets → map phase_number (phases_by roots (changeset_entries s.changesets)) ≡ s.phases →
        map phase_number (phases_by roots (changeset_entries r.changesets)) ≡ take (length r.changesets) s.phases }
{
    ancestor_test();
    ancestors_of_a_front();
    places_go_on();
    entries_of_changesets();
    phases_of_nodes_and_parents();
    nodes_are_counted();
    changelog_is_whole();
    histories_go_on();
}

/// The pieces of a file, each read at a later moment than the one before, are together what the file is at the last of
/// these moments, where a front of whole entries stays and the file is not too long.
pub fn pieces_come_as_one()
    ensures { (start : Tree) (path : List ℕ) (first last : List Op) (f : List ℕ → Asks (Result Log ReadAnswer)) (more : Log → Asks (Result View ReadAnswer)) (y : Result View ReadAnswer) → WholeStays start path first last →
        ((log : List Op) → IsBetween first last log → length (bytes_at (after_all log start) path) < most_pieces * piece_length) → MayAnswer start first (then_asks (pieces_then path most_pieces [] f) more) last y →
        (log : List Op) × IsBetween first last log × MayAnswer start log (then_asks (f (bytes_at (after_all log start) path)) more) last y }
{}

/// The text with a node is found at whatever moments its reads stand, where what holds it, in either form, stays at the front.
pub fn text_of_node_at_moments()
    ensures { (start store : Tree) (first last : List Op) (index chunks : List ℕ) (revisions : List Revision) (rev : ℕ) (node text : List ℕ) (y : Result (List ℕ) ReadAnswer) → StaysAt start first last store index chunks revisions → same index chunks ≡ false → rev < length revisions →
        node_at revisions rev ≡ node → text_at revisions rev ≡ text → MayAnswer start first (text_asks index chunks node) last y → y ≡ Ok text }
{
    texts_are_found();
    separate_texts_are_asked();
    inline_text_at_moments();
    until_node();
    nodes_among_entries();
}

/// A load, its reads after lists of operations that grow meanwhile, answers a view of these moments.
pub fn loads_answer_views()
    ensures { (x : Course) (first last : List Op) (y : Result View ReadAnswer) → IsCourse x first last → OpensAlong x first last → MayAnswer x.start first open_asks last y → (v : Numbers) × (view : View) × (y ≡ Ok view) × IsLoadedBetween x first last v view }
{
    whole_files_are_read();
    older_parts_stay();
    parents_of_entries();
    held_index_length();
    changelog_is_whole();
    entries_of_revisions();
    either_form();
    ignored_rest();
    entries_of_changesets();
    roots_of_later_repository();
    histories_go_on();
}

/// A refresh over a view that was loaded before answers a view of its moments, of which no number is less than it was.
pub fn refreshes_answer_views()
    ensures { (x : Course) (began ended first last : List Op) (v : Numbers) (old : View) (y : Result View ReadAnswer) → IsCourse x began last → OpensAlong x first last → IsLoadedBetween x began ended v old → IsPrefixOf ended first → MayAnswer x.start first (refresh_asks old) last y →
        (w : Numbers) × (view : View) × (y ≡ Ok view) × IsLoadedBetween x first last w view × NoneFell v w }
{
    whole_files_are_read();
    older_parts_stay();
    parents_of_entries();
    held_index_length();
    changelog_is_whole();
    entries_of_revisions();
    either_form();
    ignored_rest();
    entries_of_changesets();
    roots_of_later_repository();
    histories_go_on();
}

/// Such a refresh of what was separate is given the small files, each as it was at a moment, and of the changelog's index an
/// entry for each new one and two more at most, however long the history is; where nothing was loaded, if the index is separate
/// all the while.
pub fn refreshes_read_what_is_new_beside_writers()
    ensures { (x : Course) (began ended first last : List Op) (v : Numbers) (old view : View) (bytes : ℕ) → IsCourse x began last → OpensAlong x first last → IsLoadedBetween x began ended v old → IsPrefixOf ended first → old.changelog.inline ≡ false → (length old.changelog.entries ≡ 0 → (log : List Op) → IsBetween first last log → is_inline (bytes_at (tree_after x log) changelog_index) ≡ false) → GoesTo x.start (Some first) (refresh_asks old) bytes (Some last) (answer (Ok view)) →
        IsGivenFew x first last old view bytes }
{
    whole_files_are_read();
    older_parts_stay();
    parents_of_entries();
    held_index_length();
    changelog_is_whole();
    entries_of_revisions();
    either_form();
    ignored_rest();
    entries_of_changesets();
    roots_of_later_repository();
    histories_go_on();
}

/// The changelog keeps its form from a moment on at which it has a changeset.
pub fn changelogs_keep_their_form()
    ensures { (x : Course) (first last log : List Op) → IsCourse x first last → 0 < length (x.repo (x.published first)).changesets → IsBetween first last log → is_inline (bytes_at (tree_after x log) changelog_index) ≡ is_inline (bytes_at (tree_after x first) changelog_index) }
{
    changelog_is_whole();
}

/// At any later moment a view's questions answer of each of its changesets what was committed, and nothing else.
pub fn contents_of_views()
    ensures { (x : Course) (began ended first last : List Op) (v : Numbers) (view : View) (rev : ℕ) (c : Changeset) → IsCourse x began last → OpensAlong x first last → ReadsAlong x first last → IsLoadedBetween x began ended v view →
        IsPrefixOf ended first → IsPrefixOf first last → slice_get (x.repo v.read).changesets rev ≡ Some c → IsAnswered x first last view (x.repo v.read).changesets rev c }
{
    text_of_node_at_moments();
    revisions_have_entries();
    changesets_are_held();
    used_paths_have_revisions();
    change_prints_then_reads();
    manifest_prints_then_reads();
    filelogs_stand_apart();
    held_index_length();
    ignored_rest();
    histories_go_on();
    texts_are_found();
    changeset_is_read();
    lines_of_changesets();
    inline_index();
    files_are_found();
    parents_of_entries();
    entries_of_revisions();
}

/// What such a view shows is a repository: names name in the view what they name there, and it has as many changesets.
pub fn views_show_repositories()
    ensures { (x : Course) (first last : List Op) (v : Numbers) (view : View) → IsCourse x first last → IsLoadedBetween x first last v view → IsRepo (seen x v) × IsViewOf view (x.store v.read) (seen x v) × ((name : List ℕ) → named view name ≡ model_named (seen x v) name) ×
        (length view.changelog.entries ≡ length (x.repo v.read).changesets) × (nodes_of view.changelog.entries ≡ changeset_nodes (x.repo v.read).changesets) }
{
    names_of_what_is_shown();
    older_parts_stay();
    entries_of_revisions();
    changelog_is_whole();
    ancestors_of_a_front();
}

/// So a call of `open` that was told the lists gives such a view, or it met a fault of the files or found no memory.
pub fn calls_of_open()
    ensures { (x : Course) (first last : List Op) (r : Result View ReadAnswer) → IsCourse x first last → OpensAlong x first last → Answers (λ session. session) (Some first) x.start (Some last) open_asks r → Given (λ view. (v : Numbers) × IsLoadedBetween x first last v view) r }
{
    whole_files_are_read();
    older_parts_stay();
    parents_of_entries();
    held_index_length();
    changelog_is_whole();
    entries_of_revisions();
    either_form();
    ignored_rest();
    entries_of_changesets();
    roots_of_later_repository();
    histories_go_on();
}

/// And so does a call of `refresh`, whose numbers do not fall.
pub fn calls_of_refresh()
    ensures { (x : Course) (began ended first last : List Op) (v : Numbers) (old : View) (r : Result View ReadAnswer) → IsCourse x began last → OpensAlong x first last → IsLoadedBetween x began ended v old → IsPrefixOf ended first → Answers (λ session. session) (Some first) x.start (Some last) (refresh_asks old) r →
        Given (λ view. (w : Numbers) × IsLoadedBetween x first last w view × NoneFell v w) r }
{
    whole_files_are_read();
    older_parts_stay();
    parents_of_entries();
    held_index_length();
    changelog_is_whole();
    entries_of_revisions();
    either_form();
    ignored_rest();
    entries_of_changesets();
    roots_of_later_repository();
    histories_go_on();
}

/// Of a session: its new view is such, or it is the old one and nothing was said of the repository.
pub fn sessions_do_not_fall_back()
    ensures { (x : Course) (began ended first last : List Op) (v : Numbers) (old new : View) (r : Result Unit ReadAnswer) → IsCourse x began last → OpensAlong x first last → IsLoadedBetween x began ended v old → IsPrefixOf ended first →
        Refreshes (Some first) x.start (Some last) (refresh_asks old) old new r → Refreshed (λ view. (w : Numbers) × IsLoadedBetween x first last w view × NoneFell v w) old new r }
{
    whole_files_are_read();
    older_parts_stay();
    parents_of_entries();
    held_index_length();
    changelog_is_whole();
    entries_of_revisions();
    either_form();
    ignored_rest();
    entries_of_changesets();
    roots_of_later_repository();
    histories_go_on();
}

/// A call whose question has one answer adds this text or is refused so, unless it met a fault of the files or found no
/// memory.
pub fn calls_that_add_a_text()
    ensures { (x : Course) (first from to last : List Op) (question : Asks (Result (List ℕ) ReadAnswer)) (given : Result (List ℕ) ReadAnswer) (old new : List ℕ) (r : Result Unit ReadAnswer) → OnlyAnswers x first last question given → IsPrefixOf first from → IsPrefixOf to last →
        AddsAnswer (Some from) x.start (Some to) question old new r → AddsGiven given old new r }
{}

/// A course goes on by a step.
pub fn courses_grow()
    ensures { (x : Course) (first log : List Op) (op : Op) → IsPrefixOf first log → IsCourse x first log → IsStep x log (log ++ op ∷ []) → IsCourse x first (log ++ op ∷ []) }
{}

/// Courses join: it is enough to know one of each step.
pub fn courses_join()
    ensures { (x : Course) (first mid last : List Op) → IsPrefixOf first mid → IsPrefixOf mid last → IsCourse x first mid → IsCourse x mid last → IsCourse x first last }
{}

/// Files at rest that stand for a repository are a course.
pub fn rest_is_a_course()
    ensures { (t : Tree) (r : Repo) → Stands t r → IsCourse (still t r) [] [] }
{
    standing_trees_show();
}

/// Where a writer appends to a manifest, a filelog or the changelog's chunks, a course goes on with its numbers.
pub fn appends_are_steps()
    ensures { (x : Course) (first log : List Op) (path bytes : List ℕ) → IsPrefixOf first log → IsCourse x first log → among path whole_files ≡ false → AreSame x log (log ++ Append path bytes ∷ []) → IsCourse x first (log ++ Append path bytes ∷ []) }
{}

/// What the view of a repository says, over whatever tree, are that repository's texts.
pub fn views_say_their_repository()
    ensures { (t : Tree) (r : Repo) (view : View) → IsRepo r → IsViewOf view t r → SaysOf view r }
{
    names_of_what_is_shown();
    parents_of_entries();
    entries_of_revisions();
    places_of_nodes();
    nodes_have_places();
    changelog_is_whole();
}

/// So a view that was loaded while writers are at work says the texts of the repository that it shows. At any later moment its
/// questions are answered with this repository's texts of each changeset, and with nothing else.
pub fn views_tell_their_repository()
    ensures says { (x : Course) (first last : List Op) (v : Numbers) (view : View) → IsCourse x first last → IsLoadedBetween x first last v view → SaysOf view (seen x v) }
    ensures tells { (x : Course) (began ended first last : List Op) (v : Numbers) (view : View) (rev : ℕ) (c : Changeset) → IsCourse x began last → OpensAlong x first last → ReadsAlong x first last → IsLoadedBetween x began ended v view →
        IsPrefixOf ended first → IsPrefixOf first last → slice_get (x.repo v.read).changesets rev ≡ Some c → TellsOf x first last view (seen x v) rev c }
{
    views_show_repositories();
    views_say_their_repository();
    contents_of_views();
}

/// Where the phase roots of such files are removed, that is a course on which each number rises.
pub fn publishing_is_a_course()
    ensures { (t : Tree) (r : Repo) → Stands t r → IsCourse (publishing t r) [] (Remove roots_path ∷ []) }
{
    filelogs_stand_apart();
    standing_trees_show();
    entries_of_changesets();
    nodes_are_counted();
    changelog_is_whole();
}

/// Where a repository goes on from another and its files from this one's, and they still show this one's bookmarks and
/// working parents, the append of the last entries of the changelog is a course on which the history grows.
pub fn last_append_publishes()
    ensures { (t u : Tree) (r s : Repo) (entries : List ℕ) → IsRepo r → IsRepo s → IsPrefixOf r.changesets s.changesets → r.phases ≡ take (length r.changesets) s.phases → HoldsChangesets t r.changesets → HoldsChangesets u s.changesets →
        KeepsFronts t u r.changesets → bytes_at u changelog_index ≡ bytes_at t changelog_index ++ entries → Shows u r r s → IsCourse (committing t u r s) [] (Append changelog_index entries ∷ []) }
{
    filelogs_stand_apart();
    held_index_length();
    changelog_is_whole();
    roots_of_later_repository();
}
