//! What the definitions of this crate imply. Each function is one law; none does anything but to call laws that it rests on.
ghost use Rattle.std.specs.Prelude.{◌≡◌, ◌⊎◌, ℕ, List, [], Ok, Option, Some, None, length, slice_get};
ghost use Rattle.hex.specs.Hex.{IsBytes};
ghost use Rattle.hgs_files.specs.Tree.{Tree, bytes_at};
ghost use Rattle.hgs_index.specs.Revision.{nodes};
ghost use Rattle.hgs_revlog.specs.Held.{AreWithinLimits};
ghost use Rattle.hgs_load.specs.Asks.{at_rest};
ghost use Rattle.hgs_reader.specs.Line.{change_asks};
ghost use Rattle.hgs_load.specs.View.{View, changelog_index};
ghost use Rattle.hgs_load.specs.Open.{open_asks, requires_path};
ghost use Rattle.hgs_top.specs.History.{Changeset, HoldsHistory, IsReadWhole, Opens, chunks_in, history_text, revisions_of};
ghost use Rattle.hgs_top.specs.IndexLaws.{IndexLaws};
ghost use Rattle.hgs_model.specs.Repo.{Repo};
ghost use Rattle.hgs_shown.specs.Answers.{IsReadable};
ghost use Rattle.hgs_top.specs.Outcome.{log_outcome};
ghost use Rattle.hgs_top.specs.Repository.{reply_of};
ghost use Rattle.hgs_files.specs.Reads.{Rose};
ghost use Rattle.hgs_files.specs.Streams.{IsWritten};
ghost use Rattle.hgs_findings.specs.Findings.{Finding, IsReport};
ghost use Rattle.hgs_top.specs.Run.{IsReportable, Verifies, reply_to};
ghost use Rattle.hgs_top.specs.Verified.{report_status, report_text};
ghost use Rattle.hgs_top.specs.Words.{Job, Question, request_of_words, to_do};
ghost use Rattle.hgs_answers.specs.declared.answer.Answer.{Answer};
ghost use Rattle.hgs_files.specs.declared.op.Op.{Op};
ghost use Rattle.hgs_files.specs.Log.{IsDone};
ghost use Rattle.hgs_files.specs.Stop.{IsStopped};
ghost use Rattle.hgs_files.specs.Tree.{after_all};
ghost use Rattle.hgs_machine.specs.Refusals.{WereRefused};
ghost use Rattle.hgs_model.specs.Valid.{IsValid};
ghost use Rattle.hgs_model.specs.declared.command.Command.{Command};
ghost use Rattle.hgs_stands.specs.Stands.{Stands};
ghost use Rattle.hgs_legal.specs.ListsPaths.{ListsOnlyPaths};
ghost use Rattle.hgs_top.specs.Growth.{GrowsRepository};
ghost use Rattle.hgs_top.specs.Histories.{GoesOnAs, IsBare, IsNew, IsTold, MakesHistory};
ghost use Rattle.hgs_top.specs.Orders.{ComesTo, IsCommandOf, Obeys, init_operations};
ghost use Rattle.hgs_top.specs.declared.ended.Ended.TheVariants.{Answered};

use hgs_grown::laws::{growing_may_stop_anywhere, grown_repositories_stand};
use hgs_input::laws::{read_imports_are_imports, read_records_are_records};
use hgs_legal::list_laws::new_repositories_list_paths;
use hgs_load::laws::{files_are_read_whole, separate_indexes_are_asked};
use hgs_recover::laws::{nothing_but_leftovers_is_removed, recovering_leads_back};
use hgs_revlog::laws::{either_form, inline_index};
use hgs_stands::laws::requires_alone;
use hgs_writer::laws::calls_leave_what_they_answer;

// What is asked of the changelog's index in either form, and what it loads as.
fn indexes_are_loaded()
    ensures { IndexLaws }
{
    either_form();
    inline_index();
    files_are_read_whole();
    separate_indexes_are_asked();
}

/// Over files that hold a history within the limits, and the other files of which can be read, `log` writes a line for each changeset, newest first, and is not
/// refused.
pub fn log_of_history()
    ensures { (t : Tree) (history : List Changeset) → HoldsHistory t history → Opens t (nodes (revisions_of history)) → AreWithinLimits (revisions_of history) (chunks_in t) → IsReadWhole t → log_outcome t ≡ record { text = history_text history; refusal = None } }
{
    indexes_are_loaded();
}

/// Where `log` is not refused, the files hold a history, and what was written are its lines.
pub fn log_tells_history()
    ensures { (t : Tree) → IsBytes (bytes_at t changelog_index) → (log_outcome t).refusal ≡ None → (history : List Changeset) × HoldsHistory t history × ((log_outcome t).text ≡ history_text history) }
{
    indexes_are_loaded();
}

/// Over files that hold a history within the limits, and the other files of which can be read, a session has as many changesets, and each of them is read as its own.
pub fn changesets_of_history()
    ensures { (t : Tree) (history : List Changeset) → HoldsHistory t history → Opens t (nodes (revisions_of history)) → AreWithinLimits (revisions_of history) (chunks_in t) → IsReadWhole t →
        (view : View) × (at_rest t open_asks ≡ Ok view) × (length view.changelog.entries ≡ length history) × ((rev : ℕ) (c : Changeset) → slice_get history rev ≡ Some c → at_rest t (change_asks view rev) ≡ Ok c.change) }
{
    indexes_are_loaded();
}

/// Over files that stand for a repository, within a reader's limits, each question is answered with the repository's text; a name that names nothing is unknown, and so is a path that is not in its changeset.
pub fn replies_of_repository()
    ensures { (t : Tree) (r : Repo) → IsReadable t r → (question : Question) → reply_to question t ≡ reply_of r question }
{
    hgs_shown::answers::answers_of_repository();
    hgs_shown::laws::contents_show_repository();
    hgs_model::laws::named_is_there();
    hgs_revset::laws::members_of_alike();
    hgs_sets_shown::laws::views_tell_repositories();
}

/// A command that words and input give is one that a repository takes: each text of a commit is one that a record can hold, and
/// each name that is set is a bookmark's.
pub fn commands_are_valid()
    ensures { (words : List (List ℕ)) (job : Job) (left : Option (List ℕ)) (command : Command) → request_of_words words ≡ Ok (to_do job) → IsTold job left → IsCommandOf job left command → IsValid command }
{
    read_records_are_records();
    read_imports_are_imports();
}

/// Over files that stand for a repository, and whose list of filelogs has only names of paths, the operations of a command that was
/// answered are pieces of a legal log of just that command; the files then stand for what its answer says, with such a list again; and
/// wherever it is stopped, they stand for the repository before, or are open for it, or stand for the next one.
pub fn answered_commands_make_histories()
    ensures { (job : Job) (left : Option (List ℕ)) (log : List Op) (new : Option (List Op)) (start : Tree) (r : Repo) (command : Command) (answer : Answer) → Stands (after_all log start) r → IsValid command → ListsOnlyPaths (after_all log start) →
        ComesTo job left (Some log) new start (Answered command answer) → GoesOnAs log new start r command answer.outcome }
{
    calls_leave_what_they_answer();
}

/// A new repository is an empty one: where none of its files stood, and no journal, making `requires` leaves files that stand for it, and
/// wherever that is stopped, `requires` is as it was or the files do so.
pub fn new_repositories_are_empty()
    ensures made { (t : Tree) (done : List Op) → IsBare t → IsDone init_operations done [] → IsNew (after_all done t) }
    ensures stops { (t : Tree) (done left d : List Op) → IsBare t → IsDone init_operations done left → IsStopped done d → (after_all d t requires_path ≡ t requires_path) ⊎ IsNew (after_all d t) }
{
    requires_alone();
    new_repositories_list_paths();
}

/// So of a run that did what its words ask for: a command of a transaction did nothing, or made a history of just that command, from files
/// that stood for a repository and whose list of filelogs had only names of paths; a recovery led back from each of its stops; and a new
/// repository is an empty one, or is not there yet, wherever making it was stopped.
pub fn runs_make_histories()
    ensures { (words : List (List ℕ)) (left : Option (List ℕ)) (old new : Option (List Op)) (start : Tree) (status : ℕ) (written_old written_new : Option (List ℕ)) (faults_old faults_new denied_old denied_new : ℕ) → Obeys (λ n. WereRefused n faults_old faults_new denied_old denied_new) (request_of_words words) left old new start status written_old written_new → MakesHistory words left old new start }
{
    commands_are_valid();
    answered_commands_make_histories();
    new_repositories_are_empty();
    recovering_leads_back();
    nothing_but_leftovers_is_removed();
}

/// So of a run that generates a repository where none of its files stood: wherever it is stopped there is no `requires` yet, or the files
/// stand for what an empty repository becomes by some of the changesets, or can be taken back to that; and where it ends with a report,
/// they stand for what it becomes by all.
pub fn runs_grow_repositories()
    ensures { (words : List (List ℕ)) (left : Option (List ℕ)) (old new : Option (List Op)) (start : Tree) (status : ℕ) (written_old written_new : Option (List ℕ)) (faults_old faults_new denied_old denied_new : ℕ) → Obeys (λ n. WereRefused n faults_old faults_new denied_old denied_new) (request_of_words words) left old new start status written_old written_new → GrowsRepository words old new start status }
{
    new_repositories_are_empty();
    grown_repositories_stand();
    growing_may_stop_anywhere();
}

/// A run that verifies and ends with 0 or 29 has written the whole report of the tree, of which no part passes a limit, and ends
/// with 29 exactly where that has a finding.
pub fn reports_are_told_whole()
    ensures { (faults_old faults_new : ℕ) (log : List Op) (start : Tree) (status : ℕ) (written_old written_new : Option (List ℕ)) → Verifies (Rose faults_old faults_new) (Some log) start status written_old written_new → (status ≡ 0) ⊎ (status ≡ 29) →
        IsReportable (after_all log start) × (findings : List Finding) × (changesets : ℕ) × (filelogs : ℕ) × IsReport (after_all log start) findings changesets filelogs × (status ≡ report_status findings) × IsWritten written_old written_new (report_text findings changesets filelogs) }
{}
