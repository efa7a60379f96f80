//! What the definitions of this crate imply. Each function is one law; none does anything but to call laws that it rests on.
ghost use Rattle.std.specs.Prelude.{◌≡◌, [], List, None, Option, Some, ℕ};
ghost use Rattle.hgs_answers.specs.declared.answer.Answer.{Answer};
ghost use Rattle.hgs_files.specs.declared.op.Op.{Op};
ghost use Rattle.hgs_files.specs.Tree.{Tree};
ghost use Rattle.hgs_index.specs.declared.node.Node.{Node};
ghost use Rattle.hgs_journal.specs.Names.{journal_path};
ghost use Rattle.hgs_legal.specs.LegalLog.{IsRun, State, current};
ghost use Rattle.hgs_legal.specs.Numbers.{acknowledged_of, b_of, n_of, w_of};
ghost use Rattle.hgs_model.specs.Repo.{Repo};
ghost use Rattle.hgs_model.specs.Valid.{IsValid};
ghost use Rattle.hgs_model.specs.declared.command.Command.{Command};
ghost use Rattle.hgs_stands.specs.Stands.{Stands};
ghost use Rattle.hgs_legal.specs.ListsPaths.{ListsPaths};
ghost use Rattle.hgs_writer.specs.Alone.{IsBarred};
ghost use Rattle.hgs_writer.specs.Below.{Below};
ghost use Rattle.hgs_writer.specs.Written.{IsWrittenFor};
ghost use Rattle.hgs_writer.specs.Turns.{IsAtRest, LeadsAs, LeadsOn};

use crate::commit_laws::commits_agree;
use crate::import_laws::imports_agree;
use crate::piece_laws::{
    locks_do_not_matter, refusals_are_for_files, refusals_are_pieces, transactions_are_pieces,
};
use hgs_legal::laws::{numbers_rise, pieces_end, stops_are_safe};
use hgs_ops::laws::strays_hinder_nothing;
use hgs_path::laws::filelogs_have_their_own_names;
use hgs_steps::laws::{bookmark_commands_agree, phase_commands_agree};
use hgs_transaction::laws::plans_are_transactions;

/// Behind a log that writers make from a tree that stands for a repository, where no writer is at work: either no journal was
/// left, and the tree stands for the repository after what was published; or one was, and it stands there.
pub fn states_at_rest_stand()
    ensures stands { (t : Tree) (r : Repo) (log : List Op) (s : State) → Stands t r → IsRun t r log s → IsAtRest None s → Stands s.files (current s) }
    ensures journal { (t : Tree) (r : Repo) (log : List Op) (s : State) (left : List Op) → Stands t r → IsRun t r log s → IsAtRest (Some left) s → s.files journal_path ≡ None → ⊥ }
{
    numbers_rise();
    stops_are_safe();
}

/// Where no journal was left, bookmarks and working parents are as new as the changesets, and all that was published is
/// acknowledged.
pub fn states_at_rest_have_one_number()
    ensures { (s : State) → IsAtRest None s → (b_of s ≡ n_of s) × (w_of s ≡ n_of s) × (acknowledged_of s ≡ n_of s) }
{}

/// A call over a tree that stands for a repository, and lists only names of paths, goes on from any state that has these
/// files and in which no writer is at work. Where it is `Done` it publishes the transaction of its own command, with its bytes in
/// the locks and the changeset that it tells, and no other; where it is unfinished it has published that, or none, as it says;
/// and with every other answer it publishes none.
pub fn calls_publish_their_own_turns()
    ensures { (s : State) (command : Command) (who : List ℕ) (answer : Answer) (changeset : Option (ℕ × Node)) (done : List Op) → IsAtRest None s → Stands s.files (current s) → IsValid command → ListsPaths s.files (current s) → IsWrittenFor who command s.files answer changeset done →
        LeadsAs s done (record { who = who; command = command; changeset = changeset }) answer.outcome }
{
    laws_below();
    plans_are_transactions();
}

/// Beside a journal that was left a call publishes nothing, and its answer is that of a lock that is held, of an abandoned
/// transaction, or a failure.
pub fn calls_beside_a_journal_publish_nothing()
    ensures { (s : State) (left : Option (List Op)) (command : Command) (who : List ℕ) (answer : Answer) (changeset : Option (ℕ × Node)) (done : List Op) → IsAtRest left s → (s.files journal_path ≡ None → ⊥) → IsWrittenFor who command s.files answer changeset done → IsBarred answer.outcome × LeadsOn s done [] left }
{
    refusals_are_for_files();
}

/// What the laws of the crates below say.
pub(crate) fn laws_below()
    ensures { Below }
{
    transactions_are_pieces();
    refusals_are_pieces();
    refusals_are_for_files();
    pieces_end();
    locks_do_not_matter();
    phase_commands_agree();
    bookmark_commands_agree();
    commits_agree();
    imports_agree();
    strays_hinder_nothing();
    filelogs_have_their_own_names();
}
