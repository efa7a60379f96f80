//! Why commands are refused. Each function is one law; none does anything but to call laws that it rests on.
ghost use Rattle.std.specs.Prelude.{◌≡◌, Bool, List, ℕ};
ghost use Rattle.hgs_answers.specs.declared.answer.Answer.{Answer};
ghost use Rattle.hgs_answers.specs.declared.outcome.Outcome.TheVariants.{NameClash};
ghost use Rattle.hgs_causes.specs.Clashes.{IsClashOf};
ghost use Rattle.hgs_causes.specs.Done.{CanBeDone, EndsAs, EndsWell};
ghost use Rattle.hgs_files.specs.Reads.{Rose};
ghost use Rattle.hgs_machine.specs.Refusals.{WereRefused};
ghost use Rattle.hgs_model.specs.Step.{Next};
ghost use Rattle.hgs_model.specs.declared.command.Command.{Command};
ghost use Rattle.hgs_writer.specs.Refusals.{refusals_of};
ghost use Rattle.hgs_files.specs.declared.op.Op.{Op};
ghost use Rattle.hgs_files.specs.Tree.{Tree};
ghost use Rattle.hgs_model.specs.Repo.{Repo};
ghost use Rattle.hgs_model.specs.Valid.{IsNewChange};
ghost use Rattle.hgs_model.specs.declared.command.Command.TheVariants.{Commit};
ghost use Rattle.hgs_model.specs.declared.command.NewChange.{NewChange};
ghost use Rattle.hgs_stands.specs.Stands.{Stands};
ghost use Rattle.hgs_writer.specs.Written.{IsWritten};

use hgs_writer::commit_laws::commits_agree;
use hgs_writer::laws::{calls_clean_up, calls_come_to_steps, done_calls_lead_on};
use hgs_writer::piece_laws::locks_do_not_matter;

/// A commit is refused for a clash only with a path that has a file with the name of one of another path, which the commit has, and that
/// is listed or the commit's too.
pub fn clashes_have_names()
    ensures { (t : Tree) (r : Repo) (n : NewChange) (who : List ℕ) (answer : Answer) (done : List Op) (other : List ℕ) → Stands t r → IsNewChange n → IsWritten who (Commit n) t answer done → answer.outcome ≡ NameClash other → IsClashOf t n other }
{
    commits_agree();
    locks_do_not_matter();
}

/// A command that a repository accepts, for which there is room, and no name of which clashes, over files without a lock and within the
/// limits: it is done, or the files failed, or there was no memory. Where no count of the files rose it is done with nothing left over, and
/// the files are clean for the next repository; or there was no memory. Names of an import may clash.
pub fn accepted_commands_are_done()
    ensures ends { (t : Tree) (r : Repo) (command : Command) (next : Next) (who : List ℕ) (answer : Answer) (done : List Op) → CanBeDone t r command next → IsWritten who command t answer done → EndsAs command answer.outcome }
    ensures well { (t : Tree) (r : Repo) (command : Command) (next : Next) (who : List ℕ) (answer : Answer) (done : List Op) (told : Bool) (faults_old faults_new denied_old denied_new : ℕ) → CanBeDone t r command next → IsWritten who command t answer done → WereRefused (refusals_of told answer) faults_old faults_new denied_old denied_new → (Rose faults_old faults_new → ⊥) → (Rose denied_old denied_new → ⊥) → EndsWell t command next answer done }
{
    clashes_have_names();
    calls_come_to_steps();
    calls_clean_up();
    done_calls_lead_on();
}
