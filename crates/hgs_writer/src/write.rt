//! A command that writes.
ghost use Rattle.std.specs.Prelude.{◌≡◌, ◌≤◌, ◌⊎◌, ◌+◌, ℕ, Bool, Option, length, is_some};
ghost use Rattle.hgs_answers.specs.declared.outcome.Outcome.TheVariants.{Fault, Unfinished};
ghost use Rattle.hgs_answers.specs.declared.outcome.Published.{Published};
ghost use Rattle.hgs_files.specs.Reads.{Rose};
ghost use Rattle.std.specs.Option.{ForSome};
ghost use Rattle.hgs_files.specs.Tree.{after_all};
ghost use Rattle.hgs_machine.specs.Planned.{IsPlanned};
ghost use Rattle.hgs_machine.specs.Refusals.{WereRefused, how_many_stand};
ghost use Rattle.hgs_machine.specs.Carry.{MayCarry, tree_now};
ghost use Rattle.hgs_files.specs.Files.{GoesOn};
ghost use Rattle.hgs_index.specs.declared.node.Node.{Node};
ghost use Rattle.hgs_writer.specs.Refusals.{paths_behind, refusals_of, refusals_of_outcome, refusals_with};
ghost use Rattle.hgs_writer.specs.Written.{IsCarriedOut, IsWritten, IsWrittenFor, MayWrite};
ghost use Rattle.hgs_model.specs.Valid.{IsValid};

use crate::answers::of_ended;
use crate::begin::{Begun, begin};
use crate::plan::Planned;
use hgs_answers::answer::Answer;
use hgs_files::files::Files;
use hgs_index::node::Node;
use hgs_machine::carry::carry_out;
use hgs_model::command::Command;
use std::alloc::Global;

// Carries out what was planned.
fn carried<F: Files>(files: &mut F, planned: Planned) -> Answer
    requires allows { MayCarry (F.log files.old) (F.allows (F.start files.old)) (F.start files.old) planned.plan }
    requires planned { ForSome (F.log files.old) (λ log. IsPlanned (after_all log (F.start files.old)) planned.plan) }
    ensures log { GoesOn (F.log files.old) (F.log files.new) (IsCarriedOut (tree_now (F.log files.old) (F.start files.old)) planned result) }
    ensures fault { result.outcome ≡ Fault → Rose (F.faults files.old) (F.faults files.new) }
    ensures unfinished { (published : Published) → result.outcome ≡ Unfinished published → Rose (F.faults files.old) (F.faults files.new) ⊎ Rose (F.denied files.old) (F.denied files.new) }
    ensures calls { (told : Bool) → WereRefused (refusals_of told result) (F.faults files.old) (F.faults files.new) (F.denied files.old) (F.denied files.new) }
    ensures left { (told : Bool) → GoesOn (F.log files.old) (F.log files.new) (λ done. WereRefused (refusals_of_outcome told result.outcome + how_many_stand (paths_behind result.outcome) (after_all done (tree_now (F.log files.old) (F.start files.old)))) (F.faults files.old) (F.faults files.new) (F.denied files.old) (F.denied files.new)) }
    ensures later { F.faults files.old ≤ F.faults files.new }
    ensures denied { F.denied files.old ≤ F.denied files.new }
    ensures same_start { F.start files.new ≡ F.start files.old }
{
    let Planned { plan, rev, node } = planned;
    let ended = carry_out(files, plan);
    Answer {
        outcome: of_ended(ended.outcome, rev, node),
        swept: ended.swept,
    }
}

/// The answer to a command, and the changeset that its transaction makes or names, where one was planned.
#[derive(Drop)]
pub struct Written {
    pub answer: Answer,
    pub changeset: Option<(u32, Node)>,
}

/// Carries out a command: takes the locks, with these bytes in them, reads what the command needs, plans its transaction and
/// does the plan's operations. Where it is refused before that, the locks that were made are removed again. The files need take no more
/// than what such a call may leave.
pub fn write_told<F: Files>(alloc: Global, files: &mut F, command: &Command, who: &[u8]) -> Written
    requires valid { IsValid command.now }
    requires least { 1 ≤ length who.now }
    requires most { length who.now ≤ 255 }
    requires allows { MayWrite who.now command.now (F.log files.old) (F.allows (F.start files.old)) (F.start files.old) }
    ensures log { GoesOn (F.log files.old) (F.log files.new) (IsWrittenFor who.now command.now (tree_now (F.log files.old) (F.start files.old)) result.answer result.changeset) }
    ensures fault { result.answer.outcome ≡ Fault → Rose (F.faults files.old) (F.faults files.new) }
    ensures unfinished { (published : Published) → result.answer.outcome ≡ Unfinished published → Rose (F.faults files.old) (F.faults files.new) ⊎ Rose (F.denied files.old) (F.denied files.new) }
    ensures calls { WereRefused (refusals_of (is_some (F.log files.old)) result.answer) (F.faults files.old) (F.faults files.new) (F.denied files.old) (F.denied files.new) }
    ensures left { GoesOn (F.log files.old) (F.log files.new) (λ done. WereRefused (refusals_with (is_some (F.log files.old)) result.answer.outcome result.changeset (tree_now (F.log files.old) (F.start files.old)) done) (F.faults files.old) (F.faults files.new) (F.denied files.old) (F.denied files.new)) }
    ensures later { F.faults files.old ≤ F.faults files.new }
    ensures denied { F.denied files.old ≤ F.denied files.new }
    ensures same_start { F.start files.new ≡ F.start files.old }
{
    match begin(alloc, files, command, who) {
        Begun::Ready(planned) => {
            let changeset = Some((planned.rev, planned.node));
            Written {
                answer: carried(files, planned),
                changeset,
            }
        }
        Begun::Refused(answer) => Written {
            answer,
            changeset: None,
        },
    }
}

/// The same, without the changeset.
pub fn write<F: Files>(alloc: Global, files: &mut F, command: &Command, who: &[u8]) -> Answer
    requires valid { IsValid command.now }
    requires least { 1 ≤ length who.now }
    requires most { length who.now ≤ 255 }
    requires allows { MayWrite who.now command.now (F.log files.old) (F.allows (F.start files.old)) (F.start files.old) }
    ensures log { GoesOn (F.log files.old) (F.log files.new) (IsWritten who.now command.now (tree_now (F.log files.old) (F.start files.old)) result) }
    ensures fault { result.outcome ≡ Fault → Rose (F.faults files.old) (F.faults files.new) }
    ensures unfinished { (published : Published) → result.outcome ≡ Unfinished published → Rose (F.faults files.old) (F.faults files.new) ⊎ Rose (F.denied files.old) (F.denied files.new) }
    ensures calls { WereRefused (refusals_of (is_some (F.log files.old)) result) (F.faults files.old) (F.faults files.new) (F.denied files.old) (F.denied files.new) }
    ensures left { GoesOn (F.log files.old) (F.log files.new) (λ done. (changeset : Option (ℕ × Node)) × IsWrittenFor who.now command.now (tree_now (F.log files.old) (F.start files.old)) result changeset done × WereRefused (refusals_with (is_some (F.log files.old)) result.outcome changeset (tree_now (F.log files.old) (F.start files.old)) done) (F.faults files.old) (F.faults files.new) (F.denied files.old) (F.denied files.new)) }
    ensures later { F.faults files.old ≤ F.faults files.new }
    ensures denied { F.denied files.old ≤ F.denied files.new }
    ensures same_start { F.start files.new ≡ F.start files.old }
{
    let Written {
        answer,
        changeset: _,
    } = write_told(alloc, files, command, who);
    answer
}
