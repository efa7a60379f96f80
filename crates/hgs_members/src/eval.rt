//! Finding the members of a set, by a stack and one pass over the history for each step.
ghost use Rattle.std.specs.Prelude.{◌≡◌, ◌<◌, true, length, List, IfOk, IfSome};
ghost use Rattle.hgs_phases.specs.Phases.{history_of};
ghost use Rattle.hgs_reader.specs.Names.{mark_named};
ghost use Rattle.hgs_revset.specs.Members.{Set as Tree};
ghost use Rattle.hgs_revset.specs.declared.step.Step.TheVariants.{All, InPhase, Marked, Name};
ghost use Rattle.hgs_members.specs.Story.{story_of};
ghost use Rattle.hgs_members.specs.Members.{marks_in, marks_of, takes_one, takes_two, AreShown, Changes, Combines, Evaluates, Steps};

use crate::answer::SetAnswer;
use crate::members::Members;
use crate::operand::{Operand, both, either};
use crate::passes::{Parents, keep_heads, keep_roots, mark_ancestors, mark_descendants};
use hgs_model::phase::Phase;
use hgs_reader::session::Session;
use hgs_revlog::revlog::Revlog;
use hgs_revset::set::Set;
use hgs_revset::step::Step;
use std::alloc::{AllocError, Global};

fn revision_marked(name: &[u8], session: &Session) -> Option<u32>
    ensures named { result ≡ mark_named session.now.changelog.entries session.now.bookmarks name.now }
    ensures below { IfSome result (λ rev. rev < length session.now.changelog.entries) }
{
    match session.loaded().bookmarks().get(name) {
        None => None,
        Some(node) => session.loaded().changelog().rev_of(&node),
    }
}

fn put_name(stack: &mut Vec<Operand>, name: &[u8], session: &Session) -> Result<(), SetAnswer>
    ensures { Steps (story_of session.now) (Name name.now) stack.old.items stack.new.items result }
{
    let Some(rev) = session.resolve(name) else {
        return Err(SetAnswer::UnknownRevision);
    };
    stack.push(Operand::One(rev))?;
    Ok(())
}

fn put_marked(stack: &mut Vec<Operand>, name: &[u8], session: &Session) -> Result<(), SetAnswer>
    ensures { Steps (story_of session.now) (Marked name.now) stack.old.items stack.new.items result }
{
    let Some(rev) = revision_marked(name, session) else {
        return Err(SetAnswer::UnknownRevision);
    };
    stack.push(Operand::One(rev))?;
    Ok(())
}

fn put_all(alloc: Global, stack: &mut Vec<Operand>, session: &Session) -> Result<(), SetAnswer>
    ensures { Steps (story_of session.now) All stack.old.items stack.new.items result }
{
    let members = Members::each(alloc, session.len())?;
    stack.push(Operand::Many(members))?;
    Ok(())
}

fn put_phase(
    alloc: Global,
    stack: &mut Vec<Operand>,
    phase: Phase,
    session: &Session,
) -> Result<(), SetAnswer>
    ensures { Steps (story_of session.now) (InPhase phase) stack.old.items stack.new.items result }
{
    let _count = session.len();
    let members = Members::in_phase(alloc, session.loaded().phases(), phase)?;
    stack.push(Operand::Many(members))?;
    Ok(())
}

// The parents of each changeset, which the passes read again and again.
fn history_of(alloc: Global, known: &Revlog) -> Result<Vec<Parents>, AllocError>
    ensures { IfOk result (λ history. history.items ≡ history_of known.now.entries) }
{
    let mut history = Vec::with_capacity(alloc, known.len() as usize)?;
    for rev in 0..known.len() {
        let entry = known.entry(rev);
        history.push((entry.p1, entry.p2))?;
    }
    Ok(history)
}

// What a step of one operand makes of it.
fn change(members: &mut Members, step: &Step, history: &[Parents])
    requires { length members.old ≡ length history.now }
    ensures { Changes history.now step.now members.old members.new }
{
    match step {
        Step::Not => members.invert(),
        Step::Ancestors => mark_ancestors(members, history),
        Step::Descendants => mark_descendants(members, history),
        Step::Heads => keep_heads(members, history),
        Step::Roots => keep_roots(members, history),
        Step::Name(_) | Step::Marked(_) | Step::All | Step::InPhase(_) | Step::And | Step::Or => {}
    }
}

fn change_top(
    alloc: Global,
    stack: &mut Vec<Operand>,
    step: &Step,
    session: &Session,
    history: &[Parents],
) -> Result<(), SetAnswer>
    requires one { takes_one step.now ≡ true }
    requires parents { history.now ≡ (story_of session.now).parents }
    requires shown { (sets : List Tree) × AreShown (story_of session.now) sets (marks_of (story_of session.now) stack.old.items) }
    ensures { Steps (story_of session.now) step.now stack.old.items stack.new.items result }
{
    if let Some(operand) = stack.pop() {
        let mut members = operand.into_members(alloc, session.len())?;
        change(&mut members, step, history);
        stack.push(Operand::Many(members))?;
    }
    Ok(())
}

// What a step of two operands makes of them.
fn combine(
    alloc: Global,
    count: u32,
    left: Operand,
    right: Operand,
    step: &Step,
) -> Result<Operand, AllocError>
    requires two { takes_two step.now ≡ true }
    requires same { length (marks_in count left) ≡ length (marks_in count right) }
    ensures { IfOk result (λ o. Combines step.now (marks_in count left) (marks_in count right) (marks_in count o)) }
{
    match step {
        Step::And => Ok(both(left, right)),
        Step::Or => either(alloc, count, left, right),
        Step::Name(_)
        | Step::Marked(_)
        | Step::All
        | Step::InPhase(_)
        | Step::Not
        | Step::Ancestors
        | Step::Descendants
        | Step::Heads
        | Step::Roots => unreachable!(),
    }
}

fn combine_tops(
    alloc: Global,
    stack: &mut Vec<Operand>,
    step: &Step,
    session: &Session,
) -> Result<(), SetAnswer>
    requires two { takes_two step.now ≡ true }
    requires shown { (sets : List Tree) × AreShown (story_of session.now) sets (marks_of (story_of session.now) stack.old.items) }
    ensures { Steps (story_of session.now) step.now stack.old.items stack.new.items result }
{
    let Some(right) = stack.pop() else {
        return Ok(());
    };
    let Some(left) = stack.pop() else {
        stack.push(right)?;
        return Ok(());
    };
    let made = combine(alloc, session.len(), left, right, step)?;
    stack.push(made)?;
    Ok(())
}

fn apply(
    alloc: Global,
    stack: &mut Vec<Operand>,
    step: &Step,
    session: &Session,
    history: &[Parents],
) -> Result<(), SetAnswer>
    requires parents { history.now ≡ (story_of session.now).parents }
    requires shown { (sets : List Tree) × AreShown (story_of session.now) sets (marks_of (story_of session.now) stack.old.items) }
    ensures { Steps (story_of session.now) step.now stack.old.items stack.new.items result }
{
    match step {
        Step::Name(name) => put_name(stack, name.as_slice(), session),
        Step::Marked(name) => put_marked(stack, name.as_slice(), session),
        Step::All => put_all(alloc, stack, session),
        Step::InPhase(phase) => put_phase(alloc, stack, *phase, session),
        Step::Not => change_top(alloc, stack, step, session, history),
        Step::Ancestors => change_top(alloc, stack, step, session, history),
        Step::Descendants => change_top(alloc, stack, step, session, history),
        Step::Heads => change_top(alloc, stack, step, session, history),
        Step::Roots => change_top(alloc, stack, step, session, history),
        Step::And => combine_tops(alloc, stack, step, session),
        Step::Or => combine_tops(alloc, stack, step, session),
    }
}

/// The members of a set: `UnknownRevision` exactly where a name or a bookmark of it names no changeset.
///
/// The time is that of one pass over the history for each operator. A name takes one number, until an operator needs a mark for
/// each changeset, which is one bit. The parents of each changeset are copied once.
pub fn eval(alloc: Global, set: &Set, session: &Session) -> Result<Members, SetAnswer>
    ensures { Evaluates (story_of session.now) set.now result }
{
    hgs_revset::laws::steps_have_names_of_set();
    let history = history_of(alloc, session.loaded().changelog())?;
    let steps = set.steps();
    let mut stack = Vec::new(alloc);
    for place in 0..steps.len() {
        apply(alloc, &mut stack, &steps[place], session, &history)?;
    }
    match stack.pop() {
        Some(operand) => {
            let members = operand.into_members(alloc, session.len())?;
            Ok(members)
        }
        // the steps leave one set
        None => unreachable!(),
    }
}
