// Moving phases along the history.
ghost use Rattle.std.specs.Prelude.{◌≡◌, ◌==◌, ◌||◌, ◌<◌, false, true, length, replicate, slice_set, slice_index_or, if◌then◌else◌};
ghost use Rattle.hgs_phases.specs.Moves.{advanced, retracted, is_marked, lowered, marked};
ghost use Rattle.hgs_phases.specs.Phases.{history_of, raised};

use crate::phases::{Phases, phase_at, raise};
use hgs_index::entry::Entry;
use hgs_model::phase::Phase;
use hgs_revlog::revlog::Revlog;

fn is_marked(marks: &[bool], parent: Option<u32>) -> bool
    ensures { result ≡ is_marked marks.now parent }
{
    match parent {
        None => false,
        Some(rev) => match marks.get(rev as usize) {
            None => false,
            Some(mark) => *mark,
        },
    }
}

/// Whether a changeset is the one of a move or has a marked parent before it.
fn is_reached(marks: &[bool], rev: u32, child: u32, entry: &Entry) -> bool
    ensures { result ≡ ((rev == child) || (is_marked marks.now entry.now.p1 || is_marked marks.now entry.now.p2)) }
{
    rev == child || is_marked(marks, entry.p1) || is_marked(marks, entry.p2)
}

/// Marks a changeset where it is reached, and raises its phase then.
fn retract_one(phases: &mut Vec<Phase>, marks: &mut Vec<bool>, child: u32, to: Phase, reached: bool)
    requires phase { child < length phases.old.items }
    requires mark { child < length marks.old.items }
    ensures phases { phases.new.items ≡ (if reached then raised phases.old.items child to else phases.old.items) }
    ensures marks { marks.new.items ≡ slice_set marks.old.items child reached }
{
    marks[child as usize] = reached;
    if reached {
        raise(phases, child, to);
    }
}

/// Raises the phases of a changeset and its descendants.
fn retract_all(phases: &mut Vec<Phase>, marks: &mut Vec<bool>, rev: u32, to: Phase, known: &Revlog)
    requires phases { length phases.old.items ≡ length known.now.entries }
    requires marks { length marks.old.items ≡ length known.now.entries }
    ensures phases { phases.new.items ≡ retracted (history_of known.now.entries) rev to phases.old.items }
    ensures marks { length marks.new.items ≡ length phases.new.items }
{
    for child in 0..known.len() {
        let before = &marks[..child as usize];
        let reached = is_reached(before, rev, child, known.entry(child));
        retract_one(phases, marks, child, to, reached);
    }
}

/// Lowers the phase of a changeset to a phase, if it is above.
fn lower(phases: &mut Vec<Phase>, rev: u32, to: Phase)
    requires { rev < length phases.old.items }
    ensures { phases.new.items ≡ lowered phases.old.items rev to }
{
    let phase = phase_at(phases, rev).or_lesser(to);
    phases[rev as usize] = phase;
}

/// Marks a parent, where there is one.
fn mark(marks: &mut Vec<bool>, parent: Option<u32>)
    ensures { marks.new.items ≡ marked marks.old.items parent }
{
    if let Some(rev) = parent {
        if let Some(mark) = marks.get_mut(rev as usize) {
            *mark = true;
        }
    }
}

/// Marks one changeset alone.
fn mark_only(marks: &mut Vec<bool>, rev: u32)
    requires { rev < length marks.old.items }
    ensures { marks.new.items ≡ slice_set (replicate (length marks.old.items) false) rev true }
{
    marks.fill(false);
    marks[rev as usize] = true;
}

/// Lowers a changeset's phase and marks its parents, where it is marked.
fn advance_one(phases: &mut Vec<Phase>, marks: &mut Vec<bool>, rev: u32, to: Phase, entry: &Entry)
    requires phase { rev < length phases.old.items }
    requires mark { rev < length marks.old.items }
    ensures phases { phases.new.items ≡ (if slice_index_or marks.old.items rev false then lowered phases.old.items rev to else phases.old.items) }
    ensures marks { marks.new.items ≡ (if slice_index_or marks.old.items rev false then marked (marked marks.old.items entry.now.p1) entry.now.p2 else marks.old.items) }
{
    if marks[rev as usize] {
        lower(phases, rev, to);
        mark(marks, entry.p1);
        mark(marks, entry.p2);
    }
}

/// Lowers the phases of a changeset and its ancestors.
fn advance_all(phases: &mut Vec<Phase>, marks: &mut Vec<bool>, rev: u32, to: Phase, known: &Revlog)
    requires phases { length phases.old.items ≡ length known.now.entries }
    requires marks { length marks.old.items ≡ length known.now.entries }
    requires stands { rev < length known.now.entries }
    ensures phases { phases.new.items ≡ advanced (history_of known.now.entries) rev to phases.old.items }
    ensures marks { length marks.new.items ≡ length phases.new.items }
{
    mark_only(marks, rev);
    for ancestor in (0..=rev).rev() {
        advance_one(phases, marks, ancestor, to, known.entry(ancestor));
    }
}

impl Phases {
    /// Lowers the phases of a changeset and its ancestors to at most `to`, in one pass over the changesets up to it.
    ///
    /// `known` is the changelog whose phases these are.
    pub fn advance(&mut self, rev: u32, to: Phase, known: &Revlog)
        requires known { length self.old ≡ length known.now.entries }
        requires stands { rev < length self.old }
        ensures { self.new ≡ advanced (history_of known.now.entries) rev to self.old }
    {
        advance_all(&mut self.phases, &mut self.marks, rev, to, known);
    }

    /// Raises the phases of a changeset and its descendants to at least `to`, in one pass over the changesets.
    ///
    /// `known` is the changelog whose phases these are.
    pub fn retract(&mut self, rev: u32, to: Phase, known: &Revlog)
        requires known { length self.old ≡ length known.now.entries }
        requires stands { rev < length self.old }
        ensures { self.new ≡ retracted (history_of known.now.entries) rev to self.old }
    {
        retract_all(&mut self.phases, &mut self.marks, rev, to, known);
    }
}
