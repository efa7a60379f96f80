//! Phase roots (Mercurial's file `store/phaseroots`).
ghost use Rattle.std.specs.Prelude.{◌≡◌, ◌<◌, length, Some};
ghost use Rattle.hgs_bytes.specs.Answer.{Gives};
ghost use Rattle.hgs_phases.specs.Roots.{phase_from, root_of, read_roots, is_memory};

use crate::fault::RootsFault;
use hgs_bytes::parts::{front, next_line, past};
use hgs_index::node::Node;
use hgs_index::texts::node_from;
use hgs_model::phase::Phase;
use std::alloc::Global;
use std::marker::Model;

/// A changeset from which on a phase holds: for it and for its descendants.
#[derive(Clone, Copy, Debug, PartialEq, Eq)]
pub struct Root {
    pub phase: Phase,
    pub node: Node,
}

/// The phase roots of a repository, in the order of their lines.
#[derive(Debug, Drop)]
pub struct Roots {
    pub(crate) roots: Vec<Root>,
}

impl Model for Roots {
    ghost use Rattle.std.specs.Prelude.{List};
    ghost use Rattle.hgs_phases.specs.declared.roots.Root.{Root};

    ghost Value = { List Root };

    ghost view = { λ r. r.roots.items };
}

/// The phase of what stands before a line's node: its digit and a space.
fn phase_of(text: &[u8]) -> Option<Phase>
    ensures { result ≡ phase_from text.now }
{
    match text {
        [b'0', b' '] => Some(Phase::Public),
        [b'1', b' '] => Some(Phase::Draft),
        [b'2', b' '] => Some(Phase::Secret),
        _ => None,
    }
}

/// The root of a line without its LF.
fn root_from(line: &[u8]) -> Option<Root>
    ensures { result ≡ root_of line.now }
{
    let phase = phase_of(front(line, 2))?;
    let node = node_from(past(line, 2))?;
    Some(Root { phase, node })
}

impl Roots {
    /// The roots of a text, or its first line that is none. The last line may lack its LF.
    pub fn read(alloc: Global, text: &[u8]) -> Result<Roots, RootsFault>
        ensures { Gives is_memory (λ r. r) result (read_roots text.now) }
    {
        let mut roots = Vec::new(alloc);
        let mut rest = text;
        let mut number = 0;
        while rest.len() > 0 {
            let (line, _, after) = next_line(rest);
            number += 1;
            let Some(root) = root_from(line) else {
                return Err(RootsFault::Line(number));
            };
            roots.push(root)?;
            rest = after;
        }
        Ok(Roots { roots })
    }

    /// The roots, in the order of their lines.
    pub fn as_slice(&self) -> &[Root]
        ensures { result.now ≡ self.now }
    {
        self.roots.as_slice()
    }

    /// How many roots there are.
    pub fn len(&self) -> usize
        ensures { result ≡ length self.now }
    {
        self.roots.len()
    }
}
