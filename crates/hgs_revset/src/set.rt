//! Sets of revisions.
ghost use Rattle.std.specs.Prelude.{◌≡◌};
ghost use Rattle.hgs_bytes.specs.Answer.{Gives};
ghost use Rattle.hgs_revset.specs.Fault.{is_memory};
ghost use Rattle.hgs_revset.specs.Postfix.{set_of, IsWhole};
ghost use Rattle.hgs_revset.specs.Read.{read_set};

use crate::fault::SetFault;
use crate::laws::read_steps_are_whole;
use crate::read::read_steps;
use crate::step::Step;
use std::alloc::Global;
use std::marker::Model;

/// A set of revisions, as it is written, whatever the history is. Contracts see it as a tree.
#[derive(Debug, Drop)]
pub struct Set {
    /// The tree in postfix form.
    steps: Vec<Step>,
}

impl Model for Set {
    ghost use Rattle.hgs_revset.specs.Members.{Set as Tree};
    ghost use Rattle.hgs_revset.specs.Postfix.{set_of, IsWhole};
    ghost use Rattle.hgs_revset.specs.Stored.{set_code};

    ghost Value = { Tree };

    ghost coded = { set_code };

    ghost view = { λ s. set_of s.steps.items };

    ghost invariant = { λ s. IsWhole s.steps.items };
}

impl Set {
    /// The set of a text, or the place of the first token that does not fit.
    pub fn read(alloc: Global, bytes: &[u8]) -> Result<Set, SetFault>
        ensures { Gives is_memory (λ s. s) result (read_set bytes.now) }
    {
        read_steps_are_whole();
        match read_steps(alloc, bytes) {
            Ok(steps) => Ok(Set { steps }),
            Err(fault) => Err(fault),
        }
    }

    /// The steps that make the set, in postfix form.
    pub fn steps(&self) -> &[Step]
        ensures whole { IsWhole result.now }
        ensures tree { set_of result.now ≡ self.now }
    {
        &self.steps
    }
}
