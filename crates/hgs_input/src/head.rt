// The lines of a record that stand before its description.
ghost use Rattle.std.specs.Prelude.{[]};
ghost use Rattle.std.specs.Option.{option_map};
ghost use Rattle.hgs_changelog.specs.View.{view_when};
ghost use Rattle.hgs_input.specs.Read.{required, optional, word_of, parent_of, parents_from, user_of, date_of, phase_of, bookmark_of, branch_from, head_from};
ghost use Rattle.hgs_input.specs.View.{Reads, view_head};

use crate::fault::InputFault;
use crate::input::{Input, bad_at};
use crate::line::{behind, bookmark_from, branch_from, date_from, phase_from, user_from};
use hgs_bytes::bytes::Bytes;
use hgs_bytes::names::Names;
use hgs_bytes::parts::equal;
use hgs_changelog::date::When;
use hgs_model::phase::Phase;
use std::alloc::Global;

/// What stands before the description.
#[derive(Drop)]
pub(crate) struct Head<'a> {
    pub parents: Names,
    pub user: &'a [u8],
    pub date: When,
    pub phase: Option<Phase>,
    pub bookmark: Option<&'a [u8]>,
    pub branch: Option<&'a [u8]>,
}

impl<'a> Input<'a> {
    /// Reads the line that says just this word.
    pub(crate) fn word(&mut self, word: &[u8]) -> Result<(), InputFault>
        ensures { Reads (λ w. w) result self.new (required (word_of word.now) self.old) }
    {
        let (line, rest) = self.line()?;
        if !equal(line, word) {
            return Err(bad_at(self.place()));
        }
        *self = rest;
        Ok(())
    }

    fn parent(&mut self) -> Result<Option<&'a [u8]>, InputFault>
        ensures { Reads (option_map (λ x. x.now)) result self.new (optional parent_of self.old) }
    {
        let (line, rest) = self.line()?;
        let Some(name) = behind(line, b"parent ") else {
            return Ok(None);
        };
        *self = rest;
        Ok(Some(name))
    }

    // At most two parents.
    fn parents(&mut self, alloc: Global) -> Result<Names, InputFault>
        ensures { Reads (λ names. names) result self.new (parents_from 2 [] self.old) }
    {
        let mut names = Names::new(alloc);
        while names.len() < 2 {
            let Some(name) = self.parent()? else {
                return Ok(names);
            };
            names.push(Bytes::from_slice(alloc, name)?)?;
        }
        Ok(names)
    }

    fn user(&mut self) -> Result<&'a [u8], InputFault>
        ensures { Reads (λ x. x.now) result self.new (required user_of self.old) }
    {
        let (line, rest) = self.line()?;
        let Some(user) = user_from(line) else {
            return Err(bad_at(self.place()));
        };
        *self = rest;
        Ok(user)
    }

    fn date(&mut self, alloc: Global) -> Result<When, InputFault>
        ensures { Reads view_when result self.new (required date_of self.old) }
    {
        let (line, rest) = self.line()?;
        let Some(date) = date_from(alloc, line)? else {
            return Err(bad_at(self.place()));
        };
        *self = rest;
        Ok(date)
    }

    fn phase(&mut self) -> Result<Option<Phase>, InputFault>
        ensures { Reads (λ p. p) result self.new (optional phase_of self.old) }
    {
        let (line, rest) = self.line()?;
        let Some(phase) = phase_from(line) else {
            return Ok(None);
        };
        *self = rest;
        Ok(Some(phase))
    }

    fn bookmark(&mut self) -> Result<Option<&'a [u8]>, InputFault>
        ensures { Reads (option_map (λ x. x.now)) result self.new (optional bookmark_of self.old) }
    {
        let (line, rest) = self.line()?;
        let Some(name) = bookmark_from(line) else {
            return Ok(None);
        };
        *self = rest;
        Ok(Some(name))
    }

    fn branch(&mut self) -> Result<Option<&'a [u8]>, InputFault>
        ensures { Reads (option_map (λ x. x.now)) result self.new (branch_from self.old) }
    {
        let (line, rest) = self.line()?;
        let Some(branch) = branch_from(line) else {
            return Ok(None);
        };
        *self = rest;
        Ok(branch)
    }

    /// Reads all that stands before the description.
    pub(crate) fn head(&mut self, alloc: Global) -> Result<Head<'a>, InputFault>
        ensures { Reads view_head result self.new (head_from self.old) }
    {
        self.word(b"commit")?;
        let parents = self.parents(alloc)?;
        let user = self.user()?;
        let date = self.date(alloc)?;
        let phase = self.phase()?;
        let bookmark = self.bookmark()?;
        let branch = self.branch()?;
        Ok(Head {
            parents,
            user,
            date,
            phase,
            bookmark,
            branch,
        })
    }
}
