//! Members of a set, as a mark for each changeset.
ghost use Rattle.std.specs.Prelude.{◌≡◌, ◌<◌, ◌≤◌, ◌^◌, ◌==◌, ℕ, false, true, not, length, map, replicate, slice_index_or, slice_set, if◌then◌else◌, IfOk};
ghost use Rattle.hgs_model.specs.Phase.{phase_number};
ghost use Rattle.hgs_members.specs.Members.{AreBoth, AreEither};

use crate::bits;
use hgs_model::phase::Phase;
use hgs_phases::phases::Phases;
use std::alloc::{AllocError, Global};
use std::marker::Model;

/// The members of a set, one bit for each changeset. Contracts see them as a mark for each.
#[derive(Debug, Drop)]
pub struct Members {
    words: Vec<u64>,
    count: u32,
}

impl Model for Members {
    ghost use Rattle.std.specs.Prelude.{◌≡◌, Bool, List, length};
    ghost use Rattle.hgs_members.specs.Bits.{bits_of, words_for};

    ghost Value = { List Bool };

    ghost view = { λ m. bits_of m.words.items m.count };

    ghost invariant = { λ m. length m.words.items ≡ words_for m.count };
}

impl Members {
    /// Whether a changeset is a member.
    pub fn has(&self, rev: u32) -> bool
        ensures { result ≡ slice_index_or self.now rev false }
    {
        rev < self.count && self.words[(rev / 64) as usize] & (1u64 << (rev % 64)) != 0
    }

    /// Of how many changesets these are some.
    pub(crate) fn len(&self) -> u32
        ensures { result ≡ length self.now }
    {
        self.count
    }

    /// Of so many changesets none.
    pub(crate) fn none(alloc: Global, count: u32) -> Result<Members, AllocError>
        ensures { IfOk result (λ m. m ≡ replicate count false) }
    {
        Ok(Members {
            words: bits::filled(alloc, 0, bits::words_for(count))?,
            count,
        })
    }

    /// Of so many changesets each one.
    pub(crate) fn each(alloc: Global, count: u32) -> Result<Members, AllocError>
        ensures { IfOk result (λ m. m ≡ replicate count true) }
    {
        Ok(Members {
            words: bits::filled(alloc, u64::MAX, bits::words_for(count))?,
            count,
        })
    }

    /// Adds a changeset.
    pub(crate) fn add(&mut self, rev: u32)
        ensures { self.new ≡ slice_set self.old rev true }
    {
        if rev < self.count {
            let word = self.words[(rev / 64) as usize];
            self.words[(rev / 64) as usize] = word | (1u64 << (rev % 64));
        }
    }

    // Adds a changeset, if it is wanted.
    fn add_when(&mut self, wanted: bool, rev: u32)
        ensures { self.new ≡ (if wanted then slice_set self.old rev true else self.old) }
    {
        if wanted {
            self.add(rev);
        }
    }

    /// Takes a changeset away.
    pub(crate) fn remove(&mut self, rev: u32)
        ensures { self.new ≡ slice_set self.old rev false }
    {
        if rev < self.count {
            let word = self.words[(rev / 64) as usize];
            self.words[(rev / 64) as usize] = word & !(1u64 << (rev % 64));
        }
    }

    /// The changesets of a phase.
    pub(crate) fn in_phase(
        alloc: Global,
        phases: &Phases,
        phase: Phase,
    ) -> Result<Members, AllocError>
        requires { length phases.now < 2 ^ 32 }
        ensures { IfOk result (λ m. m ≡ map (λ p. phase_number p == phase_number phase) phases.now) }
    {
        let count = phases.len() as u32;
        let mut members = Members::none(alloc, count)?;
        for rev in 0..count {
            members.add_when(phases.get(rev).number() == phase.number(), rev);
        }
        Ok(members)
    }

    /// A number up to which no changeset is a member.
    pub(crate) fn first(&self) -> u32
        ensures top { result ≤ length self.now }
        ensures none { (i : ℕ) → i < result → slice_index_or self.now i false ≡ false }
    {
        let count = self.count;
        let place = bits::empty_before(&self.words);
        if place < self.words.len() {
            (64 * place) as u32
        } else {
            count
        }
    }

    /// A number from which on no changeset is a member.
    pub(crate) fn end(&self) -> u32
        ensures top { result ≤ length self.now }
        ensures none { (i : ℕ) → result ≤ i → slice_index_or self.now i false ≡ false }
    {
        let count = self.count;
        let end = 64 * bits::used(&self.words);
        if end < count as usize {
            end as u32
        } else {
            count
        }
    }

    /// Takes each mark away where it stands, and makes it where it does not.
    pub(crate) fn invert(&mut self)
        ensures count { length self.new ≡ length self.old }
        ensures each { (i : ℕ) → i < length self.old → slice_index_or self.new i false ≡ not (slice_index_or self.old i false) }
    {
        bits::invert(&mut self.words);
    }

    /// Keeps the marks that the others have too.
    pub(crate) fn meet(&mut self, others: &Members)
        requires { length self.old ≡ length others.now }
        ensures { AreBoth self.old others.now self.new }
    {
        bits::meet(&mut self.words, &others.words);
    }

    /// Adds the marks of the others.
    pub(crate) fn join(&mut self, others: &Members)
        requires { length self.old ≡ length others.now }
        ensures { AreEither self.old others.now self.new }
    {
        bits::join(&mut self.words, &others.words);
    }
}
