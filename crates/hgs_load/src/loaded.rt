//! What was loaded of a repository.

use crate::marks::WorkingParents;
use hgs_marks::bookmarks::Bookmarks;
use hgs_phases::phases::Phases;
use hgs_revlog::revlog::Revlog;
use std::marker::Model;

/// What was loaded of a repository: its history, and what its bookmarks, working parents and phases were beside it.
#[derive(Drop)]
pub struct Loaded {
    changelog: Revlog,
    bookmarks: Bookmarks,
    working: WorkingParents,
    phases: Phases,
}

impl Model for Loaded {
    ghost use Rattle.std.specs.Prelude.{◌≡◌, ◌<◌, length, IfSome};
    ghost use Rattle.hgs_load.specs.Marks.{working_of};
    ghost use Rattle.hgs_load.specs.View.{View};

    ghost Value = { View };

    ghost view = { λ s. record { changelog = s.changelog; bookmarks = s.bookmarks; working = working_of s.working; phases = s.phases } };

    ghost invariant = { λ s. IfSome s.working.first (λ rev. rev < length s.changelog.entries) × IfSome s.working.second (λ rev. rev < length s.changelog.entries) × (length s.phases ≡ length s.changelog.entries) };
}

impl Loaded {
    ghost use Rattle.std.specs.Prelude.{◌≡◌, ◌<◌, length, IfSome};
    ghost use Rattle.hgs_load.specs.Marks.{working_of};

    /// What holds these parts.
    pub fn of(
        changelog: Revlog,
        bookmarks: Bookmarks,
        working: WorkingParents,
        phases: Phases,
    ) -> Loaded
        requires first { IfSome working.first (λ rev. rev < length changelog.entries) }
        requires second { IfSome working.second (λ rev. rev < length changelog.entries) }
        requires phases { length phases ≡ length changelog.entries }
        ensures { result ≡ record { changelog = changelog; bookmarks = bookmarks; working = working_of working; phases = phases } }
    {
        Loaded {
            changelog,
            bookmarks,
            working,
            phases,
        }
    }

    /// The history.
    pub fn changelog(&self) -> &Revlog
        ensures { result.now ≡ self.now.changelog }
    {
        &self.changelog
    }

    pub fn bookmarks(&self) -> &Bookmarks
        ensures { result.now ≡ self.now.bookmarks }
    {
        &self.bookmarks
    }

    /// The changesets that are the working parents.
    pub fn working(&self) -> WorkingParents
        ensures value { working_of result ≡ self.now.working }
        ensures first { IfSome result.first (λ rev. rev < length self.now.changelog.entries) }
        ensures second { IfSome result.second (λ rev. rev < length self.now.changelog.entries) }
    {
        self.working
    }

    /// The phase of each changeset.
    pub fn phases(&self) -> &Phases
        ensures value { result.now ≡ self.now.phases }
        ensures all { length result.now ≡ length self.now.changelog.entries }
    {
        &self.phases
    }
}
