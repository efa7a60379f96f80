//! The definitions tried on files that Mercurial wrote, on those of a commit that was begun on them, and on the same with an
//! inline changelog. Each function is one example; none does anything but to call laws that it rests on.
ghost use Rattle.std.specs.Prelude.{◌≡◌, ℕ, Ok, Some, slice_get, true};
ghost use Rattle.hgs_model.specs.Repo.{Changeset};
ghost use Rattle.hgs_load.specs.Asks.{at_rest};
ghost use Rattle.hgs_load.specs.Open.{open_asks};
ghost use Rattle.hgs_load.specs.View.{View};
ghost use Rattle.hgs_shown.specs.Limits.{OpensWithin, ReadsWithin};
ghost use Rattle.hgs_shown.specs.Samples.{inline_drafts_files};
ghost use Rattle.hgs_shown.specs.Shown.{IsShown, IsViewOf, IsViewOver};
ghost use Rattle.hgs_stands.specs.Samples.{third_begun_files, two_drafts, two_drafts_files};
ghost use Rattle.hgs_stands.specs.Stands.{Stands};

use crate::laws::{
    contents_of_what_is_shown, contents_show_repository, load_shows_repository,
    load_shows_what_is_shown,
};
use hgs_index::laws::inline_taken_apart;
use hgs_load::laws::refreshes_read_what_is_new;
use hgs_stands::examples::{begun_commit_is_open, two_drafts_stand};

/// All trees here are within a reader's limits.
pub fn samples_are_small()
    ensures drafts_open { OpensWithin two_drafts_files two_drafts two_drafts }
    ensures drafts_read { ReadsWithin two_drafts_files two_drafts }
    ensures begun_open { OpensWithin third_begun_files two_drafts two_drafts }
    ensures begun_read { ReadsWithin third_begun_files two_drafts }
    ensures inline_open { OpensWithin inline_drafts_files two_drafts two_drafts }
    ensures inline_read { ReadsWithin inline_drafts_files two_drafts }
{}

/// So a load gives the view of the two changesets, also beside the commit that was begun, and all that is asked of each is
/// answered as it was committed.
pub fn samples_are_shown()
    ensures drafts { (view : View) × (at_rest two_drafts_files open_asks ≡ Ok view) × IsViewOf view two_drafts_files two_drafts × ((rev : ℕ) (c : Changeset) → slice_get two_drafts.changesets rev ≡ Some c → IsShown two_drafts_files view rev c) }
    ensures begun { (view : View) × (at_rest third_begun_files open_asks ≡ Ok view) × IsViewOver view third_begun_files two_drafts two_drafts two_drafts × ((rev : ℕ) (c : Changeset) → slice_get two_drafts.changesets rev ≡ Some c → IsShown third_begun_files view rev c) }
{
    samples_are_small();
    two_drafts_stand();
    begun_commit_is_open();
    load_shows_repository();
    load_shows_what_is_shown();
    contents_show_repository();
    contents_of_what_is_shown();
}

/// With an inline changelog the files stand for the same two changesets; a load finds it inline, and all that is asked of each
/// changeset is answered as it was committed.
pub fn inline_changelog_is_shown()
    ensures stands { Stands inline_drafts_files two_drafts }
    ensures shown { (view : View) × (at_rest inline_drafts_files open_asks ≡ Ok view) × (view.changelog.inline ≡ true) × IsViewOf view inline_drafts_files two_drafts × ((rev : ℕ) (c : Changeset) → slice_get two_drafts.changesets rev ≡ Some c → IsShown inline_drafts_files view rev c) }
{
    samples_are_small();
    two_drafts_stand();
    inline_taken_apart();
    refreshes_read_what_is_new();
    load_shows_repository();
    contents_show_repository();
}
