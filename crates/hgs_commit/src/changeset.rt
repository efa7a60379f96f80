//! The texts of a commit's manifest and changeset, and what they become.
ghost use Rattle.std.specs.Prelude.{◌≡◌, ◌<◌, ◌^◌, true, false, is_some, length, IfOk, IfSome};
ghost use Rattle.hgs_index.specs.ChangeText.{change_text};
ghost use Rattle.hgs_loading.specs.Found.{Finds};
ghost use Rattle.hgs_load.specs.Answer.{HasFaultCause};
ghost use Rattle.hgs_load.specs.View.{changelog_index};
ghost use Rattle.hgs_reader.specs.Contents.{manifest_index};
ghost use Rattle.hgs_revlog.specs.Loaded.{AreEntries};
ghost use Rattle.hgs_commit.specs.Changeset.{change_of, changeset_in, manifest_in};
ghost use Rattle.hgs_commit.specs.Hindered.{is_met};
ghost use Rattle.hgs_commit.specs.Obstacles.{met_of, noting};
ghost use Rattle.hgs_commit.specs.Pushed.{AppendsTo, Pushes};
ghost use Rattle.hgs_commit.specs.Texts.{view_text};
ghost use Rattle.hgs_model.specs.Step.{branch_extras};

use crate::hindrance::Hindrances;
use crate::new_text::NewText;
use crate::texts::new_text;
use hgs_bytes::bytes::Bytes;
use hgs_bytes::names::Names;
use hgs_changelog::text::ChangeText;
use hgs_files::files::Reads;
use hgs_index::node::Node;
use hgs_load::answer::ReadAnswer;
use hgs_loading::store::changelog_paths;
use hgs_manifest::manifest::Manifest;
use hgs_model::command::NewChange;
use hgs_reader::contents::manifest_paths;
use hgs_revlog::revlog::Revlog;
use std::alloc::{AllocError, Global};

/// What a manifest of these rows becomes.
pub fn new_manifest<R: Reads>(
    alloc: Global,
    files: &mut R,
    manifest: &Revlog,
    rows: &Manifest,
    parents: (Option<u32>, Option<u32>),
    link: u32,
    met: &mut Hindrances,
) -> Result<NewText, ReadAnswer>
    requires entries { AreEntries manifest.now.entries }
    requires first { IfSome parents.0 (λ rev. rev < length manifest.now.entries) }
    requires second { IfSome parents.1 (λ rev. rev < length manifest.now.entries) }
    requires link { link < 2 ^ 31 }
    ensures found { Finds (λ x. (view_text x, met_of met.new)) R.alone (R.seen files.new) (R.start files.new) (λ t. noting (met_of met.old) (manifest_in manifest.now rows.now parents link t)) result }
    ensures clash { met.new.clash ≡ met.old.clash }
    ensures index { manifest.now.inline ≡ false → IfOk result (λ text. AppendsTo manifest_index manifest.now text.growth) }
    ensures same_start { R.start files.new ≡ R.start files.old }
    ensures still { R.alone ≡ true → R.seen files.new ≡ R.seen files.old }
    ensures cause { HasFaultCause (R.faults files.old) (R.faults files.new) (R.denied files.old) (R.denied files.new) result }
{
    let mut text = Vec::new(alloc);
    rows.print(&mut text)?;
    let paths = manifest_paths(alloc)?;
    new_text(alloc, files, paths, manifest, &text, parents, link, met)
}

// The branch, as extras have it.
fn extras_of(alloc: Global, change: &NewChange) -> Result<Bytes, AllocError>
    ensures { IfOk result (λ extras. extras ≡ branch_extras change.now.branch) }
{
    let Some(name) = &change.branch else {
        return Ok(Bytes::new(alloc));
    };
    let mut extras = Vec::from_slice(alloc, b"branch:")?;
    extras.extend_from_slice(name.as_slice())?;
    Ok(Bytes::from_vec(extras))
}

// The text of the changeset.
fn change_text(
    alloc: Global,
    manifest: Node,
    change: &NewChange,
    changed: Names,
) -> Result<Vec<u8>, AllocError>
    ensures { IfOk result (λ text. text.items ≡ change_text (change_of change.now manifest.0 changed)) }
{
    let told = ChangeText {
        manifest,
        user: change.user.copy(alloc)?,
        seconds: change.seconds,
        offset: change.offset,
        extras: extras_of(alloc, change)?,
        files: changed,
        description: change.description.copy(alloc)?,
    };
    let mut text = Vec::new(alloc);
    told.print(&mut text)?;
    Ok(text)
}

/// What the changeset becomes that has this manifest and these changed paths.
pub fn new_changeset<R: Reads>(
    alloc: Global,
    files: &mut R,
    changelog: &Revlog,
    change: &NewChange,
    parents: (Option<u32>, Option<u32>),
    manifest: Node,
    changed: Names,
    met: &mut Hindrances,
) -> Result<NewText, ReadAnswer>
    requires entries { AreEntries changelog.now.entries }
    requires first { IfSome parents.0 (λ rev. rev < length changelog.now.entries) }
    requires second { IfSome parents.1 (λ rev. rev < length changelog.now.entries) }
    ensures found { Finds (λ x. (view_text x, met_of met.new)) R.alone (R.seen files.new) (R.start files.new) (λ t. noting (met_of met.old) (changeset_in changelog.now change.now parents manifest.0 changed t)) result }
    ensures clash { met.new.clash ≡ met.old.clash }
    ensures pushes { changelog.now.inline ≡ false → IfOk result (λ text. Pushes changelog.now text.growth) }
    ensures index { changelog.now.inline ≡ false → IfOk result (λ text. AppendsTo changelog_index changelog.now text.growth) }
    ensures lacking { IfOk result (λ text. is_some text.growth ≡ false → is_some text.standing ≡ false → is_met met.new ≡ true) }
    ensures same_start { R.start files.new ≡ R.start files.old }
    ensures still { R.alone ≡ true → R.seen files.new ≡ R.seen files.old }
    ensures cause { HasFaultCause (R.faults files.old) (R.faults files.new) (R.denied files.old) (R.denied files.new) result }
{
    let text = change_text(alloc, manifest, change, changed)?;
    let paths = changelog_paths(alloc)?;
    let link = changelog.len();
    new_text(alloc, files, paths, changelog, &text, parents, link, met)
}
