//! The manifest of a changeset on which a new one is made.
ghost use Rattle.std.specs.Prelude.{◌≡◌, ◌<◌, true, length, IfOk, IfSome};
ghost use Rattle.hgs_bytes.specs.Answer.{Gives};
ghost use Rattle.hgs_changelog.specs.View.{view_change};
ghost use Rattle.hgs_files.specs.Reads.{Grows};
ghost use Rattle.hgs_index.specs.ChangeText.{read_change};
ghost use Rattle.hgs_revlog.specs.Loaded.{HaveSmallTexts};
ghost use Rattle.hgs_load.specs.Answer.{is_of_outside, HasFaultCause, NeverFaults};
ghost use Rattle.hgs_reader.specs.Contents.{manifest_index};
ghost use Rattle.hgs_reader.specs.Line.{change_of_text};
ghost use Rattle.hgs_load.specs.View.{changelog_index};
ghost use Rattle.hgs_loading.specs.Found.{Finds};
ghost use Rattle.hgs_loading.specs.Parent.{change_in, rows_at, rows_in, parent_in, view_parent};

use crate::texts::{read_chunk, text_in_chunk};
use hgs_changelog::text::ChangeText;
use hgs_files::files::Reads;
use hgs_files::path::StorePath;
use hgs_index::node::Node;
use hgs_load::answer::ReadAnswer;
use hgs_load::marks::is_null;
use hgs_load::refusal::of_revlog;
use hgs_manifest::manifest::Manifest;
use hgs_reader::contents::manifest_from;
use hgs_reader::find::RevlogPaths;
use hgs_reader::refusal::of_change;
use hgs_revlog::fault::RevFault;
use hgs_revlog::revlog::Revlog;
use std::alloc::Global;

/// The files of a changeset, and the revision of its manifest; none where it has no files.
#[derive(Drop)]
pub struct ParentManifest {
    pub rev: Option<u32>,
    pub rows: Manifest,
}

// The changeset of a text.
fn change_from(
    alloc: Global,
    index: &StorePath,
    rev: u32,
    text: &[u8],
) -> Result<ChangeText, ReadAnswer>
    requires { index.now ≡ changelog_index }
    ensures change { Gives is_of_outside view_change result (change_of_text rev (read_change text.now)) }
    ensures inner { NeverFaults result }
{
    match ChangeText::read(alloc, text) {
        Ok(change) => Ok(change),
        Err(fault) => Err(of_change(alloc, index, rev, fault)),
    }
}

/// Reads a changeset. The paths are those of the changelog.
pub fn read_change<R: Reads>(
    alloc: Global,
    files: &mut R,
    paths: &RevlogPaths,
    changelog: &Revlog,
    rev: u32,
) -> Result<ChangeText, ReadAnswer>
    requires stands { rev < length changelog.now.entries }
    requires path { paths.now.index ≡ changelog_index }
    ensures found { Finds view_change R.alone (R.seen files.new) (R.start files.new) (change_in paths.now.chunks changelog.now rev) result }
    ensures seen { Grows (R.seen files.old) (R.seen files.new) }
    ensures same_start { R.start files.new ≡ R.start files.old }
    ensures still { R.alone ≡ true → R.seen files.new ≡ R.seen files.old }
    ensures cause { HasFaultCause (R.faults files.old) (R.faults files.new) (R.denied files.old) (R.denied files.new) result }
{
    let chunk = read_chunk(alloc, files, paths, changelog, rev)?;
    let text = text_in_chunk(alloc, &paths.index, changelog, rev, chunk.as_slice())?;
    match change_from(alloc, &paths.index, rev, text) {
        Ok(change) => Ok(change),
        Err(refusal) => Err(refusal),
    }
}

// Reads the files of a revision of the manifest.
fn read_rows_at<R: Reads>(
    alloc: Global,
    files: &mut R,
    paths: &RevlogPaths,
    manifest: &Revlog,
    rev: u32,
) -> Result<ParentManifest, ReadAnswer>
    requires stands { rev < length manifest.now.entries }
    requires path { paths.now.index ≡ manifest_index }
    requires small { HaveSmallTexts manifest.now.entries }
    ensures found { Finds view_parent R.alone (R.seen files.new) (R.start files.new) (λ t. rows_at paths.now.chunks manifest.now t (Some rev)) result }
    ensures below { IfOk result (λ p. IfSome p.rev (λ r. r < length manifest.now.entries)) }
    ensures seen { Grows (R.seen files.old) (R.seen files.new) }
    ensures same_start { R.start files.new ≡ R.start files.old }
    ensures still { R.alone ≡ true → R.seen files.new ≡ R.seen files.old }
    ensures cause { HasFaultCause (R.faults files.old) (R.faults files.new) (R.denied files.old) (R.denied files.new) result }
{
    let chunk = read_chunk(alloc, files, paths, manifest, rev)?;
    let text = text_in_chunk(alloc, &paths.index, manifest, rev, chunk.as_slice())?;
    match manifest_from(alloc, &paths.index, text) {
        Ok(rows) => Ok(ParentManifest {
            rev: Some(rev),
            rows,
        }),
        Err(refusal) => Err(refusal),
    }
}

/// Reads the files of the manifest with this node; the null node is that of no files. The paths are those of the manifest.
pub fn read_rows<R: Reads>(
    alloc: Global,
    files: &mut R,
    paths: &RevlogPaths,
    manifest: &Revlog,
    node: &Node,
) -> Result<ParentManifest, ReadAnswer>
    requires path { paths.now.index ≡ manifest_index }
    requires small { HaveSmallTexts manifest.now.entries }
    ensures found { Finds view_parent R.alone (R.seen files.new) (R.start files.new) (rows_in paths.now.chunks manifest.now node.now.0) result }
    ensures below { IfOk result (λ p. IfSome p.rev (λ r. r < length manifest.now.entries)) }
    ensures seen { Grows (R.seen files.old) (R.seen files.new) }
    ensures same_start { R.start files.new ≡ R.start files.old }
    ensures still { R.alone ≡ true → R.seen files.new ≡ R.seen files.old }
    ensures cause { HasFaultCause (R.faults files.old) (R.faults files.new) (R.denied files.old) (R.denied files.new) result }
{
    if is_null(node) {
        return Ok(ParentManifest {
            rev: None,
            rows: Manifest::empty(alloc),
        });
    }
    match manifest.rev_of(node) {
        Some(rev) => read_rows_at(alloc, files, paths, manifest, rev),
        None => Err(of_revlog(alloc, &paths.index, RevFault::Missing)),
    }
}

/// Reads a changeset and the files that it has.
pub fn parent_manifest<R: Reads>(
    alloc: Global,
    files: &mut R,
    changelog: &Revlog,
    changelog_paths: &RevlogPaths,
    manifest: &Revlog,
    manifest_paths: &RevlogPaths,
    rev: u32,
) -> Result<ParentManifest, ReadAnswer>
    requires stands { rev < length changelog.now.entries }
    requires changelog_path { changelog_paths.now.index ≡ changelog_index }
    requires manifest_path { manifest_paths.now.index ≡ manifest_index }
    requires small { HaveSmallTexts manifest.now.entries }
    ensures found { Finds view_parent R.alone (R.seen files.new) (R.start files.new) (parent_in changelog_paths.now.chunks changelog.now manifest_paths.now.chunks manifest.now rev) result }
    ensures below { IfOk result (λ p. IfSome p.rev (λ r. r < length manifest.now.entries)) }
    ensures seen { Grows (R.seen files.old) (R.seen files.new) }
    ensures same_start { R.start files.new ≡ R.start files.old }
    ensures still { R.alone ≡ true → R.seen files.new ≡ R.seen files.old }
    ensures cause { HasFaultCause (R.faults files.old) (R.faults files.new) (R.denied files.old) (R.denied files.new) result }
{
    let change = read_change(alloc, files, changelog_paths, changelog, rev)?;
    match read_rows(alloc, files, manifest_paths, manifest, &change.manifest) {
        Ok(parent) => Ok(parent),
        Err(refusal) => Err(refusal),
    }
}
