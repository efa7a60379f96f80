//! The manifest with a node, whose text may be kept.
ghost use Rattle.std.specs.Prelude.{◌≡◌, ◌≤◌, true, length, None};
ghost use Rattle.hgs_bytes.specs.Answer.{Gives};
ghost use Rattle.hgs_files.specs.Reads.{Grows};
ghost use Rattle.hgs_index.specs.Manifest.{read_manifest};
ghost use Rattle.hgs_load.specs.Answer.{is_of_outside, HasFaultCause, NeverFaults};
ghost use Rattle.hgs_load.specs.Asks.{answer, then_asks, Answers};
ghost use Rattle.hgs_load.specs.Beyond.{IsShown};
ghost use Rattle.hgs_load.specs.Given.{Takes};
ghost use Rattle.hgs_reader.specs.Contents.{manifest_index, manifest_data, rows_answer};
ghost use Rattle.hgs_reader.specs.Find.{text_asks};
ghost use Rattle.hgs_revlog.specs.Load.{most_text};
ghost use Rattle.hgs_recent.specs.Questions.{rows_asks, use_asks, Keeps, KeepsRead};

use crate::texts::RecentTexts;
use hgs_files::files::Reads;
use hgs_index::node::Node;
use hgs_load::answer::ReadAnswer;
use hgs_load::marks::is_null;
use hgs_manifest::manifest::Manifest;
use hgs_reader::contents::{manifest_from, manifest_paths};
use hgs_reader::find::{StoredText, text_of_node};
use std::alloc::Global;

// The manifest of a text that is kept.
fn manifest_kept(alloc: Global, text: &StoredText) -> Result<Manifest, ReadAnswer>
    requires { length text.now ≤ most_text }
    ensures manifest { Gives is_of_outside (λ rows. rows) result (rows_answer (read_manifest text.now)) }
    ensures inner { NeverFaults result }
{
    let paths = manifest_paths(alloc)?;
    manifest_from(alloc, &paths.index, text.as_slice())
}

// Reads the manifest with this node, and keeps its text.
fn manifest_read<R: Reads>(
    alloc: Global,
    files: &mut R,
    texts: &mut RecentTexts,
    node: &Node,
) -> Result<Manifest, ReadAnswer>
    ensures answer { Answers (λ rows. rows) (R.seen files.old) (R.start files.old) (R.seen files.new) (then_asks (text_asks manifest_index manifest_data node.now.0) (λ text. answer (rows_answer (read_manifest text)))) result }
    ensures given { Takes (λ rows. rows) (R.given files.old) (R.given files.new) (R.seen files.old) (R.start files.old) (R.seen files.new) (then_asks (text_asks manifest_index manifest_data node.now.0) (λ text. answer (rows_answer (read_manifest text)))) result }
    ensures kept { KeepsRead (R.seen files.old) (R.start files.old) (R.seen files.new) node.now.0 texts.old texts.new result }
    ensures seen { Grows (R.seen files.old) (R.seen files.new) }
    ensures same_start { R.start files.new ≡ R.start files.old }
    ensures still { R.alone ≡ true → R.seen files.new ≡ R.seen files.old }
    ensures same_ties { R.ties files.new ≡ R.ties files.old }
    ensures shown { IsShown R.shows (R.start files.old) (R.seen files.old) → IsShown R.shows (R.start files.new) (R.seen files.new) }
    ensures cause { HasFaultCause (R.faults files.old) (R.faults files.new) (R.denied files.old) (R.denied files.new) result }
{
    let paths = manifest_paths(alloc)?;
    let text = match text_of_node(alloc, files, &paths, node) {
        Ok(text) => text,
        Err(refusal) => return Err(refusal),
    };
    match manifest_from(alloc, &paths.index, text.as_slice()) {
        Ok(manifest) => {
            texts.keep(node, text);
            Ok(manifest)
        }
        Err(refusal) => Err(refusal),
    }
}

/// The manifest with this node, which is read where its text is not kept; the null node is that of no files.
pub fn manifest_of<R: Reads>(
    alloc: Global,
    files: &mut R,
    texts: &mut RecentTexts,
    node: &Node,
) -> Result<Manifest, ReadAnswer>
    ensures answer { Answers (λ rows. rows) (R.seen files.old) (R.start files.old) (R.seen files.new) (rows_asks texts.old node.now.0) result }
    ensures given { Takes (λ rows. rows) (R.given files.old) (R.given files.new) (R.seen files.old) (R.start files.old) (R.seen files.new) (rows_asks texts.old node.now.0) result }
    ensures kept { Keeps (R.seen files.old) (R.start files.old) (R.seen files.new) (use_asks texts.old node.now.0) texts.old texts.new result }
    ensures seen { Grows (R.seen files.old) (R.seen files.new) }
    ensures same_start { R.start files.new ≡ R.start files.old }
    ensures still { R.alone ≡ true → R.seen files.new ≡ R.seen files.old }
    ensures same_ties { R.ties files.new ≡ R.ties files.old }
    ensures shown { IsShown R.shows (R.start files.old) (R.seen files.old) → IsShown R.shows (R.start files.new) (R.seen files.new) }
    ensures cause { HasFaultCause (R.faults files.old) (R.faults files.new) (R.denied files.old) (R.denied files.new) result }
{
    if is_null(node) {
        return Ok(Manifest::empty(alloc));
    }
    texts.look_up(node);
    match texts.get(node) {
        Some(text) => manifest_kept(alloc, text),
        None => manifest_read(alloc, files, texts, node),
    }
}
