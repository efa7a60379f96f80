//! The files of a changeset, and the body of one.
ghost use Rattle.std.specs.Prelude.{◌≡◌, ◌≤◌, ◌++◌, ◌∷◌, [], true, length, OnOk, OnErr, IfOk};
ghost use Rattle.hgs_bytes.specs.Answer.{Gives};
ghost use Rattle.hgs_bytes.specs.Bytes.{IsPrefixOf};
ghost use Rattle.hgs_files.specs.Reads.{Grows};
ghost use Rattle.hgs_index.specs.Manifest.{read_manifest};
ghost use Rattle.hgs_manifest.specs.Held.{view_row};
ghost use Rattle.hgs_path.specs.StoreName.{store_name};
ghost use Rattle.hgs_path.specs.declared.name.Ext.TheVariants.{I, D};
ghost use Rattle.hgs_revlog.specs.Load.{most_text};
ghost use Rattle.hgs_load.specs.Answer.{is_of_outside, HasFaultCause, NeverFaults};
ghost use Rattle.hgs_load.specs.Asks.{answer, then_asks, Answers, AddsAnswer, AddsGiven};
ghost use Rattle.hgs_load.specs.Beyond.{IsShown};
ghost use Rattle.hgs_load.specs.Given.{Takes, TakesText};
ghost use Rattle.hgs_reader.specs.Contents.{manifest_index, manifest_data, rows_answer, rows_asks, flag_word, file_line, files_text, file_node, body_answer, body_asks};

use crate::find::{RevlogPaths, text_of_node};
use crate::refusal::of_manifest;
use hgs_bytes::parts::past;
use hgs_filelog::file_text::unpack;
use hgs_files::files::Reads;
use hgs_files::path::{StorePath, path_of};
use hgs_index::kinds::{Flag, Which};
use hgs_index::node::Node;
use hgs_index::texts::hex_of;
use hgs_load::answer::ReadAnswer;
use hgs_load::marks::is_null;
use hgs_manifest::manifest::Manifest;
use hgs_manifest::place::Row;
use hgs_path::check::check;
use hgs_path::name::{Ext, store_name};
use std::alloc::{AllocError, Global};

/// A tree with more files is refused.
const MOST_FILES: u32 = 20_000;

/// A body with more bytes is refused.
const MOST_FILE_TEXT: usize = 16_777_216;

/// The files of the manifest's revlog.
pub fn manifest_paths(alloc: Global) -> Result<RevlogPaths, AllocError>
    ensures { IfOk result (λ paths. (paths.index ≡ manifest_index) × (paths.chunks ≡ manifest_data)) }
{
    Ok(RevlogPaths {
        index: path_of(alloc, b"store/00manifest.i")?,
        chunks: path_of(alloc, b"store/00manifest.d")?,
    })
}

// The files of the filelog of a path.
fn filelog_paths(alloc: Global, path: &[u8]) -> Result<RevlogPaths, AllocError>
    ensures { IfOk result (λ paths. (paths.index ≡ store_name path.now I) × (paths.chunks ≡ store_name path.now D)) }
{
    Ok(RevlogPaths {
        index: store_name(alloc, path, Ext::I)?,
        chunks: store_name(alloc, path, Ext::D)?,
    })
}

/// The manifest of this text.
pub fn manifest_from(alloc: Global, index: &StorePath, text: &[u8]) -> Result<Manifest, ReadAnswer>
    requires path { index.now ≡ manifest_index }
    requires small { length text.now ≤ most_text }
    ensures manifest { Gives is_of_outside (λ rows. rows) result (rows_answer (read_manifest text.now)) }
    ensures inner { NeverFaults result }
{
    let manifest = match Manifest::read(alloc, text) {
        Ok(manifest) => manifest,
        Err(fault) => return Err(of_manifest(alloc, index, fault)),
    };
    if manifest.len() > MOST_FILES {
        return Err(ReadAnswer::Limit(Which::Tree));
    }
    Ok(manifest)
}

/// Reads the manifest with this node; the null node is that of no files.
pub fn manifest_of<R: Reads>(
    alloc: Global,
    files: &mut R,
    node: &Node,
) -> Result<Manifest, ReadAnswer>
    ensures answer { Answers (λ rows. rows) (R.seen files.old) (R.start files.old) (R.seen files.new) (rows_asks node.now.0) result }
    ensures given { Takes (λ rows. rows) (R.given files.old) (R.given files.new) (R.seen files.old) (R.start files.old) (R.seen files.new) (rows_asks node.now.0) result }
    ensures seen { Grows (R.seen files.old) (R.seen files.new) }
    ensures same_start { R.start files.new ≡ R.start files.old }
    ensures still { R.alone ≡ true → R.seen files.new ≡ R.seen files.old }
    ensures same_ties { R.ties files.new ≡ R.ties files.old }
    ensures shown { IsShown R.shows (R.start files.old) (R.seen files.old) → IsShown R.shows (R.start files.new) (R.seen files.new) }
    ensures cause { HasFaultCause (R.faults files.old) (R.faults files.new) (R.denied files.old) (R.denied files.new) result }
{
    if is_null(node) {
        return Ok(Manifest::empty(alloc));
    }
    let paths = manifest_paths(alloc)?;
    match text_of_node(alloc, files, &paths, node) {
        Ok(text) => manifest_from(alloc, &paths.index, text.as_slice()),
        Err(refusal) => Err(refusal),
    }
}

// How a flag is printed.
fn flag_word(flag: Flag) -> u8
    ensures { result ∷ [] ≡ flag_word flag }
{
    match flag {
        Flag::Plain => b'-',
        Flag::Exec => b'x',
        Flag::Link => b'l',
    }
}

// Adds the line of a file: its node, flag and path, with spaces between. Where there is no memory, a part of it.
fn push_file(into: &mut Vec<u8>, row: Row<'_>) -> Result<(), AllocError>
    ensures ok { OnOk result (into.new.items ≡ into.old.items ++ file_line (view_row row.entry)) }
    ensures front { IsPrefixOf into.old.items into.new.items }
{
    into.extend_from_slice(&hex_of(&row.node))?;
    into.push(b' ')?;
    into.push(flag_word(row.flag))?;
    into.push(b' ')?;
    into.extend_from_slice(row.path)?;
    into.push(b'\n')?;
    Ok(())
}

/// Adds a line for each file, in the order of their paths, or adds nothing where there is no memory.
pub fn add_files(manifest: &Manifest, into: &mut Vec<u8>) -> Result<(), AllocError>
    ensures ok { OnOk result (into.new.items ≡ into.old.items ++ files_text manifest.now) }
    ensures err { OnErr result (into.new.items ≡ into.old.items) }
{
    let before = into.len();
    for i in 0..manifest.len() {
        match push_file(into, manifest.row(i)) {
            Ok(()) => {}
            Err(_) => {
                into.truncate(before);
                return Err(AllocError);
            }
        }
    }
    Ok(())
}

// The node of a file. No changeset has a path that is not tracked.
fn node_at(manifest: &Manifest, path: &[u8]) -> Result<Node, ReadAnswer>
    ensures node { Gives is_of_outside (λ node. node.0) result (file_node path.now manifest.now) }
    ensures inner { NeverFaults result }
{
    if check(path).is_err() {
        return Err(ReadAnswer::UnknownPath);
    }
    match manifest.get(path) {
        Some((node, _)) => Ok(node),
        None => Err(ReadAnswer::UnknownPath),
    }
}

// The body in a file's text.
fn body_in(text: &[u8]) -> Result<&[u8], ReadAnswer>
    ensures body { Gives is_of_outside (λ body. body.now) result (body_answer text.now) }
    ensures inner { NeverFaults result }
{
    let body = past(text, unpack(text).body.from as usize);
    if body.len() > MOST_FILE_TEXT {
        return Err(ReadAnswer::Limit(Which::FileText));
    }
    Ok(body)
}

// Adds the body in a file's text. A refusal adds nothing.
fn add_body_in(text: &[u8], into: &mut Vec<u8>) -> Result<(), ReadAnswer>
    ensures body { AddsGiven (body_answer text.now) into.old.items into.new.items result }
    ensures inner { NeverFaults result }
{
    match body_in(text) {
        Ok(body) => {
            into.extend_from_slice(body)?;
            Ok(())
        }
        Err(refusal) => Err(refusal),
    }
}

// Adds the body of a path's file with this node. A refusal adds nothing.
fn add_body<R: Reads>(
    alloc: Global,
    files: &mut R,
    path: &[u8],
    node: &Node,
    into: &mut Vec<u8>,
) -> Result<(), ReadAnswer>
    ensures answer { AddsAnswer (R.seen files.old) (R.start files.old) (R.seen files.new) (body_asks path.now node.now.0) into.old.items into.new.items result }
    ensures given { TakesText (R.given files.old) (R.given files.new) (R.seen files.old) (R.start files.old) (R.seen files.new) (body_asks path.now node.now.0) into.old.items into.new.items result }
    ensures seen { Grows (R.seen files.old) (R.seen files.new) }
    ensures same_start { R.start files.new ≡ R.start files.old }
    ensures still { R.alone ≡ true → R.seen files.new ≡ R.seen files.old }
    ensures same_ties { R.ties files.new ≡ R.ties files.old }
    ensures shown { IsShown R.shows (R.start files.old) (R.seen files.old) → IsShown R.shows (R.start files.new) (R.seen files.new) }
    ensures cause { HasFaultCause (R.faults files.old) (R.faults files.new) (R.denied files.old) (R.denied files.new) result }
{
    let paths = filelog_paths(alloc, path)?;
    match text_of_node(alloc, files, &paths, node) {
        Ok(text) => add_body_in(text.as_slice(), into),
        Err(refusal) => Err(refusal),
    }
}

/// Adds the body of a file of a manifest. A refusal adds nothing.
pub fn add_file<R: Reads>(
    alloc: Global,
    files: &mut R,
    manifest: &Manifest,
    path: &[u8],
    into: &mut Vec<u8>,
) -> Result<(), ReadAnswer>
    ensures answer { AddsAnswer (R.seen files.old) (R.start files.old) (R.seen files.new) (then_asks (answer (file_node path.now manifest.now)) (λ node. body_asks path.now node)) into.old.items into.new.items result }
    ensures given { TakesText (R.given files.old) (R.given files.new) (R.seen files.old) (R.start files.old) (R.seen files.new) (then_asks (answer (file_node path.now manifest.now)) (λ node. body_asks path.now node)) into.old.items into.new.items result }
    ensures seen { Grows (R.seen files.old) (R.seen files.new) }
    ensures same_start { R.start files.new ≡ R.start files.old }
    ensures still { R.alone ≡ true → R.seen files.new ≡ R.seen files.old }
    ensures same_ties { R.ties files.new ≡ R.ties files.old }
    ensures shown { IsShown R.shows (R.start files.old) (R.seen files.old) → IsShown R.shows (R.start files.new) (R.seen files.new) }
    ensures cause { HasFaultCause (R.faults files.old) (R.faults files.new) (R.denied files.old) (R.denied files.new) result }
{
    match node_at(manifest, path) {
        Ok(node) => add_body(alloc, files, path, &node, into),
        Err(refusal) => Err(refusal),
    }
}
