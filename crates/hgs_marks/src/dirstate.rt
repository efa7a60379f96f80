//! The working parents and the tracked paths (Mercurial's file `dirstate`, its first version).
ghost use Rattle.std.specs.Prelude.{◌≡◌, ◌<◌, ◌≤◌, ◌+◌, ◌^◌, ◌++◌, ◌||◌, ◌==◌, [], ◌∷◌, length, take, drop, Some, IfOk, OnOk, OnErr};
ghost use Rattle.std.specs.List.{All};
ghost use Rattle.hgs_bytes.specs.Answer.{Gives};
ghost use Rattle.hgs_marks.specs.Bookmarks.{is_memory};
ghost use Rattle.hgs_marks.specs.Dirstate.{Dirstate, is_state, has_entry, next_entry, entry_path, tracked, read_paths, read_dirstate};
ghost use Rattle.std.specs.Int.{w32, from_be_bytes};
ghost use Rattle.std.specs.Result.{result_map_both};
ghost use Rattle.hgs_marks.specs.Held.{view_dirstate, view_entry};

use crate::fault::MarkFault;
use hgs_bytes::bytes::Bytes;
use hgs_bytes::names::Names;
use hgs_bytes::parts::{front, past, split_at_byte};
use hgs_index::node::Node;
use std::alloc::{AllocError, Global};

/// The working parents and the tracked paths.
#[derive(Debug, Drop)]
pub struct Dirstate {
    /// The first parent; the null node where there is none.
    pub p1: Node,
    /// The second parent of a merge that is not committed yet; else the null node.
    pub p2: Node,
    pub paths: Names,
}

/// A file's entry.
#[derive(Clone, Copy, Debug)]
pub struct Entry<'a> {
    pub state: u8,
    /// The path, and behind a NUL the source of a copy where there is one.
    pub name: &'a [u8],
}

const REMOVED: u8 = b'r';

fn is_known(state: u8) -> bool
    ensures { result ≡ is_state state }
{
    state == b'n' || state == b'a' || state == REMOVED || state == b'm'
}

/// The big-endian number at a place of the bytes.
fn number_at(bytes: &[u8], at: usize) -> u32
    requires { at + 4 ≤ length bytes.now }
    ensures { result ≡ from_be_bytes w32 (take 4 (drop at bytes.now)) }
{
    let (field, _) = bytes[at..].split_at(4);
    u32::from_be_bytes([field[0], field[1], field[2], field[3]])
}

fn node_at(bytes: &[u8], at: usize) -> Node
    requires { at + 20 ≤ length bytes.now }
    ensures { result.0 ≡ take 20 (drop at bytes.now) }
{
    let mut node = [0; 20];
    node.copy_from_slice(&bytes[at..at + 20]);
    Node(node)
}

fn has_entry(bytes: &[u8]) -> bool
    ensures { result ≡ has_entry bytes.now }
{
    bytes.len() >= 17 && 17 + number_at(bytes, 13) as usize <= bytes.len()
}

/// The entry that the bytes begin with, and what stands behind it.
fn next_entry(bytes: &[u8], at: u64) -> Result<(Entry<'_>, &[u8]), MarkFault>
    requires { 0 < length bytes.now }
    ensures entry { result_map_both (λ p. (view_entry p.0, p.1.now)) (λ fault. fault) result ≡ next_entry at bytes.now }
    ensures shorter { IfOk result (λ p. length p.1.now < length bytes.now) }
{
    let state = bytes[0];
    if !is_known(state) {
        return Err(MarkFault::State(at));
    }
    if !has_entry(bytes) {
        return Err(MarkFault::Short);
    }
    let (name, rest) = bytes[17..].split_at(number_at(bytes, 13) as usize);
    Ok((Entry { state, name }, rest))
}

/// The path of an entry, without a copy's source.
fn path_of<'a>(entry: Entry<'a>) -> &'a [u8]
    ensures { result.now ≡ entry_path (view_entry entry.entry) }
{
    match split_at_byte(entry.name, 0) {
        Some((path, _)) => path,
        None => entry.name,
    }
}

/// Adds the path of an entry where it is tracked, or changes nothing where there is no memory.
fn track(alloc: Global, paths: &mut Names, entry: Entry<'_>) -> Result<(), AllocError>
    ensures ok { OnOk result (paths.new ≡ paths.old ++ tracked (view_entry entry.entry ∷ [])) }
    ensures err { OnErr result (paths.new ≡ paths.old) }
{
    if entry.state == REMOVED {
        return Ok(());
    }
    paths.push(Bytes::from_slice(alloc, path_of(entry))?)?;
    Ok(())
}

/// The tracked paths of a text that has the parents.
fn paths_from(alloc: Global, text: &[u8]) -> Result<Names, MarkFault>
    requires { 40 ≤ length text.now }
    ensures read { Gives is_memory (λ paths. paths) result (read_paths text.now) }
    ensures fits { IfOk result (λ paths. All (λ path. length path < 2 ^ 32) paths) }
{
    let mut paths = Names::new(alloc);
    let mut rest = past(text, 40);
    while rest.len() > 0 {
        let (entry, behind) = next_entry(rest, (text.len() - rest.len()) as u64)?;
        track(alloc, &mut paths, entry)?;
        rest = behind;
    }
    Ok(paths)
}

impl Dirstate {
    /// The working parents and the tracked paths of a text, or its first fault. An empty text has null parents and no
    /// paths; removed files are not tracked. What is read can be printed.
    pub fn read(alloc: Global, text: &[u8]) -> Result<Dirstate, MarkFault>
        ensures read { Gives is_memory view_dirstate result (read_dirstate text.now) }
        ensures fits { IfOk result (λ d. All (λ path. length path < 2 ^ 32) d.paths) }
    {
        if text.len() == 0 {
            return Ok(Dirstate {
                p1: Node([0; 20]),
                p2: Node([0; 20]),
                paths: Names::new(alloc),
            });
        }
        if text.len() < 40 {
            return Err(MarkFault::Short);
        }
        let paths = paths_from(alloc, text)?;
        Ok(Dirstate {
            p1: node_at(text, 0),
            p2: node_at(text, 20),
            paths,
        })
    }
}
