//! The files as a map from paths to bytes, of which copies share what is in them, changed as operations say.
ghost use Rattle.std.specs.Prelude.{◌≡◌, ◌<◌, ◌≤◌, length, List, [], ◌∷◌, ◌++◌, OnOk, OnErr, IfOk, IfSome, Some, None, option_copied};
ghost use Rattle.hgs_files.specs.declared.op.Op.{Op};
ghost use Rattle.hgs_files.specs.Tree.{with_file, apply};
ghost use Rattle.hgs_files.specs.Log.{IsDone};
ghost use Rattle.hgs_files.specs.Reads.{IsSizeOf, ReadsPart};
ghost use Rattle.hgs_mem.specs.Mem.{tree_of};
ghost use Rattle.hgs_mem.specs.Shard.{no_files, shard_of};
ghost use Rattle.hgs_mem.specs.Pieces.{AreSmall};

use crate::content::Content;
use crate::pieces::appends;
use crate::shard::Shard;
use hgs_files::op::Op;
use hgs_files::path::StorePath;
use std::alloc::{AllocError, Global};

/// The files, in parts. A copy has the parts together with this one, and so costs the same whatever is in them.
#[derive(Drop)]
pub struct Map {
    shards: Vec<Shard>,
}

impl Map {
    /// No files. Takes no memory.
    pub fn new(alloc: Global) -> Map
        ensures { tree_of result ≡ no_files }
    {
        Map {
            shards: Vec::new(alloc),
        }
    }
}

/// A copy, whose files have their bytes together with this one.
pub fn copy_of(map: &Map) -> Result<Map, AllocError>
    ensures { IfOk result (λ copy. tree_of copy ≡ tree_of map.now) }
{
    Ok(Map {
        shards: map.shards.clone()?,
    })
}

/// The number of the part in which a path is looked for.
fn shard_of(path: &[u8]) -> usize
    ensures { result ≡ shard_of path.now }
{
    let number = path
        .iter()
        .fold(0u64, |number, byte| number % 256 * 31 + *byte as u64);
    (number % 256) as usize
}

/// The content of a file.
fn content_of<'m>(map: &'m Map, path: &StorePath) -> Option<&'m Content>
    ensures { option_copied result ≡ tree_of map.now path.now }
{
    let at = shard_of(path.bytes());
    if at < map.shards.len() {
        map.shards[at].get(path)
    } else {
        None
    }
}

/// The length of a file.
pub fn size_of(map: &Map, path: &StorePath) -> Option<u64>
    ensures { IsSizeOf (tree_of map.now path.now) result }
{
    match content_of(map, path) {
        Some(content) => Some(content.len()),
        None => None,
    }
}

/// Adds to `into` the part of a file from a place, at most so many bytes of it, and answers how many.
pub fn read_at(
    map: &Map,
    path: &StorePath,
    from: u64,
    most: u64,
    into: &mut Vec<u8>,
) -> Result<Option<u64>, AllocError>
    ensures ok { IfOk result (λ part. ReadsPart (tree_of map.now path.now) from most into.old.items into.new.items part) }
    ensures same { IfOk result (λ part. part ≡ None → into.new.items ≡ into.old.items) }
    ensures most { IfOk result (λ part. IfSome part (λ k. k ≤ most)) }
    ensures err { OnErr result (into.new.items ≡ into.old.items) }
{
    match content_of(map, path) {
        Some(content) => {
            let before = into.len();
            content.read(from, most, into)?;
            Ok(Some((into.len() - before) as u64))
        }
        None => Ok(None),
    }
}

/// Makes so many parts, if there are fewer.
fn grow(alloc: Global, map: &mut Map, count: usize) -> Result<(), AllocError>
    ensures same { tree_of map.new ≡ tree_of map.old }
    ensures long { OnOk result (count ≤ length map.new.shards.items) }
{
    let empty = Shard::new(alloc)?;
    while map.shards.len() < count {
        map.shards.push(empty.clone()?)?;
    }
    Ok(())
}

/// Sets the content of a file.
fn set(alloc: Global, map: &mut Map, path: StorePath, content: Content) -> Result<(), AllocError>
    ensures ok { OnOk result (tree_of map.new ≡ with_file (tree_of map.old) path (Some content)) }
    ensures err { OnErr result (tree_of map.new ≡ tree_of map.old) }
{
    let at = shard_of(path.bytes());
    grow(alloc, map, at + 1)?;
    let shard = map.shards[at].with(alloc, path, content)?;
    map.shards[at] = shard;
    Ok(())
}

/// Takes a file away.
fn unset(alloc: Global, map: &mut Map, path: &StorePath) -> Result<(), AllocError>
    ensures ok { OnOk result (tree_of map.new ≡ with_file (tree_of map.old) path.now None) }
    ensures err { OnErr result (tree_of map.new ≡ tree_of map.old) }
{
    let at = shard_of(path.bytes());
    grow(alloc, map, at + 1)?;
    let shard = map.shards[at].without(alloc, path)?;
    map.shards[at] = shard;
    Ok(())
}

/// Appends to a file, which it makes where it is absent.
fn append_in(alloc: Global, map: &mut Map, path: &StorePath, bytes: &[u8]) -> Result<(), AllocError>
    ensures tree { OnOk result (tree_of map.new ≡ apply (Op.Append path.now bytes.now) (tree_of map.old)) }
    ensures err { OnErr result (tree_of map.new ≡ tree_of map.old) }
{
    let next = match content_of(map, path) {
        Some(old) => old.and(alloc, bytes)?,
        None => Content::new(alloc).and(alloc, bytes)?,
    };
    set(alloc, map, path.copy(alloc)?, next)
}

/// Makes or replaces a file.
fn create_in(alloc: Global, map: &mut Map, path: &StorePath, bytes: &[u8]) -> Result<(), AllocError>
    ensures tree { OnOk result (tree_of map.new ≡ apply (Op.Create path.now bytes.now) (tree_of map.old)) }
    ensures err { OnErr result (tree_of map.new ≡ tree_of map.old) }
{
    let content = Content::new(alloc).and(alloc, bytes)?;
    set(alloc, map, path.copy(alloc)?, content)
}

/// Shortens a file that is longer.
fn cut_in(alloc: Global, map: &mut Map, path: &StorePath, len: u64) -> Result<(), AllocError>
    ensures tree { OnOk result (tree_of map.new ≡ apply (Op.Cut path.now len) (tree_of map.old)) }
    ensures err { OnErr result (tree_of map.new ≡ tree_of map.old) }
{
    let next = match content_of(map, path) {
        Some(content) => content.first(alloc, len)?,
        None => return Ok(()),
    };
    set(alloc, map, path.copy(alloc)?, next)
}

/// Gives a file another name, or changes nothing, for which it works on a copy.
fn rename_in(
    alloc: Global,
    map: &mut Map,
    from: &StorePath,
    to: &StorePath,
) -> Result<(), AllocError>
    ensures tree { OnOk result (tree_of map.new ≡ apply (Op.Rename from.now to.now) (tree_of map.old)) }
    ensures err { OnErr result (tree_of map.new ≡ tree_of map.old) }
{
    let content = match content_of(map, from) {
        Some(content) => content.clone()?,
        None => return Ok(()),
    };
    if from == to {
        return Ok(());
    }
    let mut next = copy_of(map)?;
    set(alloc, &mut next, to.copy(alloc)?, content)?;
    unset(alloc, &mut next, from)?;
    *map = next;
    Ok(())
}

/// Does an operation, or changes nothing.
pub fn apply(alloc: Global, map: &mut Map, op: &Op) -> Result<(), AllocError>
    ensures tree { OnOk result (tree_of map.new ≡ apply op.now (tree_of map.old)) }
    ensures err { OnErr result (tree_of map.new ≡ tree_of map.old) }
{
    match op {
        Op::Append { path, bytes } => append_in(alloc, map, path, bytes.as_slice()),
        Op::Create { path, bytes } => create_in(alloc, map, path, bytes.as_slice()),
        Op::Cut { path, len } => cut_in(alloc, map, path, *len),
        Op::Rename { from, to } => rename_in(alloc, map, from, to),
        Op::Remove { path } => unset(alloc, map, path),
        Op::Sync { path: _ } => Ok(()),
        Op::Settle => Ok(()),
    }
}

/// Does an operation, and adds it to the log, or does nothing.
pub fn do_one(alloc: Global, map: &mut Map, log: &mut Vec<Op>, op: Op) -> Result<(), AllocError>
    ensures ok { OnOk result (log.new.items ≡ log.old.items ++ op ∷ []) }
    ensures tree { OnOk result (tree_of map.new ≡ apply op (tree_of map.old)) }
    ensures err { OnErr result ((log.new.items ≡ log.old.items) × (tree_of map.new ≡ tree_of map.old)) }
{
    log.reserve(1)?;
    apply(alloc, map, &op)?;
    match log.push(op) {
        Ok(()) => Ok(()),
        Err(_) => unreachable!(),
    }
}

/// Appends in pieces of at most `piece` bytes, and adds that to the log, or does nothing.
pub fn append(
    alloc: Global,
    map: &mut Map,
    log: &mut Vec<Op>,
    path: &StorePath,
    bytes: &[u8],
    piece: usize,
) -> Result<(), AllocError>
    requires { 0 < piece }
    ensures ok { OnOk result ((ops : List Op) × (IsDone (Op.Append path.now bytes.now ∷ []) ops [] × AreSmall piece ops) × (log.new.items ≡ log.old.items ++ ops)) }
    ensures tree { OnOk result (tree_of map.new ≡ apply (Op.Append path.now bytes.now) (tree_of map.old)) }
    ensures err { OnErr result ((log.new.items ≡ log.old.items) × (tree_of map.new ≡ tree_of map.old)) }
{
    let mut ops = appends(alloc, path, bytes, piece)?;
    log.reserve(ops.len())?;
    append_in(alloc, map, path, bytes)?;
    match log.append(&mut ops) {
        Ok(()) => Ok(()),
        Err(_) => unreachable!(),
    }
}
