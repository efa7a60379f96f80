//! Files under what is to be written to them.
ghost use Rattle.std.specs.Prelude.{◌≡◌, ◌≤◌, ◌+◌, ℕ, List, [], ◌++◌, length, Some, None, Ok, false, true, IfOk, IfSome, OnOk, OnErr};
ghost use Rattle.hgs_files.specs.declared.op.Op.{Op};
ghost use Rattle.hgs_files.specs.Tree.{Tree, after_all, apply, bytes_at};
ghost use Rattle.hgs_files.specs.Reads.{AddsBytes, Counts, HasSize, LooksAt, ReadsFrom, Rises, counted};
ghost use Rattle.hgs_files.specs.Ties.{untied};
ghost use Rattle.hgs_overlay.specs.Overlay.{AddsMost, AddsPart, AddsStanding, AddsUnder, length_under, seen_over};

use crate::layers::{Layer, Layers};
use hgs_bytes::bytes::Bytes;
use hgs_bytes::parts::{front, past};
use hgs_files::files::{FileFault, Reads};
use hgs_files::path::StorePath;
use std::alloc::{AllocError, Global};
use std::marker::{Brand, PhantomData};

/// Names what files were before something was laid over them, in proofs alone: so it is known of them wherever they come
/// back from.
pub trait Beneath {
    ghost use Rattle.std.specs.Prelude.{List, ℕ, Option};
    ghost use Rattle.hgs_files.specs.declared.op.Op.{Op};

    /// The list of operations that they had looked at.
    ghost seen: { Option (List Op) };

    /// How often they had found no memory.
    ghost denied: { ℕ };
}

impl Beneath for Brand {
    ghost use Rattle.std.specs.Prelude.{None};

    ghost seen = { None };

    ghost denied = { 0 };
}

/// Files under what is to be written to them. A reader finds what the files would be with that written, and nothing is
/// written.
#[derive(Drop)]
pub struct Overlay<B: Beneath, R: Reads> {
    files: R,
    layers: Layers,
    given: u64,
    denied: u64,
    of: PhantomData<B>,
    ghost same_seen: { R.alone ≡ true → R.seen files ≡ B.seen },
    ghost refused: { B.denied ≤ R.denied files },
}

// Adds the part of a file from a place, at most so many bytes of it, and answers the place from which the bytes that are
// put behind the file go on.
fn read_beneath<R: Reads>(
    files: &mut R,
    path: &StorePath,
    from: u64,
    most: u64,
    into: &mut Vec<u8>,
) -> Result<u64, FileFault>
    ensures adds { AddsMost most into.old.items into.new.items }
    ensures part { R.alone ≡ true → IfOk result (λ place. IfSome (R.seen files.new) (λ log. AddsPart (bytes_at (after_all log (R.start files.new)) path.now) from most into.old.items into.new.items place)) }
    ensures err { OnErr result (into.new.items ≡ into.old.items) }
    ensures same_start { R.start files.new ≡ R.start files.old }
    ensures still { R.alone ≡ true → R.seen files.new ≡ R.seen files.old }
    ensures counts { Counts (R.faults files.old) (R.faults files.new) (R.denied files.old) (R.denied files.new) result }
{
    match files.read(path, from, most, into) {
        Ok(Some(0)) => match files.size(path) {
            Ok(size) => Ok(from.saturating_sub(size.unwrap_or(0))),
            Err(fault) => Err(fault),
        },
        Ok(Some(_)) => Ok(0),
        Ok(None) => Ok(from),
        Err(fault) => Err(fault),
    }
}

// Adds what a file with this layer has of the part before the layer's bytes, and answers the place in these from which the
// part goes on, and how many bytes of it are left.
fn read_under<R: Reads>(
    files: &mut R,
    layer: &Layer,
    path: &StorePath,
    from: u64,
    most: u64,
    into: &mut Vec<u8>,
) -> Result<(u64, u64), FileFault>
    ensures adds { AddsMost most into.old.items into.new.items }
    ensures fits { IfOk result (λ rest. length into.new.items + rest.1 ≤ length into.old.items + most) }
    ensures part { R.alone ≡ true → IfOk result (λ rest. IfSome (R.seen files.new) (λ log. AddsUnder layer.now.in_place (bytes_at (after_all log (R.start files.new)) path.now) from most into.old.items into.new.items rest.0 rest.1)) }
    ensures same_start { R.start files.new ≡ R.start files.old }
    ensures still { R.alone ≡ true → R.seen files.new ≡ R.seen files.old }
    ensures counts { Counts (R.faults files.old) (R.faults files.new) (R.denied files.old) (R.denied files.new) result }
{
    if layer.in_place {
        return Ok((from, most));
    }
    let before = into.len();
    match read_beneath(files, path, from, most, into) {
        Ok(place) => Ok((place, most - (into.len() - before) as u64)),
        Err(fault) => Err(fault),
    }
}

// How many bytes a file with this layer has before the layer's bytes.
fn size_under<R: Reads>(files: &mut R, layer: &Layer, path: &StorePath) -> Result<u64, FileFault>
    ensures size { R.alone ≡ true → IfOk result (λ size. IfSome (R.seen files.new) (λ log. size ≡ length_under layer.now.in_place (bytes_at (after_all log (R.start files.new)) path.now))) }
    ensures same_start { R.start files.new ≡ R.start files.old }
    ensures still { R.alone ≡ true → R.seen files.new ≡ R.seen files.old }
    ensures counts { Counts (R.faults files.old) (R.faults files.new) (R.denied files.old) (R.denied files.new) result }
{
    if layer.in_place {
        return Ok(0);
    }
    match files.size(path) {
        Ok(size) => Ok(size.unwrap_or(0)),
        Err(fault) => Err(fault),
    }
}

impl<B: Beneath, R: Reads> Overlay<B, R> {
    ghost use Rattle.hgs_overlay.specs.Layers.{appended_to, laid_ops, layer_at, with_layer};

    /// The files with nothing to be written to them. Takes no memory.
    pub fn new(alloc: Global, files: R) -> Overlay<B, R>
        requires seen { R.alone ≡ true → R.seen files ≡ B.seen }
        requires denied { B.denied ≤ R.denied files }
        ensures files { result.files ≡ files }
        ensures at { (path : List ℕ) → layer_at result.layers path ≡ None }
        ensures ops { laid_ops result.layers ≡ [] }
    {
        Overlay {
            files,
            layers: Layers::new(alloc),
            given: 0,
            denied: 0,
            of: PhantomData,
        }
    }

    /// The files themselves, and what is to be written to them.
    pub fn into_parts(self) -> (R, Layers)
        ensures files { result.0 ≡ self.files }
        ensures layers { result.1 ≡ self.layers }
        ensures seen { R.alone ≡ true → R.seen result.0 ≡ B.seen }
        ensures denied { B.denied ≤ R.denied result.0 }
    {
        (self.files, self.layers)
    }
    /// Puts bytes behind those of a file, or changes nothing.
    pub fn append(
        &mut self,
        alloc: Global,
        path: &StorePath,
        bytes: Bytes,
    ) -> Result<(), AllocError>
        ensures at { OnOk result ((other : List ℕ) → layer_at self.new.layers other ≡ with_layer (layer_at self.old.layers) path.now (appended_to (layer_at self.old.layers path.now) bytes) other) }
        ensures tree { OnOk result ((t : Tree) → after_all (laid_ops self.new.layers) t ≡ apply (Op.Append path.now bytes) (after_all (laid_ops self.old.layers) t)) }
        ensures err { OnErr result (laid_ops self.new.layers ≡ laid_ops self.old.layers) }
        ensures files { self.new.files ≡ self.old.files }
        ensures denied { self.new.denied ≡ self.old.denied }
    {
        self.layers.append(alloc, path, bytes)
    }

    /// Puts bytes in the place of a file, or changes nothing.
    pub fn replace(
        &mut self,
        alloc: Global,
        path: &StorePath,
        bytes: Bytes,
    ) -> Result<(), AllocError>
        ensures at { OnOk result ((other : List ℕ) → layer_at self.new.layers other ≡ with_layer (layer_at self.old.layers) path.now (record { in_place = true; bytes = bytes }) other) }
        ensures tree { OnOk result ((t : Tree) → after_all (laid_ops self.new.layers) t ≡ apply (Op.Create path.now bytes) (after_all (laid_ops self.old.layers) t)) }
        ensures err { OnErr result (laid_ops self.new.layers ≡ laid_ops self.old.layers) }
        ensures files { self.new.files ≡ self.old.files }
        ensures denied { self.new.denied ≡ self.old.denied }
    {
        self.layers.replace(alloc, path, bytes)
    }

    // Counts bytes that a read gave.
    fn give(&mut self, bytes: u64)
        ensures given { Rises self.old.given self.new.given bytes }
        ensures files { self.new.files ≡ self.old.files }
        ensures layers { self.new.layers ≡ self.old.layers }
        ensures denied { self.new.denied ≡ self.old.denied }
    {
        self.given = self.given.saturating_add(bytes);
    }

    // Counts that there was no memory.
    fn denied(&mut self) -> FileFault
        ensures fault { result ≡ FileFault.Memory }
        ensures denied { Rises self.old.denied self.new.denied 1 }
        ensures files { self.new.files ≡ self.old.files }
        ensures layers { self.new.layers ≡ self.old.layers }
        ensures given { self.new.given ≡ self.old.given }
    {
        self.denied = self.denied.saturating_add(1);
        FileFault::Memory
    }

    // Adds the part of a file from a place, at most so many bytes of it; answers whether the file stands. A refused call may
    // leave a part of it.
    fn add_part(
        &mut self,
        path: &StorePath,
        from: u64,
        most: u64,
        into: &mut Vec<u8>,
    ) -> Result<bool, FileFault>
        ensures adds { AddsMost most into.old.items into.new.items }
        ensures none { result ≡ Ok false → into.new.items ≡ into.old.items }
        ensures part { R.alone ≡ true → IfOk result (λ stands. IfSome (R.seen self.new.files) (λ log. AddsStanding (after_all (log ++ laid_ops self.new.layers) (R.start self.new.files) path.now) from most into.old.items into.new.items stands)) }
        ensures layers { self.new.layers ≡ self.old.layers }
        ensures given { self.new.given ≡ self.old.given }
        ensures same_start { R.start self.new.files ≡ R.start self.old.files }
        ensures still { R.alone ≡ true → R.seen self.new.files ≡ R.seen self.old.files }
        ensures counts { Counts (R.faults self.old.files) (R.faults self.new.files) (counted (R.denied self.old.files) self.old.denied) (counted (R.denied self.new.files) self.new.denied) result }
    {
        let Some(layer) = self.layers.get(path) else {
            return match self.files.read(path, from, most, into) {
                Ok(part) => Ok(part.is_some()),
                Err(fault) => Err(fault),
            };
        };
        let (place, left) = match read_under(&mut self.files, layer, path, from, most, into) {
            Ok(rest) => rest,
            Err(fault) => return Err(fault),
        };
        let part = front(past(layer.bytes.as_slice(), place as usize), left as usize);
        match into.extend_from_slice(part) {
            Ok(()) => Ok(true),
            Err(_) => Err(self.denied()),
        }
    }
}

impl<B: Beneath, R: Reads> Reads for Overlay<B, R> {
    ghost use Rattle.hgs_overlay.specs.Layers.{laid_ops};

    ghost faults = { λ o. R.faults o.files };

    ghost denied = { λ o. counted (R.denied o.files) o.denied };

    ghost given = { λ o. o.given };

    ghost seen = { λ o. seen_over R.alone (R.seen o.files) (laid_ops o.layers) };

    ghost start = { λ o. R.start o.files };

    ghost alone = { R.alone };

    ghost shows = { λ start log. Unit {0} };

    ghost ties = { λ o. untied };

    fn read(
        &mut self,
        path: &StorePath,
        from: u64,
        most: u64,
        into: &mut Vec<u8>,
    ) -> Result<Option<u64>, FileFault> {
        let before = into.len();
        match self.add_part(path, from, most, into) {
            Ok(true) => {
                let count = (into.len() - before) as u64;
                self.give(count);
                Ok(Some(count))
            }
            Ok(false) => Ok(None),
            Err(fault) => {
                into.truncate(before);
                Err(fault)
            }
        }
    }

    fn size(&mut self, path: &StorePath) -> Result<Option<u64>, FileFault> {
        let Some(layer) = self.layers.get(path) else {
            return self.files.size(path);
        };
        let len = layer.bytes.len() as u64;
        let before = match size_under(&mut self.files, layer, path) {
            Ok(before) => before,
            Err(fault) => return Err(fault),
        };
        match before.checked_add(len) {
            Some(size) => Ok(Some(size)),
            None => Err(self.denied()),
        }
    }
}
