//! What is to be written to files, by their paths.
ghost use Rattle.std.specs.Prelude.{◌≡◌, ℕ, List, [], None, true, OnOk, OnErr, option_copied};
ghost use Rattle.std.proofs.Props.{props};
ghost use Rattle.std.specs.BTreeMap.{IsOrdered};
ghost use Rattle.std.specs.Cmp.Lexicographic.{slice_cmp};
ghost use Rattle.std.specs.Ordering.{nat_cmp};
ghost use Rattle.hgs_files.specs.declared.op.Op.{Op};
ghost use Rattle.hgs_files.specs.Tree.{Tree, after_all, apply};

use hgs_bytes::bytes::Bytes;
use hgs_files::path::StorePath;
use std::alloc::{AllocError, Global};
use std::collections::BTreeMap;

/// What is to be written to a file.
#[derive(Debug, Drop)]
pub struct Layer {
    /// Whether the bytes take the file's place, or are put behind its own.
    pub in_place: bool,
    pub bytes: Bytes,
}

/// What is to be written to files, by their paths. More bytes are put behind those of a path without a copy of these.
#[derive(Drop)]
pub struct Layers {
    laid: BTreeMap<StorePath, Layer>,
    ghost ordered: { IsOrdered (slice_cmp nat_cmp) laid } by { Prim.hlevel props },
}

impl Layers {
    ghost use Rattle.hgs_overlay.specs.Layers.{appended_to, layer_at, laid_ops, with_layer, without_layer};

    /// Nothing. Takes no memory.
    pub fn new(alloc: Global) -> Layers
        ensures at { (path : List ℕ) → layer_at result path ≡ None }
        ensures ops { laid_ops result ≡ [] }
    {
        Layers {
            laid: BTreeMap::new(alloc),
        }
    }

    /// What is to be written to a file.
    pub fn get(&self, path: &StorePath) -> Option<&Layer>
        ensures { option_copied result ≡ layer_at self.now path.now }
    {
        self.laid.get(path)
    }

    // Writes this to a file, in place of what was to be written to it, or changes nothing.
    fn put(&mut self, alloc: Global, path: &StorePath, layer: Layer) -> Result<(), AllocError>
        ensures at { OnOk result ((other : List ℕ) → layer_at self.new other ≡ with_layer (layer_at self.old) path.now layer other) }
        ensures err { OnErr result (self.new.laid.entries ≡ self.old.laid.entries) }
    {
        self.laid.insert(path.copy(alloc)?, layer)?;
        Ok(())
    }

    /// Puts bytes behind those of a file, or changes nothing.
    pub fn append(
        &mut self,
        alloc: Global,
        path: &StorePath,
        bytes: Bytes,
    ) -> Result<(), AllocError>
        ensures at { OnOk result ((other : List ℕ) → layer_at self.new other ≡ with_layer (layer_at self.old) path.now (appended_to (layer_at self.old path.now) bytes) other) }
        ensures tree { OnOk result ((t : Tree) → after_all (laid_ops self.new) t ≡ apply (Op.Append path.now bytes) (after_all (laid_ops self.old) t)) }
        ensures err { OnErr result (laid_ops self.new ≡ laid_ops self.old) }
    {
        if let Some(layer) = self.laid.get_mut(path) {
            return layer.bytes.append(bytes.as_slice());
        }
        let in_place = false;
        self.put(alloc, path, Layer { in_place, bytes })
    }

    /// Puts bytes in the place of a file, or changes nothing.
    pub fn replace(
        &mut self,
        alloc: Global,
        path: &StorePath,
        bytes: Bytes,
    ) -> Result<(), AllocError>
        ensures at { OnOk result ((other : List ℕ) → layer_at self.new other ≡ with_layer (layer_at self.old) path.now (record { in_place = true; bytes = bytes }) other) }
        ensures tree { OnOk result ((t : Tree) → after_all (laid_ops self.new) t ≡ apply (Op.Create path.now bytes) (after_all (laid_ops self.old) t)) }
        ensures err { OnErr result (laid_ops self.new ≡ laid_ops self.old) }
    {
        let in_place = true;
        self.put(alloc, path, Layer { in_place, bytes })
    }

    /// Takes out what is to be written to a file.
    pub fn take(&mut self, path: &StorePath) -> Option<Layer>
        ensures taken { result ≡ layer_at self.old path.now }
        ensures left { (other : List ℕ) → layer_at self.new other ≡ without_layer (layer_at self.old) path.now other }
    {
        self.laid.remove(path)
    }
}
