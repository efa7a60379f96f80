//! What layers make of files. Each function is one law; none does anything.
ghost use Rattle.std.specs.Prelude.{◌≡◌, List, ℕ};
ghost use Rattle.hgs_files.specs.Tree.{Tree, after_all};
ghost use Rattle.hgs_overlay.specs.declared.layers.Layers.{Layers};
ghost use Rattle.hgs_overlay.specs.Layers.{covered, laid_ops, layer_at};

/// Behind the operations that write all layers each file has its own, and no other file is changed.
pub fn layers_cover_files()
    ensures { (l : Layers) (t : Tree) (path : List ℕ) → after_all (laid_ops l) t path ≡ covered (layer_at l path) (t path) }
{}

/// The operations tell the layers: two that have the same ones have the same layers.
pub fn operations_tell_layers()
    ensures { (l m : Layers) → laid_ops l ≡ laid_ops m → (path : List ℕ) → layer_at l path ≡ layer_at m path }
{}
