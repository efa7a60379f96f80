//! What names of revisions have to do with nodes. The function is one law, and does nothing.
ghost use Rattle.std.specs.Prelude.{◌≡◌, List, ℕ, position};
ghost use Rattle.std.specs.List.{AllByRecursion};
ghost use Rattle.hgs_bytes.specs.Bytes.{same};
ghost use Rattle.hgs_index.specs.Hex.{hex};
ghost use Rattle.hgs_index.specs.Node.{IsNode};
ghost use Rattle.hgs_model.specs.Names.{node_named};

/// Among nodes of 20 bytes a name names the first whose digits it is.
pub fn nodes_are_named_by_their_digits()
    ensures { (nodes : List (List ℕ)) (name : List ℕ) → AllByRecursion IsNode nodes → node_named nodes name ≡ position (λ node. same (hex node) name) nodes }
{}
