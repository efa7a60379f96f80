//! Which lists of operations may be done on shared files.

/// Which lists of operations are legal from a start tree.
pub trait Protocol {
    ghost use Rattle.std.specs.Prelude.{List, [], ◌∷◌, ◌++◌};
    ghost use Rattle.hgs_files.specs.declared.op.Op.{Op};
    ghost use Rattle.hgs_files.specs.Tree.{Tree};
    ghost use Rattle.hgs_files.specs.Log.{IsPiece};

    ghost legal: { Tree → List Op → Type 0 };

    ghost legal_empty: { (start : Tree) → legal start [] };

    ghost legal_front: { (start : Tree) (log more : List Op) → legal start (log ++ more) → legal start log };

    /// An append or a creation may be done with a front of its bytes.
    ghost legal_piece: { (start : Tree) (log left : List Op) (op piece : Op) → IsPiece op piece left → legal start (log ++ op ∷ []) → legal start (log ++ piece ∷ []) };
}
