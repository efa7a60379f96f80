//! What the definitions of this crate imply. Each function is one law; none does anything.
ghost use Rattle.std.specs.Prelude.{◌≡◌, List, Ok};
ghost use Rattle.hgs_index.specs.Manifest.{Row, AreRows};
ghost use Rattle.hgs_index.specs.Node.{IsNode};
ghost use Rattle.hgs_manifest.specs.Held.{with_last};

/// Rows that have a text, with one more whose node is one that `push` takes, have one.
pub fn pushed_rows()
    ensures { (rows more : List Row) (r : Row) → AreRows rows → IsNode r.node → with_last rows r ≡ Ok more → AreRows more }
{}
