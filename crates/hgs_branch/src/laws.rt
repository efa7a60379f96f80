//! What the definitions of this crate imply. Each function is one law; none does anything.
ghost use Rattle.std.specs.Prelude.{◌≡◌, ◌<◌, ◌↔◌, ℕ, List, true, length};
ghost use Rattle.hgs_index.specs.Revision.{Parents, ParentsBefore};
ghost use Rattle.hgs_branch.specs.Heads.{is_head, IsHead};

/// Where parents stand before their children, the test says exactly which changesets are heads of their branch.
pub fn tests_are_exact()
    ensures { (parents : List Parents) (names : List (List ℕ)) (rev : ℕ) → ParentsBefore 0 parents → length parents ≡ length names → rev < length names → (is_head parents names rev ≡ true ↔ IsHead parents names rev) }
{}
