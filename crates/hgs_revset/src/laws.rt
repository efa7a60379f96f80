//! What the definitions of this crate imply. Each function is one law; none does anything.
ghost use Rattle.std.specs.Prelude.{◌≡◌, ◌≤◌, ◌<◌, ◌↔◌, ℕ, List, Ok, true, length};
ghost use Rattle.hgs_index.specs.Revision.{ParentsBefore};
ghost use Rattle.hgs_revset.specs.Members.{is_known, AreAlike, Has, Set, Story};
ghost use Rattle.hgs_revset.specs.Postfix.{all_known, set_of, IsWhole};
ghost use Rattle.hgs_revset.specs.Printed.{depth_of, printed, IsPrintable};
ghost use Rattle.hgs_revset.specs.Read.{read_set, read_steps};
ghost use Rattle.hgs_revset.specs.Text.{holds, set_text};
ghost use Rattle.hgs_revset.specs.declared.step.Step.{Step};

/// A printed set reads as itself, if it is not too deep, its text not too long, and no name of it has a `"`.
pub fn printed_then_read()
    ensures { (a : Set) → IsPrintable a → depth_of a ≤ 64 → length (printed a) ≤ 4096 → read_set (printed a) ≡ Ok a }
{}

/// The steps of a text leave one set, and nothing else.
pub fn read_steps_are_whole()
    ensures { (text : List ℕ) (steps : List Step) → read_steps text ≡ Ok steps → IsWhole steps }
{}

/// The names of steps that leave one set are those of the set.
pub fn steps_have_names_of_set()
    ensures { (s : Story) (steps : List Step) → IsWhole steps → all_known s steps ≡ is_known s (set_of steps) }
{}

/// Where parents stand before their children, the test says exactly which changesets a set holds.
pub fn tests_are_exact()
    ensures { (s : Story) (a : Set) (rev : ℕ) → ParentsBefore 0 s.parents → rev < length s.parents → (holds s a rev ≡ true ↔ Has s a rev) }
{}

/// A set has the same members and the same text over two stories that tell the same, and its names are known in both or in none.
pub fn members_of_alike()
    ensures members { (s t : Story) (a : Set) (rev : ℕ) → AreAlike s t → (Has s a rev ↔ Has t a rev) }
    ensures known { (s t : Story) (a : Set) → AreAlike s t → is_known s a ≡ is_known t a }
    ensures text { (s t : Story) (a : Set) → AreAlike s t → set_text s a ≡ set_text t a }
{}
