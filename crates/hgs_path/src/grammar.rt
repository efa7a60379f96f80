//! The text of the list `fncache`. The function is one law, and does nothing.
ghost use Rattle.std.specs.Prelude.{◌≡◌, ◌↔◌, ℕ, List, Ok};
ghost use Rattle.hgs_path.specs.ListedNames.{names_of};
ghost use Rattle.hgs_path.specs.ListText.{IsListOf};

/// A text is read as these names exactly where it has a line with its LF for each, in their order.
pub fn list_texts()
    ensures { (names : List (List ℕ)) (text : List ℕ) → (names_of text ≡ Ok names ↔ IsListOf names text) }
{}
