//! The texts of bookmarks and of the working parents. Each function is one law; none does anything.
ghost use Rattle.std.specs.Prelude.{◌≡◌, ◌↔◌, ℕ, List, Ok};
ghost use Rattle.hex.specs.Hex.{IsBytes};
ghost use Rattle.hgs_marks.specs.Bookmarks.{Mark, mark_lines, read_bookmarks};
ghost use Rattle.hgs_marks.specs.Dirstate.{Dirstate, read_dirstate};
ghost use Rattle.hgs_marks.specs.DirstateTexts.{IsDirstateText};
ghost use Rattle.hgs_marks.specs.MarkTexts.{AreLinesOf, IsTextOf};

/// A text is read as these bookmarks exactly where it has a line for each of some, the last of which may lack its LF, and
/// these are left where of two with one name the later stays.
pub fn bookmark_texts()
    ensures lines { (marks : List Mark) (text : List ℕ) → (mark_lines text ≡ Ok marks ↔ AreLinesOf marks text) }
    ensures marks { (marks : List Mark) (text : List ℕ) → (read_bookmarks text ≡ Ok marks ↔ IsTextOf marks text) }
{}

/// Bytes are read as this dirstate exactly where they are its text.
pub fn dirstate_texts()
    ensures { (d : Dirstate) (text : List ℕ) → IsBytes text → (read_dirstate text ≡ Ok d ↔ IsDirstateText d text) }
{}
