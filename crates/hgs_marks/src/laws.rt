//! What the definitions of the two texts imply. Each function is one law; none does anything.
ghost use Rattle.std.specs.Prelude.{◌≡◌, List, ℕ, Ok};
ghost use Rattle.std.specs.List.{AllByRecursion};
ghost use Rattle.hex.specs.Hex.{IsBytes};
ghost use Rattle.hgs_marks.specs.Bookmarks.{Mark, bookmarks_text, mark_lines, read_bookmarks, set_mark, without};
ghost use Rattle.hgs_marks.specs.Dirstate.{Dirstate, dirstate_text, read_dirstate};
ghost use Rattle.hgs_index.specs.Node.{IsNode};
ghost use Rattle.hgs_marks.specs.Texts.{AreBookmarks, IsDirstate, IsMark};

/// Bookmarks are read from their text again.
pub fn bookmarks_written_then_read()
    ensures { (marks : List Mark) → AreBookmarks marks → read_bookmarks (bookmarks_text marks) ≡ Ok marks }
{}

/// The lines of any bookmarks, in any order and with any names twice, are read from their text again.
pub fn bookmark_lines_written_then_read()
    ensures { (marks : List Mark) → AllByRecursion IsMark marks → mark_lines (bookmarks_text marks) ≡ Ok marks }
{}

/// What is read are bookmarks in order; a name that is set or taken away leaves such.
pub fn bookmarks_in_order()
    ensures read { (text : List ℕ) (marks : List Mark) → read_bookmarks text ≡ Ok marks → AreBookmarks marks }
    ensures set { (marks after : List Mark) (new : Mark) → AreBookmarks marks → IsNode new.node → set_mark marks new ≡ Ok after → AreBookmarks after }
    ensures left { (name : List ℕ) (marks : List Mark) → AreBookmarks marks → AreBookmarks (without name marks) }
{}

/// Parents and tracked paths are read from their text again.
pub fn dirstate_written_then_read()
    ensures { (d : Dirstate) → IsDirstate d → read_dirstate (dirstate_text d) ≡ Ok d }
{}

/// What is read of bytes are two parents of 20 bytes and paths that have a text.
pub fn dirstate_in_form()
    ensures { (text : List ℕ) (d : Dirstate) → IsBytes text → read_dirstate text ≡ Ok d → IsDirstate d }
{}
