//! Bookmarks by revision and by node. The function is one law, and does nothing.
ghost use Rattle.std.specs.Prelude.{◌≡◌, ℕ, List, map, true};
ghost use Rattle.hgs_bytes.specs.Text.{ascends};
ghost use Rattle.hgs_marks.specs.Bookmarks.{with_mark as with_node, without};
ghost use Rattle.hgs_model.specs.Repo.{Bookmark};
ghost use Rattle.hgs_model.specs.Step.{with_mark, without_mark};
ghost use Rattle.hgs_stands.specs.Stands.{mark_of};

/// Setting and deleting a bookmark is the same before revisions are replaced by their nodes and after it.
pub fn bookmarks_by_nodes()
    ensures set { (known : List (List ℕ)) (marks : List Bookmark) (name : List ℕ) (rev : ℕ) → map (mark_of known) (with_mark marks name rev) ≡ with_node (map (mark_of known) marks) (mark_of known (record { name = name; rev = rev })) }
    ensures deleted { (known : List (List ℕ)) (marks : List Bookmark) (name : List ℕ) → ascends (map (λ m. m.name) marks) ≡ true → map (mark_of known) (without_mark marks name) ≡ without name (map (mark_of known) marks) }
{}
