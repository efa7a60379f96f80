//! What the lists of revisions have of a list of changesets. Each function is one law; none does anything.
ghost use Rattle.std.specs.Prelude.{◌≡◌, ◌<◌, false, true, ℕ, List, [], Some, length, slice_get, take};
ghost use Rattle.std.specs.List.{AllByRecursion};
ghost use Rattle.hgs_bytes.specs.Bytes.{IsPrefixOf};
ghost use Rattle.hgs_index.specs.Manifest.{AreRows};
ghost use Rattle.hgs_index.specs.Node.{IsNode};
ghost use Rattle.hgs_index.specs.Revision.{Revision, nodes, number_of, with_revision};
ghost use Rattle.hgs_index.specs.Revlog.{all_different};
ghost use Rattle.hgs_model.specs.Held.{IsHeld};
ghost use Rattle.hgs_model.specs.History.{EachChangeset, History, changeset_nodes, history, no_history, node_at, rows_of, text_at, uses};
ghost use Rattle.hgs_model.specs.IsRepo.{IsNextChangeset};
ghost use Rattle.hgs_model.specs.Repo.{Changeset, TreeFile};

/// Where each changeset may come after those before it, the changelog has a revision for each: of it the revisions say what
/// was committed, its text and its parents, the rows of its manifest, and in the filelog of each path that file's text.
pub fn changesets_are_held()
    ensures each { (changesets : List Changeset) → EachChangeset IsNextChangeset no_history changesets → (rev : ℕ) (c : Changeset) → slice_get changesets rev ≡ Some c → IsHeld (history (take rev changesets)) (history changesets) rev c }
    ensures count { (changesets : List Changeset) → EachChangeset IsNextChangeset no_history changesets → length (history changesets).changelog ≡ length changesets }
{}

/// The rows of a changeset's manifest ascend, and each can stand in a line.
pub fn rows_ascend()
    ensures { (h : History) (c : Changeset) → IsNextChangeset h c → AreRows (rows_of h c) }
{}

/// The number of a revision is that of one in the list with it, which has its text.
pub fn revisions_have_numbers()
    ensures below { (revisions : List Revision) (r : Revision) → number_of revisions r.text r.parents < length (with_revision revisions r) }
    ensures text { (revisions : List Revision) (r : Revision) → text_at (with_revision revisions r) (number_of revisions r.text r.parents) ≡ r.text }
{}

/// The lists of a front of the changesets are fronts of their lists, and so are its nodes.
pub fn histories_go_on()
    ensures changelog { (front all : List Changeset) → IsPrefixOf front all → IsPrefixOf (history front).changelog (history all).changelog }
    ensures manifest { (front all : List Changeset) → IsPrefixOf front all → IsPrefixOf (history front).manifest (history all).manifest }
    ensures filelogs { (front all : List Changeset) (path : List ℕ) → IsPrefixOf front all → IsPrefixOf ((history front).filelog path) ((history all).filelog path) }
    ensures nodes { (front all : List Changeset) → IsPrefixOf front all → IsPrefixOf (changeset_nodes front) (changeset_nodes all) }
{}

/// What a number stands for in a front of a list it stands for in the list; a number below the count is that of a revision,
/// with the text that stands there.
pub fn revisions_stay()
    ensures there { (revisions : List Revision) (rev : ℕ) → rev < length revisions → (r : Revision) × (slice_get revisions rev ≡ Some r) × (r.text ≡ text_at revisions rev) }
    ensures revision { (front revisions : List Revision) (rev : ℕ) (r : Revision) → IsPrefixOf front revisions → slice_get front rev ≡ Some r → slice_get revisions rev ≡ Some r }
    ensures text { (front revisions : List Revision) (rev : ℕ) → IsPrefixOf front revisions → rev < length front → text_at revisions rev ≡ text_at front rev }
    ensures node { (front revisions : List Revision) (rev : ℕ) → IsPrefixOf front revisions → rev < length front → node_at revisions rev ≡ node_at front rev }
{}

/// Each node is 20 bytes; where all differ, revisions with one node are one.
pub fn nodes_name_revisions()
    ensures all { (revisions : List Revision) → AllByRecursion IsNode (nodes revisions) }
    ensures node { (revisions : List Revision) (rev : ℕ) → IsNode (node_at revisions rev) }
    ensures one { (revisions : List Revision) (i j : ℕ) → all_different (nodes revisions) ≡ true → i < length revisions → j < length revisions → node_at revisions i ≡ node_at revisions j → i ≡ j }
{}

/// A path of a changeset's tree is used, and a path that is not used has no revisions.
pub fn used_paths_have_revisions()
    ensures files { (changesets : List Changeset) (rev : ℕ) (c : Changeset) → slice_get changesets rev ≡ Some c → AllByRecursion (λ (f : TreeFile). uses changesets f.path ≡ true) c.tree }
    ensures unused { (changesets : List Changeset) (path : List ℕ) → uses changesets path ≡ false → (history changesets).filelog path ≡ [] }
{}
