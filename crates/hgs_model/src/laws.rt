//! What the definitions of this crate imply. Each function is one law; none does anything.
ghost use Rattle.std.specs.Prelude.{◌≡◌, ◌<◌, ◌≤◌, ◌^◌, ◌++◌, ◌∷◌, [], ℕ, List, Some, Ok, decimal, length, slice_index};
ghost use Rattle.hgs_bytes.specs.Bytes.{IsPrefixOf};
ghost use Rattle.hgs_index.specs.Ancestor.{IsAncestor, IsParent, is_ancestor};
ghost use Rattle.hgs_index.specs.Revision.{Revision, Parents, ParentsBefore, nodes};
ghost use Rattle.hgs_model.specs.History.{history, parents_in};
ghost use Rattle.hgs_model.specs.IsRepo.{IsRepo};
ghost use Rattle.hgs_model.specs.Names.{named};
ghost use Rattle.hgs_model.specs.Repo.{Repo, Changeset, all_parents, empty_repo};
ghost use Rattle.hgs_model.specs.Step.{Answer, step};
ghost use Rattle.hgs_model.specs.Valid.{IsValid};
ghost use Rattle.hgs_model.specs.declared.command.Command.{Command};

/// A repository with nothing in it is one.
pub fn empty_is_repository()
    ensures { IsRepo empty_repo }
{}

/// What an accepted command makes of a repository is one again.
pub fn step_keeps_repositories()
    ensures { (r next : Repo) (command : Command) (answer : Answer) → IsRepo r → IsValid command → step r command ≡ Ok (next, answer) → IsRepo next }
{}

/// A name names a changeset that there is.
pub fn named_is_there()
    ensures { (r : Repo) (name : List ℕ) (rev : ℕ) → IsRepo r → named r name ≡ Some rev → rev < length r.changesets }
{}

/// The digits of a number below the count name that changeset.
pub fn numbers_name_themselves()
    ensures { (r : Repo) (rev : ℕ) → rev < length r.changesets → rev < 2 ^ 64 → named r (decimal rev) ≡ Some rev }
{}

/// With one more changeset each list of revisions begins with the one before, so texts, parents, links and nodes stay.
pub fn lists_grow()
    ensures changelog { (changesets : List Changeset) (c : Changeset) → IsPrefixOf (history changesets).changelog (history (changesets ++ c ∷ [])).changelog }
    ensures manifest { (changesets : List Changeset) (c : Changeset) → IsPrefixOf (history changesets).manifest (history (changesets ++ c ∷ [])).manifest }
    ensures filelogs { (changesets : List Changeset) (c : Changeset) (path : List ℕ) → IsPrefixOf ((history changesets).filelog path) ((history (changesets ++ c ∷ [])).filelog path) }
    ensures nodes { (revisions more : List Revision) → IsPrefixOf (nodes revisions) (nodes (revisions ++ more)) }
{}

/// In a repository the changelog has a revision for each changeset, with its parents.
pub fn changelog_is_whole()
    ensures count { (r : Repo) → IsRepo r → length (history r.changesets).changelog ≡ length r.changesets }
    ensures parents { (r : Repo) → IsRepo r → parents_in (history r.changesets).changelog ≡ all_parents r.changesets }
{}

/// In each list of revisions of a repository parents stand before their children.
pub fn parents_stand_before()
    ensures changelog { (r : Repo) → IsRepo r → ParentsBefore 0 (parents_in (history r.changesets).changelog) }
    ensures manifest { (r : Repo) → IsRepo r → ParentsBefore 0 (parents_in (history r.changesets).manifest) }
    ensures filelogs { (r : Repo) (path : List ℕ) → IsRepo r → ParentsBefore 0 (parents_in ((history r.changesets).filelog path)) }
{}

/// No changeset's phase is below an ancestor's.
pub fn phases_rise()
    ensures { (r : Repo) (a b : ℕ) → IsRepo r → IsAncestor (all_parents r.changesets) a b → slice_index r.phases a ≤ slice_index r.phases b }
{}

/// Among the first revisions of a history ancestors are what they are in the whole, and a parent comes before its child.
pub fn ancestors_of_a_front()
    ensures front { (history more : List Parents) (a b : ℕ) → b < length history → is_ancestor (history ++ more) a b ≡ is_ancestor history a b }
    ensures before { (history : List Parents) (child parent : ℕ) → ParentsBefore 0 history → IsParent history parent child → parent < child }
{}
