//! What an accepted command answers. Each function is one law; none does anything.
ghost use Rattle.std.specs.Prelude.{◌≡◌, ◌++◌, ◌+◌, ◌∷◌, [], ℕ, Bool, List, Some, Ok, Err, length, slice_get, suc};
ghost use Rattle.hgs_bytes.specs.Bytes.{IsPrefixOf};
ghost use Rattle.hgs_index.specs.Revision.{node_after};
ghost use Rattle.hgs_model.specs.History.{changeset_nodes, changeset_revision, history};
ghost use Rattle.hgs_model.specs.IsRepo.{IsRepo};
ghost use Rattle.hgs_model.specs.Names.{bookmark_named, named};
ghost use Rattle.hgs_model.specs.Repo.{Repo};
ghost use Rattle.hgs_model.specs.Step.{Answer, as_parents, named_all, new_changeset, step};
ghost use Rattle.hgs_model.specs.Valid.{IsValid};
ghost use Rattle.hgs_model.specs.declared.command.Command.{Command};
ghost use Rattle.hgs_model.specs.declared.command.Command.TheVariants.{Commit, Import, Move, Mark, Unmark};
ghost use Rattle.hgs_model.specs.declared.command.NewChange.{NewChange};
ghost use Rattle.hgs_model.specs.declared.command.Refusal.{Refusal};
ghost use Rattle.hgs_model.specs.declared.phase.Phase.{Phase};

/// An accepted commit puts one changeset, whose parents are those that it named, behind the others. It answers how many
/// there were before it, and the node of its text and parents.
pub fn commit_answers()
    ensures { (r next : Repo) (n : NewChange) (answer : Answer) → IsRepo r → step r (Commit n) ≡ Ok (next, answer) →
        (revs : List ℕ) × (named_all r n.parents ≡ Ok revs) × (next.changesets ≡ r.changesets ++ new_changeset (history r.changesets) (as_parents revs) n ∷ [])
        × (answer.rev ≡ length r.changesets) × (answer.node ≡ node_after (changeset_nodes r.changesets) (changeset_revision (history r.changesets) (new_changeset (history r.changesets) (as_parents revs) n))) }
{}

/// An import of one record is its commit. An import of more is that of the others on what the first one's commit gave, and
/// it is refused where the first one is, with that refusal.
pub fn imports_are_commits()
    ensures one { (r : Repo) (n : NewChange) → step r (Import (n ∷ [])) ≡ step r (Commit n) }
    ensures more { (r mid : Repo) (n m : NewChange) (changes : List NewChange) (answer : Answer) → step r (Commit n) ≡ Ok (mid, answer) → step r (Import (n ∷ m ∷ changes)) ≡ step mid (Import (m ∷ changes)) }
    ensures refused { (r : Repo) (n : NewChange) (changes : List NewChange) (why : Refusal) → step r (Commit n) ≡ Err why → step r (Import (n ∷ changes)) ≡ Err why }
{}

/// An accepted import keeps the changesets that there are, adds one for each record behind them, and answers the last one.
pub fn import_answers()
    ensures { (r next : Repo) (changes : List NewChange) (answer : Answer) → IsValid (Import changes) → step r (Import changes) ≡ Ok (next, answer) →
        IsPrefixOf r.changesets next.changesets × (length next.changesets ≡ length r.changesets + length changes) × (suc answer.rev ≡ length next.changesets) }
{}

/// Any other accepted command leaves the changesets, and answers the one that it named: where a bookmark is deleted, the
/// one that it had.
pub fn named_answers()
    ensures moved { (r next : Repo) (name : List ℕ) (phase : Phase) (force : Bool) (answer : Answer) → step r (Move name phase force) ≡ Ok (next, answer) → (named r name ≡ Some answer.rev) × (next.changesets ≡ r.changesets) }
    ensures marked { (r next : Repo) (mark name : List ℕ) (answer : Answer) → step r (Mark mark name) ≡ Ok (next, answer) → (named r name ≡ Some answer.rev) × (next.changesets ≡ r.changesets) }
    ensures unmarked { (r next : Repo) (mark : List ℕ) (answer : Answer) → step r (Unmark mark) ≡ Ok (next, answer) → (bookmark_named r.bookmarks mark ≡ Some answer.rev) × (next.changesets ≡ r.changesets) }
{}

/// The node that is answered is that of the changeset with the number that is answered, in the repository that the command
/// leaves.
pub fn answers_are_there()
    ensures { (r next : Repo) (command : Command) (answer : Answer) → IsRepo r → step r command ≡ Ok (next, answer) → slice_get (changeset_nodes next.changesets) answer.rev ≡ Some answer.node }
{}
