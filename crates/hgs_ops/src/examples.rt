//! The laws tried on a first commit. Each function is one example; none does anything.
ghost use Rattle.std.specs.Prelude.{◌≡◌, ◌∷◌, ◌++◌, [], true, ℕ, List, Ok, codes};
ghost use Rattle.hgs_files.specs.Tree.{after_all, bytes_at};
ghost use Rattle.hgs_model.specs.Repo.{empty_repo};
ghost use Rattle.hgs_model.specs.Step.{answer_at, step};
ghost use Rattle.hgs_model.specs.Valid.{IsValid};
ghost use Rattle.hgs_model.specs.declared.command.Command.TheVariants.{Commit, Import};
ghost use Rattle.hgs_stands.specs.Places.{bookmarks_path, changelog_data, changelog_index, fncache_path, manifest_data, manifest_index, roots_path};
ghost use Rattle.hgs_stands.specs.Samples.{two_drafts, two_drafts_files};
ghost use Rattle.hgs_stands.specs.Stands.{IsClean, Stands};
ghost use Rattle.hgs_ops.specs.Laid.{AreLaid, appended_by, changes_roots, names_with};
ghost use Rattle.hgs_ops.specs.Operations.{operations, transaction_of, strays};
ghost use Rattle.hgs_ops.specs.PowerCourses.{AreCalls, parts_of_calls};
ghost use Rattle.hgs_ops.specs.PowerSteps.{resting_at};
ghost use Rattle.hgs_power.specs.Course.{AllWithin};
ghost use Rattle.hgs_power.specs.Disk.{at_rest};
ghost use Rattle.hgs_ops.specs.Samples.{after_both, after_delete, after_publish, after_set, bare, both_changes, delete_here, first_call, first_change, first_repos, one_draft, one_marked, one_public, one_unmarked, publish_here, set_here};
ghost use Rattle.hgs_ops.specs.Unhindered.{IsReady};

use crate::laws::transactions_bear_a_loss_of_power;

/// In a store with nothing in it all that the laws ask of a commit is met, and the commit leads to the repository with one
/// changeset.
pub fn first_commit()
    ensures stands { Stands bare empty_repo }
    ensures valid { IsValid (Commit first_change) }
    ensures accepted { step empty_repo (Commit first_change) ≡ Ok (one_draft, answer_at one_draft 0) }
    ensures ready { IsReady bare empty_repo (Commit first_change) one_draft }
    ensures leads { (who : List ℕ) → IsClean (after_all (operations (transaction_of bare empty_repo (Commit first_change) who one_draft)) bare) one_draft }
{}

/// That commit is a call that bears a loss of power: wherever the power fails within it, files are left that stand for the empty
/// repository or lead back to it, or, once it is published, for the one with its changeset.
pub fn first_commit_bears_a_loss_of_power()
    ensures calls { (who : List ℕ) → AreCalls first_repos 0 (at_rest bare) (first_call who ∷ []) }
    ensures safe { (who : List ℕ) → AllWithin strays (λ m t. Stands t (first_repos m)) (parts_of_calls first_repos 0 (at_rest bare) (first_call who ∷ [])) (at_rest bare) (resting_at 0) }
{
    transactions_bear_a_loss_of_power();
}

/// The same as an import of one record is as ready, and leads to the same repository.
pub fn first_import()
    ensures valid { IsValid (Import (first_change ∷ [])) }
    ensures accepted { step empty_repo (Import (first_change ∷ [])) ≡ Ok (one_draft, answer_at one_draft 0) }
    ensures ready { IsReady bare empty_repo (Import (first_change ∷ [])) one_draft }
    ensures laid { AreLaid bare empty_repo ((first_change, one_draft) ∷ []) }
    ensures leads { (who : List ℕ) → IsClean (after_all (operations (transaction_of bare empty_repo (Import (first_change ∷ [])) who one_draft)) bare) one_draft }
{}

/// Laid into that store it changes the phase roots, and its filelog is listed by the name of its index alone, since it is inline.
pub fn first_record_laid()
    ensures roots { changes_roots empty_repo ((first_change, one_draft) ∷ []) ≡ true }
    ensures names { names_with (codes "a") (bytes_at bare (codes "store/data/a.i")) (appended_by (codes "store/data/a.i") bare empty_repo ((first_change, one_draft) ∷ [])) (appended_by (codes "store/data/a.d") bare empty_repo ((first_change, one_draft) ∷ [])) ≡ codes "data/a.i" ∷ [] }
{}

/// An import of two records, the first with a bookmark, leaves the phase roots, the bookmarks, the changelog and the manifest as
/// Mercurial wrote them of the same two changesets, and a list of filelogs in which each is inline.
pub fn two_records_at_once()
    ensures accepted { step empty_repo (Import both_changes) ≡ Ok (two_drafts, answer_at two_drafts 1) }
    ensures marks { (who : List ℕ) → bytes_at (after_both who) bookmarks_path ≡ bytes_at two_drafts_files bookmarks_path }
    ensures roots { (who : List ℕ) → bytes_at (after_both who) roots_path ≡ bytes_at two_drafts_files roots_path }
    ensures changelog { (who : List ℕ) → bytes_at (after_both who) changelog_index ≡ bytes_at two_drafts_files changelog_index }
    ensures changes { (who : List ℕ) → bytes_at (after_both who) changelog_data ≡ bytes_at two_drafts_files changelog_data }
    ensures manifest { (who : List ℕ) → bytes_at (after_both who) manifest_index ≡ bytes_at two_drafts_files manifest_index }
    ensures rows { (who : List ℕ) → bytes_at (after_both who) manifest_data ≡ bytes_at two_drafts_files manifest_data }
    ensures list { (who : List ℕ) → bytes_at (after_both who) fncache_path ≡ codes "data/a.i" ++ 10 ∷ codes "data/b.i" ++ 10 ∷ [] }
{}

/// On the tree that the first commit leaves a bookmark is set, the changeset is published, and the bookmark is deleted: each command is
/// accepted, and each tree stands for the next repository.
pub fn commands_on_it()
    ensures valid { IsValid set_here × IsValid publish_here × IsValid delete_here }
    ensures accepted { (step one_draft set_here ≡ Ok (one_marked, answer_at one_marked 0)) × (step one_marked publish_here ≡ Ok (one_public, answer_at one_public 0)) × (step one_public delete_here ≡ Ok (one_unmarked, answer_at one_unmarked 0)) }
    ensures leads { (who : List ℕ) → IsClean (after_set who) one_marked × IsClean (after_publish who) one_public × IsClean (after_delete who) one_unmarked }
{}
