//! What the plans of an import's records are together: the step that the repository makes of it. Each function is one law; none does
//! anything but to call laws that it rests on.
ghost use Rattle.std.specs.Prelude.{◌≡◌, Err, List, Result};
ghost use Rattle.hgs_commit.specs.declared.fault.CommitFault.{CommitFault};
ghost use Rattle.hgs_commit.specs.declared.fault.CommitFault.TheVariants.{Refused};
ghost use Rattle.hgs_files.specs.Tree.{Tree};
ghost use Rattle.hgs_model.specs.Repo.{Repo};
ghost use Rattle.hgs_model.specs.Step.{step};
ghost use Rattle.hgs_model.specs.Valid.{AreNewChanges};
ghost use Rattle.hgs_model.specs.declared.command.Command.TheVariants.{Commit, Import};
ghost use Rattle.hgs_model.specs.declared.command.NewChange.{NewChange};
ghost use Rattle.hgs_model.specs.declared.command.Refusal.{Refusal};
ghost use Rattle.hgs_ops.specs.Laid.{laid};
ghost use Rattle.hgs_stands.specs.Stands.{Stands};
ghost use Rattle.hgs_steps.specs.Planned.{IsLoadedOf};
ghost use Rattle.hgs_steps.specs.declared.fault.PlanFault.TheVariants.{Refused as refused_for};
ghost use Rattle.hgs_steps.specs.declared.loaded.Loaded.{Loaded};
ghost use Rattle.hgs_steps.specs.declared.step.Step.{Step};
ghost use Rattle.hgs_transaction.specs.OfTransaction.{ArePartsOf};
ghost use Rattle.hgs_transaction.specs.declared.parts.Parts.{Parts};
ghost use Rattle.hgs_legal.specs.ListsPaths.{ListsPaths};
ghost use Rattle.hgs_writer.specs.BytePaths.{AreOfBytes};
ghost use Rattle.hgs_writer.specs.Imports.{ComesToNothing, ImportAnswersAs, SomeRecord};
ghost use Rattle.hgs_writer.specs.Joined.{lays};
ghost use Rattle.hgs_writer.specs.Records.{ImportComesTo};

use crate::commit_laws::commits_agree;
use crate::laws::standing_trees_are_read;
use hgs_legal::list_laws::laid_commits_keep_lists;
use hgs_model::answers::imports_are_commits;
use hgs_ops::laws::{
    records_laid_append_and_change_roots, records_laid_are_an_import,
    records_laid_name_new_filelogs,
};

/// What the parts of a commit's step put into a tree is what the commit lays.
pub fn parts_of_commits_are_laid()
    ensures { (t : Tree) (r next : Repo) (n : NewChange) (p : Parts) → ArePartsOf t r (Commit n) next p → lays p ≡ laid t r n next }
{}

/// An import of paths that are bytes, where the list of filelogs has only names of paths, is answered as the repository answers it: it is accepted, with the step to the next repository,
/// for which the tree is ready, where its records come to steps; and else it comes to nothing for one of them. A refusal that is the repository's of
/// that record is the repository's of the import.
pub fn imports_agree()
    ensures agree { (t : Tree) (r : Repo) (l : Loaded) (changes : List NewChange) (result : Result Step CommitFault) → Stands t r → IsLoadedOf t l → AreNewChanges changes → AreOfBytes changes → ListsPaths t r → ImportComesTo t l changes result → ImportAnswersAs t r changes result (step r (Import changes)) }
    ensures refused { (t : Tree) (r : Repo) (changes : List NewChange) (e : Refusal) → SomeRecord (ComesToNothing (Refused (refused_for e))) t r changes → step r (Import changes) ≡ Err e }
{
    commits_agree();
    standing_trees_are_read();
    imports_are_commits();
    laid_commits_keep_lists();
    records_laid_are_an_import();
    records_laid_append_and_change_roots();
    records_laid_name_new_filelogs();
}
