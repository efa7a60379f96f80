//! What the definitions of this crate imply. Each function is one law; none does anything.
ghost use Rattle.std.specs.Prelude.{◌≡◌, ◌≤◌, ℕ, List, true};
ghost use Rattle.hgs_bytes.specs.Bytes.{IsPrefixOf};
ghost use Rattle.hgs_files.specs.declared.op.Op.{Op};
ghost use Rattle.hgs_files.specs.Tree.{Tree, after_all, bytes_at};
ghost use Rattle.hgs_legal.specs.LegalLog.{IsRun, State};
ghost use Rattle.hgs_legal.specs.Numbers.{n_of, repo_at};
ghost use Rattle.hgs_later.specs.Later.{AreCutByLinks, EndByLinks, IsAddedTo, IsUnder};
ghost use Rattle.hgs_model.specs.History.{uses};
ghost use Rattle.hgs_model.specs.Repo.{Repo};
ghost use Rattle.hgs_path.specs.declared.name.Ext.TheVariants.{I};
ghost use Rattle.hgs_path.specs.StoreName.{store_name};
ghost use Rattle.hgs_stands.specs.Places.{manifest_index};
ghost use Rattle.hgs_stands.specs.Stands.{HoldsChangesets, Stands};

use hgs_legal::laws::{logs_show, numbers_rise, repositories_go_on, stops_are_safe};
use hgs_links::laws::{fronts_are_cut_by_links, fronts_end_by_links, links_part_histories};
use hgs_model::history_laws::histories_go_on;
use hgs_ops::laws::{
    files_only_grow, steps_go_on, transactions_cover_their_start, transactions_lead,
};

/// At each moment of a legal log what stands at the path of a file that transactions only add to is a front of what a tree has there
/// that holds the published repository or one that goes on from it: also while a commit or an import works, and while it is undone.
pub fn files_stay_under()
    ensures { (t : Tree) (r : Repo) (log : List Op) (s : State) (path : List ℕ) → Stands t r → IsRun t r log s → IsAddedTo path → IsUnder (after_all log t) path (repo_at s (n_of s)).changesets }
{
    numbers_rise();
    stops_are_safe();
    steps_go_on();
    transactions_lead();
    transactions_cover_their_start();
    files_only_grow();
}

/// So at each moment, also while a transaction works or is undone: of the manifest, and of the filelog of each path that a
/// published changeset uses, the entries of the revisions that the repository after so many published transactions has stand
/// in front, and of all whole entries exactly these carry a link below that repository's number of changesets.
pub fn links_cut_fronts()
    ensures { (t : Tree) (r : Repo) (log : List Op) (s : State) (i : ℕ) → Stands t r → IsRun t r log s → i ≤ n_of s → AreCutByLinks (after_all log t) (repo_at s i).changesets (repo_at s (n_of s)).changesets }
{
    files_stay_under();
    logs_show();
    repositories_go_on();
    links_part_histories();
    histories_go_on();
    fronts_are_cut_by_links();
    fronts_end_by_links();
}

/// In either form, at each moment: where the bytes that hold a repository's revisions stand at the front of the manifest's index
/// and of each used path's, as `published_files_stay` has it of what was published, a whole entry that stands right behind them carries
/// a link not below that repository's number of changesets. So whoever goes from item to item, and reads each entry whole, stops
/// where the front ends, whatever the moments.
pub fn stores_end_by_links()
    ensures { (t store : Tree) (r : Repo) (log : List Op) (s : State) (i : ℕ) → Stands t r → IsRun t r log s → i ≤ n_of s → HoldsChangesets store (repo_at s i).changesets → IsPrefixOf (bytes_at store manifest_index) (bytes_at (after_all log t) manifest_index) →
        ((path : List ℕ) → uses (repo_at s i).changesets path ≡ true → IsPrefixOf (bytes_at store (store_name path I)) (bytes_at (after_all log t) (store_name path I))) → EndByLinks (after_all log t) store (repo_at s i).changesets }
{
    files_stay_under();
    repositories_go_on();
    links_part_histories();
    histories_go_on();
    fronts_are_cut_by_links();
    fronts_end_by_links();
}
