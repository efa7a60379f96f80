//! What the definitions of this crate imply. Each function is one law; none does anything.
ghost use Rattle.std.specs.Prelude.{◌≡◌, ◌≤◌, ◌/◌, ℕ, List, length, Ok};
ghost use Rattle.hgs_files.specs.Tree.{Tree, bytes_at};
ghost use Rattle.hgs_revlog.specs.declared.fault.Tail.TheVariants.{Refuse};
ghost use Rattle.hgs_revlog.specs.Load.{loaded_either, most_revisions};
ghost use Rattle.hgs_revlog.specs.Log.{Log};
ghost use Rattle.hgs_loading.specs.Logs.{either_log_in, index_in};

use hgs_revlog::laws::loaded_entries;

/// Where an index loads, all of it was read, and it is its entries and nothing else, in an inline one with their chunks; an
/// index of no more entries than a revlog may have is read whole, whatever stands in it.
pub fn indexes_are_read_whole()
    ensures loads { (index : List ℕ) (t : Tree) (log : Log) → either_log_in index t ≡ Ok log → loaded_either Refuse (bytes_at t index) ≡ Ok log }
    ensures short { (index : List ℕ) (t : Tree) → length (bytes_at t index) / 64 ≤ most_revisions → index_in index t ≡ bytes_at t index }
{
    loaded_entries();
}
