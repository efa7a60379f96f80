//! What is known of the files that a told loss of power leaves. Each function is one law; none does anything.
ghost use Rattle.std.specs.Prelude.{◌≡◌, ◌≤◌, List, ℕ, length};
ghost use Rattle.hgs_files.specs.declared.op.Op.{Op};
ghost use Rattle.hgs_files.specs.Stop.{IsStopped};
ghost use Rattle.hgs_files.specs.Tree.{Tree, after_all};
ghost use Rattle.hgs_power.specs.Disk.{PowerLeaves, at_rest, run};
ghost use Rattle.hgs_power.specs.Held.{FirmAt};
ghost use Rattle.hgs_power.specs.Power.{powered};

/// Whatever it is told to keep, it leaves one of the trees that a loss of power may leave, also where it comes within an operation.
pub fn told_losses_are_losses()
    ensures { (start : Tree) (log done : List Op) (names keep fill : ℕ) → IsStopped log done → PowerLeaves start log (powered names keep fill (run done (at_rest start))) }
{}

/// Where each file that stands was synced and all changes of names are kept, it leaves the files as they are after the log.
pub fn synced_files_are_kept()
    ensures { (start : Tree) (log : List Op) (names keep fill : ℕ) → ((path : List ℕ) → FirmAt (run log (at_rest start)) (run log (at_rest start)).now path) → length (run log (at_rest start)).since ≤ names → powered names keep fill (run log (at_rest start)) ≡ after_all log start }
{}
