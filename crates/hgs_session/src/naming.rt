//! What a session knows of its start, in proofs alone: a type names it, so that all that its workers share agrees on it.

use std::marker::Brand;

/// Names the start of a session.
pub trait Naming {
    ghost use Rattle.std.specs.Prelude.{List, ℕ, Option};
    ghost use Rattle.hgs_files.specs.declared.op.Op.{Op};
    ghost use Rattle.hgs_files.specs.Tree.{Tree};
    ghost use Rattle.hgs_session.specs.Calls.{Beginning};
    ghost use Rattle.logbook.specs.Pages.{Book};

    /// Which start of shared files it is.
    ghost home: { List ℕ };

    /// The log at rest before it, where that is told.
    ghost earlier: { Option (List Op) };

    /// The tree that this log starts from.
    ghost earlier_start: { Tree };

    /// The jobs of the workers, and what the writing end begins with.
    ghost begins: { Beginning };

    /// Which book the history of the session is.
    ghost book: { Book };
}

impl Naming for Brand {
    ghost use Rattle.std.specs.Prelude.{[], None};

    ghost home = { [] };

    ghost earlier = { None };

    ghost earlier_start = { λ path. None };

    ghost begins = { record { jobs = []; start = λ path. None; first = record { log = None; faults = 0; denied = 0 } } };

    ghost book = { record { number = 0; log_name = 0; cells_name = 0 } };
}
