//! Each function is one law; none does anything.
ghost use Rattle.std.specs.Prelude.{ℕ, ◌<◌, ◌^◌};
ghost use Rattle.hgs_gen.specs.Generated.{generated};
ghost use Rattle.hgs_model.specs.Valid.{IsNewChange};

/// The changesets that a number gives can be recorded: as many as a generated store may have, and some more.
pub fn generated_changes_are_valid()
    ensures { (seed made : ℕ) → seed < 2 ^ 64 → made < 20000 → IsNewChange (generated seed made) }
{}
