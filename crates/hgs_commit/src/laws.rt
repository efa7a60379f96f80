//! What the definitions of this crate imply. Each function is one law; none does anything.
ghost use Rattle.std.specs.Prelude.{◌≡◌, [], true};
ghost use Rattle.hgs_model.specs.declared.command.NewChange.{NewChange};
ghost use Rattle.hgs_model.specs.Valid.{IsNewChange};
ghost use Rattle.hgs_revlog.specs.Loaded.{AreEntries};
ghost use Rattle.hgs_commit.specs.Files.{can_follow};

/// The files of a changeset that a record can hold may be rows of a manifest, one behind another.
pub fn files_follow()
    ensures { (c : NewChange) → IsNewChange c → can_follow [] c.files ≡ true }
{}

/// No entries are those of a revlog.
pub fn empty_entries()
    ensures { AreEntries [] }
{}
