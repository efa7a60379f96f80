//! Imports, copies and branches tried on small repositories. Each function is one example; none does anything.
//!
//! The nodes were made apart from these definitions, by a model of the texts over Python's `hashlib`.
ghost use Rattle.std.specs.Prelude.{◌≡◌, ◌∷◌, [], codes, length, map, Some};
ghost use Rattle.hgs_index.specs.Hex.{hex};
ghost use Rattle.hgs_model.specs.Commits.{line_a, line_c, told};
ghost use Rattle.hgs_model.specs.History.{history, node_at, text_at};
ghost use Rattle.hgs_model.specs.Imports.{copied, copy_of, first_alone, moved, on_side, record_a, record_b};
ghost use Rattle.hgs_model.specs.Repo.{empty_repo};
ghost use Rattle.hgs_model.specs.Samples.{after, commit_on, done, refusal, two_changesets};
ghost use Rattle.hgs_model.specs.Step.{step};
ghost use Rattle.hgs_model.specs.declared.command.Command.TheVariants.{Commit, Import};
ghost use Rattle.hgs_model.specs.declared.command.Refusal.TheVariants.{CopyOver, NothingChanged, UnknownPath, UnknownRevision};

/// An import of two records leaves what two commits leave, and answers as the second one. Where a record is refused, so is
/// the import; one without a record changes nothing.
pub fn records_one_after_another()
    ensures left { after empty_repo (step empty_repo (Import (record_a ∷ record_b ∷ []))) ≡ two_changesets }
    ensures answer { told (step empty_repo (Import (record_a ∷ record_b ∷ []))) ≡ Some (1, codes "37bdf19219c0e69b87d6371fabfaf5c3a63794d9") }
    ensures again { refusal (step empty_repo (Import (record_a ∷ record_a ∷ []))) ≡ Some (NothingChanged 0) }
    ensures unknown { refusal (step empty_repo (Import (record_b ∷ record_a ∷ []))) ≡ Some UnknownRevision }
    ensures none { refusal (step empty_repo (Import [])) ≡ Some (NothingChanged 0) }
{}

/// The text of a copy begins with its source and the source's node. The source may be a file that the changeset lacks.
pub fn copies_name_their_source()
    ensures answer { told (step first_alone copied) ≡ Some (1, codes "79eca79f3d9ab7376b1d24ede91ca69bcf7fbed1") }
    ensures length { length (text_at ((history (done first_alone (copied ∷ [])).changesets).filelog (codes "b")) 0) ≡ 64 }
    ensures node { hex (node_at ((history (done first_alone (copied ∷ [])).changesets).filelog (codes "b")) 0) ≡ codes "37d9b5d994eab34eda9c16b195ace52c7b129980" }
    ensures moved { told (step two_changesets moved) ≡ Some (2, codes "f94ccecbb8403a9ec7334058486cd68b644592c1") }
{}

/// A source that the first parent's tree lacks is unknown, whether or not there is a parent; a copy over a file of a parent is
/// refused. A name of a parent that names nothing goes before both, and an unknown source before a copy over a file.
pub fn refused_copies()
    ensures unknown { refusal (step first_alone (commit_on (codes "tip" ∷ []) (line_a ∷ copy_of (codes "c") (codes "b") (codes "a") ∷ []))) ≡ Some UnknownPath }
    ensures no_parent { refusal (step first_alone (commit_on [] (copy_of (codes "a") (codes "b") (codes "a") ∷ []))) ≡ Some UnknownPath }
    ensures over { refusal (step first_alone (commit_on (codes "tip" ∷ []) (copy_of (codes "a") (codes "a") (codes "a") ∷ []))) ≡ Some (CopyOver (codes "a")) }
    ensures source_first { refusal (step first_alone (commit_on (codes "tip" ∷ []) (copy_of (codes "a") (codes "a") (codes "a") ∷ copy_of (codes "c") (codes "b") (codes "a") ∷ []))) ≡ Some UnknownPath }
    ensures name_first { refusal (step first_alone (commit_on (codes "7" ∷ []) (copy_of (codes "c") (codes "b") (codes "a") ∷ []))) ≡ Some UnknownRevision }
{}

/// A branch stands in the extras of its changeset.
pub fn branches_are_extras()
    ensures answer { told (step first_alone on_side) ≡ Some (1, codes "89c35e91dd0767fdc86032f5e4df2e08b8549b05") }
    ensures extras { map (λ c. c.extras) (done first_alone (on_side ∷ [])).changesets ≡ [] ∷ codes "branch:side" ∷ [] }
{}
