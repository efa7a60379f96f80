//! Commits tried on small repositories. Each function is one example; none does anything.
//!
//! The nodes were made apart from these definitions, by a model of the texts over Python's `hashlib`.
ghost use Rattle.std.specs.Prelude.{◌≡◌, ◌∷◌, [], true, codes, map, drop, None, Some};
ghost use Rattle.hgs_model.specs.Commits.{executable_a, forked, line_a, line_c, marked_a, told, with_bookmark, without_b};
ghost use Rattle.hgs_model.specs.History.{changed_paths, history, parents_in};
ghost use Rattle.hgs_model.specs.Repo.{empty_repo, tree_at};
ghost use Rattle.hgs_model.specs.Samples.{commit_on, done, one_line, refusal, two_changesets};
ghost use Rattle.hgs_model.specs.Step.{step};
ghost use Rattle.hgs_model.specs.declared.command.Command.TheVariants.{Move};
ghost use Rattle.hgs_model.specs.declared.command.Refusal.TheVariants.{UnknownRevision, NothingChanged};
ghost use Rattle.hgs_model.specs.declared.phase.Phase.TheVariants.{Secret};

/// `null` is no parent, nor is `.` where there is no working parent; of two equal parents one stays; a name that names
/// nothing is unknown, as the second too.
pub fn parents_of_commits()
    ensures null { told (step two_changesets (commit_on (codes "null" ∷ []) (line_c ∷ []))) ≡ Some (2, codes "4505e2e6bf8d302dc45ee32f4556b319753f947c") }
    ensures dot { told (step two_changesets (commit_on (codes "." ∷ []) (line_c ∷ []))) ≡ Some (2, codes "24cdadfe07f62aff49c1db7905722bc8a5361548") }
    ensures equal { told (step two_changesets (commit_on (codes "1" ∷ codes "tip" ∷ []) (line_c ∷ []))) ≡ Some (2, codes "24cdadfe07f62aff49c1db7905722bc8a5361548") }
    ensures dot_alone { told (step empty_repo (commit_on (codes "." ∷ []) (line_a ∷ []))) ≡ Some (0, codes "ca9c50ca1b3c9c9f9e56e49f5f41453e619e6c0f") }
    ensures unknown { refusal (step two_changesets (commit_on (codes "7" ∷ []) (line_c ∷ []))) ≡ Some UnknownRevision }
    ensures second { refusal (step two_changesets (commit_on (codes "1" ∷ codes "main" ∷ []) (line_c ∷ []))) ≡ Some UnknownRevision }
{}

/// Without a parent the empty tree changes nothing, and so does a changeset that stands already.
pub fn unchanged_commits()
    ensures empty { refusal (step empty_repo (commit_on [] [])) ≡ Some (NothingChanged 0) }
    ensures stands { refusal (step forked (commit_on (codes "0" ∷ []) (one_line (codes "f") (codes "2") ∷ []))) ≡ Some (NothingChanged 1) }
{}

/// A file that is gone is a changed one. A file whose flag alone changes is one too, and keeps its revision. A body that
/// begins with a marker has an empty block before it.
pub fn files_of_commits()
    ensures removed { told (step two_changesets without_b) ≡ Some (2, codes "13efa9ee3dd1fa3f939e9b7a60edf53b3e4e5486") }
    ensures removed_path { map (changed_paths (history two_changesets.changesets)) (drop 2 (done two_changesets (without_b ∷ [])).changesets) ≡ (codes "b" ∷ []) ∷ [] }
    ensures flag { told (step two_changesets executable_a) ≡ Some (2, codes "4462259fedd5e9d244855a14030ead253fc6a940") }
    ensures flag_alone { parents_in ((history (done two_changesets (executable_a ∷ [])).changesets).filelog (codes "a")) ≡ (None, None) ∷ [] }
    ensures marker { told (step two_changesets marked_a) ≡ Some (2, codes "8f81a86d0a877b31050bef8f40a4336a91463e19") }
    ensures block { map (λ f. f.prefix) (tree_at (done two_changesets (marked_a ∷ [])).changesets 2) ≡ (1 ∷ 10 ∷ 1 ∷ 10 ∷ []) ∷ [] ∷ [] }
{}

/// A commit sets its bookmark, is the working parent, has at least its parents' phases, and may have two parents.
pub fn states_after_commits()
    ensures bookmark { (done two_changesets (with_bookmark ∷ [])).bookmarks ≡ record { name = codes "main"; rev = 2 } ∷ [] }
    ensures answer { told (step two_changesets with_bookmark) ≡ Some (2, codes "80878e8ae664f828984fd06210d75033e91bf435") }
    ensures working { (done two_changesets (with_bookmark ∷ [])).working ≡ (Some 2, None) }
    ensures phases { (done two_changesets (Move (codes "1") Secret true ∷ with_bookmark ∷ [])).phases ≡ 1 ∷ 2 ∷ 2 ∷ [] }
    ensures merge { told (step forked (commit_on (codes "1" ∷ codes "2" ∷ []) (one_line (codes "f") (codes "3") ∷ one_line (codes "g") (codes "x") ∷ []))) ≡ Some (3, codes "014c54fe5eeed81f51ba5beb9bde7200b7dca997") }
{}
