//! The laws tried on small repositories. Each function is one example; none does anything.
ghost use Rattle.std.specs.Prelude.{◌≡◌, ◌∷◌, [], codes, drop, map, take, true};
ghost use Rattle.hgs_index.specs.Hex.{hex};
ghost use Rattle.hgs_listed.specs.Samples.{one_removed};
ghost use Rattle.hgs_model.specs.History.{changed_paths, changeset_text_value, history, uses};
ghost use Rattle.hgs_model.specs.Samples.{merged, two_changesets};

/// `g` comes with the third of four changesets; the fourth merges it, and changes `f` alone.
pub fn lists_of_a_merge()
    ensures third { map (changed_paths (history (take 2 merged.changesets))) (take 1 (drop 2 merged.changesets)) ≡ (codes "g" ∷ []) ∷ [] }
    ensures fourth { map (changed_paths (history (take 3 merged.changesets))) (drop 3 merged.changesets) ≡ (codes "f" ∷ []) ∷ [] }
{}

/// A file that a later changeset lacks is listed by the changeset that it comes with and by the one that removes it, and stays one that is used.
pub fn lists_of_a_removal()
    ensures second { map (changed_paths (history (take 1 one_removed.changesets))) (take 1 (drop 1 one_removed.changesets)) ≡ (codes "b" ∷ []) ∷ [] }
    ensures third { map (changed_paths (history (take 2 one_removed.changesets))) (drop 2 one_removed.changesets) ≡ (codes "b" ∷ []) ∷ [] }
    ensures used { uses one_removed.changesets (codes "b") ≡ true }
{}

/// The text of a first changeset names the manifest that Mercurial 6.3.2 wrote of it.
pub fn manifest_of_a_text()
    ensures { map (λ c. hex (changeset_text_value (history []) c).manifest) (take 1 two_changesets.changesets) ≡ codes "a0c8bcbbb45c63b90b70ad007bf38961f64f2af0" ∷ [] }
{}
