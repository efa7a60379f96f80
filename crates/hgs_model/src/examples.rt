//! The definitions tried on small repositories. Each function is one example; none does anything.
ghost use Rattle.std.specs.Prelude.{◌≡◌, ◌∷◌, [], true, false, codes, map, take, drop, None, Some};
ghost use Rattle.hgs_index.specs.Hex.{hex};
ghost use Rattle.hgs_model.specs.History.{history, parents_in, changeset_nodes, changed_paths};
ghost use Rattle.hgs_model.specs.Names.{named};
ghost use Rattle.hgs_model.specs.Repo.{empty_repo};
ghost use Rattle.hgs_model.specs.Samples.{commit_on, done, line_of_three, merged, one_line, refusal, two_changesets};
ghost use Rattle.hgs_model.specs.Step.{step};
ghost use Rattle.hgs_model.specs.declared.command.Command.TheVariants.{Move, Mark, Unmark};
ghost use Rattle.hgs_model.specs.declared.command.Refusal.TheVariants.{UnknownRevision, NeedsForce, NothingChanged};
ghost use Rattle.hgs_model.specs.declared.phase.Phase.TheVariants.{Public, Secret};

/// A merge of two files of which one is the other's ancestor has the descendant as the one parent of its file.
pub fn merged_file()
    ensures filelog { parents_in ((history merged.changesets).filelog (codes "f")) ≡ (None, None) ∷ (Some 0, None) ∷ (Some 1, None) ∷ [] }
    ensures other { parents_in ((history merged.changesets).filelog (codes "g")) ≡ (None, None) ∷ [] }
    ensures manifest { parents_in (history merged.changesets).manifest ≡ (None, None) ∷ (Some 0, None) ∷ (Some 0, None) ∷ (Some 1, Some 2) ∷ [] }
    ensures changed { map (changed_paths (history (take 3 merged.changesets))) (drop 3 merged.changesets) ≡ (codes "f" ∷ []) ∷ [] }
    ensures again { refusal (step merged (commit_on (codes "3" ∷ []) (one_line (codes "f") (codes "3") ∷ one_line (codes "g") (codes "x") ∷ []))) ≡ Some (NothingChanged 3) }
{}

/// The nodes of the changesets, which hang on every text and every parent below them.
pub fn nodes_of_changesets()
    ensures merged { map hex (changeset_nodes merged.changesets) ≡ codes "a61f62e09f31daf8ca11996480fd7e162cddf8a5" ∷ codes "7175d6bd9a457100b7ac6f95ba0e68996ba355c2" ∷ codes "3ecdb479fd22365cd5644d2eeb417011cfa07763" ∷ codes "014c54fe5eeed81f51ba5beb9bde7200b7dca997" ∷ [] }
    ensures two { map hex (changeset_nodes two_changesets.changesets) ≡ codes "cb9a9f314b8b07ba71012fcdbc544b5a4d82ff5b" ∷ codes "37bdf19219c0e69b87d6371fabfaf5c3a63794d9" ∷ [] }
{}

/// What names of revisions name.
pub fn names_of_revisions()
    ensures draft { map (named two_changesets) (codes "null" ∷ codes "." ∷ codes "tip" ∷ codes "0" ∷ codes "1" ∷ codes "2" ∷ codes "01" ∷ codes "cb9a9f314b8b07ba71012fcdbc544b5a4d82ff5b" ∷ codes "CB9A9F314B8B07BA71012FCDBC544B5A4D82FF5B" ∷ codes "main" ∷ [])
        ≡ None ∷ Some 1 ∷ Some 1 ∷ Some 0 ∷ Some 1 ∷ None ∷ None ∷ Some 0 ∷ None ∷ None ∷ [] }
    ensures bookmark { named (done two_changesets (Mark (codes "main") (codes "0") ∷ [])) (codes "main") ≡ Some 0 }
    ensures empty { map (named empty_repo) (codes "." ∷ codes "tip" ∷ codes "0" ∷ []) ≡ None ∷ None ∷ None ∷ [] }
{}

/// A lesser phase takes the ancestors along, a greater one the descendants.
pub fn phases_move()
    ensures public { (done line_of_three (Move (codes "1") Public false ∷ [])).phases ≡ 0 ∷ 0 ∷ 1 ∷ [] }
    ensures secret { (done line_of_three (Move (codes "1") Public false ∷ Move (codes "1") Secret true ∷ [])).phases ≡ 0 ∷ 2 ∷ 2 ∷ [] }
    ensures force { refusal (step line_of_three (Move (codes "1") Secret false)) ≡ Some (NeedsForce 1) }
    ensures same { refusal (step (done line_of_three (Move (codes "1") Secret true ∷ [])) (Move (codes "1") Secret true)) ≡ Some (NothingChanged 1) }
    ensures unknown { refusal (step line_of_three (Move (codes "12") Public false)) ≡ Some UnknownRevision }
{}

/// A bookmark is set and deleted once.
pub fn bookmarks_move()
    ensures same { refusal (step (done two_changesets (Mark (codes "main") (codes "0") ∷ [])) (Mark (codes "main") (codes "0"))) ≡ Some (NothingChanged 0) }
    ensures gone { refusal (step (done two_changesets (Mark (codes "main") (codes "0") ∷ Unmark (codes "main") ∷ [])) (Unmark (codes "main"))) ≡ Some UnknownRevision }
    ensures order { map (λ m. m.name) (done two_changesets (Mark (codes "b") (codes "0") ∷ Mark (codes "a") (codes "1") ∷ Mark (codes "b") (codes "1") ∷ [])).bookmarks ≡ codes "a" ∷ codes "b" ∷ [] }
{}
