//! The laws tried on small repositories, and on a few entries. Each function is one example; none does anything.
ghost use Rattle.std.specs.Prelude.{◌≡◌, ◌∷◌, [], codes, length, map};
ghost use Rattle.hgs_links.specs.Fronts.{link_in, linked_front};
ghost use Rattle.hgs_links.specs.Links.{linked_below};
ghost use Rattle.hgs_links.specs.Samples.{imported, some_entries};
ghost use Rattle.hgs_model.specs.History.{history};
ghost use Rattle.hgs_model.specs.Samples.{merged};

/// A file `f` is changed in the first, the second and the fourth of four changesets, and `g` comes with the third.
pub fn links_of_a_merge()
    ensures file { map (λ r. r.link) ((history merged.changesets).filelog (codes "f")) ≡ 0 ∷ 1 ∷ 3 ∷ [] }
    ensures other { map (λ r. r.link) ((history merged.changesets).filelog (codes "g")) ≡ 2 ∷ [] }
    ensures manifest { map (λ r. r.link) (history merged.changesets).manifest ≡ 0 ∷ 1 ∷ 2 ∷ 3 ∷ [] }
    ensures front { length (linked_below 3 ((history merged.changesets).filelog (codes "f"))) ≡ 2 }
{}

/// Of an import of two changesets each has links of its own: the number of changesets before the import parts what stood
/// from both, and one more parts the first from the second.
pub fn links_of_an_import()
    ensures file { map (λ r. r.link) ((history imported.changesets).filelog (codes "a")) ≡ 0 ∷ 1 ∷ 2 ∷ [] }
    ensures manifest { map (λ r. r.link) (history imported.changesets).manifest ≡ 0 ∷ 1 ∷ 2 ∷ [] }
    ensures changelog { map (λ r. r.link) (history imported.changesets).changelog ≡ 0 ∷ 1 ∷ 2 ∷ [] }
    ensures before { length (linked_below 1 ((history imported.changesets).filelog (codes "a"))) ≡ 1 }
    ensures between { length (linked_below 2 ((history imported.changesets).filelog (codes "a"))) ≡ 2 }
{}

/// Three whole entries with the links 0, 1 and 3, and a part of a fourth, which does not count.
pub fn entries_counted_by_links()
    ensures links { map (link_in some_entries) (0 ∷ 1 ∷ 2 ∷ []) ≡ 0 ∷ 1 ∷ 3 ∷ [] }
    ensures counted { map (λ count. linked_front 8 count some_entries) (0 ∷ 1 ∷ 2 ∷ 3 ∷ 4 ∷ []) ≡ 0 ∷ 1 ∷ 2 ∷ 2 ∷ 3 ∷ [] }
{}
