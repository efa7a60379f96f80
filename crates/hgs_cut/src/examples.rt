//! The laws tried on small stores. Each function is one example; none does anything.
ghost use Rattle.std.specs.Prelude.{codes};
ghost use Rattle.hgs_cut.specs.Cut.{TellsFront};
ghost use Rattle.hgs_files.specs.Tree.{bytes_at};
ghost use Rattle.hgs_links.specs.Fronts.{EndsByLink};
ghost use Rattle.hgs_model.specs.History.{history};
ghost use Rattle.hgs_path.specs.declared.name.Ext.TheVariants.{I};
ghost use Rattle.hgs_path.specs.StoreName.{store_name};
ghost use Rattle.hgs_stands.specs.Places.{manifest_index};
ghost use Rattle.hgs_stands.specs.Samples.{over, third_begun, two_drafts, two_drafts_files};

/// A store of two changesets, and what stands there when a third commit stopped before it was published: the manifest and the
/// file `b` have one entry more, and links tell what stood before.
pub fn fronts_of_a_begun_commit()
    ensures manifest { TellsFront (over two_drafts_files third_begun) two_drafts_files manifest_index 2 (history two_drafts.changesets).manifest }
    ensures file { TellsFront (over two_drafts_files third_begun) two_drafts_files (store_name (codes "b") I) 2 ((history two_drafts.changesets).filelog (codes "b")) }
    ensures end { EndsByLink (bytes_at two_drafts_files (store_name (codes "b") I)) (bytes_at (over two_drafts_files third_begun) (store_name (codes "b") I)) 2 }
{}
