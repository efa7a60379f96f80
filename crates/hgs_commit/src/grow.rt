//! What is appended of what a text became, or what keeps it from being written.
ghost use Rattle.std.specs.Prelude.{◌≡◌, true, false, is_some, IfOk, IfSome};
ghost use Rattle.std.specs.Option.{option_map};
ghost use Rattle.hgs_bytes.specs.Bytes.{same};
ghost use Rattle.hgs_index.specs.Node.{null_node};
ghost use Rattle.hgs_revlog.specs.Loaded.{AreEntries};
ghost use Rattle.hgs_commit.specs.Hindered.{is_met};
ghost use Rattle.hgs_commit.specs.Appended.{is_beside_path};
ghost use Rattle.hgs_commit.specs.Pushed.{AppendsTo, Pushes};
ghost use Rattle.hgs_commit.specs.Obstacles.{met_of, noted};
ghost use Rattle.hgs_commit.specs.Revised.{Fits, is_standing};
ghost use Rattle.hgs_commit.specs.Texts.{growth_with, log_at, obstacles_with, view_growth};

use crate::appended::Growth;
use crate::growth::{Became, Revised};
use crate::hindrance::Hindrances;
use crate::hindrance_kind::Hindrance;
use hgs_bytes::parts::equal;
use hgs_index::node::Node;
use hgs_reader::find::RevlogPaths;
use hgs_revlog::revlog::Revlog;
use std::alloc::{AllocError, Global};

// Whether this is the null node.
fn is_no_revisions(node: &Node) -> bool
    ensures { result ≡ same null_node node.now.0 }
{
    equal(&[0; 20], &node.0)
}

/// What is appended of what a text became in the revlog of these files, or notes what keeps it from being written. A text
/// whose node is the null node collides with the revision that is none.
pub fn growth_in(
    alloc: Global,
    paths: RevlogPaths,
    log: &Revlog,
    revised: Revised,
    met: &mut Hindrances,
) -> Result<Option<Growth>, AllocError>
    requires entries { AreEntries log.now.entries }
    requires chunks { is_beside_path paths.chunks ≡ true }
    requires fits { log.now.inline ≡ false → Fits log.now revised.node revised.became }
    ensures growth { IfOk result (λ growth. option_map view_growth growth ≡ growth_with (log_at paths log.now) revised.node revised.became) }
    ensures met { IfOk result (λ growth. met_of met.new ≡ noted (met_of met.old) (obstacles_with (log_at paths log.now) revised.node revised.became)) }
    ensures clash { met.new.clash ≡ met.old.clash }
    ensures index { log.now.inline ≡ false → IfOk result (λ growth. AppendsTo paths.index log.now growth) }
    ensures path { IfOk result (λ growth. IfSome growth (λ g. g.entry.path ≡ paths.index)) }
    ensures pushes { log.now.inline ≡ false → IfOk result (λ growth. Pushes log.now growth) }
    ensures lacking { IfOk result (λ growth. is_some growth ≡ false → is_standing revised.became ≡ false → is_met met.new ≡ true) }
{
    let Revised { node, became } = revised;
    match became {
        Became::Standing(_) => Ok(None),
        Became::New { entry, chunk } => {
            if is_no_revisions(&node) {
                met.meet_collision(paths.index.copy(alloc)?, log.len());
                return Ok(None);
            }
            Ok(Some(Growth::new(alloc, paths, log, entry, chunk)?))
        }
        Became::Hindered(Hindrance::Limit(which)) => {
            met.meet_limit(which);
            Ok(None)
        }
        Became::Hindered(Hindrance::Collision(rev)) => {
            met.meet_collision(paths.index.copy(alloc)?, rev);
            Ok(None)
        }
    }
}
