//! What the text of a new revision becomes, with what is appended of it.
ghost use Rattle.std.specs.Prelude.{◌≡◌, ◌<◌, ◌^◌, true, false, is_some, length, IfOk, IfSome};
ghost use Rattle.hgs_loading.specs.Found.{Finds};
ghost use Rattle.hgs_load.specs.Answer.{HasFaultCause};
ghost use Rattle.hgs_revlog.specs.Loaded.{AreEntries};
ghost use Rattle.hgs_commit.specs.Appended.{is_beside_path};
ghost use Rattle.hgs_commit.specs.Hindered.{is_met};
ghost use Rattle.hgs_commit.specs.Obstacles.{met_of, noting};
ghost use Rattle.hgs_commit.specs.Pushed.{AppendsTo, Pushes};
ghost use Rattle.hgs_commit.specs.Revised.{is_standing};
ghost use Rattle.hgs_commit.specs.Texts.{log_at, new_text_in, standing_of, view_text};

use crate::filelogs::revise_in;
use crate::grow::growth_in;
use crate::growth::Became;
use crate::hindrance::Hindrances;
use crate::new_text::NewText;
use hgs_files::files::Reads;
use hgs_load::answer::ReadAnswer;
use hgs_reader::find::RevlogPaths;
use hgs_revlog::revlog::Revlog;
use std::alloc::Global;

// The revision that a text is already.
fn standing_rev(became: &Became) -> Option<u32>
    ensures rev { result ≡ standing_of became.now }
    ensures some { is_some result ≡ is_standing became.now }
{
    match became {
        Became::Standing(rev) => Some(*rev),
        _ => None,
    }
}

/// What a text with these parents and this link becomes in the revlog of these files.
pub fn new_text<R: Reads>(
    alloc: Global,
    files: &mut R,
    paths: RevlogPaths,
    log: &Revlog,
    text: &[u8],
    parents: (Option<u32>, Option<u32>),
    link: u32,
    met: &mut Hindrances,
) -> Result<NewText, ReadAnswer>
    requires entries { AreEntries log.now.entries }
    requires chunks { is_beside_path paths.chunks ≡ true }
    requires first { IfSome parents.0 (λ rev. rev < length log.now.entries) }
    requires second { IfSome parents.1 (λ rev. rev < length log.now.entries) }
    requires link { link < 2 ^ 31 }
    ensures found { Finds (λ x. (view_text x, met_of met.new)) R.alone (R.seen files.new) (R.start files.new) (λ t. noting (met_of met.old) (new_text_in (log_at paths log.now) (record { text = text.now; parents = parents; link = link }) t)) result }
    ensures clash { met.new.clash ≡ met.old.clash }
    ensures pushes { log.now.inline ≡ false → IfOk result (λ x. Pushes log.now x.growth) }
    ensures index { log.now.inline ≡ false → IfOk result (λ x. AppendsTo paths.index log.now x.growth) }
    ensures lacking { IfOk result (λ x. is_some x.growth ≡ false → is_some x.standing ≡ false → is_met met.new ≡ true) }
    ensures same_start { R.start files.new ≡ R.start files.old }
    ensures still { R.alone ≡ true → R.seen files.new ≡ R.seen files.old }
    ensures cause { HasFaultCause (R.faults files.old) (R.faults files.new) (R.denied files.old) (R.denied files.new) result }
{
    let (p1, p2) = parents;
    let revised = revise_in(alloc, files, &paths, log, text, p1, p2, link)?;
    let node = revised.node;
    let standing = standing_rev(&revised.became);
    let growth = growth_in(alloc, paths, log, revised, met)?;
    Ok(NewText {
        node,
        standing,
        growth,
    })
}
