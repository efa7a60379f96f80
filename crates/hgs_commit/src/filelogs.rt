//! What is read of filelogs, and what a file's text becomes in one.
ghost use Rattle.std.specs.Prelude.{◌≡◌, ◌<◌, ◌≤◌, ◌^◌, false, true, length, slice_get, Result, Ok, IfOk, IfSome};
ghost use Rattle.std.specs.Option.{option_map};
ghost use Rattle.hgs_bytes.specs.Answer.{Gives};
ghost use Rattle.hgs_commit.specs.Appended.{is_beside_path};
ghost use Rattle.hgs_bytes.specs.Bytes.{same};
ghost use Rattle.hgs_index.specs.FileText.{body_of};
ghost use Rattle.hgs_path.specs.Fncache.{listing};
ghost use Rattle.hgs_path.specs.StoreName.{store_name};
ghost use Rattle.hgs_path.specs.declared.name.Ext.TheVariants.{I, D};
ghost use Rattle.hgs_load.specs.Answer.{is_of_outside, HasFaultCause, NeverFaults};
ghost use Rattle.hgs_revlog.specs.Loaded.{AreEntries};
ghost use Rattle.hgs_loading.specs.Found.{Finds};
ghost use Rattle.hgs_revlog.specs.Fault.{is_memory};
ghost use Rattle.hgs_revlog.specs.declared.fault.RevFault.{RevFault};
ghost use Rattle.hgs_commit.specs.Revised.{Fits};
ghost use Rattle.hgs_commit.specs.declared.growth.Revised.{Revised};
ghost use Rattle.hgs_commit.specs.Files.{filelog_in, formed, kept_by, kept_in, rev_of_node, view_filelog};
ghost use Rattle.hgs_revlog.specs.Text.{text_of};
ghost use Rattle.hgs_commit.specs.Texts.{log_at, revised_in, revlog_answer};

use crate::filelog::Filelog;
use crate::growth::{Revised, revise};
use crate::laws::empty_entries;
use hgs_bytes::parts::{equal, past};
use hgs_filelog::file_text::unpack;
use hgs_files::files::Reads;
use hgs_index::node::Node;
use hgs_load::answer::ReadAnswer;
use hgs_load::refusal::of_revlog;
use hgs_loading::logs::load_either_log;
use hgs_loading::texts::read_chunk;
use hgs_path::fncache::Fncache;
use hgs_path::laws::filelogs_have_their_own_names;
use hgs_path::name::{Ext, store_name};
use hgs_reader::find::RevlogPaths;
use hgs_revlog::fault::RevFault;
use hgs_revlog::revlog::Revlog;
use std::alloc::{AllocError, Global};

/// The greatest length of the first text of a filelog that begins as an inline one.
const MOST_INLINE: usize = 4096;

// The files of the filelog of a path.
fn filelog_paths(alloc: Global, path: &[u8]) -> Result<RevlogPaths, AllocError>
    ensures names { IfOk result (λ paths. (paths.index ≡ store_name path.now I) × (paths.chunks ≡ store_name path.now D)) }
    ensures index { IfOk result (λ paths. is_beside_path paths.index ≡ true) }
    ensures chunks { IfOk result (λ paths. is_beside_path paths.chunks ≡ true) }
{
    filelogs_have_their_own_names();
    Ok(RevlogPaths {
        index: store_name(alloc, path, Ext::I)?,
        chunks: store_name(alloc, path, Ext::D)?,
    })
}

/// Loads the filelog of a path. One whose index is not listed has no revisions, whatever stands there.
pub fn load_filelog<R: Reads>(
    alloc: Global,
    files: &mut R,
    fncache: &Fncache,
    path: &[u8],
) -> Result<Filelog, ReadAnswer>
    ensures found { Finds view_filelog R.alone (R.seen files.new) (R.start files.new) (filelog_in (listing fncache.now) path.now) result }
    ensures entries { IfOk result (λ f. AreEntries f.log.entries) }
    ensures same_start { R.start files.new ≡ R.start files.old }
    ensures still { R.alone ≡ true → R.seen files.new ≡ R.seen files.old }
    ensures cause { HasFaultCause (R.faults files.old) (R.faults files.new) (R.denied files.old) (R.denied files.new) result }
{
    let paths = filelog_paths(alloc, path)?;
    if !fncache.contains(path, Ext::I) {
        empty_entries();
        return Ok(Filelog {
            paths,
            log: Revlog::empty(alloc, false),
        });
    }
    match load_either_log(alloc, files, &paths) {
        Ok(log) => Ok(Filelog { paths, log }),
        Err(refusal) => Err(refusal),
    }
}

// Whether a text has this body.
fn has_body(text: &[u8], body: &[u8]) -> bool
    ensures { result ≡ same (body_of text.now) body.now }
{
    equal(past(text, unpack(text).body.from as usize), body)
}

impl Filelog {
    /// The revision of the node that a manifest names, none where it names none.
    pub fn rev_of(&self, alloc: Global, node: Option<Node>) -> Result<Option<u32>, ReadAnswer>
        ensures rev { Gives is_of_outside (λ rev. rev) result (rev_of_node self.now.paths.index self.now.log.entries (option_map (λ n. n.0) node)) }
        ensures below { IfOk result (λ rev. IfSome rev (λ r. r < length self.now.log.entries)) }
        ensures inner { NeverFaults result }
    {
        let Some(node) = node else {
            return Ok(None);
        };
        match self.log.rev_of(&node) {
            Some(rev) => Ok(Some(rev)),
            None => Err(of_revlog(alloc, &self.paths.index, RevFault::Missing)),
        }
    }

    // This revision, where the text in its chunk has this body.
    fn kept_by(
        &self,
        alloc: Global,
        rev: u32,
        chunk: &[u8],
        body: &[u8],
    ) -> Result<Option<u32>, ReadAnswer>
        requires stands { rev < length self.now.log.entries }
        requires within { IfSome (slice_get self.now.log.entries rev) (λ e. length chunk.now ≤ e.stored) }
        ensures kept { Gives is_of_outside (λ rev. rev) result (kept_by (view_filelog self.now) rev body.now (text_of self.now.log.entries rev chunk.now)) }
        ensures below { IfOk result (λ rev. IfSome rev (λ r. r < length self.now.log.entries)) }
        ensures inner { NeverFaults result }
    {
        match self.log.text(rev, chunk) {
            Ok(text) => {
                if has_body(text, body) {
                    return Ok(Some(rev));
                }
                Ok(None)
            }
            Err(fault) => Err(of_revlog(alloc, &self.paths.index, fault)),
        }
    }

    /// The filelog to which this text is added: where it is the first one, a short one makes it inline.
    pub fn formed(self, alloc: Global, text: &[u8]) -> Filelog
        ensures filelog { view_filelog result ≡ formed (view_filelog self) text.now }
    {
        if self.log.len() > 0 {
            return self;
        }
        let Filelog { paths, log: _ } = self;
        Filelog {
            paths,
            log: Revlog::empty(alloc, text.len() <= MOST_INLINE),
        }
    }

    /// The revision that is kept of a file with these parents and this body: where one parent is left, and has the same
    /// body. Its chunk is read only where the text is long enough.
    pub fn kept<R: Reads>(
        &self,
        alloc: Global,
        files: &mut R,
        parents: (Option<u32>, Option<u32>),
        body: &[u8],
    ) -> Result<Option<u32>, ReadAnswer>
        requires { IfSome parents.0 (λ rev. rev < length self.now.log.entries) }
        ensures found { Finds (λ rev. rev) R.alone (R.seen files.new) (R.start files.new) (kept_in (view_filelog self.now) parents.0 parents.1 body.now) result }
        ensures below { IfOk result (λ rev. IfSome rev (λ r. r < length self.now.log.entries)) }
        ensures same_start { R.start files.new ≡ R.start files.old }
        ensures still { R.alone ≡ true → R.seen files.new ≡ R.seen files.old }
        ensures cause { HasFaultCause (R.faults files.old) (R.faults files.new) (R.denied files.old) (R.denied files.new) result }
    {
        let (Some(rev), None) = parents else {
            return Ok(None);
        };
        if (self.log.entry(rev).size as usize) < body.len() {
            return Ok(None);
        }
        let chunk = read_chunk(alloc, files, &self.paths, &self.log, rev)?;
        self.kept_by(alloc, rev, chunk.as_slice(), body)
    }
}

// What a fault of a revlog is to a reader of it.
fn answer_of(
    alloc: Global,
    paths: &RevlogPaths,
    revised: Result<Revised, RevFault>,
) -> Result<Revised, ReadAnswer>
    ensures answer { (given : Result Revised RevFault) → Gives is_memory (λ r. r) revised given → Gives is_of_outside (λ r. r) result (revlog_answer paths.now.index given) }
    ensures same { IfOk result (λ r. revised ≡ Ok r) }
    ensures inner { NeverFaults result }
{
    match revised {
        Ok(revised) => Ok(revised),
        Err(fault) => Err(of_revlog(alloc, &paths.index, fault)),
    }
}

/// What a text becomes in a revlog. Where a revision has its node, that one's chunk is read, so that no claim rests on the
/// hash.
pub fn revise_in<R: Reads>(
    alloc: Global,
    files: &mut R,
    paths: &RevlogPaths,
    log: &Revlog,
    text: &[u8],
    p1: Option<u32>,
    p2: Option<u32>,
    link: u32,
) -> Result<Revised, ReadAnswer>
    requires first { IfSome p1 (λ rev. rev < length log.now.entries) }
    requires second { IfSome p2 (λ rev. rev < length log.now.entries) }
    requires link { link < 2 ^ 31 }
    ensures found { Finds (λ r. r) R.alone (R.seen files.new) (R.start files.new) (revised_in (log_at paths.now log.now) (record { text = text.now; parents = (p1, p2); link = link })) result }
    ensures fits { log.now.inline ≡ false → IfOk result (λ r. Fits log.now r.node r.became) }
    ensures same_start { R.start files.new ≡ R.start files.old }
    ensures still { R.alone ≡ true → R.seen files.new ≡ R.seen files.old }
    ensures cause { HasFaultCause (R.faults files.old) (R.faults files.new) (R.denied files.old) (R.denied files.new) result }
{
    let Some(rev) = log.standing(text, p1, p2) else {
        return answer_of(alloc, paths, revise(log, text, p1, p2, link, None));
    };
    let chunk = read_chunk(alloc, files, paths, log, rev)?;
    let revised = revise(log, text, p1, p2, link, Some(chunk.as_slice()));
    answer_of(alloc, paths, revised)
}
