//! Which filelogs are inline: the list of filelogs' files need not name their data files.
ghost use Rattle.std.specs.Prelude.{◌≡◌, ◌&&◌, ◌||◌, List, ℕ, IfOk, OnOk, true, IfErr};
ghost use Rattle.hgs_bytes.specs.Bytes.{same};
ghost use Rattle.hgs_files.specs.Tree.{bytes_at};
ghost use Rattle.hgs_index.specs.Inline.{is_inline};
ghost use Rattle.hgs_load.specs.Answer.{HasFaultCause, is_of_outside};
ghost use Rattle.hgs_path.specs.declared.name.Ext.TheVariants.{I};
ghost use Rattle.hgs_path.specs.StoreName.{store_name};
ghost use Rattle.hgs_report.specs.Lines.{has_key};
ghost use Rattle.hgs_verify.specs.Looked.{OfTree};
ghost use Rattle.hgs_verify.specs.Inline.{EntersInline, HaveInline};
ghost use Rattle.hgs_verify.specs.Refusal.{is_refusal};

use hgs_bytes::bytes::Bytes;
use hgs_files::files::Reads;
use hgs_index::inline::is_inline;
use hgs_load::answer::ReadAnswer;
use hgs_load::ask::{bytes_of, read_part};
use hgs_path::name::{Ext, store_name};
use hgs_report::sets::enter;
use std::alloc::{AllocError, Global};
use std::collections::BTreeSet;

/// As many bytes as an entry has: the form of a revlog stands in its first one.
const ENTRY: u64 = 64;

// Whether a path's filelog is inline. Its first entry alone is read.
fn has_inline<R: Reads>(alloc: Global, files: &mut R, path: &[u8]) -> Result<bool, ReadAnswer>
    ensures form { IfOk result (λ is. OfTree R.alone (R.seen files.new) (R.start files.new) (λ t. is ≡ is_inline (bytes_at t (store_name path.now I)))) }
    ensures same_start { R.start files.new ≡ R.start files.old }
    ensures still { R.alone ≡ true → R.seen files.new ≡ R.seen files.old }
    ensures cause { HasFaultCause (R.faults files.old) (R.faults files.new) (R.denied files.old) (R.denied files.new) result }
    ensures refused { IfErr result (λ e. is_refusal e ≡ true) }
    ensures outside { IfErr result (λ e. is_of_outside e ≡ true) }
{
    let index = store_name(alloc, path, Ext::I)?;
    let part = read_part(alloc, files, &index, 0, ENTRY)?;
    Ok(is_inline(bytes_of(&part)))
}

// Enters a path where it is to be.
fn enter_if(
    alloc: Global,
    is: bool,
    path: &[u8],
    set: &mut BTreeSet<Vec<u8>>,
) -> Result<(), AllocError>
    ensures { OnOk result ((name : List ℕ) → has_key set.new.keys name ≡ ((is && same name path.now) || has_key set.old.keys name)) }
{
    if is {
        enter(set, Vec::from_slice(alloc, path)?)?;
    }
    Ok(())
}

// Enters a path where its filelog is inline.
fn enter_inline<R: Reads>(
    alloc: Global,
    files: &mut R,
    path: &[u8],
    inline: &mut BTreeSet<Vec<u8>>,
) -> Result<(), ReadAnswer>
    ensures entered { OnOk result (OfTree R.alone (R.seen files.new) (R.start files.new) (EntersInline path.now inline.old.keys inline.new.keys)) }
    ensures same_start { R.start files.new ≡ R.start files.old }
    ensures still { R.alone ≡ true → R.seen files.new ≡ R.seen files.old }
    ensures cause { HasFaultCause (R.faults files.old) (R.faults files.new) (R.denied files.old) (R.denied files.new) result }
    ensures refused { IfErr result (λ e. is_refusal e ≡ true) }
    ensures outside { IfErr result (λ e. is_of_outside e ≡ true) }
{
    let is = has_inline(alloc, files, path)?;
    enter_if(alloc, is, path, inline)?;
    Ok(())
}

/// Those of the paths whose filelogs are inline. One entry is read of each.
pub fn inline_filelogs<R: Reads>(
    alloc: Global,
    files: &mut R,
    paths: &BTreeSet<Bytes>,
) -> Result<BTreeSet<Vec<u8>>, ReadAnswer>
    ensures found { IfOk result (λ inline. OfTree R.alone (R.seen files.new) (R.start files.new) (HaveInline paths.now.keys inline.keys)) }
    ensures same_start { R.start files.new ≡ R.start files.old }
    ensures still { R.alone ≡ true → R.seen files.new ≡ R.seen files.old }
    ensures cause { HasFaultCause (R.faults files.old) (R.faults files.new) (R.denied files.old) (R.denied files.new) result }
    ensures refused { IfErr result (λ e. is_refusal e ≡ true) }
    ensures outside { IfErr result (λ e. is_of_outside e ≡ true) }
{
    let mut inline = BTreeSet::new(alloc);
    for path in paths {
        enter_inline(alloc, files, path.as_slice(), &mut inline)?;
    }
    Ok(inline)
}
