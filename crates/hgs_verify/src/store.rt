//! What is read of a store before its filelogs: the changelog, the manifest, and what their texts say.
ghost use Rattle.std.specs.Prelude.{◌≡◌, [], unwrap_or, IfErr, IfOk, OnOk, true, false};
ghost use Rattle.hgs_verify.specs.Refusal.{is_refusal, IsLimited, IsOfIndex, IsOfLog, LogsKeepLimits};
ghost use Rattle.hgs_files.specs.Reads.{Grows};
ghost use Rattle.hgs_load.specs.Answer.{HasFaultCause, is_fault};
ghost use Rattle.hgs_files.specs.Tree.{Tree, bytes_at};
ghost use Rattle.hgs_load.specs.Form.{most_inline_index};
ghost use Rattle.hgs_judge.specs.Read.{AreRead, KeepsLimits};
ghost use Rattle.hgs_findings.specs.Reading.{Log, data_in, data_path, index_in, index_path, the_changelog, the_manifest};
ghost use Rattle.hgs_verify.specs.Looked.{OfTree};
ghost use Rattle.hgs_verify.specs.Parts.{AreBytes, HaveShortLogs, is_long_inline};
ghost use Rattle.hgs_report.specs.Store.{IsLogOf, IsStoreOf};

use crate::revlog::{Parts, of_refusal, read_either};
use hgs_files::files::Reads;
use hgs_files::path::StorePath;
use hgs_judge::changesets::read_changesets;
use hgs_judge::reading::read;
use hgs_judge::trees::read_trees;
use hgs_load::answer::ReadAnswer;
use hgs_load::ask::bytes_of;
use hgs_report::store::{LogPaths, ReadLog, Store};
use hgs_revlog::fault::RevFault;
use std::alloc::Global;

/// The bytes above which an inline changelog or manifest is refused.
const MOST_INLINE: u64 = 16_777_216;

// Reads a revlog of its bytes up to its first fault.
fn log_of(alloc: Global, parts: Parts) -> Result<ReadLog, ReadAnswer>
    ensures found { IfOk result (λ log. (which : Log) (t : Tree) → AreBytes parts (index_in t which) (data_in t which) → IsLogOf which log t) }
    ensures read { IfOk result (λ log. AreRead log.reading.log.entries (unwrap_or log.chunks [])) }
    ensures fault { IfErr result (λ e. is_fault e ≡ false) }
    ensures refused { IfErr result (λ e. is_refusal e ≡ true) }
    ensures index { IfErr result (λ e. IsOfIndex (unwrap_or parts.index []) e) }
    ensures limits { OnOk result (KeepsLimits (unwrap_or parts.index [])) }
{
    let Parts { index, chunks } = parts;
    match read(alloc, bytes_of(&index), bytes_of(&chunks)) {
        Ok(reading) => Ok(ReadLog {
            index_rest: reading.has_index_rest(bytes_of(&index)),
            data_rest: reading.has_data_rest(bytes_of(&chunks)),
            reading,
            chunks,
        }),
        Err(fault) => Err(of_refusal(fault)),
    }
}

// Reads the changelog or the manifest, in either form, up to its first fault.
fn read_log<R: Reads>(
    alloc: Global,
    files: &mut R,
    index: &StorePath,
    chunks: &StorePath,
) -> Result<ReadLog, ReadAnswer>
    ensures found { IfOk result (λ log. OfTree R.alone (R.seen files.new) (R.start files.new) (λ t. (which : Log) → index.now ≡ index_path which → chunks.now ≡ data_path which → IsLogOf which log t)) }
    ensures short { OnOk result (OfTree R.alone (R.seen files.new) (R.start files.new) (λ t. is_long_inline most_inline_index (bytes_at t index.now) ≡ false)) }
    ensures read { IfOk result (λ log. AreRead log.reading.log.entries (unwrap_or log.chunks [])) }
    ensures seen { Grows (R.seen files.old) (R.seen files.new) }
    ensures same_start { R.start files.new ≡ R.start files.old }
    ensures still { R.alone ≡ true → R.seen files.new ≡ R.seen files.old }
    ensures cause { HasFaultCause (R.faults files.old) (R.faults files.new) (R.denied files.old) (R.denied files.new) result }
    ensures refused { IfErr result (λ e. is_refusal e ≡ true) }
    ensures why { IfErr result (λ e. OfTree R.alone (R.seen files.new) (R.start files.new) (λ t. (which : Log) → index.now ≡ index_path which → IsOfLog which e t)) }
    ensures limits { OnOk result (OfTree R.alone (R.seen files.new) (R.start files.new) (λ t. (which : Log) → index.now ≡ index_path which → KeepsLimits (index_in t which))) }
{
    let parts = read_either(alloc, files, index, chunks, MOST_INLINE)?;
    let log = log_of(alloc, parts)?;
    Ok(log)
}

// Reads what the texts of both revlogs say.
fn store_from(alloc: Global, changelog: ReadLog, manifest: ReadLog) -> Result<Store, RevFault>
    requires changelog { AreRead changelog.reading.log.entries (unwrap_or changelog.chunks []) }
    requires manifest { AreRead manifest.reading.log.entries (unwrap_or manifest.chunks []) }
    ensures { IfOk result (λ s. (t : Tree) → IsLogOf the_changelog changelog t → IsLogOf the_manifest manifest t → IsStoreOf s t) }
{
    let changesets = read_changesets(
        alloc,
        &changelog.reading,
        bytes_of(&changelog.chunks),
        &manifest.reading,
    )?;
    let trees = read_trees(alloc, &manifest.reading, bytes_of(&manifest.chunks))?;
    Ok(Store {
        changelog,
        manifest,
        changesets,
        trees,
    })
}

/// Reads the changelog and the manifest up to their first faults, and what their texts say.
///
/// It is refused for a fault of the files, for want of memory, and where an index passes a limit.
pub fn read_store<R: Reads>(alloc: Global, files: &mut R) -> Result<Store, ReadAnswer>
    ensures found { IfOk result (λ s. OfTree R.alone (R.seen files.new) (R.start files.new) (IsStoreOf s)) }
    ensures short { OnOk result (OfTree R.alone (R.seen files.new) (R.start files.new) HaveShortLogs) }
    ensures seen { Grows (R.seen files.old) (R.seen files.new) }
    ensures same_start { R.start files.new ≡ R.start files.old }
    ensures still { R.alone ≡ true → R.seen files.new ≡ R.seen files.old }
    ensures cause { HasFaultCause (R.faults files.old) (R.faults files.new) (R.denied files.old) (R.denied files.new) result }
    ensures refused { IfErr result (λ e. is_refusal e ≡ true) }
    ensures why { IfErr result (λ e. OfTree R.alone (R.seen files.new) (R.start files.new) (IsLimited e)) }
    ensures limits { OnOk result (OfTree R.alone (R.seen files.new) (R.start files.new) LogsKeepLimits) }
{
    let paths = LogPaths::new(alloc)?;
    let changelog = read_log(alloc, files, &paths.changelog, &paths.changelog_chunks)?;
    let manifest = read_log(alloc, files, &paths.manifest, &paths.manifest_chunks)?;
    match store_from(alloc, changelog, manifest) {
        Ok(store) => Ok(store),
        Err(_) => Err(ReadAnswer::Memory),
    }
}
