//! What the definitions of this crate imply. Each function is one law; none does anything.
ghost use Rattle.std.specs.Prelude.{◌≡◌, ◌≤◌, ◌<◌, ◌+◌, ◌∷◌, ◌++◌, ◌^◌, true, List, ℕ, Ok, Err, Some, decimal, length};
ghost use Rattle.hgs_bytes.specs.Text.{Lacks};
ghost use Rattle.hgs_index.specs.MarkName.{is_mark_name};
ghost use Rattle.hgs_model.specs.Valid.{AreNewChanges, IsNewChange};
ghost use Rattle.hgs_model.specs.declared.command.NewChange.{NewChange};
ghost use Rattle.hgs_index.specs.declared.kinds.Which.TheVariants.{FileText, Tree};
ghost use Rattle.hgs_input.specs.declared.fault.InputFault.TheVariants.{BadInput, Limit};
ghost use Rattle.hgs_input.specs.Front.{left, IsImportBefore, IsRecordBefore, Alike};
ghost use Rattle.hgs_input.specs.Import.{IsImport, IsImportText, import_from, import_text, read_import};
ghost use Rattle.hgs_input.specs.Read.{Rest, read_record, record_from, number_up_to};
ghost use Rattle.hgs_input.specs.Record.{IsRecord, Wording, most_input, record_text};

/// What is read is a record of that changeset.
pub fn read_records_are_records()
    ensures { (bytes : List ℕ) (c : NewChange) → read_record bytes ≡ Ok c → IsRecord bytes c }
{}

/// A changeset is read from its record again, whether that says a draft's phase and the branch `default` or not.
pub fn record_written_then_read()
    ensures { (says : Wording) (c : NewChange) → IsNewChange c → length (record_text says c) ≤ most_input → read_record (record_text says c) ≡ Ok c }
{}

/// Each front of a record is cut, and so refused at its length.
pub fn fronts_are_cut()
    ensures { (front more : List ℕ) (b : ℕ) (c : NewChange) → read_record (front ++ b ∷ more) ≡ Ok c → read_record front ≡ Err (BadInput (length front)) }
{}

/// A fault that is not at the end of the input is that of each input that goes on, so only what stands before it decides.
/// So are the limits of a body and of the number of files.
pub fn faults_stay()
    ensures body { (front more : List ℕ) → read_record front ≡ Err (Limit FileText) → read_record (front ++ more) ≡ Err (Limit FileText) }
    ensures files { (front more : List ℕ) → read_record front ≡ Err (Limit Tree) → read_record (front ++ more) ≡ Err (Limit Tree) }
    ensures form { (front more : List ℕ) (at : ℕ) → at < length front → read_record front ≡ Err (BadInput at) → read_record (front ++ more) ≡ Err (BadInput at) }
{}

/// An input that is longer than the limit is decided by its bytes up to the first past the limit.
pub fn long_inputs_are_decided()
    ensures { (front more : List ℕ) → most_input < length front → read_record (front ++ more) ≡ read_record front }
{}

/// A record is read where other bytes stand behind it, and they are left; and what is read with bytes behind it is a record.
pub fn records_stand_in_front()
    ensures read { (says : Wording) (c : NewChange) (whole : ℕ) (behind : List ℕ) → IsNewChange c → record_from (left whole (record_text says c ++ behind)) ≡ Ok (c, left whole behind) }
    ensures is { (r rest : Rest) (c : NewChange) → record_from r ≡ Ok (c, rest) → IsRecordBefore r c rest }
{}

/// What is read of the front of an input is read of the whole, but where the front is cut.
pub fn fronts_are_read_alike()
    ensures { (whole : ℕ) (tail bytes : List ℕ) → Alike whole tail (record_from (left whole bytes)) (record_from (left (whole + length tail) (bytes ++ tail))) }
{}

/// A number is read from its digits, in which no separator stands, and no LF stands in the name of a bookmark.
pub fn words_written_then_read()
    ensures numbers { (most n : ℕ) → n ≤ most + 1 → most + 1 < 2 ^ 64 → number_up_to most (decimal n) ≡ Some n }
    ensures digits { (byte n : ℕ) → byte < 45 → n < 2 ^ 64 → Lacks byte (decimal n) }
    ensures names { (name : List ℕ) → is_mark_name name ≡ true → Lacks 10 name }
{}

/// What is read of an import are records, one after another, of these changesets, which can be imported.
pub fn read_imports_are_imports()
    ensures { (bytes : List ℕ) (changes : List NewChange) → read_import bytes ≡ Ok changes → IsImport bytes changes × AreNewChanges changes }
{}

/// Each import is read, as its changesets, and so one that is written.
pub fn imports_are_read()
    ensures read { (bytes : List ℕ) (changes : List NewChange) → IsImport bytes changes → read_import bytes ≡ Ok changes }
    ensures written { (says : Wording) (changes : List NewChange) → AreNewChanges changes → length (import_text says changes) ≤ most_input → read_import (import_text says changes) ≡ Ok changes }
{}

/// Each front of an import is cut, and so refused at its length. A fault that is not at the end of an input, a limit of a body or
/// of files, and what stands behind the first byte past the limit, are as with one record.
pub fn imports_are_decided_by_fronts()
    ensures cut { (front more : List ℕ) (b : ℕ) (changes : List NewChange) → read_import (front ++ b ∷ more) ≡ Ok changes → read_import front ≡ Err (BadInput (length front)) }
    ensures form { (front more : List ℕ) (at : ℕ) → at < length front → read_import front ≡ Err (BadInput at) → read_import (front ++ more) ≡ Err (BadInput at) }
    ensures body { (front more : List ℕ) → read_import front ≡ Err (Limit FileText) → read_import (front ++ more) ≡ Err (Limit FileText) }
    ensures files { (front more : List ℕ) → read_import front ≡ Err (Limit Tree) → read_import (front ++ more) ≡ Err (Limit Tree) }
    ensures long { (front more : List ℕ) → most_input < length front → read_import (front ++ more) ≡ read_import front }
{}

/// The records of an import are read with their last line where other bytes stand behind it, and these are left; and what is read with
/// bytes behind it are such records, of changesets that can be imported. Those of changesets that can be imported are such.
pub fn imports_stand_in_front()
    ensures read { (text : List ℕ) (changes : List NewChange) (whole : ℕ) (behind : List ℕ) → IsImportText text changes → import_from (left whole (text ++ behind)) ≡ Ok (changes, left whole behind) }
    ensures is { (r rest : Rest) (changes : List NewChange) → import_from r ≡ Ok (changes, rest) → IsImportBefore r changes rest }
    ensures valid { (text : List ℕ) (changes : List NewChange) → IsImportText text changes → AreNewChanges changes }
    ensures written { (says : Wording) (changes : List NewChange) → AreNewChanges changes → IsImportText (import_text says changes) changes }
{}

/// What is read as an import of the front of an input is read of the whole, but where the front is cut.
pub fn imports_are_read_alike()
    ensures { (whole : ℕ) (tail bytes : List ℕ) → Alike whole tail (import_from (left whole bytes)) (import_from (left (whole + length tail) (bytes ++ tail))) }
{}
