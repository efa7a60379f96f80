//! What a fault of a text is to a reader.
ghost use Rattle.std.specs.Prelude.{◌≡◌, false};
ghost use Rattle.hgs_load.specs.Answer.{IsRefusal, is_fault};
ghost use Rattle.hgs_load.specs.View.{changelog_index};
ghost use Rattle.hgs_reader.specs.Contents.{manifest_index, manifest_refusal};
ghost use Rattle.hgs_reader.specs.Line.{change_refusal};

use hgs_files::path::StorePath;
use hgs_index::texts::{ChangeFault, ManifestFault};
use hgs_load::answer::ReadAnswer;
use hgs_load::refusal::damage;
use hgs_plan::damage::Part;
use std::alloc::Global;

/// What a fault of the text of a changeset is.
pub fn of_change(alloc: Global, path: &StorePath, rev: u32, fault: ChangeFault) -> ReadAnswer
    requires { path.now ≡ changelog_index }
    ensures refusal { IsRefusal result (change_refusal rev fault) }
    ensures inner { is_fault result ≡ false }
{
    let number = match fault {
        ChangeFault::Shape => 1,
        ChangeFault::Node => 2,
        ChangeFault::Date => 3,
        ChangeFault::Files => 4,
        ChangeFault::Utf8 => 5,
        ChangeFault::Memory => return ReadAnswer::Memory,
    };
    damage(alloc, path, Part::Change, number, rev as u64)
}

/// What a fault of the text of a manifest is.
pub fn of_manifest(alloc: Global, path: &StorePath, fault: ManifestFault) -> ReadAnswer
    requires { path.now ≡ manifest_index }
    ensures refusal { IsRefusal result (manifest_refusal fault) }
    ensures inner { is_fault result ≡ false }
{
    match fault {
        ManifestFault::Line(line) => damage(alloc, path, Part::Manifest, 1, line),
        ManifestFault::Order(line) => damage(alloc, path, Part::Manifest, 2, line),
        ManifestFault::Memory => ReadAnswer::Memory,
    }
}
