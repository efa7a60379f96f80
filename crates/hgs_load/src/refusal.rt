//! What damage of a file, and a fault of a revlog, is to a reader.
ghost use Rattle.std.specs.Prelude.{◌≡◌, false};
ghost use Rattle.hgs_load.specs.Answer.{IsRefusal, is_fault};
ghost use Rattle.hgs_load.specs.View.{revlog_refusal, damaged};

use crate::answer::ReadAnswer;
use hgs_files::path::StorePath;
use hgs_plan::damage::{Damage, Part, What};
use hgs_revlog::fault::RevFault;
use std::alloc::Global;

/// Damage of a file, or want of memory for its path.
pub fn damage(alloc: Global, path: &StorePath, part: Part, number: u32, place: u64) -> ReadAnswer
    ensures refusal { IsRefusal result (damaged path.now part number place) }
    ensures inner { is_fault result ≡ false }
{
    match path.copy(alloc) {
        Ok(path) => ReadAnswer::Damaged(Damage {
            path,
            what: What {
                part,
                number,
                place,
            },
        }),
        Err(_) => ReadAnswer::Memory,
    }
}

/// What a fault of a revlog is whose index has this path.
pub fn of_revlog(alloc: Global, path: &StorePath, fault: RevFault) -> ReadAnswer
    ensures refusal { IsRefusal result (revlog_refusal path.now fault) }
    ensures inner { is_fault result ≡ false }
{
    match fault {
        RevFault::Limit(which) => ReadAnswer::Limit(which),
        RevFault::Memory => ReadAnswer::Memory,
        _ => damage(alloc, path, Part::Revlog, fault.number(), fault.place()),
    }
}
