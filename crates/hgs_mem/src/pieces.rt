//! Appends in pieces.
ghost use Rattle.std.specs.Prelude.{◌<◌, [], ◌∷◌, IfOk};
ghost use Rattle.hgs_files.specs.declared.op.Op.{Op};
ghost use Rattle.hgs_files.specs.Log.{IsDone};
ghost use Rattle.hgs_mem.specs.Pieces.{AreSmall};

use hgs_bytes::bytes::Bytes;
use hgs_bytes::parts::{front, past};
use hgs_files::op::Op;
use hgs_files::path::StorePath;
use std::alloc::{AllocError, Global};

/// An append as appends of at most `most` bytes each.
pub fn appends(
    alloc: Global,
    path: &StorePath,
    bytes: &[u8],
    most: usize,
) -> Result<Vec<Op>, AllocError>
    requires { 0 < most }
    ensures done { IfOk result (λ ops. IsDone (Op.Append path.now bytes.now ∷ []) ops.items []) }
    ensures small { IfOk result (λ ops. AreSmall most ops.items) }
{
    let mut ops = Vec::new(alloc);
    let mut rest = bytes;
    loop {
        let piece = Op::Append {
            path: path.copy(alloc)?,
            bytes: Bytes::from_slice(alloc, front(rest, most))?,
        };
        ops.push(piece)?;
        rest = past(rest, most);
        if rest.is_empty() {
            return Ok(ops);
        }
    }
}
