//! The whole of an input.
ghost use Rattle.std.specs.Prelude.{◌≡◌, ◌≤◌, ◌+◌, length, take, IfOk, IfSome, IsErrOf};
ghost use Rattle.hgs_files.specs.Reads.{Rose};
ghost use Rattle.hgs_files.specs.declared.streams.IoFault.TheVariants.{Failed};
ghost use Rattle.hgs_input.specs.Record.{most_input};
ghost use Rattle.hgs_top.specs.Orders.{IsAtEnd};

use hgs_files::streams::{IoFault, Source};
use std::alloc::Global;

/// The first byte past the limit is the last that is looked at.
const MOST: usize = 268_435_457;

/// The most bytes of one read.
const PIECE: usize = 65_536;

/// The bytes of an input up to its end, or up to the first past the limit of a record.
pub fn read_input<S: Source>(alloc: Global, input: &mut S) -> Result<Vec<u8>, IoFault>
    ensures read { IfOk result (λ bytes. IfSome (S.left input.old) (λ left. bytes.items ≡ take (most_input + 1) left)) }
    ensures whole { IfOk result (λ bytes. length bytes.items ≤ most_input → IsAtEnd (S.left input.new)) }
    ensures failed { IsErrOf result Failed → Rose (S.faults input.old) (S.faults input.new) }
{
    let mut bytes = Vec::new(alloc);
    while bytes.len() < MOST {
        let most = PIECE.min(MOST - bytes.len());
        match input.read(most as u64, &mut bytes) {
            Ok(0) => break,
            Ok(_) => {}
            Err(fault) => return Err(fault),
        }
    }
    Ok(bytes)
}
