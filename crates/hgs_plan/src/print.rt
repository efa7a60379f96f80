//! Small pieces of printed lines.
ghost use Rattle.std.specs.Prelude.{◌≡◌, ◌++◌, decimal, OnOk, OnErr};
ghost use Rattle.hgs_plan.specs.Damage.{damage_text};

use crate::damage::Damage;
use itoa::Buffer;
use std::alloc::AllocError;

/// Adds the digits of a number. Where there is no memory, nothing is added.
pub fn push_number(into: &mut Vec<u8>, number: u64) -> Result<(), AllocError>
    ensures ok { OnOk result (into.new.items ≡ into.old.items ++ decimal number) }
    ensures err { OnErr result (into.new.items ≡ into.old.items) }
{
    let mut buffer = Buffer::new();
    into.extend_from_slice(buffer.format(number).as_bytes())
}

/// Adds the damaged file's path, and the part, the number and the place of its fault.
pub fn push_damage(into: &mut Vec<u8>, damage: &Damage) -> Result<(), AllocError>
    ensures { OnOk result (into.new.items ≡ into.old.items ++ damage_text damage.now) }
{
    into.extend_from_slice(damage.path.bytes())?;
    into.extend_from_slice(b": ")?;
    into.extend_from_slice(damage.what.part.name())?;
    into.push(b' ')?;
    push_number(into, damage.what.number as u64)?;
    into.push(b' ')?;
    push_number(into, damage.what.place)
}
