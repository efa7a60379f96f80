// Printing a manifest.
ghost use Rattle.std.specs.Prelude.{◌≡◌, ◌++◌, OnOk, OnErr};
ghost use Rattle.hgs_bytes.specs.Bytes.{IsPrefixOf};
ghost use Rattle.hgs_index.specs.Manifest.{flag_text, row_text, manifest_text};
ghost use Rattle.hgs_manifest.specs.Held.{view_row};

use crate::manifest::Manifest;
use crate::place::Row;
use hgs_index::kinds::Flag;
use hgs_index::texts::hex_of;
use std::alloc::AllocError;

fn flag_bytes(flag: Flag) -> &'static [u8]
    ensures { result.now ≡ flag_text flag }
{
    match flag {
        Flag::Plain => b"",
        Flag::Exec => b"x",
        Flag::Link => b"l",
    }
}

/// Adds the line of a row; where there is no memory, a part of it.
fn print_row(row: Row<'_>, into: &mut Vec<u8>) -> Result<(), AllocError>
    ensures ok { OnOk result (into.new.items ≡ into.old.items ++ row_text (view_row row.entry)) }
    ensures front { IsPrefixOf into.old.items into.new.items }
{
    into.extend_from_slice(row.path)?;
    into.push(0)?;
    into.extend_from_slice(hex_of(&row.node).as_slice())?;
    into.extend_from_slice(flag_bytes(row.flag))?;
    into.push(b'\n')?;
    Ok(())
}

impl Manifest {
    /// Adds the text of the manifest, or changes nothing where there is no memory.
    pub fn print(&self, into: &mut Vec<u8>) -> Result<(), AllocError>
        ensures ok { OnOk result (into.new.items ≡ into.old.items ++ manifest_text self.now) }
        ensures err { OnErr result (into.new.items ≡ into.old.items) }
    {
        let before = into.len();
        for i in 0..self.len() {
            match print_row(self.row(i), into) {
                Ok(()) => {}
                Err(_) => {
                    into.truncate(before);
                    return Err(AllocError);
                }
            }
        }
        Ok(())
    }
}
