// Printing a changeset.
ghost use Rattle.std.specs.Prelude.{◌≡◌, ◌++◌, OnOk, OnErr};
ghost use Rattle.hgs_bytes.specs.Bytes.{IsPrefixOf};
ghost use Rattle.hgs_bytes.specs.Text.{line, lines};
ghost use Rattle.hgs_index.specs.ChangeText.{date_text, extras_text, change_text};
ghost use Rattle.hgs_changelog.specs.View.{view_change};
ghost use Rattle.std.specs.Fmt.{signed_decimal};

use crate::text::ChangeText;
use hgs_bytes::bytes::Bytes;
use hgs_index::texts::hex_of;
use itoa::Buffer;
use std::alloc::AllocError;

/// Adds a line; where there is no memory, a part of it.
fn print_line(text: &[u8], into: &mut Vec<u8>) -> Result<(), AllocError>
    ensures ok { OnOk result (into.new.items ≡ into.old.items ++ line text.now) }
    ensures front { IsPrefixOf into.old.items into.new.items }
{
    into.extend_from_slice(text)?;
    into.push(b'\n')?;
    Ok(())
}

/// Adds a line for each name; where there is no memory, a part of them.
fn print_lines(names: &[Bytes], into: &mut Vec<u8>) -> Result<(), AllocError>
    ensures ok { OnOk result (into.new.items ≡ into.old.items ++ lines names.now) }
    ensures front { IsPrefixOf into.old.items into.new.items }
{
    for name in names {
        print_line(name.as_slice(), into)?;
    }
    Ok(())
}

/// Adds a number; where there is no memory, nothing.
fn print_number(number: i64, into: &mut Vec<u8>) -> Result<(), AllocError>
    ensures ok { OnOk result (into.new.items ≡ into.old.items ++ signed_decimal number) }
    ensures front { IsPrefixOf into.old.items into.new.items }
{
    let mut buffer = Buffer::new();
    into.extend_from_slice(buffer.format(number).as_bytes())?;
    Ok(())
}

/// Adds a space and the extras where there are any; where there is no memory, a part of that.
fn print_extras(extras: &[u8], into: &mut Vec<u8>) -> Result<(), AllocError>
    ensures ok { OnOk result (into.new.items ≡ into.old.items ++ extras_text extras.now) }
    ensures front { IsPrefixOf into.old.items into.new.items }
{
    if extras.len() > 0 {
        into.push(b' ')?;
        into.extend_from_slice(extras)?;
    }
    Ok(())
}

/// Adds what stands behind the seconds of a date; where there is no memory, a part of it.
fn print_zone(offset: i32, extras: &[u8], into: &mut Vec<u8>) -> Result<(), AllocError>
    ensures ok { OnOk result (into.new.items ≡ into.old.items ++ (signed_decimal offset ++ extras_text extras.now)) }
    ensures front { IsPrefixOf into.old.items into.new.items }
{
    print_number(offset as i64, into)?;
    print_extras(extras, into)?;
    Ok(())
}

/// Adds the date line; where there is no memory, a part of it.
fn print_date(
    seconds: i64,
    offset: i32,
    extras: &[u8],
    into: &mut Vec<u8>,
) -> Result<(), AllocError>
    ensures ok { OnOk result (into.new.items ≡ into.old.items ++ line (date_text seconds offset extras.now)) }
    ensures front { IsPrefixOf into.old.items into.new.items }
{
    print_number(seconds, into)?;
    into.push(b' ')?;
    print_zone(offset, extras, into)?;
    into.push(b'\n')?;
    Ok(())
}

/// Adds the text of a changeset; where there is no memory, a part of it.
fn print_change(change: &ChangeText, into: &mut Vec<u8>) -> Result<(), AllocError>
    ensures ok { OnOk result (into.new.items ≡ into.old.items ++ change_text (view_change change.now)) }
    ensures front { IsPrefixOf into.old.items into.new.items }
{
    print_line(hex_of(&change.manifest).as_slice(), into)?;
    print_line(change.user.as_slice(), into)?;
    print_date(
        change.seconds,
        change.offset,
        change.extras.as_slice(),
        into,
    )?;
    print_lines(change.files.as_slice(), into)?;
    print_line(&[], into)?;
    into.extend_from_slice(change.description.as_slice())?;
    Ok(())
}

impl ChangeText {
    /// Adds the text of the changeset, or changes nothing where there is no memory.
    ///
    /// What is added is read as this changeset again where its node, dates, lines and texts are in form.
    pub fn print(&self, into: &mut Vec<u8>) -> Result<(), AllocError>
        ensures ok { OnOk result (into.new.items ≡ into.old.items ++ change_text (view_change self.now)) }
        ensures err { OnErr result (into.new.items ≡ into.old.items) }
    {
        let before = into.len();
        match print_change(self, into) {
            Ok(()) => Ok(()),
            Err(_) => {
                into.truncate(before);
                Err(AllocError)
            }
        }
    }
}
