// Printing bookmarks and working parents.
ghost use Rattle.std.specs.Prelude.{◌≡◌, ◌<◌, ◌^◌, ◌++◌, length, map, OnOk, OnErr};
ghost use Rattle.std.specs.List.{All};
ghost use Rattle.hgs_bytes.specs.Bytes.{IsPrefixOf};
ghost use Rattle.hgs_marks.specs.Bookmarks.{mark_text, bookmarks_text};
ghost use Rattle.hgs_marks.specs.Dirstate.{path_text, paths_text, dirstate_text};
ghost use Rattle.hgs_marks.specs.Held.{mark_in, view_mark, view_dirstate};

use crate::bookmarks::{Bookmarks, Mark};
use crate::dirstate::Dirstate;
use hgs_bytes::bytes::Bytes;
use hgs_index::node::Node;
use hgs_index::texts::hex_of;
use std::alloc::AllocError;
use std::collections::BTreeMap;

/// Adds the line of a bookmark; where there is no memory, a part of it.
fn print_mark(mark: Mark<'_>, into: &mut Vec<u8>) -> Result<(), AllocError>
    ensures ok { OnOk result (into.new.items ≡ into.old.items ++ mark_text (view_mark mark.entry)) }
    ensures front { IsPrefixOf into.old.items into.new.items }
{
    into.extend_from_slice(hex_of(&mark.node).as_slice())?;
    into.push(b' ')?;
    into.extend_from_slice(mark.name)?;
    into.push(b'\n')?;
    Ok(())
}

/// Adds the line of each bookmark; where there is no memory, a part of them.
fn print_marks(marks: &BTreeMap<Vec<u8>, Node>, into: &mut Vec<u8>) -> Result<(), AllocError>
    ensures ok { OnOk result (into.new.items ≡ into.old.items ++ bookmarks_text (map mark_in marks.now.entries)) }
    ensures front { IsPrefixOf into.old.items into.new.items }
{
    for (name, node) in marks {
        let name = name.as_slice();
        print_mark(Mark { name, node: *node }, into)?;
    }
    Ok(())
}

/// What stands before a path's length: `n`, mode 0, size -1 and time -1, so that the file is looked at anew.
const NORMAL: [u8; 13] = [b'n', 0, 0, 0, 0, 255, 255, 255, 255, 255, 255, 255, 255];

/// Adds the entry of a tracked path; where there is no memory, a part of it.
fn print_path(path: &[u8], into: &mut Vec<u8>) -> Result<(), AllocError>
    requires { length path.now < 2 ^ 32 }
    ensures ok { OnOk result (into.new.items ≡ into.old.items ++ path_text path.now) }
    ensures front { IsPrefixOf into.old.items into.new.items }
{
    into.extend_from_slice(&NORMAL)?;
    into.extend_from_slice(&(path.len() as u32).to_be_bytes())?;
    into.extend_from_slice(path)?;
    Ok(())
}

/// Adds the entry of each tracked path; where there is no memory, a part of them.
fn print_paths(paths: &[Bytes], into: &mut Vec<u8>) -> Result<(), AllocError>
    requires { All (λ path. length path < 2 ^ 32) paths.now }
    ensures ok { OnOk result (into.new.items ≡ into.old.items ++ paths_text paths.now) }
    ensures front { IsPrefixOf into.old.items into.new.items }
{
    for path in paths {
        print_path(path.as_slice(), into)?;
    }
    Ok(())
}

/// Adds the parents and the entries; where there is no memory, a part of them.
fn print_dirstate(dirstate: &Dirstate, into: &mut Vec<u8>) -> Result<(), AllocError>
    requires { All (λ path. length path < 2 ^ 32) dirstate.now.paths }
    ensures ok { OnOk result (into.new.items ≡ into.old.items ++ dirstate_text (view_dirstate dirstate.now)) }
    ensures front { IsPrefixOf into.old.items into.new.items }
{
    into.extend_from_slice(&dirstate.p1.0)?;
    into.extend_from_slice(&dirstate.p2.0)?;
    print_paths(dirstate.paths.as_slice(), into)?;
    Ok(())
}

impl Bookmarks {
    /// Adds the text of the bookmarks, in byte order of their names, or changes nothing where there is no memory.
    pub fn print(&self, into: &mut Vec<u8>) -> Result<(), AllocError>
        ensures ok { OnOk result (into.new.items ≡ into.old.items ++ bookmarks_text self.now) }
        ensures err { OnErr result (into.new.items ≡ into.old.items) }
    {
        let before = into.len();
        match print_marks(&self.marks, into) {
            Ok(()) => Ok(()),
            Err(_) => {
                into.truncate(before);
                Err(AllocError)
            }
        }
    }
}

impl Dirstate {
    /// Adds the text of the working parents and the tracked paths, each of less than 2^32 bytes, or changes nothing where
    /// there is no memory.
    pub fn print(&self, into: &mut Vec<u8>) -> Result<(), AllocError>
        requires { All (λ path. length path < 2 ^ 32) self.now.paths }
        ensures ok { OnOk result (into.new.items ≡ into.old.items ++ dirstate_text (view_dirstate self.now)) }
        ensures err { OnErr result (into.new.items ≡ into.old.items) }
    {
        let before = into.len();
        match print_dirstate(self, into) {
            Ok(()) => Ok(()),
            Err(_) => {
                into.truncate(before);
                Err(AllocError)
            }
        }
    }
}
