//! Bookmarks (Mercurial's file `bookmarks`).
ghost use Rattle.std.specs.Prelude.{◌≡◌, [], length, map, IfOk, OnOk, OnErr, is_some};
ghost use Rattle.std.specs.Option.{option_map};
ghost use Rattle.std.specs.Result.{result_map_both};
ghost use Rattle.hgs_bytes.specs.Answer.{Gives};
ghost use Rattle.hgs_marks.specs.Bookmarks.{Mark, node_of, with_mark, without, mark_of, set_mark, read_bookmarks, is_memory};
ghost use Rattle.hgs_marks.specs.Held.{mark_in, view_mark};

use crate::fault::MarkFault;
use crate::name::is_mark_name;
use hgs_bytes::parts::{front, next_line, past, starts};
use hgs_index::node::Node;
use hgs_index::texts::node_from;
use std::alloc::{AllocError, Global};
use std::collections::BTreeMap;
use std::marker::Model;

/// A bookmark: a name for a changeset.
#[derive(Clone, Copy, Debug)]
pub struct Mark<'a> {
    pub name: &'a [u8],
    pub node: Node,
}

/// The bookmarks of a repository, in byte order of their names.
#[derive(Drop)]
pub struct Bookmarks {
    alloc: Global,
    pub(crate) marks: BTreeMap<Vec<u8>, Node>,
}

impl Model for Bookmarks {
    ghost use Rattle.std.specs.Prelude.{List, map};
    ghost use Rattle.hgs_marks.specs.Bookmarks.{Mark};
    ghost use Rattle.hgs_marks.specs.Held.{mark_in};

    ghost Value = { List Mark };

    ghost view = { λ b. map mark_in b.marks.entries };
}

/// The bookmark of a line without its LF.
pub(crate) fn mark_from(line: &[u8], number: u64) -> Result<Mark<'_>, MarkFault>
    ensures { result_map_both view_mark (λ fault. fault) result ≡ mark_of number line.now }
{
    if !starts(past(line, 40), b" ") {
        return Err(MarkFault::Line(number));
    }
    let Some(node) = node_from(front(line, 40)) else {
        return Err(MarkFault::Line(number));
    };
    let name = past(line, 41);
    if !is_mark_name(name) {
        return Err(MarkFault::Name(number));
    }
    Ok(Mark { name, node })
}

impl Bookmarks {
    /// No bookmarks. Takes no memory.
    pub fn empty(alloc: Global) -> Bookmarks
        ensures { result ≡ [] }
    {
        Bookmarks {
            alloc,
            marks: BTreeMap::new(alloc),
        }
    }

    /// The same bookmarks once more.
    pub fn copy(&self) -> Result<Bookmarks, AllocError>
        ensures { IfOk result (λ copy. copy ≡ self.now) }
    {
        Ok(Bookmarks {
            alloc: self.alloc,
            marks: self.marks.clone()?,
        })
    }

    /// How many bookmarks there are.
    pub fn len(&self) -> usize
        ensures { result ≡ length self.now }
    {
        self.marks.len()
    }

    /// The node of a name; none where no bookmark has it.
    pub fn get(&self, name: &[u8]) -> Option<Node>
        ensures { option_map (λ n. n.0) result ≡ node_of name.now self.now }
    {
        self.marks.get(name).copied()
    }

    /// The node of each name, in byte order of names.
    pub fn as_map(&self) -> &BTreeMap<Vec<u8>, Node>
        ensures { map mark_in result.now.entries ≡ self.now }
    {
        &self.marks
    }

    // Adds a bookmark in its place, or changes nothing where there is no memory.
    fn put(&mut self, mark: Mark<'_>) -> Result<(), AllocError>
        ensures ok { OnOk result (self.new ≡ with_mark self.old (view_mark mark.entry)) }
        ensures err { OnErr result (self.new ≡ self.old) }
    {
        let name = Vec::from_slice(self.alloc, mark.name)?;
        self.marks.insert(name, mark.node)?;
        Ok(())
    }

    /// The bookmarks of a text, or the first of its faults by lines; at one line `Line` comes before `Name`. The last line
    /// may lack its LF, and of two lines with the same name the later counts.
    ///
    /// The time is that of a search among the names for each line.
    pub fn read(alloc: Global, text: &[u8]) -> Result<Bookmarks, MarkFault>
        ensures { Gives is_memory (λ b. b) result (read_bookmarks text.now) }
    {
        let mut bookmarks = Bookmarks::empty(alloc);
        let mut rest = text;
        let mut number = 0;
        while rest.len() > 0 {
            let (line, _, after) = next_line(rest);
            number += 1;
            let mark = mark_from(line, number)?;
            bookmarks.put(mark)?;
            rest = after;
        }
        Ok(bookmarks)
    }

    /// Gives a name to a changeset, whether it stood or not. `Name(0)` refuses a name that no bookmark can have; after an
    /// error nothing has changed.
    pub fn set(&mut self, name: &[u8], node: Node) -> Result<(), MarkFault>
        ensures answer { Gives is_memory (λ _. self.new) result (set_mark self.old (record { name = name.now; node = node.0 })) }
        ensures err { OnErr result (self.new ≡ self.old) }
    {
        if !is_mark_name(name) {
            return Err(MarkFault::Name(0));
        }
        self.put(Mark { name, node })?;
        Ok(())
    }

    /// Takes a name away, and says whether it stood.
    pub fn delete(&mut self, name: &[u8]) -> bool
        ensures stood { result ≡ is_some (node_of name.now self.old) }
        ensures left { self.new ≡ without name.now self.old }
    {
        self.marks.remove(name).is_some()
    }
}
