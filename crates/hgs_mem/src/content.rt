//! The contents of files, in pieces that several states of the files have together.
ghost use Rattle.std.specs.Prelude.{◌≡◌, [], ◌++◌, length, take, drop, IfOk, OnErr};
ghost use Rattle.hgs_mem.specs.Content.{joined};

use crate::shared::SharedBytes;
use hgs_bytes::bytes::Bytes;
use hgs_bytes::parts::{front, past};
use std::alloc::{AllocError, Global};
use std::marker::Model;

/// The most bytes of a piece that comes of two.
const MOST: usize = 65_536;

/// A piece below this is joined with whatever comes behind it.
const SMALL: usize = 1_024;

/// The bytes of a file. A copy takes no memory for them, and a longer one takes it for what is new, with what is joined to that.
#[derive(Drop)]
pub struct Content {
    pieces: Vec<SharedBytes>,
    len: u64,
}

impl Model for Content {
    ghost use Rattle.std.specs.Prelude.{◌≡◌, List, ℕ, length};
    ghost use Rattle.hgs_mem.specs.Content.{joined};

    ghost Value = { List ℕ };

    ghost view = { λ c. joined c.pieces.items };

    ghost invariant = { λ c. c.len ≡ length (joined c.pieces.items) };
}

/// Whether a piece and the one behind it become one, so that there are few of them and each byte is copied seldom.
fn joins(before: usize, behind: usize) -> bool {
    (before < SMALL || before <= behind) && before.saturating_add(behind) <= MOST
}

/// What comes behind pieces, with as many of them as are to be joined with it.
fn with_last(
    alloc: Global,
    pieces: &mut Vec<SharedBytes>,
    behind: Bytes,
) -> Result<Bytes, AllocError>
    ensures { IfOk result (λ last. joined pieces.new.items ++ last ≡ joined pieces.old.items ++ behind) }
{
    let Some(before) = pieces.pop() else {
        return Ok(behind);
    };
    if !joins(before.get().len(), behind.len()) {
        pieces.push(before)?;
        return Ok(behind);
    }
    let mut both = before.get().copy(alloc)?;
    both.append(behind.as_slice())?;
    with_last(alloc, pieces, both)
}

impl Content {
    /// No bytes. Takes no memory.
    pub fn new(alloc: Global) -> Content
        ensures { result ≡ [] }
    {
        Content {
            pieces: Vec::new(alloc),
            len: 0,
        }
    }

    pub fn len(&self) -> u64
        ensures { result ≡ length self.now }
    {
        self.len
    }

    /// These bytes, and others behind them.
    pub fn and(&self, alloc: Global, bytes: &[u8]) -> Result<Content, AllocError>
        ensures { IfOk result (λ c. c ≡ self.now ++ bytes.now) }
    {
        let Some(len) = self.len.checked_add(bytes.len() as u64) else {
            return Err(AllocError);
        };
        let mut pieces = self.pieces.clone()?;
        let last = with_last(alloc, &mut pieces, Bytes::from_slice(alloc, bytes)?)?;
        pieces.push(SharedBytes::new(alloc, last)?)?;
        Ok(Content { pieces, len })
    }

    /// The first bytes, at most so many.
    pub fn first(&self, alloc: Global, most: u64) -> Result<Content, AllocError>
        ensures { IfOk result (λ c. c ≡ take most self.now) }
    {
        let mut pieces = Vec::new(alloc);
        let mut left = most;
        for piece in self.pieces.iter() {
            pieces.push(piece.first(alloc, left as usize)?)?;
            left = left.saturating_sub(piece.get().len() as u64);
        }
        Ok(Content {
            pieces,
            len: most.min(self.len),
        })
    }

    /// Adds to `into` the bytes from a place on, at most so many.
    pub fn read(&self, from: u64, most: u64, into: &mut Vec<u8>) -> Result<(), AllocError>
        ensures ok { IfOk result (λ u. into.new.items ≡ into.old.items ++ take most (drop from self.now)) }
        ensures err { OnErr result (into.new.items ≡ into.old.items) }
    {
        let before = into.len();
        let (mut skip, mut left) = (from, most);
        for piece in self.pieces.iter() {
            let part = front(past(piece.get().as_slice(), skip as usize), left as usize);
            if into.extend_from_slice(part).is_err() {
                into.truncate(before);
                return Err(AllocError);
            }
            skip = skip.saturating_sub(piece.get().len() as u64);
            left -= part.len() as u64;
        }
        Ok(())
    }
}

impl Clone for Content {
    ghost is_clone = { λ a b. b ≡ a };

    fn clone(&self) -> Result<Content, AllocError> {
        Ok(Content {
            pieces: self.pieces.clone()?,
            len: self.len,
        })
    }
}
