//! The changelog's index: a separate one is read in pieces, an inline one in one read.
ghost use Rattle.std.specs.Prelude.{◌≡◌, ◌<◌, ◌||◌, ◌==◌, [], length, nat_lt, unwrap_or, is_some};
ghost use Rattle.std.specs.Option.{ForNone, option_copied};
ghost use Rattle.hgs_bytes.specs.Answer.{Gives};
ghost use Rattle.hgs_load.specs.Answer.{is_of_outside, NeverFaults};
ghost use Rattle.hgs_load.specs.Form.{either_log_of, is_long_apart};
ghost use Rattle.hgs_load.specs.Open.{log_of};
ghost use Rattle.hgs_load.specs.Refresh.{first_changed, log_after, log_on, unless_changed};
ghost use Rattle.hgs_load.specs.View.{changelog_index, piece_length};

use crate::answer::ReadAnswer;
use crate::refresh::{behind_last, first_changed};
use crate::refusal::{damage, of_revlog};
use crate::whole::is_above;
use hgs_files::path::StorePath;
use hgs_index::inline::is_inline;
use hgs_index::kinds::Which;
use hgs_plan::damage::Part;
use hgs_revlog::fault::Tail;
use hgs_revlog::revlog::Revlog;
use std::alloc::{AllocError, Global};
use std::mem;

/// The bytes of one read of an index: 1,024 entries.
pub const PIECE: u64 = 65_536;

/// As many pieces hold more entries than a revlog may have.
pub const MOST_PIECES: u32 = 977;

// The bytes above which an inline changelog is refused.
const MOST_INLINE: u64 = 16_777_216;

// The bytes of a read, none where the file isn't there.
pub(crate) fn piece_of(part: Option<&[u8]>) -> &[u8]
    ensures { result.now ≡ unwrap_or (option_copied part.entry) [] }
{
    match part {
        Some(piece) => piece,
        None => &[],
    }
}

// Whether this piece is the last of an index, so many being allowed.
fn is_last(piece: &[u8], left: u32) -> bool
    ensures { result ≡ (nat_lt (length piece.now) piece_length || left == 1) }
{
    (piece.len() as u64) < PIECE || left == 1
}

// Whether a separate index has more bytes than an inline one may have.
fn is_long_apart(index: Option<&[u8]>) -> bool
    ensures { result ≡ is_long_apart (option_copied index.entry) }
{
    is_above(index, MOST_INLINE) && !is_inline(piece_of(index))
}

// The history of a separate index with this path.
fn log_of(alloc: Global, path: &StorePath, index: &[u8]) -> Result<Revlog, ReadAnswer>
    requires { path.now ≡ changelog_index }
    ensures log { Gives is_of_outside (λ log. log) result (log_of index.now) }
    ensures inner { NeverFaults result }
{
    match Revlog::load(alloc, index, Tail::Ignore) {
        Ok(log) => Ok(log),
        Err(fault) => Err(of_revlog(alloc, path, fault)),
    }
}

// The history of an index of either form with this path.
fn either_log_of(alloc: Global, path: &StorePath, index: &[u8]) -> Result<Revlog, ReadAnswer>
    requires { path.now ≡ changelog_index }
    ensures log { Gives is_of_outside (λ log. log) result (either_log_of index.now) }
    ensures inner { NeverFaults result }
{
    match Revlog::load_either(alloc, index, Tail::Ignore) {
        Ok(log) => Ok(log),
        Err(fault) => Err(of_revlog(alloc, path, fault)),
    }
}

// This history, where it begins with the former one.
fn unless_changed(
    alloc: Global,
    path: &StorePath,
    former: &Revlog,
    log: Revlog,
) -> Result<Revlog, ReadAnswer>
    requires { path.now ≡ changelog_index }
    ensures log { Gives is_of_outside (λ log. log) result (unless_changed (first_changed 0 former.now.entries log.entries) log) }
    ensures inner { NeverFaults result }
{
    match first_changed(former.entries(), &log) {
        Some(rev) => Err(damage(alloc, path, Part::Shrunk, 1, rev as u64)),
        None => Ok(log),
    }
}

// The history of a separate index with this path, where it begins with the former one.
fn whole_log(
    alloc: Global,
    path: &StorePath,
    former: &Revlog,
    index: &[u8],
) -> Result<Revlog, ReadAnswer>
    requires { path.now ≡ changelog_index }
    ensures log { Gives is_of_outside (λ log. log) result (log_after former.now.entries (log_of index.now)) }
    ensures inner { NeverFaults result }
{
    match log_of(alloc, path, index) {
        Ok(log) => unless_changed(alloc, path, former, log),
        Err(refusal) => Err(refusal),
    }
}

// The former history with the entries of these bytes of its index behind its last one.
fn log_on(
    alloc: Global,
    path: &StorePath,
    former: Revlog,
    behind: &[u8],
) -> Result<Revlog, ReadAnswer>
    requires path { path.now ≡ changelog_index }
    ensures log { Gives is_of_outside (λ log. log) result (log_on former behind.now) }
    ensures inner { NeverFaults result }
{
    match former.load_on(behind, Tail::Ignore) {
        Ok(log) => Ok(log),
        Err(fault) => Err(of_revlog(alloc, path, fault)),
    }
}

/// The history that an index has to begin with.
#[derive(Drop)]
pub enum Former {
    Nothing,
    /// This one; the index is read from its first byte on.
    Whole(Revlog),
    /// This one; the index is read from the place of its last entry on.
    Last(Revlog),
}

impl Former {
    ghost use Rattle.std.specs.Prelude.{◌≡◌};
    ghost use Rattle.hgs_bytes.specs.Answer.{Gives};
    ghost use Rattle.hgs_load.specs.Answer.{is_of_outside, NeverFaults};
    ghost use Rattle.hgs_load.specs.Load.{former_of, history_read};
    ghost use Rattle.hgs_load.specs.View.{changelog_index};

    fn of(old: Revlog) -> Former
        ensures { result ≡ former_of old }
    {
        if old.is_inline() || old.len() == 0 {
            Former::Whole(old)
        } else {
            Former::Last(old)
        }
    }

    // The history of an index that was read in one read.
    fn history(&self, alloc: Global, path: &StorePath, index: &[u8]) -> Result<Revlog, ReadAnswer>
        requires { path.now ≡ changelog_index }
        ensures log { Gives is_of_outside (λ log. log) result (history_read self.now index.now) }
        ensures inner { NeverFaults result }
    {
        let log = match either_log_of(alloc, path, index) {
            Ok(log) => log,
            Err(refusal) => return Err(refusal),
        };
        match self {
            Former::Nothing => Ok(log),
            Former::Whole(old) => unless_changed(alloc, path, old, log),
            Former::Last(old) => unless_changed(alloc, path, old, log),
        }
    }
}

/// Which read of an index comes next.
#[derive(Clone, Copy, PartialEq, Eq)]
pub enum Turn {
    /// The first piece, which says the form.
    First,
    /// A piece of a separate index.
    Piece,
    /// The whole index at once.
    Once,
}

impl Turn {
    ghost use Rattle.std.specs.Prelude.{◌≡◌};
    ghost use Rattle.hgs_load.specs.Load.{first_turn};

    // The first read of an index whose history has to begin with this one.
    fn behind(old: &Revlog) -> Turn
        ensures { result ≡ first_turn old.now }
    {
        if old.is_inline() {
            Turn::Once
        } else if old.len() == 0 {
            Turn::First
        } else {
            Turn::Piece
        }
    }
}

/// What was read so far of an index, and its revisions once it was read to its end.
#[derive(Drop)]
pub struct IndexLoad {
    alloc: Global,
    turn: Turn,
    former: Former,
    left: u32,
    bytes: Vec<u8>,
    log: Option<Revlog>,
    ghost some_left: { ForNone log (0 < left) },
}

impl IndexLoad {
    ghost use Rattle.std.specs.Prelude.{◌≡◌, ◌+◌, ◌<◌, ◌≤◌, [], IfOk, OnOk, Ok, None, Option, is_some};
    ghost use Rattle.std.specs.Option.{option_copied};
    ghost use Rattle.hgs_bytes.specs.Answer.{Gives};
    ghost use Rattle.hgs_load.specs.Answer.{is_of_outside, NeverFaults};
    ghost use Rattle.hgs_load.specs.Asks.{answer};
    ghost use Rattle.hgs_load.specs.declared.pieces.Turn.TheVariants.{First, Piece, Once};
    ghost use Rattle.hgs_load.specs.Load.{index_asks, index_reads, pieces_left, next_place, next_most, most_reads, reads_behind, asks_behind, AsksFor, Feeds, HasEnded, Finishes};
    ghost use Rattle.hgs_load.specs.Open.{log_asks};
    ghost use Rattle.hgs_load.specs.Refresh.{newer_log_asks, whole_log_asks, behind_asks, behind_last};
    ghost use Rattle.hgs_load.specs.View.{changelog_index, most_pieces};

    /// An index of which nothing was read. Takes no memory.
    pub fn new(alloc: Global) -> IndexLoad
        ensures { index_asks result ≡ log_asks }
    {
        IndexLoad {
            alloc,
            turn: Turn::First,
            former: Former::Nothing,
            left: MOST_PIECES,
            bytes: Vec::new(alloc),
            log: None,
        }
    }

    /// An index of which nothing was read, whose history has to begin with this one.
    pub fn behind(alloc: Global, old: &Revlog) -> Result<IndexLoad, AllocError>
        ensures { IfOk result (λ load. index_asks load ≡ newer_log_asks old.now) }
    {
        Ok(IndexLoad {
            alloc,
            turn: Turn::behind(old),
            former: Former::of(old.copy()?),
            left: MOST_PIECES,
            bytes: Vec::new(alloc),
            log: None,
        })
    }

    /// The revisions, once the index was read to its end.
    pub fn log(&self) -> Option<&Revlog>
        ensures { option_copied result ≡ self.now.log }
    {
        self.log.as_ref()
    }

    /// Whether the index was read to its end.
    pub fn is_whole(&self) -> bool
        ensures { result ≡ is_some self.now.log }
    {
        self.log.is_some()
    }

    /// The place of the next read in the file.
    pub fn place(&self) -> u64
        ensures { result ≡ next_place self.now.turn self.now.former self.now.bytes.items }
    {
        if matches!(self.turn, Turn::Once) {
            return 0;
        }
        let read = self.bytes.len() as u64;
        match &self.former {
            Former::Nothing => read,
            Former::Whole(_) => read,
            Former::Last(old) => 64 * (old.len().saturating_sub(1) as u64) + read,
        }
    }

    /// The most bytes of the next read.
    pub fn most(&self) -> u64
        ensures { result ≡ next_most self.now.turn }
    {
        match self.turn {
            Turn::First => PIECE,
            Turn::Piece => PIECE,
            Turn::Once => MOST_INLINE + 1,
        }
    }

    // Goes on where the index was read from the last entry of the former history on: with what stands behind it, or with the
    // whole index, where another entry stands there.
    fn finish_last(&mut self, path: &StorePath, former: Revlog) -> Result<(), ReadAnswer>
        requires path { path.now ≡ changelog_index }
        requires open { self.old.log ≡ None }
        ensures done { Finishes (behind_asks former (behind_last former.entries self.old.bytes.items)) (index_asks self.new) result }
        ensures fewer { OnOk result (index_reads self.new ≤ most_reads) }
        ensures inner { NeverFaults result }
    {
        match behind_last(&former, &self.bytes) {
            Some(behind) => match log_on(self.alloc, path, former, behind) {
                Ok(log) => {
                    self.log = Some(log);
                    Ok(())
                }
                Err(refusal) => Err(refusal),
            },
            None => {
                self.read_whole(former);
                Ok(())
            }
        }
    }

    // Goes on where an index was read to its end, or its tail was.
    fn finish(&mut self, path: &StorePath) -> Result<(), ReadAnswer>
        requires path { path.now ≡ changelog_index }
        requires open { self.old.log ≡ None }
        ensures done { Finishes (asks_behind self.old.former self.old.bytes.items) (index_asks self.new) result }
        ensures fewer { OnOk result (index_reads self.new < index_reads self.old) }
        ensures inner { NeverFaults result }
    {
        let log = match mem::replace(&mut self.former, Former::Nothing) {
            Former::Nothing => log_of(self.alloc, path, &self.bytes),
            Former::Whole(former) => whole_log(self.alloc, path, &former, &self.bytes),
            Former::Last(former) => return self.finish_last(path, former),
        };
        match log {
            Ok(log) => {
                self.log = Some(log);
                Ok(())
            }
            Err(refusal) => Err(refusal),
        }
    }

    // Begins to read the index from its first byte on.
    fn read_whole(&mut self, former: Revlog)
        requires open { self.old.log ≡ None }
        ensures asks { index_asks self.new ≡ whole_log_asks former.entries }
        ensures reads { index_reads self.new ≡ most_reads }
    {
        self.turn = Turn::First;
        self.former = Former::Whole(former);
        self.left = MOST_PIECES;
        self.bytes = Vec::new(self.alloc);
    }

    // Begins to read a separate index from its first byte on.
    fn read_pieces(&mut self)
        requires open { self.old.log ≡ None }
        ensures asks { index_asks self.new ≡ pieces_left self.old.former most_pieces [] }
        ensures reads { index_reads self.new ≡ most_pieces + reads_behind self.old.former }
    {
        self.turn = Turn::Piece;
        self.left = MOST_PIECES;
        self.bytes = Vec::new(self.alloc);
    }

    // Takes the next piece of a separate index.
    fn take_piece(&mut self, path: &StorePath, part: Option<&[u8]>) -> Result<(), ReadAnswer>
        requires path { path.now ≡ changelog_index }
        requires turn { self.old.turn ≡ Piece }
        requires asked { AsksFor (index_asks self.old) (option_copied part) }
        ensures fed { Feeds (index_asks self.old) (option_copied part.entry) (index_asks self.new) result }
        ensures fewer { OnOk result (index_reads self.new < index_reads self.old) }
        ensures inner { NeverFaults result }
    {
        let piece = piece_of(part);
        self.bytes.extend_from_slice(piece)?;
        if is_last(piece, self.left) {
            return self.finish(path);
        }
        self.left -= 1;
        Ok(())
    }

    // Takes the whole index, which was read at once.
    fn take_whole(&mut self, path: &StorePath, part: Option<&[u8]>) -> Result<(), ReadAnswer>
        requires path { path.now ≡ changelog_index }
        requires turn { self.old.turn ≡ Once }
        requires asked { AsksFor (index_asks self.old) (option_copied part) }
        ensures fed { Feeds (index_asks self.old) (option_copied part.entry) (index_asks self.new) result }
        ensures fewer { OnOk result (index_reads self.new < index_reads self.old) }
        ensures inner { NeverFaults result }
    {
        let index = piece_of(part);
        if is_long_apart(part) {
            self.read_pieces();
            return Ok(());
        }
        if is_above(part, MOST_INLINE) {
            return Err(ReadAnswer::Limit(Which::Part));
        }
        match self.former.history(self.alloc, path, index) {
            Ok(log) => {
                self.log = Some(log);
                Ok(())
            }
            Err(refusal) => Err(refusal),
        }
    }

    // Takes the first piece: an inline index is read whole then.
    fn take_first(&mut self, path: &StorePath, part: Option<&[u8]>) -> Result<(), ReadAnswer>
        requires path { path.now ≡ changelog_index }
        requires turn { self.old.turn ≡ First }
        requires asked { AsksFor (index_asks self.old) (option_copied part) }
        ensures fed { Feeds (index_asks self.old) (option_copied part.entry) (index_asks self.new) result }
        ensures fewer { OnOk result (index_reads self.new < index_reads self.old) }
        ensures inner { NeverFaults result }
    {
        if is_inline(piece_of(part)) {
            self.turn = Turn::Once;
            return Ok(());
        }
        self.turn = Turn::Piece;
        self.take_piece(path, part)
    }

    /// Takes what was read of the file with this path, none where the file isn't there.
    pub fn feed(&mut self, path: &StorePath, part: Option<&[u8]>) -> Result<(), ReadAnswer>
        requires path { path.now ≡ changelog_index }
        requires asked { AsksFor (index_asks self.old) (option_copied part) }
        ensures fed { Feeds (index_asks self.old) (option_copied part.entry) (index_asks self.new) result }
        ensures fewer { OnOk result (index_reads self.new < index_reads self.old) }
        ensures inner { NeverFaults result }
    {
        match self.turn {
            Turn::First => self.take_first(path, part),
            Turn::Piece => self.take_piece(path, part),
            Turn::Once => self.take_whole(path, part),
        }
    }

    /// The revisions of an index that was read to its end. Takes no memory.
    pub fn take(self) -> Revlog
        requires { HasEnded (index_asks self) }
        ensures { index_asks self ≡ answer (Ok result) }
    {
        let IndexLoad {
            alloc: _,
            turn: _,
            former: _,
            left: _,
            bytes: _,
            log,
        } = self;
        match log {
            Some(log) => log,
            None => unreachable!(),
        }
    }
}
