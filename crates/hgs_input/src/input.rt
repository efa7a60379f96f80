//! What is left to read of an input: a record, lines, and bytes that are counted, one after another.
ghost use Rattle.std.specs.Prelude.{◌≡◌};
ghost use Rattle.std.specs.Result.{result_map_both};
ghost use Rattle.hgs_input.specs.Read.{Rest, fault_at, bad_at, place, next_line, counted, nothing_behind, start_of};
ghost use Rattle.hgs_input.specs.View.{Reads};

use crate::fault::InputFault;
use hgs_bytes::parts::{front, split_at_byte};
use hgs_index::kinds::Which;
use std::marker::Model;

/// The most bytes of an input.
const MOST_INPUT: usize = 268_435_456;

/// A fault at a place; the byte at the limit of an input comes before what stands behind it.
pub(crate) fn fault_at(place: usize, fault: InputFault) -> InputFault
    ensures { result ≡ fault_at place fault }
{
    if place <= MOST_INPUT {
        fault
    } else {
        InputFault::Limit(Which::Record)
    }
}

/// The fault of a form that is broken at a place.
pub fn bad_at(place: usize) -> InputFault
    ensures { result ≡ bad_at place }
{
    fault_at(place, InputFault::BadInput(place as u64))
}

/// An input, read up to a place.
#[derive(Drop)]
pub struct Input<'a> {
    whole: usize,
    rest: &'a [u8],
}

impl<'a> Model for Input<'a> {
    ghost use Rattle.std.specs.Prelude.{◌≤◌, length};
    ghost use Rattle.hgs_input.specs.Read.{Rest};

    ghost Value = { Rest };

    ghost view = { λ i. record { whole = i.whole; bytes = i.rest.now } };

    ghost invariant = { λ i. length i.rest.now ≤ i.whole };
}

impl<'a> Input<'a> {
    /// An input of which nothing is read. Of one that is too long nothing is looked at behind the first byte past the limit.
    pub fn new(bytes: &'a [u8]) -> Input<'a>
        ensures { result ≡ start_of bytes.now }
    {
        let rest = front(bytes, MOST_INPUT + 1);
        Input {
            whole: rest.len(),
            rest,
        }
    }

    /// How many bytes stand before what is left.
    pub fn place(&self) -> usize
        ensures { result ≡ place self.now }
    {
        self.whole - self.rest.len()
    }

    /// The next line without its LF, and what is left behind it.
    pub fn line(&self) -> Result<(&'a [u8], Input<'a>), InputFault>
        ensures { result_map_both (λ p. (p.0.now, p.1)) (λ e. e) result ≡ next_line self.now }
    {
        match split_at_byte(self.rest, b'\n') {
            Some((line, rest)) => {
                let whole = self.whole;
                Ok((line, Input { whole, rest }))
            }
            None => Err(bad_at(self.whole)),
        }
    }

    /// Reads so many bytes that have an LF behind them.
    pub fn counted(&mut self, size: usize) -> Result<&'a [u8], InputFault>
        ensures { Reads (λ t. t.now) result self.new (counted size self.old) }
    {
        if self.rest.len() <= size {
            return Err(bad_at(self.whole));
        }
        if self.rest[size] != b'\n' {
            return Err(bad_at(self.place()));
        }
        let text = &self.rest[..size];
        self.rest = &self.rest[size + 1..];
        Ok(text)
    }

    /// Whether all is read and no more than an input may have.
    pub fn nothing_behind(&self) -> Result<(), InputFault>
        ensures { result ≡ nothing_behind self.now }
    {
        if !self.rest.is_empty() {
            return Err(bad_at(self.place()));
        }
        if self.whole <= MOST_INPUT {
            Ok(())
        } else {
            Err(InputFault::Limit(Which::Record))
        }
    }
}
