//! One reader: what it has loaded, and the load that is under way.
ghost use Rattle.std.specs.Prelude.{◌≡◌, IfOk, IfSome, OnOk, Some, None, length};
ghost use Rattle.std.specs.Option.{option_map};
ghost use Rattle.hgs_mem.specs.Steady.{steady_log, steady_start, steady_tree};
ghost use Rattle.hgs_load.specs.Load.{asks_of};
ghost use Rattle.hgs_world.specs.Texts.{loaded_line};
ghost use Rattle.hgs_world.specs.Questions.{IsLoaded, IsRead, line_of, load_answer, load_asks, load_line, loaded_by, no_sight, opened, read_by, read_line, sight_at, sight_of};

use crate::questions::refusal_line;
use crate::seen::NoMemory;
use crate::texts::{loaded_line, word_line};
use hgs_bytes::bytes::Bytes;
use hgs_load::answer::ReadAnswer;
use hgs_load::ask::read_part;
use hgs_load::load::{LoadMachine, LoadNext};
use hgs_mem::steady::SteadyFiles;
use hgs_reader::session::Session;
use std::alloc::Global;

/// A reader.
#[derive(Drop)]
pub struct Reading {
    /// What it loaded last.
    pub session: Option<Session>,
    /// The load that is under way.
    pub load: Option<LoadMachine>,
}

// What a read gave, as a slice.
fn slice_of(part: &Option<Bytes>) -> Option<&[u8]>
    ensures { option_map (λ p. p.now) result ≡ part.now }
{
    match part {
        Some(bytes) => Some(bytes.as_slice()),
        None => None,
    }
}

// Makes the next read of a load, if it has one.
fn read_once(
    alloc: Global,
    files: &mut SteadyFiles,
    machine: &mut LoadMachine,
) -> Result<(), ReadAnswer>
    ensures read { IsRead (steady_tree files.old) (asks_of machine.old) (asks_of machine.new) result }
    ensures log { steady_log files.new ≡ steady_log files.old }
    ensures same_start { steady_start files.new ≡ steady_start files.old }
{
    let LoadNext::Read { path, from, most } = machine.next() else {
        return Ok(());
    };
    let part = read_part(alloc, files, path, from, most)?;
    match machine.feed(slice_of(&part)) {
        Ok(()) => Ok(()),
        Err(refusal) => Err(refusal),
    }
}

// A load of all, or behind a load of what may have changed.
fn new_load(alloc: Global, last: &Option<Session>) -> Result<LoadMachine, NoMemory>
    ensures { IfOk result (λ load. asks_of load ≡ load_asks last.now) }
{
    match last {
        Some(session) => {
            let load = LoadMachine::refresh(alloc, session.loaded())?;
            Ok(load)
        }
        None => {
            let load = LoadMachine::open(alloc)?;
            Ok(load)
        }
    }
}

impl Reading {
    /// A reader that has loaded nothing.
    pub fn new() -> Reading
        ensures { sight_of result ≡ no_sight }
    {
        Reading {
            session: None,
            load: None,
        }
    }

    /// Begins to load, or to load again what may have changed.
    pub fn open(&mut self, alloc: Global) -> Result<(), NoMemory>
        ensures { OnOk result (sight_of self.new ≡ opened (sight_of self.old)) }
    {
        let load = new_load(alloc, &self.session)?;
        self.load = Some(load);
        Ok(())
    }

    // Where a load has come to by a read, and the line of that.
    fn come_to(&mut self, alloc: Global, load: LoadMachine) -> Result<Vec<u8>, NoMemory>
        requires { self.old.load ≡ None }
        ensures sight { OnOk result (sight_of self.new ≡ sight_at (sight_of self.old).last (asks_of load)) }
        ensures line { IfOk result (λ line. line.items ≡ line_of (asks_of load)) }
    {
        match load.next() {
            LoadNext::Read { .. } => {
                self.load = Some(load);
                word_line(alloc, b"read")
            }
            LoadNext::End => {
                let session = Session::of(alloc, load.take())?;
                let line = loaded_line(alloc, session.len())?;
                self.session = Some(session);
                Ok(line)
            }
        }
    }

    /// Makes the next read of the load.
    pub fn read(&mut self, alloc: Global, files: &mut SteadyFiles) -> Result<Vec<u8>, NoMemory>
        ensures sight { OnOk result (sight_of self.new ≡ read_by (steady_tree files.old) (sight_of self.old) (sight_of self.old).load) }
        ensures line { IfOk result (λ line. line.items ≡ read_line (steady_tree files.old) (sight_of self.old).load) }
        ensures log { steady_log files.new ≡ steady_log files.old }
        ensures same_start { steady_start files.new ≡ steady_start files.old }
    {
        let Some(mut load) = self.load.take() else {
            return word_line(alloc, b"unloaded");
        };
        match read_once(alloc, files, &mut load) {
            Ok(()) => self.come_to(alloc, load),
            Err(refusal) => refusal_line(alloc, &refusal),
        }
    }

    // Loads all, or again what may have changed.
    fn load_all(&mut self, alloc: Global, files: &mut SteadyFiles) -> Result<(), ReadAnswer>
        requires { self.old.load ≡ None }
        ensures loaded { IsLoaded (load_answer (steady_tree files.old) (sight_of self.old).last) (sight_of self.old) (sight_of self.new) result }
        ensures log { steady_log files.new ≡ steady_log files.old }
        ensures same_start { steady_start files.new ≡ steady_start files.old }
    {
        match &mut self.session {
            Some(session) => session.refresh(files),
            None => match Session::open(alloc, files) {
                Ok(session) => {
                    self.session = Some(session);
                    Ok(())
                }
                Err(refusal) => Err(refusal),
            },
        }
    }

    /// Begins to load, and makes all reads.
    pub fn load(&mut self, alloc: Global, files: &mut SteadyFiles) -> Result<Vec<u8>, NoMemory>
        ensures sight { OnOk result (sight_of self.new ≡ loaded_by (steady_tree files.old) (sight_of self.old)) }
        ensures line { IfOk result (λ line. line.items ≡ load_line (steady_tree files.old) (sight_of self.old)) }
        ensures log { steady_log files.new ≡ steady_log files.old }
        ensures same_start { steady_start files.new ≡ steady_start files.old }
    {
        self.load = None;
        match self.load_all(alloc, files) {
            Ok(()) => self.loaded(alloc),
            Err(refusal) => refusal_line(alloc, &refusal),
        }
    }

    // How many changesets it has loaded.
    fn loaded(&self, alloc: Global) -> Result<Vec<u8>, NoMemory>
        ensures { IfOk result (λ line. IfSome self.now.session (λ view. line.items ≡ loaded_line (length view.changelog.entries))) }
    {
        match &self.session {
            Some(session) => loaded_line(alloc, session.len()),
            None => Err(NoMemory),
        }
    }
}
