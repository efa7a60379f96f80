//! A repository in memory with one writer and some readers.
ghost use Rattle.std.specs.Prelude.{◌≡◌, ◌<◌, ℕ, List, [], IfOk, OnOk, None, Some, false, codes, length, map, replicate, true};
ghost use Rattle.hgs_files.specs.Tree.{Tree};
ghost use Rattle.hgs_machine.specs.Asked.{asked};
ghost use Rattle.hgs_machine.specs.Planned.{IsPlanned};
ghost use Rattle.hgs_mem.specs.Steady.{steady_log, steady_start};
ghost use Rattle.hgs_model.specs.Valid.{IsValid};
ghost use Rattle.hgs_schedule.specs.declared.event.Event.TheVariants.{Begin, Load, Log, Open, Read};
ghost use Rattle.hgs_schedule.specs.Schedule.{CanCome};
ghost use Rattle.hgs_reader.specs.Shown.{marks_text};
ghost use Rattle.hgs_world.specs.Book.{with_pending};
ghost use Rattle.hgs_world.specs.Questions.{body_text, no_sight, phase_text, sight_of};
ghost use Rattle.hgs_world.specs.Start.{new_tree};
ghost use Rattle.hgs_world.specs.Texts.{begun_line, recovered_line, word_line};
ghost use Rattle.hgs_world.specs.Working.{HasBytes, CanGoOn, writer_left};
ghost use Rattle.hgs_world.specs.World.{ActsIn, Answers, Happens, HasEnded, IsFirst, IsGivenByFiles, IsSeen, RecoversIn, RunsIn, StopsIn, book_at, book_left, forgotten, new_writer, scene_of, tree_of};

use crate::book::Book;
use crate::questions::{body_text, bookmarks_text, log_text, phase_text};
use crate::reading::Reading;
use crate::seen::{NoMemory, Seen};
use crate::state::World;
use crate::texts::{recovered_line, refused_line, word_line};
use crate::working::{Deed, Goal, Working};
use hgs_answers::answer::Answer;
use hgs_answers::outcome::Outcome;
use hgs_files::files::Files;
use hgs_files::path::path_of;
use hgs_machine::machine::Machine;
use hgs_mem::steady::SteadyFiles;
use hgs_model::command::Command;
use hgs_recover::answer::{RecoverAnswer, Recovered};
use hgs_recover::recover::recover;
use hgs_schedule::event::Event;
use hgs_writer::begin::{Begun, begin};
use hgs_writer::plan::Planned;
use std::alloc::Global;

/// What stands in the locks of a writer.
const WHO: &[u8; 8] = b"hg-store";

/// The words of a new repository, one on each line.
const REQUIRES: &[u8; 33] = b"dotencode\nfncache\nrevlogv1\nstore\n";

// The files of an empty repository.
fn empty_repository(alloc: Global) -> Result<SteadyFiles, NoMemory>
    ensures log { IfOk result (λ files. steady_log files ≡ []) }
    ensures start { IfOk result (λ files. (path : List ℕ) → steady_start files path ≡ new_tree path) }
{
    let path = path_of(alloc, b"requires")?;
    let mut files = SteadyFiles::new(alloc);
    match files.put(&path, REQUIRES) {
        Ok(()) => Ok(files.restart()),
        Err(_) => Err(NoMemory),
    }
}

// So many readers that have loaded nothing.
fn new_readers(alloc: Global, count: usize) -> Result<Vec<Reading>, NoMemory>
    ensures sights { IfOk result (λ readers. map sight_of readers.items ≡ replicate count no_sight) }
    ensures count { IfOk result (λ readers. length readers.items ≡ count) }
{
    let mut readers = Vec::new(alloc);
    for i in 0..count {
        let _ = i;
        readers.push(Reading::new())?;
    }
    Ok(readers)
}

// The writer of a plan, with nothing done yet.
fn writer_of(planned: Planned) -> Working
    ensures writer { result ≡ new_writer planned }
    ensures at_work { (t : Tree) → IsPlanned t planned.plan → CanGoOn t result }
{
    let Planned { plan, rev, node } = planned;
    Working {
        machine: Machine::new(plan),
        part: 0,
        rev,
        node,
    }
}

// The line of a refused beginning, if no call failed and memory was there.
fn refused(alloc: Global, answer: &Answer) -> Result<Vec<u8>, NoMemory>
    ensures line { IfOk result (λ line. line.items ≡ begun_line answer.now.outcome) }
    ensures given { IfOk result (λ line. IsGivenByFiles answer.now.outcome) }
    ensures swept { IfOk result (λ line. answer.now.swept ≡ true) }
{
    match answer.outcome {
        Outcome::Memory | Outcome::Fault | Outcome::Unfinished(_) => Err(NoMemory),
        _ if !answer.swept => Err(NoMemory),
        _ => refused_line(alloc, answer),
    }
}

// The line of a recovery, if it did not break off for want of memory.
fn recovered_text(alloc: Global, recovered: &Recovered) -> Result<Vec<u8>, NoMemory>
    ensures line { IfOk result (λ line. line.items ≡ recovered_line recovered.now.outcome) }
    ensures ended { IfOk result (λ line. HasEnded recovered.now.outcome) }
    ensures swept { IfOk result (λ line. recovered.now.swept ≡ true) }
{
    match recovered.outcome {
        RecoverAnswer::Memory | RecoverAnswer::Fault | RecoverAnswer::Unfinished => Err(NoMemory),
        _ if !recovered.swept => Err(NoMemory),
        _ => recovered_line(alloc, recovered),
    }
}

impl World {
    /// An empty repository, with so many readers that have loaded nothing.
    pub fn new(alloc: Global, readers: u32) -> Result<World, NoMemory>
        ensures first { IfOk result (λ world. IsFirst readers (scene_of world)) }
        ensures readers { IfOk result (λ world. length world.readers.items ≡ readers) }
    {
        Ok(World {
            alloc,
            files: empty_repository(alloc)?,
            writer: None,
            readers: new_readers(alloc, readers as usize)?,
            book: Book::new(alloc),
            spent: false,
        })
    }

    /// The commands that were published and not taken back, in their order.
    pub fn commands(&self) -> &[Command]
        ensures { result.now ≡ (scene_of self.now).book.published }
    {
        self.book.commands()
    }

    /// How many of these commands, from the first on, are acknowledged: nothing takes them back.
    pub fn acknowledged(&self) -> usize
        ensures { result ≡ (scene_of self.now).book.acknowledged }
    {
        self.book.acknowledged()
    }

    // A writer sets out with what was planned.
    fn set_out(&mut self, command: Command, planned: Planned) -> Result<Vec<u8>, NoMemory>
        requires planned { IsPlanned (tree_of (scene_of self.old)) planned.plan }
        requires none { (scene_of self.old).writer ≡ None }
        ensures does { IfOk result (λ text. (scene_of self.new ≡ record (scene_of self.old) { writer = Some (new_writer planned); book = with_pending command (scene_of self.old).book }) × (text.items ≡ word_line (codes "begin ok"))) }
        ensures count { length self.new.readers.items ≡ length self.old.readers.items }
    {
        self.book.begin(command)?;
        self.writer = Some(writer_of(planned));
        word_line(self.alloc, b"begin ok")
    }

    fn begin(&mut self, command: Command) -> Result<Vec<u8>, NoMemory>
        requires { IsValid command }
        ensures does { IfOk result (λ text. Happens (Begin command) (scene_of self.old) (scene_of self.new) text.items) }
        ensures count { length self.new.readers.items ≡ length self.old.readers.items }
    {
        if self.writer.is_some() {
            return word_line(self.alloc, b"busy");
        }
        match begin(self.alloc, &mut self.files, &command, WHO) {
            Begun::Ready(planned) => self.set_out(command, planned),
            Begun::Refused(answer) => refused(self.alloc, &answer),
        }
    }

    // Notes how far a writer has come, and keeps it where it has something left to do.
    fn keep(&mut self, working: Working) -> Result<(), NoMemory>
        requires at_work { CanGoOn (tree_of (scene_of self.old)) working }
        requires none { (scene_of self.old).writer ≡ None }
        ensures does { OnOk result ((scene_of self.new) ≡ record (scene_of self.old) { writer = writer_left (asked working.machine) working; book = book_left (asked working.machine) (book_at working.machine (scene_of self.old).book) }) }
        ensures count { length self.new.readers.items ≡ length self.old.readers.items }
    {
        let machine = &working.machine;
        self.book
            .note(machine.is_published(), machine.is_acknowledged())?;
        if working.has_ended() {
            self.book.end();
        } else {
            self.writer = Some(working);
        }
        Ok(())
    }

    fn act(&mut self, deed: Deed, words: &[u8]) -> Result<Vec<u8>, NoMemory>
        requires { HasBytes deed }
        ensures does { IfOk result (λ text. ActsIn deed words.now (scene_of self.old) (scene_of self.new) text.items) }
        ensures count { length self.new.readers.items ≡ length self.old.readers.items }
    {
        let Some(mut working) = self.writer.take() else {
            return word_line(self.alloc, b"idle");
        };
        working.act(&mut self.files, deed)?;
        working.come(&mut self.files)?;
        let line = working.line(self.alloc, words)?;
        self.keep(working)?;
        Ok(line)
    }

    fn run(&mut self, goal: Goal, words: &[u8]) -> Result<Vec<u8>, NoMemory>
        ensures does { IfOk result (λ text. RunsIn goal words.now (scene_of self.old) (scene_of self.new) text.items) }
        ensures count { length self.new.readers.items ≡ length self.old.readers.items }
    {
        let Some(mut working) = self.writer.take() else {
            return word_line(self.alloc, b"idle");
        };
        working.run(&mut self.files, goal)?;
        let line = working.line(self.alloc, words)?;
        self.keep(working)?;
        Ok(line)
    }

    // Lets go what the readers have loaded, and their loads.
    fn forget(&mut self) -> Result<(), NoMemory>
        ensures scene { OnOk result (scene_of self.new ≡ record (scene_of self.old) { readers = forgotten (length (scene_of self.old).readers) }) }
        ensures count { length self.new.readers.items ≡ length self.old.readers.items }
    {
        self.readers = new_readers(self.alloc, self.readers.len())?;
        Ok(())
    }

    fn stop(&mut self, count: u64) -> Result<Vec<u8>, NoMemory>
        ensures does { IfOk result (λ text. StopsIn count (scene_of self.old) (scene_of self.new) text.items) }
        ensures count { length self.new.readers.items ≡ length self.old.readers.items }
    {
        let Some(mut working) = self.writer.take() else {
            return word_line(self.alloc, b"idle");
        };
        working.stop(&mut self.files, count)?;
        self.book.note(working.publishes_with(count), false)?;
        self.book.end();
        self.forget()?;
        word_line(self.alloc, b"stopped")
    }

    fn recover(&mut self) -> Result<Vec<u8>, NoMemory>
        ensures does { IfOk result (λ text. RecoversIn (scene_of self.old) (scene_of self.new) text.items) }
        ensures count { length self.new.readers.items ≡ length self.old.readers.items }
    {
        if self.writer.is_some() {
            return word_line(self.alloc, b"busy");
        }
        let recovered = recover(self.alloc, &mut self.files);
        if let RecoverAnswer::Restored = recovered.outcome {
            self.book.take_back();
        }
        self.forget()?;
        recovered_text(self.alloc, &recovered)
    }

    fn open(&mut self, reader: u32) -> Result<Vec<u8>, NoMemory>
        requires { reader < length self.old.readers.items }
        ensures does { IfOk result (λ text. Happens (Open reader) (scene_of self.old) (scene_of self.new) text.items) }
        ensures count { length self.new.readers.items ≡ length self.old.readers.items }
    {
        self.readers[reader as usize].open(self.alloc)?;
        word_line(self.alloc, b"loading")
    }

    fn log(&mut self, reader: u32) -> Result<Vec<u8>, NoMemory>
        requires { reader < length self.old.readers.items }
        ensures does { IfOk result (λ text. Happens (Log reader) (scene_of self.old) (scene_of self.new) text.items) }
        ensures count { length self.new.readers.items ≡ length self.old.readers.items }
    {
        match &mut self.readers[reader as usize].session {
            Some(session) => log_text(self.alloc, &mut self.files, session),
            None => word_line(self.alloc, b"unloaded"),
        }
    }

    fn body(&mut self, reader: u32, name: &[u8], path: &[u8]) -> Result<Vec<u8>, NoMemory>
        requires { reader < length self.old.readers.items }
        ensures does { IfOk result (λ text. Answers reader (λ view. body_text (tree_of (scene_of self.old)) view name.now path.now) (scene_of self.old) (scene_of self.new) text.items) }
        ensures count { length self.new.readers.items ≡ length self.old.readers.items }
    {
        match &mut self.readers[reader as usize].session {
            Some(session) => body_text(self.alloc, &mut self.files, session, name, path),
            None => word_line(self.alloc, b"unloaded"),
        }
    }

    fn phase(&self, reader: u32, name: &[u8]) -> Result<Vec<u8>, NoMemory>
        requires { reader < length self.now.readers.items }
        ensures { IfOk result (λ text. Answers reader (λ view. phase_text view name.now) (scene_of self.now) (scene_of self.now) text.items) }
    {
        match &self.readers[reader as usize].session {
            Some(session) => phase_text(self.alloc, session, name),
            None => word_line(self.alloc, b"unloaded"),
        }
    }

    fn bookmarks(&self, reader: u32) -> Result<Vec<u8>, NoMemory>
        requires { reader < length self.now.readers.items }
        ensures { IfOk result (λ text. Answers reader marks_text (scene_of self.now) (scene_of self.now) text.items) }
    {
        match &self.readers[reader as usize].session {
            Some(session) => bookmarks_text(self.alloc, session),
            None => word_line(self.alloc, b"unloaded"),
        }
    }

    fn read(&mut self, reader: u32) -> Result<Vec<u8>, NoMemory>
        requires { reader < length self.old.readers.items }
        ensures does { IfOk result (λ text. Happens (Read reader) (scene_of self.old) (scene_of self.new) text.items) }
        ensures count { length self.new.readers.items ≡ length self.old.readers.items }
    {
        self.readers[reader as usize].read(self.alloc, &mut self.files)
    }

    fn load(&mut self, reader: u32) -> Result<Vec<u8>, NoMemory>
        requires { reader < length self.old.readers.items }
        ensures does { IfOk result (λ text. Happens (Load reader) (scene_of self.old) (scene_of self.new) text.items) }
        ensures count { length self.new.readers.items ≡ length self.old.readers.items }
    {
        self.readers[reader as usize].load(self.alloc, &mut self.files)
    }

    // What an event writes.
    fn text_of(&mut self, event: Event) -> Result<Vec<u8>, NoMemory>
        requires { CanCome (length self.old.readers.items) event }
        ensures happens { IfOk result (λ text. Happens event (scene_of self.old) (scene_of self.new) text.items) }
        ensures count { length self.new.readers.items ≡ length self.old.readers.items }
    {
        match event {
            Event::Begin(command) => self.begin(command),
            Event::Write(None) => self.act(Deed::All, b"wrote"),
            Event::Write(Some(count)) => self.act(Deed::Part(count), b"wrote"),
            Event::Fail(count) => self.act(Deed::Fail(count), b"failed"),
            Event::UntilPublish => self.run(Goal::Publishing, b"at publish"),
            Event::UntilClean => self.run(Goal::Cleaning, b"at clean"),
            Event::Stop(count) => self.stop(count),
            Event::Recover => self.recover(),
            Event::Finish => self.run(Goal::End, b""),
            Event::Open(reader) => self.open(reader),
            Event::Read(reader) => self.read(reader),
            Event::Load(reader) => self.load(reader),
            Event::Log(reader) => self.log(reader),
            Event::Cat { reader, rev, path } => {
                self.body(reader, rev.as_slice(), path.as_slice())
            }
            Event::Phase { reader, rev } => self.phase(reader, rev.as_slice()),
            Event::Bookmarks(reader) => self.bookmarks(reader),
        }
    }

    /// Makes an event happen, and gives what it writes. Once there was no memory nothing happens any more.
    pub fn step(&mut self, event: Event) -> Seen
        requires { CanCome (length self.old.readers.items) event }
        ensures seen { IsSeen event (scene_of self.old) (scene_of self.new) result }
        ensures stays { self.old.spent ≡ true → self.new ≡ self.old }
        ensures readers { length self.new.readers.items ≡ length self.old.readers.items }
    {
        if self.spent {
            return Seen::Memory;
        }
        match self.text_of(event) {
            Ok(text) => Seen::Text(text),
            Err(_) => {
                self.spent = true;
                Seen::Memory
            }
        }
    }
}
