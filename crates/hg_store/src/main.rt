//! The program: the store of a Mercurial repository, in the folder `.hg` of the current one.
//!
//! This crate takes the words, makes the objects and says what a status means. It is trusted, as `hgs_os` is; what the program
//! does with them is proved in the crates below.
#![tactic(auto)]

mod command_line;
mod hints;
mod nearest;
mod progress;
mod usages;

use crate::command_line::{Words, read_words};
use crate::hints::hint;
use crate::nearest::nearest;
use crate::progress::OsProgress;
use crate::usages::usage;
use hgs_files::streams::Sink;
use hgs_os::files::OsFiles;
use hgs_os::streams::{OsSink, OsSource};
use hgs_os::watch::{Cleared, Watch, WatchedInput, Work};
use hgs_os::yard::OsYard;
use hgs_run::run::run;
use hgs_top::command::refuse_words;
use hgs_top::orders::Order;
use hgs_top::words::{Asked, asked_by};
use std::alloc::AllocError;
use std::fs;
use std::io::ErrorKind;
use std::os::fd::AsFd;
use std::process::ExitCode;
use std::sync::Wait;
use std::thread::Threads;

// Refuses words of which the one behind these is not UTF-8: the first that does not fit is one of these, or that one.
fn refuse_text<K: Sink>(rt: &HostRuntime, before: &[String], out: &mut K) -> u8 {
    let place = match asked_by(before) {
        Err(place) => place,
        Ok(_) => before.len(),
    };
    refuse_words(rt.alloc(), place, out)
}

// Names the word that does not fit on standard error, or says that one is missing.
fn say_misfit(rt: &HostRuntime, words: &[String], place: usize) {
    let _ = match words.get(place) {
        None => eprintln!(rt; "hg_store: a word is missing"),
        Some(word) if place == 0 => match nearest(rt.alloc(), word) {
            Ok(Some(command)) => {
                eprintln!(rt; "hg_store: there is no command {word}; did you mean {command}?")
            }
            _ => eprintln!(rt; "hg_store: there is no command {word}"),
        },
        Some(word) => eprintln!(rt; "hg_store: the word {word} does not fit here"),
    };
}

// How the command is given of which the words are the name and `--help`.
fn usage_asked(words: &[String]) -> Option<&'static str> {
    match words {
        [command, word, ..] if word.as_str() == "--help" => usage(command),
        _ => None,
    }
}

// Says on standard error how a command is given, where that is asked; else what is wrong with the words.
fn say_words(rt: &HostRuntime, words: &[String]) {
    if let Some(text) = usage_asked(words) {
        let _ = eprint!(rt; "{text}");
        return;
    }
    if let Err(place) = asked_by(words) {
        say_misfit(rt, words, place);
    }
    say_hint(rt, 28);
}

// Says on standard error what a status means, where it is a refusal. What becomes of that line does not matter.
fn say_hint(rt: &HostRuntime, status: u8) {
    if let Some(text) = hint(status) {
        let _ = eprintln!(rt; "hg_store: {text}");
    }
}

// Makes the folder in which Mercurial takes its lock, where a repository is to be made. Where it cannot be made, a command that
// writes there says so.
fn make_store(rt: &HostRuntime, words: &[String]) {
    let is_new = match fs::metadata(rt, ".hg/requires") {
        Err(error) => error.kind() == ErrorKind::NotFound,
        Ok(_) => false,
    };
    let makes = matches!(
        asked_by(words),
        Ok(Asked::Order(Order::Init) | Asked::Generate { .. })
    );
    if is_new && makes {
        let _ = fs::create_dir_all(rt, ".hg/store");
    }
}

// The command that the words name, where it reads an input and writes what stands there.
fn reader_of(words: &[String]) -> Option<&'static str> {
    match asked_by(words) {
        Ok(Asked::Order(Order::Commit)) => Some("commit"),
        Ok(Asked::Order(Order::Import)) => Some("import"),
        _ => None,
    }
}

// What is told of while the words are obeyed, where that may take long.
fn work_of(words: &[String]) -> Option<Work> {
    match asked_by(words) {
        Ok(Asked::Generate { count, .. }) => Some(Work::Changesets("gen", count)),
        _ => {
            let command = reader_of(words)?;
            Some(Work::Files(command))
        }
    }
}

// Does what the words ask for, with these threads where there are some to be had, says what its status means, and gives that.
fn answer<T: Threads + Wait + Sync, K: Sink>(
    rt: &HostRuntime,
    threads: &T,
    out: &mut K,
) -> Result<u8, AllocError> {
    match read_words(rt)? {
        Words::All(words) => {
            make_store(rt, &words);
            let files = OsFiles::new(*rt, ".hg")?;
            let files = match work_of(&words) {
                Some(work) => files.watched(Watch::new(*rt, work)),
                None => files,
            };
            let yard = OsYard::new(rt.alloc(), files);
            let mut input = OsSource::new(WatchedInput::new(*rt, rt.stdin(), reader_of(&words)));
            let mut progress = OsProgress::new(*rt);
            let ran = run(
                threads,
                rt.alloc(),
                &words,
                yard,
                &mut input,
                out,
                &mut progress,
            );
            if ran.status == 28 {
                say_words(rt, &words);
            } else {
                say_hint(rt, ran.status);
            }
            Ok(ran.status)
        }
        Words::UpTo(before) => {
            let status = refuse_text(rt, &before, out);
            say_hint(rt, status);
            Ok(status)
        }
    }
}

/// Ends with the status, with 19 at once where standard output is closed.
fn main(rt: HostRuntime) -> ExitCode {
    if rt.stdout().as_fd().try_clone_to_owned().is_err() {
        say_hint(&rt, 19);
        return ExitCode::from(19);
    }
    let mut out = OsSink::new(Cleared::new(rt, rt.stdout()));
    match answer(&rt, &rt, &mut out) {
        Ok(status) => ExitCode::from(status),
        Err(_) => {
            let _ = out.write(b"abort: out of memory\n");
            say_hint(&rt, 30);
            ExitCode::from(30)
        }
    }
}
