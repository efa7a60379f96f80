// Schedules that are read.
use crate::given::given;
use hgs_model::command::Command;
use hgs_schedule::event::Event;
use hgs_schedule::schedule::read_schedule;
use std::test::Fail;

/// What an event is, its number, its first name and its second.
type Row<'a> = (&'a str, u64, &'a [u8], &'a [u8]);

fn row_of_command(command: &Command) -> Row<'_> {
    match command {
        Command::Commit(change) => {
            let count = change.files.len() as u64;
            ("commit", count, change.description.as_slice(), b"")
        }
        Command::Import(changes) => ("import", changes.len() as u64, b"", b""),
        Command::Move { rev, phase, force } => {
            let kind = if *force { "force" } else { "phase" };
            (kind, phase.number() as u64, rev.as_slice(), b"")
        }
        Command::Mark { name, rev } => ("mark", 0, rev.as_slice(), name.as_slice()),
        Command::Unmark { name } => ("unmark", 0, name.as_slice(), b""),
    }
}

fn row_of(event: &Event) -> Row<'_> {
    match event {
        Event::Begin(command) => row_of_command(command),
        Event::Write(None) => ("write", 0, b"", b""),
        Event::Write(Some(count)) => ("write bytes", *count, b"", b""),
        Event::Fail(count) => ("fail", *count, b"", b""),
        Event::UntilPublish => ("publish", 0, b"", b""),
        Event::UntilClean => ("clean", 0, b"", b""),
        Event::Finish => ("finish", 0, b"", b""),
        Event::Open(reader) => ("open", *reader as u64, b"", b""),
        Event::Read(reader) => ("read", *reader as u64, b"", b""),
        Event::Load(reader) => ("load", *reader as u64, b"", b""),
        Event::Log(reader) => ("log", *reader as u64, b"", b""),
        Event::Cat { reader, rev, path } => {
            ("cat", *reader as u64, rev.as_slice(), path.as_slice())
        }
        Event::Phase { reader, rev } => ("phase of", *reader as u64, rev.as_slice(), b""),
        Event::Bookmarks(reader) => ("bookmarks", *reader as u64, b"", b""),
        Event::Stop(count) => ("stop", *count, b"", b""),
        Event::Recover => ("recover", 0, b"", b""),
    }
}

/// Two commits, the second of which is read by a reader within the entry that publishes it.
const WITHIN_AN_ENTRY: &[u8; 219] =
    b"play 1\nbegin commit\ncommit\nuser test\ndate 0 0\ndesc 1\na\nfile - 2 a\na\n\nend\nfinish\nbegin commit\ncommit\nparent tip\nuser test\ndate 60 0\ndesc 1\nb\nfile - 0 b\n\nend\nuntil publish\nload 0\nwrite 63\nload 0\nwrite 1\nload 0\nfinish\nend\n";

const WITHIN_AN_ENTRY_ROWS: [Row<'_>; 10] = [
    ("commit", 1, b"a", b""),
    ("finish", 0, b"", b""),
    ("commit", 1, b"b", b""),
    ("publish", 0, b"", b""),
    ("load", 0, b"", b""),
    ("write bytes", 63, b"", b""),
    ("load", 0, b"", b""),
    ("write bytes", 1, b"", b""),
    ("load", 0, b"", b""),
    ("finish", 0, b"", b""),
];

/// Each event: names that are empty, a path and a bookmark with a space, numbers of more than 64 bits.
const EACH: &[u8] =
    b"play 64\nbegin phase tip public\nbegin phase  secret force\nbegin bookmark . a b\nbegin bookmark  c\nbegin unbookmark a b\nwrite\nwrite 18446744073709551616\nfail 0\nfail 18446744073709551615\nuntil publish\nuntil clean\nfinish\nopen 63\nread 0\nload 9\nlog 10\ncat 1 tip a b\ncat 2  \nphase 3 tip\nphase 4 \nbookmarks 5\nstop 99999999999999999999999999999999\nrecover\nend\n";

const EACH_ROWS: [Row<'_>; 23] = [
    ("phase", 0, b"tip", b""),
    ("force", 2, b"", b""),
    ("mark", 0, b".", b"a b"),
    ("mark", 0, b"", b"c"),
    ("unmark", 0, b"a b", b""),
    ("write", 0, b"", b""),
    ("write bytes", 18_446_744_073_709_551_615, b"", b""),
    ("fail", 0, b"", b""),
    ("fail", 18_446_744_073_709_551_615, b"", b""),
    ("publish", 0, b"", b""),
    ("clean", 0, b"", b""),
    ("finish", 0, b"", b""),
    ("open", 63, b"", b""),
    ("read", 0, b"", b""),
    ("load", 9, b"", b""),
    ("log", 10, b"", b""),
    ("cat", 1, b"tip", b"a b"),
    ("cat", 2, b"", b""),
    ("phase of", 3, b"tip", b""),
    ("phase of", 4, b"", b""),
    ("bookmarks", 5, b"", b""),
    ("stop", 18_446_744_073_709_551_615, b"", b""),
    ("recover", 0, b"", b""),
];

/// An import of two changesets, and an event behind its last line.
const IMPORTS: &[u8] =
    b"play 1\nbegin import\ncommit\nuser u\ndate 0 0\ndesc 0\n\nend\ncommit\nuser v\ndate 0 0\ndesc 0\n\nend\nend import\nfinish\nend\n";

const IMPORTS_ROWS: [Row<'_>; 2] = [("import", 2, b"", b""), ("finish", 0, b"", b"")];

#[test]
fn schedules(rt: HostRuntime) -> Result<(), Fail> {
    for (text, readers, rows) in [
        (
            WITHIN_AN_ENTRY.as_slice(),
            1,
            WITHIN_AN_ENTRY_ROWS.as_slice(),
        ),
        (EACH, 64, &EACH_ROWS),
        (IMPORTS, 1, &IMPORTS_ROWS),
        (b"play 2\nend\n", 2, &[]),
    ] {
        let read = given(read_schedule(rt.alloc(), text))?;
        assert!(rt; read.readers == readers && read.events.len() == rows.len());
        for (event, row) in read.events.as_slice().iter().zip(rows) {
            let found = row_of(event);
            assert_eq!(rt; found, *row);
        }
    }
    Ok(())
}
