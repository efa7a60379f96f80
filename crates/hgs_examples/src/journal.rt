//! Journals and lists of backups that Mercurial wrote, and those of a first changeset.
use crate::given::given;
use hgs_bytes::bytes::Bytes;
use hgs_files::op::Op;
use hgs_journal::backups::Backups;
use hgs_journal::fault::JournalFault;
use hgs_journal::journal::Journal;
use hgs_journal::names::{backup_name, new_name, place};
use hgs_journal::undo::undo_plan;
use itoa::Buffer;
use std::alloc::{AllocError, Global};
use std::test::Fail;

/// The journal of a first changeset with one file `a`.
const FIRST_JOURNAL: &[u8; 94] =
    b"data/a.d\x000\ndata/a.i\x000\nfncache\x000\n00manifest.d\x000\n00manifest.i\x000\n00changelog.d\x000\n00changelog.i\x000\n";

/// Its list of backups: none of its files stood.
const FIRST_BACKUPS: &[u8; 35] = b"2\n\x00phaseroots\x00\x000\nplain\x00dirstate\x00\x000\n";

/// The journal of a second changeset, which adds a file `b`, as Mercurial wrote it.
const JOURNAL: &[u8; 46] = b"data/b.i\x000\n00manifest.i\x00108\n00changelog.i\x00119\n";

/// Its list of backups, as Mercurial wrote it.
const BACKUPS: &[u8; 120] =
    b"2\n\x00fncache\x00journal.backup.fncache\x000\nplain\x00bookmarks\x00journal.backup.bookmarks\x000\nplain\x00dirstate\x00journal.backup.dirstate\x000\n";

#[test]
fn texts_are_read_and_printed_as_they_were(rt: HostRuntime) -> Result<(), Fail> {
    let journals: [(&[u8], usize); 2] = [(FIRST_JOURNAL, 7), (JOURNAL, 3)];
    for (text, count) in journals {
        let journal = given(Journal::read(rt.alloc(), text))?;
        let mut printed = Vec::new(rt.alloc());
        given(journal.print(&mut printed))?;
        let lines = journal.lines.into_vec();
        assert!(rt; printed.as_slice() == text && lines.len() == count);
    }
    let lists: [(&[u8], usize); 3] = [(FIRST_BACKUPS, 2), (BACKUPS, 3), (b"2\n", 0)];
    for (text, count) in lists {
        let backups = given(Backups::read(rt.alloc(), text))?;
        let mut printed = Vec::new(rt.alloc());
        given(backups.print(&mut printed))?;
        let lines = backups.lines.into_vec();
        assert!(rt; printed.as_slice() == text && lines.len() == count);
    }
    Ok(())
}

/// Journals that are read, and how many lines they have.
const TAKEN: [(&[u8], usize); 5] = [
    (b"", 0),
    (b"00changelog.i\x00", 0),
    (b"a\x0018446744073709551615\n", 1),
    (b"a\x000\nb\x001", 1),
    (b"a b\x007\n\x000\n", 2),
];

#[test]
fn a_cut_line_does_not_count(rt: HostRuntime) -> Result<(), Fail> {
    let cut = given(Journal::read(rt.alloc(), &FIRST_JOURNAL[..93]))?;
    assert_eq!(rt; cut.lines.as_slice().len(), 6);
    for (text, count) in TAKEN {
        let journal = given(Journal::read(rt.alloc(), text))?;
        assert_eq!(rt; journal.lines.as_slice().len(), count, "{text:?}");
    }
    Ok(())
}

/// A list with one plain file whose name has so many bytes.
fn long_list(alloc: Global, len: usize) -> Result<Vec<u8>, AllocError> {
    let mut text = Vec::from_slice(alloc, b"2\nplain\x00")?;
    for _ in 0..len {
        text.push(b'a')?;
    }
    text.extend_from_slice(b"\x00\x000\n")?;
    Ok(text)
}

#[test]
fn the_new_name_of_a_file_is_a_path(rt: HostRuntime) -> Result<(), Fail> {
    let longest = given(long_list(rt.alloc(), 4084))?;
    given(Backups::read(rt.alloc(), &longest))?;
    let longer = given(long_list(rt.alloc(), 4085))?;
    let found = Backups::read(rt.alloc(), &longer).err();
    assert_eq!(rt; found, Some(JournalFault::Line(2)));
    Ok(())
}

/// Adds an operation in words, and an LF.
fn say(op: &Op, into: &mut Vec<u8>) -> Result<(), AllocError> {
    match op {
        Op::Cut { path, len } => {
            into.extend_from_slice(b"cut ")?;
            into.extend_from_slice(path.bytes())?;
            into.push(b' ')?;
            into.extend_from_slice(Buffer::new().format(*len).as_bytes())?;
        }
        Op::Rename { from, to } => {
            into.extend_from_slice(b"rename ")?;
            into.extend_from_slice(from.bytes())?;
            into.push(b' ')?;
            into.extend_from_slice(to.bytes())?;
        }
        Op::Remove { path } => {
            into.extend_from_slice(b"remove ")?;
            into.extend_from_slice(path.bytes())?;
        }
        Op::Create { path, bytes } => {
            into.extend_from_slice(b"create ")?;
            into.extend_from_slice(path.bytes())?;
            into.push(b' ')?;
            into.extend_from_slice(bytes.as_slice())?;
        }
        _ => into.extend_from_slice(b"another")?,
    }
    into.push(b'\n')?;
    Ok(())
}

/// The operations that undo a transaction, in words.
fn undo_words(
    alloc: Global,
    journal: &[u8],
    backups: &[u8],
    kept: &[&[u8]],
) -> Result<Vec<u8>, JournalFault> {
    let journal = Journal::read(alloc, journal)?;
    let backups = Backups::read(alloc, backups)?;
    let mut copies = Vec::new(alloc);
    for bytes in kept {
        let copy = Bytes::from_slice(alloc, bytes)?;
        copies.push(copy)?;
    }
    let mut words = Vec::new(alloc);
    if copies.len() == backups.lines.as_slice().len() {
        let plan = undo_plan(alloc, &journal, &backups, &copies)?;
        for op in &plan {
            say(op, &mut words)?;
        }
    }
    Ok(words)
}

const UNDO_SECOND: &[u8; 317] =
    b"cut store/00changelog.i 119\ncut store/00manifest.i 108\nremove store/data/b.i\ncreate store/journal.new.fncache F\nrename store/journal.new.fncache store/fncache\ncreate journal.new.bookmarks B\nrename journal.new.bookmarks bookmarks\ncreate journal.new.dirstate D\nrename journal.new.dirstate dirstate\nremove store/journal\n";

const UNDO_FIRST: &[u8; 232] =
    b"remove store/00changelog.i\nremove store/00changelog.d\nremove store/00manifest.i\nremove store/00manifest.d\nremove store/fncache\nremove store/data/a.i\nremove store/data/a.d\nremove store/phaseroots\nremove dirstate\nremove store/journal\n";

#[test]
fn transactions_are_undone_from_the_last_file_to_the_first(rt: HostRuntime) -> Result<(), Fail> {
    let second = given(undo_words(rt.alloc(), JOURNAL, BACKUPS, &[b"F", b"B", b"D"]))?;
    assert_eq!(rt; second.as_slice(), UNDO_SECOND.as_slice());
    let first = given(undo_words(rt.alloc(), FIRST_JOURNAL, FIRST_BACKUPS, &[b"", b""]))?;
    assert_eq!(rt; first.as_slice(), UNDO_FIRST.as_slice());
    Ok(())
}

#[test]
fn the_names_of_a_transaction_stand_beside_their_files(rt: HostRuntime) -> Result<(), Fail> {
    let backup = given(backup_name(rt.alloc(), b"phaseroots"))?;
    let path = given(place(rt.alloc(), false, &backup))?;
    assert_eq!(rt;
        path.as_slice(),
        b"store/journal.backup.phaseroots".as_slice()
    );
    let new = given(new_name(rt.alloc(), b"dirstate"))?;
    let path = given(place(rt.alloc(), true, &new))?;
    assert_eq!(rt; path.as_slice(), b"journal.new.dirstate".as_slice());
    Ok(())
}
