//! What a refusal means and what to do, in a line for standard error. docs/ANSWERS.md says the same, and a test compares the two.

/// The line for a status, where it is a refusal.
pub fn hint(status: u8) -> Option<&'static str> {
    match status {
        1 => Some(
            "no transaction was left unfinished, and locks and leftovers of stopped commands are removed; where a line says that some remain, see that .hg may be written to and run `hg_store recover` again",
        ),
        10 => Some(
            "somebody else writes this repository; wait and try again. Where no process does, a stop left the locks: `hg_store recover` undoes what it had begun and removes them",
        ),
        11 => Some(
            "an earlier transaction was left unfinished; nothing was changed. Once no process writes this repository, `hg_store recover` undoes what hg_store left, and `hg recover` what Mercurial left",
        ),
        12 => Some(
            "no changeset has this name; `hg_store log` shows numbers and nodes, `hg_store bookmarks` bookmarks",
        ),
        13 => Some("the repository is as the command asks already; nothing was changed"),
        14 => Some(
            "the input is no record of a changeset, no schedule or no script, from the byte on that the line names; `bin/record` prints one of a folder; nothing was changed",
        ),
        15 => Some(
            "this file does not hold what it should; nothing was changed; `hg verify` says more of a repository of Mercurial's, and `hg recover` undoes what a stopped hg left",
        ),
        16 => Some(
            "the system failed a call on a file of .hg; the repository is as before. See that .hg may be read and written and that the disk is sound and not full, and run the command again; where files remain, `hg_store recover` removes them",
        ),
        17 => Some(
            "a call on a file failed, and so did the way back; `published yes` means that readers see the new state. `hg_store recover` leads back to the state before; where that breaks off each time at a name that is not UTF-8, `hg recover` undoes it",
        ),
        18 => Some("the system failed to read standard input; nothing was changed"),
        19 => Some(
            "standard output took no more: its disk is full, or its reader has gone; what a command changes is done, but nothing where standard output was closed from the start",
        ),
        20 => Some(
            "a file, a text or a count is larger than hg_store takes; docs/ANSWERS.md has the limits by their numbers; nothing was changed",
        ),
        21 => Some("the store has another text with the same SHA-1; nothing was changed"),
        22 => Some(
            "the path of the line and a new one would have the same files in the store; nothing was changed",
        ),
        23 => Some(
            "the changeset has no file of this path, or of a commit the first parent has no file of the path that a copy names; `hg_store files REV` lists its files",
        ),
        24 => Some(
            "there is no .hg/requires here: run it in the folder that has the .hg, not in one below it; `hg_store init` makes an empty repository",
        ),
        25 => Some("a repository stands here already; nothing was changed"),
        26 => Some(
            "a changeset goes from public to draft, or to secret, only with --force; nothing was changed",
        ),
        27 => Some(
            "only repositories that require dotencode, fncache, revlogv1 and store, and at most generaldelta besides, are taken; `bin/from_hg SOURCE DESTINATION` makes one of a repository of Mercurial's",
        ),
        28 => Some("`hg_store --help` lists the commands"),
        29 => Some(
            "docs/ANSWERS.md says what each kind of finding means; of kinds 1 and 2, where no process writes, `hg_store recover` takes away what a stop left; `verify` changes nothing",
        ),
        30 => Some(
            "there was not enough memory: run the command again with more. `hg_store log` shows whether a commit was made, and where files remain, `hg_store recover` removes them",
        ),
        32 => Some(
            "a parent has a file of this path, and a copy is a new file; nothing was changed",
        ),
        33 => Some(
            "the text is no set of changesets, from the byte on that the line names; docs/FORMATS.md has the form of sets",
        ),
        34 => Some("this file stands where a new one is to be; move it away; nothing was changed"),
        _ => None,
    }
}
