//! What the program says of itself.
ghost use Rattle.std.specs.Prelude.{◌≡◌};
ghost use Rattle.hgs_top.specs.Pages.{page_text};

const HELP: &[u8; 2974] =
    b"usage: hg_store COMMAND\n\nReads and writes the Mercurial repository whose .hg stands in the current folder.\n\n  log                        a line for each changeset, newest first\n  heads                      number and node of each changeset without a child\n  files REV                  node, flag and path of each file of a changeset\n  cat REV PATH               the body of one of these files\n  bookmarks                  name, number and node of each bookmark\n  parents                    number and node of each working parent\n  phase REV                  public, draft or secret\n  revset EXPR                number and node of each member of a set of changesets\n  branches [--steps K]       branch, number and node of each head of each branch\n  init                       makes an empty repository\n  commit                     commits the record on standard input; bin/record prints one\n  import                     commits the records on standard input, all at once\n  phase [--force] REV PHASE  sets a phase\n  bookmark NAME REV          sets a bookmark\n  bookmark --delete NAME     deletes one\n  verify [--jobs N]          says what is wrong with the repository, and changes nothing\n  gen SEED COUNT             makes a repository of changesets that a number gives, and verifies it\n  recover                    undoes a transaction that was left unfinished\n  play                       plays the schedule on standard input, in memory\n  session                    runs the script on standard input, with its workers at the same time\n  --help                     this page\n  --version                  the program, and the kit that it is proved with\n\nREV is . for the first working parent, tip, a number, 40 hex digits of a node, or a bookmark.\nBehind a word -- a word may begin with -.\n\nExit statuses:\n   0  it was done\n   1  there was nothing to recover\n  10  somebody else writes\n  11  an earlier transaction was left unfinished\n  12  no changeset has the name\n  13  nothing would change\n  14  the input is no record, no schedule or no script\n  15  a file does not hold what it should\n  16  the system failed a call on a file\n  17  the transaction was left unfinished: see recover\n  18  the system failed to read the input\n  19  the system failed a write, or the reader of the output has gone\n  20  a limit is passed\n  21  another text has the same node\n  22  two paths would have the same files\n  23  the changeset has no such file, or a copy's source is none of its parent's\n  24  there is no repository here\n  25  there is one already\n  26  the phase is raised only by --force\n  27  the repository requires a word that is not of the profile, or lacks one\n  28  the words do not fit\n  29  the repository has findings, a line for each: file, revision and kind\n  30  there was no memory\n  32  a copy's path is that of a file of a parent\n  33  the text is no set of changesets\n  34  a file that is not the store's is in the way\n\nMore: man hg_store, and docs/ANSWERS.md.\n";

const VERSION: &[u8; 64] = b"hg_store 0.1, proved with rattle-kit-13f logic dac8208d650f15bf\n";

/// A text that needs no repository.
#[derive(Clone, Copy, Debug, PartialEq, Eq)]
pub enum Page {
    /// The commands, the statuses, and where to read more.
    Help,
    /// The program, and the kit that it is proved with.
    Version,
}

impl Page {
    /// The text, which ends in LF.
    pub fn text(self) -> &'static [u8]
        ensures { result.now ≡ page_text self }
    {
        match self {
            Page::Help => HELP,
            Page::Version => VERSION,
        }
    }
}
