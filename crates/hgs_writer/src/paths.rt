//! The paths of a command, which are bytes by their type. A contract knows that of a slice, and so of each path that is looked at; nothing
//! is done with them.
ghost use Rattle.hex.specs.Hex.{IsBytes};
ghost use Rattle.hgs_writer.specs.BytePaths.{AreOfBytes, HasBytePaths, NamesBytes};

use hgs_model::command::{Command, NewChange};

// What is in a slice of bytes is bytes.
fn path_is_bytes(path: &[u8])
    ensures { IsBytes path.now }
{}

// So is each path of a changeset.
fn change_has_byte_paths(change: &NewChange)
    ensures { HasBytePaths change.now }
{
    for file in change.files.as_slice() {
        path_is_bytes(file.path.as_slice());
    }
}

// And of changesets.
fn changes_have_byte_paths(changes: &[NewChange])
    ensures { AreOfBytes changes.now }
{
    for change in changes {
        change_has_byte_paths(change);
    }
}

/// Each path that a command names is bytes.
pub(crate) fn command_names_bytes(command: &Command)
    ensures { NamesBytes command.now }
{
    match command {
        Command::Commit(change) => change_has_byte_paths(change),
        Command::Import(changes) => changes_have_byte_paths(changes.as_slice()),
        Command::Move { .. } | Command::Mark { .. } | Command::Unmark { .. } => {}
    }
}
