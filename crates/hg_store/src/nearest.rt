//! The command that a misspelt word is nearest to.
use crate::usages::COMMANDS;
use std::alloc::{AllocError, Global};
use strsim::osa_distance;

/// The command that a third of the word's letters at most, and one at least, put in, left out, changed or swapped, make of it.
pub fn nearest(alloc: Global, word: &str) -> Result<Option<&'static str>, AllocError> {
    let mut found = None;
    let mut least = (word.len() / 3).max(1);
    for command in COMMANDS {
        let distance = osa_distance(alloc, word, command)?;
        if distance < least || (distance == least && found.is_none()) {
            least = distance;
            found = Some(command);
        }
    }
    Ok(found)
}
