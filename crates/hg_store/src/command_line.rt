//! The words of the command line.
use std::alloc::AllocError;
use std::env::FillError;
use std::rt::Env;

/// The words, without the program's name.
#[derive(Drop)]
pub enum Words {
    All(Vec<String>),
    /// Those before the first that is not UTF-8.
    UpTo(Vec<String>),
}

// The bytes of the argument at a place, where there is one.
fn argument(rt: &HostRuntime, place: usize) -> Result<Option<Vec<u8>>, AllocError> {
    let mut bytes = vec![in rt.alloc(); 0; 256]?;
    for _ in 0..usize::BITS {
        match rt.arg(place, &mut bytes) {
            Ok(len) => {
                bytes.truncate(len);
                return Ok(Some(bytes));
            }
            Err(FillError::NotPresent) => return Ok(None),
            Err(FillError::TooLong) => bytes.resize(bytes.len().saturating_mul(2), 0)?,
        }
    }
    Err(AllocError)
}

/// The words that the program was started with.
pub fn read_words(rt: &HostRuntime) -> Result<Words, AllocError> {
    let mut words = Vec::new(rt.alloc());
    for place in 1..usize::MAX {
        match argument(rt, place)? {
            None => break,
            Some(bytes) => match String::from_utf8(bytes) {
                Ok(word) => words.push(word)?,
                Err(_) => return Ok(Words::UpTo(words)),
            },
        }
    }
    Ok(Words::All(words))
}
