//! The words that the program was started with.

use std::alloc::AllocError;
use std::env::{Env, FillError};

const FIRST_ROOM: usize = 256;

/// The words after the program's name. One that is not UTF-8 is an empty word.
pub fn words_after_name<R: Env + AllocGlobal>(rt: &R) -> Result<Vec<String>, AllocError> {
    let mut words = Vec::new(rt.alloc());
    for place in 1..usize::MAX {
        match word_at(rt, place)? {
            Some(word) => words.push(word)?,
            None => break,
        }
    }
    Ok(words)
}

/// The word at a place, where the program's name has place 0, or `None` past the last one.
fn word_at<R: Env + AllocGlobal>(rt: &R, place: usize) -> Result<Option<String>, AllocError> {
    let mut room = FIRST_ROOM;
    for _ in 0..usize::BITS {
        let mut bytes = vec![in rt.alloc(); 0u8; room]?;
        match rt.arg(place, bytes.as_mut_slice()) {
            Ok(length) => {
                bytes.truncate(length);
                let empty = String::new(rt.alloc());
                return Ok(Some(String::from_utf8(bytes).unwrap_or(empty)));
            }
            Err(FillError::NotPresent) => return Ok(None),
            Err(FillError::TooLong) => room = room.saturating_mul(2),
        }
    }
    Err(AllocError)
}
