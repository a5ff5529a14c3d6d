// The words of the call. What a user types is the wrapper's to read.

use super::failure::Failure;
use std::env::{Env, FillError};

// The listing, or the data alone.
#[derive(Clone, Copy)]
pub(crate) enum Call {
    Listing,
    Data,
}

// Longer words than this are not known.
const WORD_LEN: usize = 4096;

fn is_word(rt: &HostRuntime, i: usize, word: &[u8]) -> bool {
    let mut buf = [0u8; WORD_LEN];
    match rt.arg(i, &mut buf) {
        Ok(n) => &buf[..n] == word,
        Err(_) => false,
    }
}

// Also where the word is longer than the buffer, so that neither of the two says the other.
fn is_given(rt: &HostRuntime, i: usize) -> bool {
    let mut buf = [0u8; WORD_LEN];
    !matches!(rt.arg(i, &mut buf), Err(FillError::NotPresent))
}

// Whether the status is to be reported on descriptor 3, which the first word says.
pub(crate) fn asks_status(rt: &HostRuntime) -> bool {
    is_word(rt, 1, b"--status-fd=3")
}

// What is asked for by the words from this one on.
pub(crate) fn read(rt: &HostRuntime, first: usize) -> Result<Call, Failure> {
    if !is_given(rt, first) {
        return Ok(Call::Listing);
    }
    if !is_given(rt, first.saturating_add(1)) && is_word(rt, first, b"--data") {
        return Ok(Call::Data);
    }
    Err(Failure::Words)
}
