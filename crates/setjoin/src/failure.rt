// What ends a call early, with status 2, and the words for a read or a write that failed.

use arrayvec::ArrayString;
use std::fmt::Write;
use std::io;

// Words that are not known; an input past 2^64 bytes; or standard output or standard error, which could not be written.
#[derive(Drop)]
pub(crate) enum Failure {
    Words,
    TooLong,
    Output(io::Error),
    Errors(io::Error),
}

const REASON_LEN: usize = 256;

const LINE_LEN: usize = 512;

// The reason alone: the number that the system has for it stands behind.
fn reason(text: &str) -> &str {
    text.split_once(" (os error ")
        .map_or(text, |(before, _)| before)
}

// A line that says what failed, and the reason: as one text, so that it is written at once.
pub(crate) fn line(what: &str, e: io::Error) -> ArrayString<LINE_LEN> {
    let mut text = ArrayString::<REASON_LEN>::new();
    let _ = write!(text, "{e}");
    told(what, reason(text.as_str()))
}

fn told(what: &str, why: &str) -> ArrayString<LINE_LEN> {
    let mut line = ArrayString::<LINE_LEN>::new();
    let _ = writeln!(line, "{what}: {why}");
    line
}
