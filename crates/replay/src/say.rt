// What is printed of a call, each part behind a space.
use answers::RLNCError;
use std::io::Print;

// How many bytes are put into digits at a time.
const CHUNK_LEN: usize = 2048;

// To standard output: where that cannot be written to, the comparison finds it.
pub(crate) fn put(rt: &HostRuntime, part: &[u8]) {
    let _ = rt.stdout().write_all(part);
}

pub(crate) fn number(rt: &HostRuntime, n: usize) {
    let _ = print!(rt; " {n}");
}

// The number of an answer, whatever it hands out.
pub(crate) fn answer<T: Copy>(rt: &HostRuntime, a: Result<T, RLNCError>) {
    number(rt, usize::from(answers::number(a)));
}

// The answer, and the record to keep: a refusal leaves the one that was there.
pub(crate) fn kept<T: Copy>(rt: &HostRuntime, before: T, made: Result<T, RLNCError>) -> T {
    answer(rt, made);
    made.unwrap_or(before)
}

// The answer, and how many bytes there are.
pub(crate) fn length(rt: &HostRuntime, made: Result<usize, RLNCError>) {
    answer(rt, made);
    if let Ok(n) = made {
        number(rt, n);
    }
}

// A count, or `no` and the number that refuses it.
pub(crate) fn count(rt: &HostRuntime, counted: Result<usize, RLNCError>) {
    number_or(rt, b" no", counted);
}

// The counts of a record, one after the other.
pub(crate) fn counts<const N: usize>(rt: &HostRuntime, counts: [Result<usize, RLNCError>; N]) {
    for counted in counts {
        count(rt, counted);
    }
}

// A number, or the script's word for a refusal and the refusal's number.
pub(crate) fn number_or(rt: &HostRuntime, refused: &[u8], found: Result<usize, RLNCError>) {
    match found {
        Ok(n) => number(rt, n),
        Err(e) => {
            put(rt, refused);
            number(rt, usize::from(e.number()));
        }
    }
}

// Every byte, in hexadecimal.
pub(crate) fn bytes(rt: &HostRuntime, part: &[u8]) {
    put(rt, b" .");
    let mut text = [0u8; 2 * CHUNK_LEN];
    for chunk in part.chunks(CHUNK_LEN) {
        let digits = &mut text[..2 * chunk.len()];
        hex::encode_to_slice(chunk, digits).unwrap();
        put(rt, digits);
    }
}

// The lent part of a kept buffer, and the slices of the call.
pub(crate) fn buffers(rt: &HostRuntime, kept: &[u8], a: &[u8], b: &[u8]) {
    bytes(rt, kept);
    bytes(rt, a);
    bytes(rt, b);
}
