// Joins the piece stream on standard input: prints its listing, or the data alone. What is read next and what is printed is decided by the machine of
// `joiner`; here bytes are read, fed and written.
#![tactic(auto)]

ghost use Rattle.std.specs.Prelude.{◌+◌, ◌≤◌, length, IfOk};
ghost use Rattle.joiner.specs.Machine.{text_room};

use answers::RLNCError;
use call::Call;
use failure::Failure;
use field::Field;
use joiner::{BLOCK_LEN, Ending, Fed, Joiner, MATRIX_LEN, TEXT_LEN};
use reader::INPUT_LEN;
use std::fs::OpenOptions;
use std::io;
use std::io::{ErrorKind, IsTerminal, Print, Read, Write};

mod call;
mod failure;

// How much text is kept before it is written out.
const OUT_LEN: usize = 65536;

// How a call ended: the set was rebuilt; it was not; the stream stopped, or something failed; or nobody reads any more what is written.
#[derive(Clone, Copy)]
enum Status {
    Rebuilt,
    Open,
    Failed,
    Unread,
}

// What is written: the listing, each line as soon as it is known, or the data alone.
#[derive(Clone, Copy)]
enum Mode {
    Listing,
    Lines,
    Data,
}

// What is lent to the machine: the bytes that were read, the matrix, the block, and room for its text.
#[derive(Drop)]
struct Lent {
    input: [u8; INPUT_LEN],
    elements: [u8; MATRIX_LEN],
    block: [u8; BLOCK_LEN],
    out: [u8; OUT_LEN],
}

// Fills the buffer, or reads to the end of the input. A read that fails says so, and then counts as the end. What is left of the `limit` says how
// many bytes came: where `read_exact` fails, it does not say it itself.
fn read(rt: &HostRuntime, buf: &mut [u8]) -> usize
    ensures { result ≤ length buf.new }
{
    let mut input = rt.stdin().take(buf.len() as u64);
    if let Err(e) = input.read_exact(buf) {
        if !matches!(e.kind(), ErrorKind::UnexpectedEof) {
            complain(rt, failure::line("setjoin: the input", e).as_bytes());
        }
    }
    buf.len().saturating_sub(input.limit() as usize)
}

fn write(rt: &HostRuntime, text: &[u8]) -> Result<(), Failure> {
    Print::write_all(&rt.stdout(), text).map_err(Failure::Output)
}

// To standard error.
fn complain(rt: &HostRuntime, text: &[u8]) {
    if let Err(e) = Print::write_all(&rt.stderr(), text) {
        if is_unread(rt, &e) {
            tell(rt, Status::Unread);
        }
    }
}

// Whether nobody reads any more what is written and a command asks for the status: it is then told so, and ends as the signal for that ends it.
fn is_unread(rt: &HostRuntime, e: &io::Error) -> bool {
    matches!(e.kind(), ErrorKind::BrokenPipe) && call::asks_status(rt)
}

// Writes the text out where the longest of a turn has no room behind it, or at once. How much of the buffer is used then.
fn make_room(
    rt: &HostRuntime,
    mode: Mode,
    out: &[u8; OUT_LEN],
    used: usize,
) -> Result<usize, Failure>
    requires { used ≤ OUT_LEN }
    ensures { IfOk result (λ n. n + text_room ≤ OUT_LEN) }
{
    match mode {
        Mode::Data => return Ok(0),
        Mode::Lines => {}
        Mode::Listing => {
            if TEXT_LEN <= out.len() - used {
                return Ok(used);
            }
        }
    }
    write(rt, &out[..used])?;
    Ok(0)
}

// Reads what the machine wants, and feeds it. Its text is put into the buffer from `from` on.
#[tactic(auto, using(crate::proofs::Within::want_short, crate::proofs::Within::fed_in))]
fn turn(rt: &HostRuntime, m: Joiner, lent: &mut Lent, from: usize) -> Result<Fed, RLNCError>
    requires { from + text_room ≤ OUT_LEN }
    ensures { IfOk result (λ fed. from + fed.first + fed.later ≤ OUT_LEN) }
{
    let want = m.wants();
    let got = read(rt, &mut lent.input[..want]);
    m.feed(
        Field::Fips197,
        &lent.input[..got],
        &mut lent.elements,
        &mut lent.block,
        &mut lent.out[from..],
    )
}

// Read, feed, write, until the machine wants nothing. A proved loop has to end, and nothing says that an input does: so there are no more turns than
// any input uses up. The machine has room for every turn: it refuses an input only past 2^64 bytes.
fn run(rt: &HostRuntime, mode: Mode, lent: &mut Lent) -> Result<Status, Failure> {
    let mut m = Joiner::new();
    // How much text waits at the front of `lent.out`. A number beside a buffer, and no `ArrayString`, since `feed` writes into a slice.
    let mut used = 0;
    for _ in 0..u64::MAX {
        let from = make_room(rt, mode, &lent.out, used)?;
        let fed = turn(rt, m, lent, from).map_err(|_| Failure::TooLong)?;
        m = fed.joiner;
        let last = from + fed.first;
        used = last + fed.later;
        if m.wants() == 0 {
            let text = &lent.out[..used];
            return end(rt, mode, m.ending, &lent.block, text, &text[last..]);
        }
    }
    Err(Failure::TooLong)
}

// The end: what is left is written. A match on how it ended, here and above on the mode, is no step to choose: a closure is no plainer.
fn end(
    rt: &HostRuntime,
    mode: Mode,
    ending: Ending,
    block: &[u8],
    text: &[u8],
    last_lines: &[u8],
) -> Result<Status, Failure> {
    match (mode, ending) {
        (Mode::Data, Ending::Rebuilt(n)) => {
            let Some(found) = block.get(..n) else {
                return Ok(Status::Failed);
            };
            write(rt, found)?;
        }
        (Mode::Data, _) => Print::write_all(&rt.stderr(), last_lines).map_err(Failure::Errors)?,
        _ => write(rt, text)?,
    }
    match ending {
        Ending::Rebuilt(_) => Ok(Status::Rebuilt),
        Ending::Open => Ok(Status::Open),
        Ending::NotYet | Ending::Stopped => Ok(Status::Failed),
    }
}

// Does what the words from this one on ask for. The status says how that ended.
fn asked(rt: &HostRuntime, first: usize) -> Result<Status, Failure> {
    let mode = match call::read(rt, first)? {
        Call::Data => Mode::Data,
        Call::Listing if rt.stdout().is_terminal() => Mode::Lines,
        Call::Listing => Mode::Listing,
    };
    let mut lent = Lent {
        input: [0; INPUT_LEN],
        elements: [0; MATRIX_LEN],
        block: [0; BLOCK_LEN],
        out: [0; OUT_LEN],
    };
    run(rt, mode, &mut lent)
}

// What failed is said to the user, except where nobody reads any more.
fn say(rt: &HostRuntime, failure: Failure) {
    match failure {
        Failure::Words => complain(
            rt,
            b"setjoin: unknown words; use bin/setjoin, which reads a user's\n",
        ),
        Failure::TooLong => complain(rt, b"setjoin: the input is too long\n"),
        Failure::Output(e) | Failure::Errors(e) if is_unread(rt, &e) => tell(rt, Status::Unread),
        Failure::Output(e) => complain(rt, failure::line("setjoin: standard output", e).as_bytes()),
        Failure::Errors(_) => {}
    }
}

// The status of the call whose words begin here.
fn answer(rt: &HostRuntime, first: usize) -> Status {
    match asked(rt, first) {
        Ok(status) => status,
        Err(failure) => {
            say(rt, failure);
            Status::Failed
        }
    }
}

// The status, as a digit on descriptor 3.
fn tell(rt: &HostRuntime, status: Status) {
    let digit = match status {
        Status::Rebuilt => b"0",
        Status::Open => b"1",
        Status::Failed => b"2",
        Status::Unread => b"3",
    };
    if let Ok(mut to) = OpenOptions::new().append(true).open(rt, "/dev/fd/3") {
        let _ = to.write_all(digit);
    }
}

// Its own status is 0: where the first word asks for it, that of the call goes to descriptor 3.
fn main(rt: HostRuntime) {
    if !call::asks_status(&rt) {
        answer(&rt, 1);
        return;
    }
    let status = answer(&rt, 2);
    tell(&rt, status);
}
