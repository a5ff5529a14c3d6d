// The text that `setjoin` prints: its lines, each put at the front of a lent buffer.
#![tactic(auto)]

ghost use Rattle.std.specs.Prelude.{◌≡◌, ◌++◌, ◌+◌, ◌*◌, ◌≤◌, length, [], ◌∷◌, ◌<◌};
ghost use Rattle.answers.specs.Number.{number_of};
ghost use Rattle.arrayvec.specs.ArrayString.{array_string_len};
ghost use Rattle.listing.specs.Text.{decimal, hex};
ghost use Rattle.listing.specs.Text.{digit as Text·digit};
ghost use Rattle.listing.specs.Lines.{header_line, piece_line, end_line, stop_line, data_line};
ghost use Rattle.listing.specs.Puts.{Lined};

use answers::{Answer, RLNCError};
use arrayvec::ArrayString;
use decoder::{ReceivedPieceCount, UsefulPieceCount};
use itoa::Buffer;

pub mod join;

// The longest line of numbers: four of 20 digits, and a byte behind each.
pub const LINE_LEN: usize = 84;

type Line = ArrayString<LINE_LEN>;

// Puts the decimal digits of n behind the line, and a byte behind them. Tried: `write!` of the whole line; the proof does not close, since the
// contract of `write!` does not say that it succeeds where the text fits.
fn put_number(line: &mut Line, n: u64, behind: char)
    requires room { array_string_len line.old + 21 ≤ LINE_LEN }
    requires ascii { behind < 128 }
    ensures appended { line.new.bytes ≡ line.old.bytes ++ (decimal n ++ (behind ∷ [])) }
    ensures upper_bound { array_string_len line.new ≤ array_string_len line.old + 21 }
{
    let mut digits = Buffer::new();
    line.push_str(digits.format(n));
    line.push(behind);
}

// Copies a line to the front of `out`: 21 where that is shorter. It hands out how many bytes it put: a slice of them is no plainer, since its callers
// add up the lengths and write on behind.
fn put_line(line: &str, out: &mut [u8]) -> Result<usize, RLNCError>
    ensures { Lined line.now out.old result out.new }
{
    let line = line.as_bytes();
    if out.len() < line.len() {
        return Err(RLNCError::NoRoom);
    }
    out[..line.len()].copy_from_slice(line);
    Ok(line.len())
}

pub fn header_line(out: &mut [u8]) -> Result<usize, RLNCError>
    ensures { Lined header_line out.old result out.new }
{
    put_line("n answer rows taken\n", out)
}

// A piece's line: its ordinal, the answer to it, and rows and taken after it.
#[tactic(auto, unfolding(crate::specs::Lines::piece_line))]
pub fn piece_line(
    out: &mut [u8],
    n: u64,
    answer: Answer,
    rows: UsefulPieceCount,
    taken: ReceivedPieceCount,
) -> Result<usize, RLNCError>
    ensures { Lined (piece_line n (number_of answer) rows.0 taken.0) out.old result out.new }
{
    let mut line = Line::new();
    put_number(&mut line, n, ' ');
    put_number(&mut line, u64::from(answers::number(answer)), ' ');
    put_number(&mut line, rows.0 as u64, ' ');
    put_number(&mut line, taken.0 as u64, '\n');
    put_line(line.as_str(), out)
}

// The line of the end record: recovery's answer, how many bytes of data there are, and the number of answers 8.
#[tactic(auto, unfolding(crate::specs::Lines::end_line))]
pub fn end_line(
    out: &mut [u8],
    answer: Answer,
    size: usize,
    repeats: u64,
) -> Result<usize, RLNCError>
    ensures { Lined (end_line (number_of answer) size repeats) out.old result out.new }
{
    let mut line = Line::new();
    line.push_str("end ");
    put_number(&mut line, u64::from(answers::number(answer)), ' ');
    put_number(&mut line, size as u64, ' ');
    put_number(&mut line, repeats, '\n');
    put_line(line.as_str(), out)
}

// The line of a stream that stops: the answer, and the byte offset of the record that got it.
#[tactic(auto, unfolding(crate::specs::Lines::stop_line))]
pub fn stop_line(out: &mut [u8], answer: Answer, at: u64) -> Result<usize, RLNCError>
    ensures { Lined (stop_line (number_of answer) at) out.old result out.new }
{
    let mut line = Line::new();
    line.push_str("stop ");
    put_number(&mut line, u64::from(answers::number(answer)), ' ');
    put_number(&mut line, at, '\n');
    put_line(line.as_str(), out)
}

// A digit below 16: '0' to '9', then 'a' to 'f'.
fn digit(d: u8) -> u8
    requires { d < 16 }
    ensures { result ≡ Text·digit d }
{
    if d < 10 { b'0' + d } else { b'a' - 10 + d }
}

// Two digits for each byte, from one end of `out` to the other. Digits by a choice and no table, so that the loop is done for many bytes at once.
// Tried before: the kit's `hex`, 20 us for 15,360 bytes in place of 7.
fn put_hex(data: &[u8], out: &mut [u8])
    requires { length out.old ≡ length «data».now * 2 }
    ensures { out.new ≡ hex «data».now }
{
    for (i, b) in data.iter().enumerate() {
        out[2 * i] = digit(*b / 16);
        out[2 * i + 1] = digit(*b % 16);
    }
}

// The data in lower-case hexadecimal.
#[tactic(auto, using(crate::proofs::Hex::length_data_line))]
pub fn data_line(out: &mut [u8], data: &[u8]) -> Result<usize, RLNCError>
    ensures { Lined (data_line «data».now) out.old result out.new }
{
    let end = 2 * data.len();
    if out.len() <= end {
        return Err(RLNCError::NoRoom);
    }
    put_hex(data, &mut out[..end]);
    out[end] = b'\n';
    Ok(end + 1)
}

// The end line of a set that was recovered, and the line of its data.
pub(crate) fn data_lines(out: &mut [u8], data: &[u8], repeats: u64) -> Result<usize, RLNCError>
    requires { LINE_LEN + (length «data».now * 2 + 1) ≤ length out.old }
    ensures { Lined (end_line 0 (length «data».now) repeats ++ data_line «data».now) out.old result out.new }
{
    let end = end_line(out, Ok(()), data.len(), repeats)?;
    let size = data_line(&mut out[end..], data)?;
    Ok(end + size)
}
