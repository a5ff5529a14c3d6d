// The sum over rows of number times row, for coding and recoding. A number is the sum of its bits, so the rows are added up bit by bit:
// what the higher bits made is multiplied by x, then the rows whose number has the bit are added. Only one row is ever multiplied.
ghost use Rattle.std.specs.Prelude.{◌≡◌, true, map, ℕ, ◌+◌, ◌*◌, ◌/◌, ◌%◌, ◌^◌, ◌≤◌, ◌<◌, leb, length, get_or};
ghost use Rattle.galois.specs.FieldLaws.{FieldLaws};
ghost use Rattle.field.specs.FieldOf.{field_of};
ghost use Rattle.linear.specs.Rows.{scale_row};
ghost use Rattle.linear.specs.Buffer.{rows_of};
ghost use Rattle.linear.specs.Pieces.{combine};
ghost use Rattle.galois.specs.Gf.{◌⊕◌};
ghost use Rattle.rows.specs.Outcomes.{add_row};
ghost use Rattle.rows.specs.Combining.{Combined};
ghost use Rattle.rows.specs.Chosen.{sum_at, Collected};

use super::{add_row, clear};
use answers::{Answer, RLNCError};
use field::Field;

// The rows lie one after the other, each as long as out: one for each number.
pub fn combine(f: Field, rows: &[u8], numbers: &[u8], out: &mut [u8]) -> Answer
    ensures { Combined (field_of f) rows.now numbers.now out.old result out.new }
{
    if !holds_rows(rows.len(), numbers.len(), out.len()) {
        return Err(RLNCError::BadState);
    }
    sum_bits(f, rows, numbers, out);
    Ok(())
}

// A buffer of n bytes holds so many rows.
fn holds_rows(n: usize, count: usize, width: usize) -> bool
    ensures { result ≡ leb (count * width) n }
{
    width == 0 || count <= n / width
}

// `rows`, `numbers` and `out` go together through three functions. No plainer: a struct of them, since each call takes it apart at once, and
// only two functions require that they fit.
fn sum_bits(f: Field, rows: &[u8], numbers: &[u8], out: &mut [u8])
    requires { length numbers.now * length out.old ≤ length rows.now }
    ensures { out.new ≡ combine (field_of f) (length out.old) numbers.now (rows_of (length out.old) (length numbers.now) rows.now) }
{
    // With no byte to sum up, the starts of the rows would be collected for nothing.
    if out.is_empty() {
        return;
    }
    clear(out);
    for bit in (0..8).rev() {
        double(f, out);
        add_chosen(rows, numbers, bit, out);
    }
}

// The rows whose number has the bit are added. A branch on the bit, which is as good as random, would be guessed wrong every other time: the
// starts of the rows are collected without one, for some numbers at a time, and the rows at those starts are added.
fn add_chosen(rows: &[u8], numbers: &[u8], bit: u32, out: &mut [u8])
    requires { (bit < 8) × (length numbers.now * length out.old ≤ length rows.now) }
    ensures { (𝓕 : FieldLaws) → out.new ≡ add_row (combine 𝓕 (length out.old) (map (λ n. n / 2 ^ bit % 2) numbers.now) (rows_of (length out.old) (length numbers.now) rows.now)) out.old }
{
    let width = out.len();
    let mut starts = [0; 64];
    let mut left = rows;
    for some in numbers.chunks(starts.len()) {
        let chosen = collect(some, bit, width, &mut starts);
        add_rows(left, chosen, out);
        left = &left[some.len() * width..];
    }
}

// The starts of the rows whose number has the bit, in the front of `starts`. Each start is stored, and the next one over it where the number
// lacks the bit. Tried before: a branch on the bit and one row in a pass, 3.9 us in place of 1.8 at 32 x 480. The bar, six times the Rust's
// speed, is 2.6 us against the Rust's fastest build there, 15.4 us (bench/README.md).
fn collect<'a>(numbers: &[u8], bit: u32, width: usize, starts: &'a mut [usize]) -> &'a [usize]
    requires { (bit < 8) × (length numbers.now ≤ length starts.old) × (length numbers.now * width < 2 ^ 64) }
    ensures { Collected bit width numbers.now result.now }
{
    let mut n = 0;
    for (j, number) in numbers.iter().enumerate() {
        starts[n] = j * width;
        n += usize::from((*number >> bit) % 2);
    }
    &starts[..n]
}

// The rows at the starts are added, four in a pass while there are four: a pass reads and writes `out` once.
fn add_rows(rows: &[u8], starts: &[usize], out: &mut [u8])
    requires { (k : ℕ) → k < length starts.now → get_or starts.now k 0 + length out.old ≤ length rows.now }
    ensures { (i : ℕ) → i < length out.old → get_or out.new i 0 ≡ get_or out.old i 0 ⊕ sum_at rows.now starts.now i }
{
    let width = out.len();
    let (fours, rest) = starts.as_chunks::<4>();
    for four in fours {
        add_four(rows, *four, out);
    }
    for start in rest {
        add_row(out, &rows[*start..*start + width]);
    }
}

// By the index, as in `add_row`.
fn add_four(rows: &[u8], starts: [usize; 4], out: &mut [u8])
    requires { (k : ℕ) → k < 4 → get_or starts k 0 + length out.old ≤ length rows.now }
    ensures { (i : ℕ) → i < length out.old → get_or out.new i 0 ≡ get_or out.old i 0 ⊕ sum_at rows.now starts i }
{
    let [a, b, c, d] = starts;
    for (i, x) in out.iter_mut().enumerate() {
        *x ^= rows[a + i] ^ rows[b + i] ^ rows[c + i] ^ rows[d + i];
    }
}

// Each byte times x.
fn double(f: Field, row: &mut [u8])
    ensures { row.new ≡ scale_row (field_of f) 2 row.old }
{
    for b in row.iter_mut() {
        *b = f.times_x(*b);
    }
}
