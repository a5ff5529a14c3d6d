// The row helpers, ported from the portable halves of src/common/simd/mod.rs, in the field named: a row scaled, a row added to a row, and
// a multiple of a row added to a row, or to another part of the buffer that it lies in.
#![tactic(auto)]

ghost use Rattle.std.specs.Prelude.{◌≡◌, true, ℕ, ◌*◌, ◌%◌, length, replicate};
ghost use Rattle.galois.specs.FieldLaws.{FieldLaws};
ghost use Rattle.galois.specs.Multiples.{multiples_of};
ghost use Rattle.field.specs.FieldOf.{field_of};
ghost use Rattle.linear.specs.Rows.{all_zero, add_multiple, scale_row};
ghost use Rattle.rows.specs.Parts.{lie_apart};
ghost use Rattle.rows.specs.Outcomes.{add_row, Scaled, Summed, Added, PartAdded};

use answers::{Answer, RLNCError};
use field::Field;

mod combining;

pub use combining::combine;

// Each byte times the scalar.
pub fn inplace_mul_vec_by_scalar(f: Field, vec: &mut [u8], scalar: u8)
    ensures { Scaled (field_of f) scalar vec.old vec.new }
{
    // Cases as in the Rust, for speed: 512 bytes times 0 or 1 take 5 to 25 ns, and 150 by `scale` or `add_multiple` (bench/README.md).
    match scalar {
        0 => clear(vec),
        1 => {}
        _ => scale(f, vec, scalar),
    }
}

// Each byte of vec_src added to that of vec_dst at its place.
pub fn inplace_add_vectors(vec_dst: &mut [u8], vec_src: &[u8]) -> Answer
    ensures { Summed vec_src.now vec_dst.old result vec_dst.new }
{
    if vec_dst.len() != vec_src.len() {
        return Err(RLNCError::InvalidPieceLength);
    }
    add_row(vec_dst, vec_src);
    Ok(())
}

// Each byte of mul_vec times the scalar added to that of add_into_vec at its place.
pub fn mul_vec_by_scalar_then_add_into_vec(
    f: Field,
    add_into_vec: &mut [u8],
    mul_vec: &[u8],
    scalar: u8,
) -> Answer
    ensures { Added (field_of f) scalar mul_vec.now add_into_vec.old result add_into_vec.new }
{
    if add_into_vec.len() != mul_vec.len() {
        return Err(RLNCError::InvalidPieceLength);
    }
    // The same cases.
    match scalar {
        0 => {}
        1 => add_row(add_into_vec, mul_vec),
        _ => add_multiple(f, add_into_vec, mul_vec, scalar),
    }
    Ok(())
}

// Two parts of one buffer, len bytes each.
#[derive(Clone, Copy, PartialEq, Eq, Debug)]
pub struct Parts {
    pub from: usize,
    pub to: usize,
    pub len: usize,
}

impl Parts {
    // Both lie in a buffer of n bytes, and share none of them.
    fn lie_apart(self, n: usize) -> bool
        ensures { result ≡ lie_apart self n }
    {
        let Parts { from, to, len } = self;
        len <= n && from <= n - len && to <= n - len && len <= from.abs_diff(to)
    }
}

// The same as mul_vec_by_scalar_then_add_into_vec for two rows of a matrix, with no copy: the part at `from` times the scalar added to
// the part at `to`. Not inlined: the matrix calls it in a loop that most often goes on to the next row, and LLVM would do half of it there.
#[inline(never)]
pub fn mul_part_by_scalar_then_add_into_part(
    f: Field,
    buffer: &mut [u8],
    parts: Parts,
    scalar: u8,
) -> Answer
    ensures { PartAdded (field_of f) scalar parts buffer.old result buffer.new }
{
    if !parts.lie_apart(buffer.len()) {
        return Err(RLNCError::BadState);
    }
    let Parts { from, to, len } = parts;
    if from < to {
        let (front, back) = buffer.split_at_mut(to);
        let target = &mut back[..len];
        mul_vec_by_scalar_then_add_into_vec(f, target, &front[from..from + len], scalar)
    } else {
        let (front, back) = buffer.split_at_mut(from);
        let target = &mut front[to..to + len];
        mul_vec_by_scalar_then_add_into_vec(f, target, &back[..len], scalar)
    }
}

// Zeros, all of it.
pub fn clear(vec: &mut [u8])
    ensures { vec.new ≡ replicate (length vec.old) 0 }
{
    // Not by `fill`, which stores the last byte apart: a call for a few bytes took twice as long.
    for b in vec.iter_mut() {
        *b = 0;
    }
}

// Whether every byte is 0.
pub fn is_zero(part: &[u8]) -> bool
    ensures { result ≡ all_zero part.now }
{
    part.iter().all(|b| *b == 0)
}

fn scale(f: Field, vec: &mut [u8], q: u8)
    ensures { vec.new ≡ scale_row (field_of f) q vec.old }
{
    let m = f.multiples(q);
    for b in vec.iter_mut() {
        *b = sum_chosen(m, *b);
    }
}

// One function over a closure is no plainer: each of the three is a loop of one line.
// The loops that read a second row go by the index. Tried: `zip`. After it a proof knows nothing of the bytes that were written.
fn add_row(dst: &mut [u8], src: &[u8])
    requires { length dst.old ≡ length src.now }
    ensures { dst.new ≡ add_row src.now dst.old }
{
    for (i, b) in dst.iter_mut().enumerate() {
        *b ^= src[i];
    }
}

fn add_multiple(f: Field, dst: &mut [u8], src: &[u8], q: u8)
    requires { length dst.old ≡ length src.now }
    ensures { dst.new ≡ add_multiple (field_of f) q src.now dst.old }
{
    let m = f.multiples(q);
    for (i, b) in dst.iter_mut().enumerate() {
        *b ^= sum_chosen(m, src[i]);
    }
}

// The product of b and the factor that m has the multiples of: the sum of those that the bits of b choose. All choices and no table, so
// that a loop of it is done for many bytes at once.
fn sum_chosen(m: [u8; 8], b: u8) -> u8
    ensures { (𝓕 : FieldLaws) (q : ℕ) → m ≡ multiples_of 𝓕 q → result ≡ 𝓕.mul q b }
{
    let mut sum = 0;
    let mut bits = b;
    for x in m {
        sum ^= chosen_by(bits, x);
        bits /= 2;
    }
    sum
}

// m where the lowest bit of b is set.
fn chosen_by(b: u8, m: u8) -> u8
    ensures { result ≡ b % 2 * m }
{
    if b % 2 == 0 { 0 } else { m }
}
