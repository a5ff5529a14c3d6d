// Arithmetic of single bytes and of rows.
ghost use Rattle.std.specs.Prelude.{◌≡◌, ◌*◌, leb, length, Ok, Err};
ghost use Rattle.answers.specs.declared.RLNCError.TheVariants.{BadState};
ghost use Rattle.linear.specs.Choice.{pick};
ghost use Rattle.galois.specs.Quotient.{inverse_of, quotient_of};
ghost use Rattle.gf256.proofs.Known.{fips};
ghost use Rattle.rows.specs.Outcomes.{lengths_answer, parts_answer, Scaled, Summed, Added, PartAdded};
ghost use Rattle.rows.specs.Combining.{Combined};
ghost use Rattle.rlnc.specs.Numbered.{Numbered};
ghost use Rattle.rlnc.specs.Given.{QuotientGiven};

use field::Field;
use rows::Parts;

// The product.
pub fn rlnc_gf256_mul(a: u8, b: u8) -> u8
    ensures { result ≡ fips.mul a b }
{
    Field::Fips197.mul(a, b)
}

// The byte, and whether there is one.
fn give_byte(found: Option<u8>, byte: &mut u8) -> bool
    ensures { QuotientGiven found byte.old result byte.new }
{
    if let Some(b) = found {
        *byte = b;
    }
    found.is_some()
}

// The inverse: zero has none.
pub fn rlnc_gf256_inv(a: u8, inverse: &mut u8) -> bool
    ensures { QuotientGiven (inverse_of fips.inv a) inverse.old result inverse.new }
{
    give_byte(Field::Fips197.inv(a), inverse)
}

// The quotient: division by zero has none.
pub fn rlnc_gf256_div(a: u8, b: u8, quotient: &mut u8) -> bool
    ensures { QuotientGiven (quotient_of fips.mul fips.inv a b) quotient.old result quotient.new }
{
    give_byte(Field::Fips197.div(a, b), quotient)
}

pub fn rlnc_inplace_mul_vec_by_scalar(vec: &mut [u8], scalar: u8)
    ensures { Scaled fips scalar vec.old vec.new }
{
    rows::inplace_mul_vec_by_scalar(Field::Fips197, vec, scalar);
}

pub fn rlnc_inplace_add_vectors(dst: &mut [u8], src: &[u8]) -> u8
    ensures { Numbered (λ a. Summed src.now dst.old a dst.new) (lengths_answer src.now dst.old) result }
{
    answers::number(rows::inplace_add_vectors(dst, src))
}

pub fn rlnc_mul_vec_by_scalar_then_add_into_vec(dst: &mut [u8], src: &[u8], scalar: u8) -> u8
    ensures { Numbered (λ a. Added fips scalar src.now dst.old a dst.new) (lengths_answer src.now dst.old) result }
{
    answers::number(rows::mul_vec_by_scalar_then_add_into_vec(Field::Fips197, dst, src, scalar))
}

pub fn rlnc_mul_part_by_scalar_then_add_into_part(
    buffer: &mut [u8],
    from: usize,
    to: usize,
    len: usize,
    scalar: u8,
) -> u8
    ensures { Numbered (λ a. PartAdded fips scalar (record { from = from; to = to; len = len }) buffer.old a buffer.new) (parts_answer (record { from = from; to = to; len = len }) buffer.old) result }
{
    answers::number(rows::mul_part_by_scalar_then_add_into_part(
        Field::Fips197,
        buffer,
        Parts { from, to, len },
        scalar,
    ))
}

pub fn rlnc_combine(rows: &[u8], numbers: &[u8], out: &mut [u8]) -> u8
    ensures { Numbered (λ a. Combined fips rows.now numbers.now out.old a out.new) (pick (leb (length numbers.now * length out.old) (length rows.now)) (Ok tt) (Err BadState)) result }
{
    answers::number(rows::combine(Field::Fips197, rows, numbers, out))
}
