// Arithmetic of single bytes and of rows.
ghost use Rattle.std.specs.Prelude.{◌≡◌, ◌*◌, leb, length, Ok, Err};
ghost use Rattle.answers.specs.declared.RLNCError.TheVariants.{BadState};
ghost use Rattle.linear.specs.Choice.{pick};
ghost use Rattle.galois.specs.Quotient.{inverse_of, quotient_of};
ghost use Rattle.gf256.proofs.Known.{fips};
ghost use Rattle.rows.specs.Outcomes.{lengths_answer, parts_answer, Scaled, Summed, Added, PartAdded};
ghost use Rattle.rows.specs.Combining.{Combined};
ghost use Rattle.rlnc.specs.Numbered.{Numbered};
ghost use Rattle.rlnc.specs.Given.{QuotientGiven};

// The product.
#[unsafe(no_mangle)]
pub extern "C" fn rlnc_gf256_mul(a: u8, b: u8) -> u8
    ensures { result ≡ fips.mul a b }
{
    rlnc::rlnc_gf256_mul(a, b)
}

// The inverse: zero has none.
#[unsafe(no_mangle)]
pub extern "C" fn rlnc_gf256_inv(a: u8, inverse: &mut u8) -> bool
    ensures { QuotientGiven (inverse_of fips.inv a) inverse.old result inverse.new }
{
    rlnc::rlnc_gf256_inv(a, inverse)
}

// The quotient: division by zero has none.
#[unsafe(no_mangle)]
pub extern "C" fn rlnc_gf256_div(a: u8, b: u8, quotient: &mut u8) -> bool
    ensures { QuotientGiven (quotient_of fips.mul fips.inv a b) quotient.old result quotient.new }
{
    rlnc::rlnc_gf256_div(a, b, quotient)
}

#[unsafe(no_mangle)]
pub extern "C" fn rlnc_inplace_mul_vec_by_scalar(vec: &mut [u8], scalar: u8)
    ensures { Scaled fips scalar vec.old vec.new }
{
    rlnc::rlnc_inplace_mul_vec_by_scalar(vec, scalar);
}

#[unsafe(no_mangle)]
pub extern "C" fn rlnc_inplace_add_vectors(dst: &mut [u8], src: &[u8]) -> u8
    ensures { Numbered (λ a. Summed src.now dst.old a dst.new) (lengths_answer src.now dst.old) result }
{
    rlnc::rlnc_inplace_add_vectors(dst, src)
}

#[unsafe(no_mangle)]
pub extern "C" fn rlnc_mul_vec_by_scalar_then_add_into_vec(
    dst: &mut [u8],
    src: &[u8],
    scalar: u8,
) -> u8
    ensures { Numbered (λ a. Added fips scalar src.now dst.old a dst.new) (lengths_answer src.now dst.old) result }
{
    rlnc::rlnc_mul_vec_by_scalar_then_add_into_vec(dst, src, scalar)
}

#[unsafe(no_mangle)]
pub extern "C" fn rlnc_mul_part_by_scalar_then_add_into_part(
    buffer: &mut [u8],
    from: usize,
    to: usize,
    len: usize,
    scalar: u8,
) -> u8
    ensures { Numbered (λ a. PartAdded fips scalar (record { from = from; to = to; len = len }) buffer.old a buffer.new) (parts_answer (record { from = from; to = to; len = len }) buffer.old) result }
{
    rlnc::rlnc_mul_part_by_scalar_then_add_into_part(buffer, from, to, len, scalar)
}

#[unsafe(no_mangle)]
pub extern "C" fn rlnc_combine(rows: &[u8], numbers: &[u8], out: &mut [u8]) -> u8
    ensures { Numbered (λ a. Combined fips rows.now numbers.now out.old a out.new) (pick (leb (length numbers.now * length out.old) (length rows.now)) (Ok tt) (Err BadState)) result }
{
    rlnc::rlnc_combine(rows, numbers, out)
}
