// Calls that keep nothing: the field, the row helpers, and the rules on a matrix that the script gives.
use super::{Call, say};
use answers::RLNCError;
use decoder_matrix::DecoderMatrix;
use field::Field;
use gf256::Gf256;
use rows::Parts;

pub(crate) fn call(rt: &HostRuntime, c: Call, a: &mut [u8], b: &[u8]) {
    asked(rt, c, a, b);
    say::bytes(rt, a);
    say::bytes(rt, b);
}

// What is asked, and what was answered is said.
fn asked(rt: &HostRuntime, c: Call, a: &mut [u8], b: &[u8]) {
    match c.op {
        1 => field(rt, low(c.p)),
        2 => {
            rows::inplace_mul_vec_by_scalar(Field::Fips197, a, low(c.p));
            say::answer(rt, Ok(()));
        }
        3 => say::answer(rt, rows::inplace_add_vectors(a, b)),
        4 => say::answer(
            rt,
            rows::mul_vec_by_scalar_then_add_into_vec(Field::Fips197, a, b, low(c.p)),
        ),
        5 => part(rt, c, a),
        6 => matrix(rt, of(c).add_row(a, b)),
        7 => say::answer(rt, of(c).swap_rows(a, c.s, c.t)),
        8 => matrix(rt, of(c).rref(Field::Fips197, a)),
        _ => say::answer(rt, Ok(())),
    }
}

// No plainer: std has no name for it.
fn low(n: usize) -> u8 {
    (n & 0xff) as u8
}

fn hex(rt: &HostRuntime, n: u8) {
    let _ = print!(rt; "{n:02x}");
}

// The products of a byte and every byte, its quotients by every byte, and its inverse.
fn field(rt: &HostRuntime, x: u8) {
    say::put(rt, b" ");
    for y in 0..=u8::MAX {
        hex(rt, Gf256::mul_const(x, y));
    }
    say::put(rt, b" ");
    for y in 0..=u8::MAX {
        quotient(rt, Gf256::new(x) / Gf256::new(y));
    }
    say::put(rt, b" ");
    quotient(rt, Gf256::new(x).inv());
}

fn quotient(rt: &HostRuntime, q: Option<u8>) {
    match q {
        Some(v) => hex(rt, v),
        None => say::put(rt, b"--"),
    }
}

fn part(rt: &HostRuntime, c: Call, buffer: &mut [u8]) {
    let parts = Parts {
        from: c.p,
        to: c.q,
        len: c.r,
    };
    let r = rows::mul_part_by_scalar_then_add_into_part(Field::Fips197, buffer, parts, low(c.s));
    say::answer(rt, r);
}

// No `From<Call>`: what the numbers mean is the call's.
fn of(c: Call) -> DecoderMatrix {
    DecoderMatrix {
        num_pieces_coded_together: c.p,
        rows: c.q,
        cols: c.r,
    }
}

fn matrix(rt: &HostRuntime, made: Result<DecoderMatrix, RLNCError>) {
    say::answer(rt, made);
    if let Ok(now) = made {
        say::number(rt, now.num_pieces_coded_together);
        say::number(rt, now.rows);
        say::number(rt, now.cols);
    }
}
