// The field of FIPS 197, ported from src/common/gf256.rs: addition is exclusive or, and the product goes by a table of logarithms to the
// base 3 and one of the powers of 3.
#![tactic(auto)]

ghost use Rattle.std.specs.Prelude.{◌≡◌, ◌<◌};
ghost use Rattle.galois.specs.Gf.{◌⊕◌, mul, inv as inverse};
ghost use Rattle.galois.specs.Tables.{exp_entry, LogEntry};
ghost use Rattle.galois.specs.Quotient.{inverse_of, quotient_of};
ghost use Rattle.gf256.specs.Fips197.{polynomial, generator};

use std::ops::{Add, Div, Mul, Neg, Sub};
use tables::{GF256_EXP_TABLE, GF256_LOG_TABLE};

mod tables;

pub const GF256_ORDER: usize = 256;

// Entry i of the exponent table.
fn exp_at(i: usize) -> u8
    requires { i < 510 }
    ensures { result ≡ exp_entry polynomial generator i }
{
    GF256_EXP_TABLE[i]
}

// The log table's entry of a.
fn log_at(a: u8) -> usize
    ensures { LogEntry polynomial generator a result }
{
    GF256_LOG_TABLE[a as usize] as usize
}

// An element of the field.
#[derive(Clone, Copy, PartialEq, Eq, Debug)]
pub struct Gf256 {
    pub val: u8,
}

impl Gf256 {
    pub fn new(val: u8) -> Self
        ensures { result.val ≡ val }
    {
        Gf256 { val }
    }

    pub fn get(self) -> u8
        ensures { result ≡ self.val }
    {
        self.val
    }

    pub fn zero() -> Self
        ensures { result.val ≡ 0 }
    {
        Gf256 { val: 0 }
    }

    pub fn one() -> Self
        ensures { result.val ≡ 1 }
    {
        Gf256 { val: 1 }
    }

    pub fn primitive_element() -> Self
        ensures { result.val ≡ generator }
    {
        Gf256 { val: 3 }
    }

    // The product of two bytes.
    #[tactic(auto, using(crate::proofs::Products::zero_left, crate::proofs::Products::zero_right, crate::proofs::Products::one_right))]
    pub fn mul_const(a: u8, b: u8) -> u8
        ensures { result ≡ mul polynomial a b }
    {
        if a == 0 || b == 0 {
            return 0;
        }
        // The rows that a decoder holds have pivots of 1, and a use of a table copies it to the stack first.
        if b == 1 {
            return a;
        }
        exp_at(log_at(a) + log_at(b))
    }

    // a times x, with no table.
    #[tactic(auto, using(crate::proofs::Products::times_x_low, crate::proofs::Products::times_x_high))]
    pub fn times_x(a: u8) -> u8
        ensures { result ≡ mul polynomial 2 a }
    {
        if a < 128 { a * 2 } else { (a - 128) * 2 ^ 0x1b }
    }

    // Zero has none.
    #[tactic(auto, using(galois::proofs::Divided::inverse_none, crate::proofs::Products::inverse_one))]
    pub fn inv(self) -> Option<u8>
        ensures { result ≡ inverse_of (inverse polynomial) self.val }
    {
        let a = self.val;
        if a == 0 {
            return None;
        }
        // With no table, as in mul_const.
        if a == 1 {
            return Some(1);
        }
        Some(exp_at(255 - log_at(a)))
    }
}

impl Add for Gf256 {
    type Output = Gf256;

    ghost add_gives = { λ a b r. r.val ≡ a.val ⊕ b.val };

    fn add(self, rhs: Gf256) -> Gf256 {
        Gf256::new(self.val ^ rhs.val)
    }
}

// Each element is its own negative.
impl Neg for Gf256 {
    type Output = Gf256;

    ghost neg_gives = { λ a r. r.val ≡ a.val };

    fn neg(self) -> Gf256 {
        self
    }
}

// A difference is a sum.
impl Sub for Gf256 {
    type Output = Gf256;

    ghost sub_gives = { λ a b r. r.val ≡ a.val ⊕ b.val };

    fn sub(self, rhs: Gf256) -> Gf256 {
        self + rhs
    }
}

impl Mul for Gf256 {
    type Output = Gf256;

    ghost mul_gives = { λ a b r. r.val ≡ mul polynomial a.val b.val };

    fn mul(self, rhs: Gf256) -> Gf256 {
        Gf256::new(Gf256::mul_const(self.val, rhs.val))
    }
}

// Zero divides nothing.
impl Div for Gf256 {
    type Output = Option<u8>;

    ghost div_gives = { λ a b r. r ≡ quotient_of (mul polynomial) (inverse polynomial) a.val b.val };

    #[tactic(auto, using(galois::proofs::Divided::quotient_none))]
    fn div(self, rhs: Gf256) -> Option<u8> {
        let i = rhs.inv()?;
        Some(Gf256::mul_const(self.val, i))
    }
}
