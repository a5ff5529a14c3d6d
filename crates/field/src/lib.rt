// The field named by value: the rows and all that stands on them take it as a parameter. Another field is a crate of tables below
// this one and a case here.
#![tactic(auto)]

ghost use Rattle.std.specs.Prelude.{◌≡◌};
ghost use Rattle.galois.specs.Quotient.{inverse_of, quotient_of};
ghost use Rattle.galois.specs.Multiples.{multiples_of};
ghost use Rattle.field.specs.FieldOf.{field_of};

use gf256::Gf256;

// An enum with one case, and no trait: a value can name the field, and a stream's kind will choose it at run time (docs/DECISIONS.md).
#[derive(Clone, Copy, PartialEq, Eq, Debug)]
pub enum Field {
    Fips197,
}

impl Field {
    pub fn mul(self, a: u8, b: u8) -> u8
        ensures { result ≡ (field_of self).mul a b }
    {
        match self {
            Field::Fips197 => Gf256::mul_const(a, b),
        }
    }

    pub fn inv(self, a: u8) -> Option<u8>
        ensures { result ≡ inverse_of (field_of self).inv a }
    {
        match self {
            Field::Fips197 => Gf256::new(a).inv(),
        }
    }

    pub fn div(self, a: u8, b: u8) -> Option<u8>
        ensures { result ≡ quotient_of (field_of self).mul (field_of self).inv a b }
    {
        match self {
            Field::Fips197 => Gf256::new(a) / Gf256::new(b),
        }
    }

    // a times x.
    pub fn times_x(self, a: u8) -> u8
        ensures { result ≡ (field_of self).mul 2 a }
    {
        match self {
            Field::Fips197 => Gf256::times_x(a),
        }
    }

    // q times 1, x, .., x^7: a product with q is the sum of those that the other factor's bits choose.
    #[tactic(auto, using(crate::proofs::Doubled::ends))]
    pub fn multiples(self, q: u8) -> [u8; 8]
        ensures { result ≡ multiples_of (field_of self) q }
    {
        // No plainer: `array::from_fn`, whose closure would change a variable and leave its index unused. `successors` makes no array.
        let mut m = [q; 8];
        for i in 1..8 {
            m[i] = self.times_x(m[i - 1]);
        }
        m
    }
}
