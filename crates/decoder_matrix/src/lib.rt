// The decoder's matrix, ported from src/full/decoder_matrix.rs: the row rules on one lent buffer. `elements` is lent beside the record,
// and its first rows · cols bytes are the rows held.
#![tactic(auto)]

ghost use Rattle.std.specs.Prelude.{◌≡◌};
ghost use Rattle.field.specs.FieldOf.{field_of};
ghost use Rattle.decoder_matrix.specs.Matrix.{sizes_fit};
ghost use Rattle.decoder_matrix.specs.Outcomes.{RowAdded, Swapped, Reduced};

use answers::{Answer, RLNCError};
use field::Field;
use rules::Held;

mod rules;

// The buffer is no part of the record: the caller of the decoder, C among them, lends it at each call, and there is no heap.
#[derive(Clone, Copy, PartialEq, Eq, Debug)]
pub struct DecoderMatrix {
    pub num_pieces_coded_together: usize,
    pub rows: usize,
    pub cols: usize,
}

impl DecoderMatrix {
    // The row stored behind those held.
    #[tactic(auto, using(crate::proofs::Sizes::place_in))]
    pub fn add_row(mut self, elements: &mut [u8], row: &[u8]) -> Result<DecoderMatrix, RLNCError>
        ensures { RowAdded self elements.old row.now result elements.new }
    {
        if !self.sizes_fit(elements.len()) || self.num_pieces_coded_together <= self.rows {
            return Err(RLNCError::BadState);
        }
        if row.len() != self.cols {
            return Err(RLNCError::InvalidPieceLength);
        }
        let a = self.rows * self.cols;
        elements[a..a + self.cols].copy_from_slice(row);
        self.rows += 1;
        Ok(self)
    }

    // Exchanges two rows held.
    pub fn swap_rows(self, elements: &mut [u8], row1_idx: usize, row2_idx: usize) -> Answer
        ensures { Swapped self elements.old row1_idx row2_idx result elements.new }
    {
        if !self.sizes_fit(elements.len()) || self.rows <= row1_idx || self.rows <= row2_idx {
            return Err(RLNCError::BadState);
        }
        let mut held = Held {
            matrix: self,
            elements,
        };
        held.swap_rows(row1_idx, row2_idx);
        Ok(())
    }

    // The three row rules: the rows that are left, and zeros behind them.
    pub fn rref(self, f: Field, elements: &mut [u8]) -> Result<DecoderMatrix, RLNCError>
        ensures { Reduced (field_of f) self elements.old result elements.new }
    {
        if !self.sizes_fit(elements.len()) {
            return Err(RLNCError::BadState);
        }
        let mut held = Held {
            matrix: self,
            elements,
        };
        held.clean_forward(f);
        held.clean_backward(f);
        held.remove_zero_rows();
        Ok(held.matrix)
    }

    // rows ≤ k ≤ cols, and k rows fit into n bytes. Each caller makes the test itself. Tried: one function from `self` and `elements` to
    // `Result<Held, RLNCError>`. Its clause that Err leaves the buffer as it was has no proof: the check finds none for such a body.
    #[tactic(auto, unfolding(crate::specs::Matrix::sizes_fit))]
    fn sizes_fit(self, n: usize) -> bool
        ensures { result ≡ sizes_fit self n }
    {
        let k = self.num_pieces_coded_together;
        self.rows <= k && k <= self.cols && k.checked_mul(self.cols).is_some_and(|size| size <= n)
    }
}
