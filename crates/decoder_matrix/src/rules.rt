// The three row rules, on a matrix and the buffer lent beside it.
#![tactic(auto)]

ghost use Rattle.std.specs.Prelude.{◌≡◌, ◌+◌, ◌≤◌, true, length};
ghost use Rattle.rows.specs.Parts.{part_at, put_part};
ghost use Rattle.decoder_matrix.specs.Matrix.{sizes_fit};

use crate::DecoderMatrix;
use field::Field;
use rows::Parts;
use std::ops::Range;

// A matrix, and the buffer lent with room for its k rows. That a row is one of those held is a fact of an index, not of this record: five
// functions require it of theirs.
#[derive(Drop)]
pub(crate) struct Held<'a> {
    pub(crate) matrix: DecoderMatrix,
    pub(crate) elements: &'a mut [u8],
    ghost fits: { sizes_fit matrix (length elements.now) ≡ true },
}

impl Held<'_> {
    ghost use Rattle.std.specs.Prelude.{◌≡◌, ◌≤◌, ◌<◌, [], length, take, set, get_or};
    ghost use Rattle.field.specs.FieldOf.{field_of};
    ghost use Rattle.linear.specs.Rows.{all_zero, swap_rows, forward, backward_at, backward};
    ghost use Rattle.decoder_matrix.specs.Matrix.{k_of, rows_in};
    ghost use Rattle.decoder_matrix.specs.Steps.{Applied, Emptied, IsPivot, Clears, clear_range};

    // Rule 1.
    pub(crate) fn clean_forward(&mut self, f: Field)
        ensures { Applied (forward (field_of f) self.old.matrix.rows) self.old self.new }
    {
        let n = self.matrix.rows;
        for i in 0..n {
            let Some(j) = self.pivot(i) else {
                continue;
            };
            self.swap_rows(i, j);
            self.clear_rows(f, i, i + 1..n);
        }
    }

    // The first row from i on whose entry in column i is not 0.
    fn pivot(&self, i: usize) -> Option<usize>
        requires { i < self.now.matrix.rows }
        ensures { IsPivot i (rows_in self.now.matrix self.now.elements.now) result }
    {
        let cols = self.matrix.cols;
        (i..self.matrix.rows).find(|&j| self.elements[j * cols + i] != 0)
    }

    // Two rows held change places.
    #[tactic(auto, using(crate::proofs::Sizes::row_in))]
    pub(crate) fn swap_rows(&mut self, i: usize, j: usize)
        requires i_is_held { i < self.old.matrix.rows }
        requires j_is_held { j < self.old.matrix.rows }
        ensures { Applied (λ rows. swap_rows rows i j) self.old self.new }
    {
        if i == j {
            return;
        }
        let cols = self.matrix.cols;
        let first = i.min(j);
        let last = i.max(j);
        swap_parts(self.elements, first * cols, last * cols, cols);
    }

    // Adds to each of the rows the multiple of row i that clears its column. A row whose entry is 0 already is left alone.
    #[tactic(auto, using(crate::proofs::Sizes::row_in, crate::proofs::Sizes::byte_in))]
    fn clear_rows(&mut self, f: Field, i: usize, rows: Range<usize>)
        requires { Clears self.old i rows }
        ensures { Applied (clear_range (field_of f) rows.start rows.end i) self.old self.new }
    {
        let cols = self.matrix.cols;
        // A local, so that the loop doesn't read from `self` at each row where the buffer lies.
        let elements = &mut *self.elements;
        let from = i * cols;
        let inverse = f.inv(elements[from + i]).unwrap();
        for j in rows {
            let to = j * cols;
            let x = elements[to + i];
            if x == 0 {
                continue;
            }
            let parts = Parts {
                from,
                to,
                len: cols,
            };
            let q = f.mul(x, inverse);
            rows::mul_part_by_scalar_then_add_into_part(f, elements, parts, q).unwrap();
        }
    }

    // Rule 2.
    pub(crate) fn clean_backward(&mut self, f: Field)
        ensures { Applied (backward (field_of f) self.old.matrix.rows) self.old self.new }
    {
        for i in (0..self.matrix.rows).rev() {
            self.clear_above(f, i);
        }
    }

    // Rule 2 at i.
    #[tactic(auto, using(crate::proofs::Sizes::row_in, crate::proofs::Sizes::byte_in))]
    fn clear_above(&mut self, f: Field, i: usize)
        requires { i < self.old.matrix.rows }
        ensures { Applied (backward_at (field_of f) i) self.old self.new }
    {
        let cols = self.matrix.cols;
        let a = i * cols;
        let Some(inverse) = f.inv(self.elements[a + i]) else {
            return;
        };
        self.clear_rows(f, i, 0..i);
        rows::inplace_mul_vec_by_scalar(f, &mut self.elements[a..a + cols], inverse);
    }

    // Rule 3: the rows kept are moved to the front in their order, and the area behind them is cleared. `kept` is counted by hand: no `retain`
    // works on the rows of a buffer.
    #[tactic(auto, using(crate::proofs::Sizes::room_in))]
    pub(crate) fn remove_zero_rows(&mut self)
        ensures { Emptied self.old self.new }
    {
        let k = self.matrix.num_pieces_coded_together;
        let cols = self.matrix.cols;
        let mut kept = 0;
        for j in 0..self.matrix.rows {
            if self.is_empty_row(j) {
                continue;
            }
            self.move_row(j, kept);
            kept += 1;
        }
        self.elements[kept * cols..k * cols].fill(0);
        self.matrix.rows = kept;
    }

    // The coefficients of row j are all 0.
    #[tactic(auto, using(crate::proofs::Sizes::coefficients_in))]
    fn is_empty_row(&self, j: usize) -> bool
        requires { j < self.now.matrix.rows }
        ensures { result ≡ all_zero (take (k_of self.now.matrix) (get_or (rows_in self.now.matrix self.now.elements.now) j [])) }
    {
        let a = j * self.matrix.cols;
        rows::is_zero(&self.elements[a..a + self.matrix.num_pieces_coded_together])
    }

    // Row `from` copied over row `to`, which is before it. Where both are the same, most often, nothing is left to copy.
    #[tactic(auto, using(crate::proofs::Sizes::row_in))]
    fn move_row(&mut self, from: usize, to: usize)
        requires order { to ≤ from }
        requires is_held { from < self.old.matrix.rows }
        ensures { Applied (λ rows. set rows to (get_or rows from [])) self.old self.new }
    {
        if from == to {
            return;
        }
        let cols = self.matrix.cols;
        let a = from * cols;
        self.elements.copy_within(a..a + cols, to * cols);
    }
}

// The len bytes from a on and those from b on change places.
fn swap_parts(bytes: &mut [u8], a: usize, b: usize, len: usize)
    requires apart { a + len ≤ b }
    requires inside { b + len ≤ length bytes.old }
    ensures { bytes.new ≡ put_part b len (part_at a len bytes.old) (put_part a len (part_at b len bytes.old) bytes.old) }
{
    let (front, back) = bytes.split_at_mut(b);
    front[a..a + len].swap_with_slice(&mut back[..len]);
}
