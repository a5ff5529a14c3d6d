// The block that k rows hold, read where it stands: the payload of row i is the block's bytes from i * len on.
#![tactic(auto)]

ghost use Rattle.std.specs.Prelude.{◌≡◌, ◌+◌, ◌*◌, ◌<◌, ◌≤◌, length, take, drop, IfOk};
ghost use Rattle.linear.specs.Rows.{all_zero};
ghost use Rattle.block.specs.Padding.{marker};
ghost use Rattle.block.specs.Reading.{last_marker, reading};

use block::{BOUNDARY_MARKER, BrokenPadding};

#[derive(Clone, Copy)]
pub(crate) struct BlockIn<'a> {
    pub(crate) k: usize,
    pub(crate) len: usize,
    pub(crate) elements: &'a [u8],
    ghost some_bytes: { 0 < len },
    ghost room: { k * (k + len) ≤ length elements.now },
}

impl<'a> BlockIn<'a> {
    ghost use Rattle.decoder.specs.Payloads.{bytes};

    #[tactic(auto, using(crate::proofs::Payload::payload_at))]
    fn payload(&self, i: usize) -> &'a [u8]
        requires { i < self.now.k }
        ensures size { length result.now ≡ self.now.len }
        ensures here { result.now ≡ take self.now.len (drop (i * self.now.len) (bytes self.now)) }
    {
        let from = i * (self.k + self.len) + self.k;
        &self.elements[from..][..self.len]
    }

    // What the padding of the block tells.
    #[tactic(auto, using(crate::proofs::Marker::index_in, crate::proofs::Payload::length_bytes, crate::proofs::Payload::bytes_within, crate::proofs::Search::reads_none, crate::proofs::Search::reads_zero, crate::proofs::Search::reads_tail, crate::proofs::Search::reads_data))]
    pub(crate) fn data_len(&self) -> Result<usize, BrokenPadding>
        ensures told { result ≡ reading marker (bytes self.now) }
        ensures inside { IfOk result (λ n. n < self.now.k * self.now.len) }
    {
        let Some(n) = self.find_marker() else {
            return Err(BrokenPadding::MarkerAbsent);
        };
        if n == 0 {
            return Err(BrokenPadding::MarkerFirst);
        }
        if !self.is_zero_from(n + 1) {
            return Err(BrokenPadding::TailNotZero);
        }
        Ok(n)
    }

    // The index of the block's last marker. Not inlined, as `copy_to`: in one body with it LLVM spends two more instructions on each byte.
    // Tried: `(0..k).rev().find_map(..)`. The proof does not close: it does not know that the closure is called for rows below k alone.
    #[tactic(auto, using(crate::proofs::Marker::index_in, crate::proofs::Payload::bytes_within, crate::proofs::Search::none_behind, crate::proofs::Search::row_marked, crate::proofs::Search::row_unmarked))]
    #[inline(never)]
    fn find_marker(&self) -> Option<usize>
        ensures { result ≡ last_marker marker (bytes self.now) }
    {
        for i in (0..self.k).rev() {
            if let Some(j) = last_marker(self.payload(i)) {
                return Some(i * self.len + j);
            }
        }
        None
    }

    // Whether the block's bytes from `at` on are zero: the rest of a row, then the rows behind it.
    // Tried: `(at / len..k).all(..)`. The proof does not close: zeros row by row have to be those of the block.
    fn is_zero_from(&self, at: usize) -> bool
        ensures { result ≡ all_zero (drop at (bytes self.now)) }
    {
        for i in at / self.len..self.k {
            let skip = at.saturating_sub(i * self.len);
            if !rows::is_zero(&self.payload(i)[skip..]) {
                return false;
            }
        }
        true
    }

    // The block's first bytes, as many as `data` has: from the rows that hold them, and no others.
    // Tried: `chunks_mut`. A proof does not see what was written through its parts.
    #[inline(never)]
    #[tactic(auto, using(crate::proofs::Copying::needed))]
    pub(crate) fn copy_to(&self, data: &mut [u8])
        requires { length «data».old ≤ self.now.k * self.now.len }
        ensures { «data».new ≡ take (length «data».old) (bytes self.now) }
    {
        for i in 0..data.len().div_ceil(self.len) {
            let at = i * self.len;
            let n = self.len.min(data.len() - at);
            data[at..at + n].copy_from_slice(&self.payload(i)[..n]);
        }
    }
}

fn last_marker(part: &[u8]) -> Option<usize>
    ensures { result ≡ last_marker marker part.now }
{
    part.iter().rposition(|&b| b == BOUNDARY_MARKER)
}
