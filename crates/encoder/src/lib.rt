// The encoder, ported from src/full/encoder.rs: a record of the block's sizes beside the lent block, and pieces coded with the caller's
// vectors.
#![tactic(auto)]

ghost use Rattle.std.specs.Prelude.{◌≡◌, ◌+◌, ◌<◌, length, Ok, Err};
ghost use Rattle.answers.specs.declared.RLNCError.TheVariants.{SizeOverLimit};
ghost use Rattle.linear.specs.Choice.{pick};
ghost use Rattle.field.specs.FieldOf.{field_of};
ghost use Rattle.block.specs.Padding.{marker, filled};
ghost use Rattle.block.specs.Sizes.{over_limit, sized};
ghost use Rattle.block.specs.Counts.{counted};
ghost use Rattle.encoder.specs.Made.{made};
ghost use Rattle.encoder.specs.Entries.{NewPadded, NewUnpadded, bad_state, Coded, CodedWhole};

use answers::{Answer, RLNCError};
use block::BOUNDARY_MARKER;
use block::judged::Judged;
use field::Field;

// Callers, C among them, may put any numbers in: each method looks at them first (`Judged`).
// The block is lent at each call and no field: for C, and since there is no heap.
#[derive(Clone, Copy, PartialEq, Eq, Debug)]
pub struct Encoder {
    pub piece_count: usize,
    pub piece_byte_len: usize,
}

impl Judged for Encoder {
    ghost sound = { λ e. sized e.piece_count e.piece_byte_len };

    ghost bad_state = { bad_state };

    fn is_sound(self) -> bool {
        block::sizes_fit(self.piece_count, self.piece_byte_len)
    }

    // n is the length of the block that is lent.
    #[tactic(auto, using(block::proofs::Bounds::within, block::proofs::Bounds::block_within), unfolding(crate::specs::Entries::bad_state))]
    fn fits(self, n: usize) -> bool {
        self.is_sound() && self.piece_count * self.piece_byte_len <= n
    }
}

// The data, the marker, then zeros to the end of the block.
fn pad(data: &[u8], block: &mut [u8])
    requires { length «data».now < length block.old }
    ensures { block.new ≡ filled marker (length block.old) «data».now }
{
    let n = data.len();
    block[..n].copy_from_slice(data);
    block[n] = BOUNDARY_MARKER;
    block[n + 1..].fill(0);
}

impl Encoder {
    // Refused where the sizes are over their limits.
    #[tactic(auto, unfolding(crate::specs::Made::made))]
    fn of(piece_count: usize, piece_byte_len: usize) -> Result<Encoder, RLNCError>
        ensures { result ≡ made (pick (over_limit piece_count piece_byte_len) (Err SizeOverLimit) (Ok tt)) piece_count piece_byte_len }
    {
        if block::over_limit(piece_count, piece_byte_len) {
            return Err(RLNCError::SizeOverLimit);
        }
        Ok(Encoder {
            piece_count,
            piece_byte_len,
        })
    }

    // Pads the data into the lent block.
    #[tactic(auto, using(block::proofs::Filling::round_up), unfolding(crate::specs::Entries::padded_refusal, crate::specs::Made::made))]
    pub fn new(data: &[u8], block: &mut [u8], piece_count: usize) -> Result<Encoder, RLNCError>
        ensures { NewPadded marker «data».now block.old piece_count result block.new }
    {
        let n = data.len();
        if data.is_empty() {
            return Err(RLNCError::DataLengthZero);
        }
        if piece_count == 0 {
            return Err(RLNCError::PieceCountZero);
        }
        // (n + 1) / piece_count rounded up
        let piece_byte_len = n / piece_count + 1;
        let encoder = Encoder::of(piece_count, piece_byte_len)?;
        let size = piece_count * piece_byte_len;
        if block.len() < size {
            return Err(RLNCError::NoRoom);
        }
        pad(data, &mut block[..size]);
        Ok(encoder)
    }

    // The data is the block already.
    #[tactic(auto, unfolding(crate::specs::Entries::unpadded_refusal, crate::specs::Made::made))]
    pub fn without_padding(data: &[u8], piece_count: usize) -> Result<Encoder, RLNCError>
        ensures { NewUnpadded (length «data».now) piece_count result }
    {
        let n = data.len();
        if data.is_empty() {
            return Err(RLNCError::DataLengthZero);
        }
        if piece_count == 0 {
            return Err(RLNCError::PieceCountZero);
        }
        if n % piece_count != 0 {
            return Err(RLNCError::DataLengthMismatch);
        }
        Encoder::of(piece_count, n / piece_count)
    }

    #[tactic(auto, unfolding(block::specs::Counts::counted))]
    pub fn get_piece_count(self) -> Result<usize, RLNCError>
        ensures { result ≡ counted (sized self.piece_count self.piece_byte_len) self.piece_count }
    {
        self.checked()?;
        Ok(self.piece_count)
    }

    #[tactic(auto, unfolding(block::specs::Counts::counted))]
    pub fn get_piece_byte_len(self) -> Result<usize, RLNCError>
        ensures { result ≡ counted (sized self.piece_count self.piece_byte_len) self.piece_byte_len }
    {
        self.checked()?;
        Ok(self.piece_byte_len)
    }

    #[tactic(auto, using(block::proofs::Bounds::within), unfolding(block::specs::Counts::counted))]
    pub fn get_full_coded_piece_byte_len(self) -> Result<usize, RLNCError>
        ensures { result ≡ counted (sized self.piece_count self.piece_byte_len) (self.piece_count + self.piece_byte_len) }
    {
        self.checked()?;
        Ok(self.piece_count + self.piece_byte_len)
    }

    // The payload of the piece that the vector codes.
    #[tactic(auto, unfolding(crate::specs::Entries::code_refusal))]
    pub fn code_with_coding_vector(
        self,
        f: Field,
        block: &[u8],
        coding_vector: &[u8],
        coded_data: &mut [u8],
    ) -> Answer
        ensures { Coded (field_of f) self block.now coding_vector.now coded_data.old result coded_data.new }
    {
        self.admit(block)?;
        if coding_vector.len() != self.piece_count {
            return Err(RLNCError::CodingVectorLengthMismatch);
        }
        if coded_data.len() != self.piece_byte_len {
            return Err(RLNCError::InvalidOutputBuffer);
        }
        rows::combine(f, block, coding_vector, coded_data)
    }

    // The whole piece: the vector, then the payload that it codes. Its own tests: `code_whole_refusal` has the lengths in another order
    // than `code_refusal`.
    #[tactic(auto, unfolding(crate::specs::Entries::code_whole_refusal))]
    pub fn code_with_buf(
        self,
        f: Field,
        block: &[u8],
        coding_vector: &[u8],
        full_coded_piece: &mut [u8],
    ) -> Answer
        ensures { CodedWhole (field_of f) self block.now coding_vector.now full_coded_piece.old result full_coded_piece.new }
    {
        let k = self.piece_count;
        self.admit(block)?;
        if full_coded_piece.len() != k + self.piece_byte_len {
            return Err(RLNCError::InvalidOutputBuffer);
        }
        if coding_vector.len() != k {
            return Err(RLNCError::CodingVectorLengthMismatch);
        }
        full_coded_piece[..k].copy_from_slice(coding_vector);
        rows::combine(f, block, coding_vector, &mut full_coded_piece[k..])
    }
}
