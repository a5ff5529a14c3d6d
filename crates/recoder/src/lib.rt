// The recoder, ported from src/full/recoder.rs: a record of the sizes beside the lent pieces, and pieces made of them with the caller's
// numbers, coefficients included. Bytes after the last whole piece are ignored.
#![tactic(auto)]

ghost use Rattle.std.specs.Prelude.{◌≡◌, ◌-◌, length};
ghost use Rattle.field.specs.FieldOf.{field_of};
ghost use Rattle.block.specs.Counts.{counted};
ghost use Rattle.recoder.specs.Entries.{NewRecoder, sound, bad_state, Recoded};

use answers::{Answer, RLNCError};
use block::judged::Judged;
use field::Field;

// Callers, C among them, may put any numbers in: each method looks at them first (`Judged`).
// The pieces are lent at each call and no field: for C, and since there is no heap.
#[derive(Clone, Copy, PartialEq, Eq, Debug)]
pub struct Recoder {
    pub num_pieces_received: usize,
    pub full_coded_piece_byte_len: usize,
    pub num_pieces_coded_together: usize,
}

impl Judged for Recoder {
    ghost sound = { sound };

    ghost bad_state = { bad_state };

    #[tactic(auto, unfolding(crate::specs::Entries::sound))]
    fn is_sound(self) -> bool {
        let k = self.num_pieces_coded_together;
        let width = self.full_coded_piece_byte_len;
        k < width
            && self.num_pieces_received != 0
            && self.num_pieces_received <= block::MAX_PIECE_COUNT
            && block::sizes_fit(k, width - k)
    }

    // n is the length of the whole pieces that are lent.
    #[tactic(auto, using(crate::proofs::State::numbers, crate::proofs::State::pieces_within), unfolding(crate::specs::Entries::bad_state))]
    fn fits(self, n: usize) -> bool {
        self.is_sound() && self.num_pieces_received * self.full_coded_piece_byte_len <= n
    }
}

impl Recoder {
    // For the whole pieces at the front of the data.
    #[tactic(auto, unfolding(crate::specs::Entries::new_refusal, crate::specs::Made::made))]
    pub fn new(
        data: &[u8],
        full_coded_piece_byte_len: usize,
        num_pieces_coded_together: usize,
    ) -> Result<Recoder, RLNCError>
        ensures { NewRecoder (length «data».now) full_coded_piece_byte_len num_pieces_coded_together result }
    {
        let n = data.len();
        if data.is_empty() {
            return Err(RLNCError::NotEnoughPiecesToRecode);
        }
        if full_coded_piece_byte_len == 0 {
            return Err(RLNCError::PieceLengthZero);
        }
        if num_pieces_coded_together == 0 {
            return Err(RLNCError::PieceCountZero);
        }
        if full_coded_piece_byte_len <= num_pieces_coded_together {
            return Err(RLNCError::PieceLengthTooShort);
        }
        let num_pieces_received = n / full_coded_piece_byte_len;
        if num_pieces_received == 0 {
            return Err(RLNCError::NotEnoughPiecesToRecode);
        }
        let payload = full_coded_piece_byte_len - num_pieces_coded_together;
        if block::MAX_PIECE_COUNT < num_pieces_received
            || block::over_limit(num_pieces_coded_together, payload)
        {
            return Err(RLNCError::SizeOverLimit);
        }
        Ok(Recoder {
            num_pieces_received,
            full_coded_piece_byte_len,
            num_pieces_coded_together,
        })
    }

    #[tactic(auto, unfolding(block::specs::Counts::counted))]
    pub fn get_original_num_pieces_coded_together(self) -> Result<usize, RLNCError>
        ensures { result ≡ counted (sound self) self.num_pieces_coded_together }
    {
        self.checked()?;
        Ok(self.num_pieces_coded_together)
    }

    #[tactic(auto, unfolding(block::specs::Counts::counted))]
    pub fn get_num_pieces_recoded_together(self) -> Result<usize, RLNCError>
        ensures { result ≡ counted (sound self) self.num_pieces_received }
    {
        self.checked()?;
        Ok(self.num_pieces_received)
    }

    #[tactic(auto, unfolding(block::specs::Counts::counted, crate::specs::Entries::sound))]
    pub fn get_piece_byte_len(self) -> Result<usize, RLNCError>
        ensures { result ≡ counted (sound self) (self.full_coded_piece_byte_len - self.num_pieces_coded_together) }
    {
        self.checked()?;
        Ok(self.full_coded_piece_byte_len - self.num_pieces_coded_together)
    }

    #[tactic(auto, unfolding(block::specs::Counts::counted))]
    pub fn get_full_coded_piece_byte_len(self) -> Result<usize, RLNCError>
        ensures { result ≡ counted (sound self) self.full_coded_piece_byte_len }
    {
        self.checked()?;
        Ok(self.full_coded_piece_byte_len)
    }

    // The whole pieces, each times its number, added up.
    #[tactic(auto, unfolding(crate::specs::Entries::recode_refusal))]
    pub fn recode_with_buf(
        self,
        f: Field,
        pieces: &[u8],
        recoding_vector: &[u8],
        full_recoded_piece: &mut [u8],
    ) -> Answer
        ensures { Recoded (field_of f) self pieces.now recoding_vector.now full_recoded_piece.old result full_recoded_piece.new }
    {
        self.admit(pieces)?;
        if full_recoded_piece.len() != self.full_coded_piece_byte_len {
            return Err(RLNCError::InvalidOutputBuffer);
        }
        if recoding_vector.len() != self.num_pieces_received {
            return Err(RLNCError::CodingVectorLengthMismatch);
        }
        rows::combine(f, pieces, recoding_vector, full_recoded_piece)
    }
}
