// The decoder, ported from src/full/decoder.rs: a record of sizes and counts beside the lent matrix. It takes pieces, says when it is
// complete, and recovers the data.
#![tactic(auto)]

ghost use Rattle.std.specs.Prelude.{◌≡◌, not, ◌+◌, ◌-◌, length, Ok};
ghost use Rattle.answers.specs.Number.{number_of};
ghost use Rattle.field.specs.FieldOf.{field_of};
ghost use Rattle.block.specs.Padding.{marker};
ghost use Rattle.block.specs.Counts.{counted};
ghost use Rattle.decoder.specs.Records.{sound, bad_state};
ghost use Rattle.decoder.specs.Answers.{taken_number, kept};
ghost use Rattle.decoder.specs.Entries.{NewDecoder, take_refusal, Decoded, completed, Recovery};

mod block_in;

use answers::{Answer, RLNCError};
use block::judged::Judged;
use block_in::BlockIn;
use decoder_matrix::DecoderMatrix;
use field::Field;

// No more pieces are taken than this.
const TAKEN_LIMIT: usize = 65535;

// How many rows are held.
#[derive(Clone, Copy, PartialEq, Eq, Debug)]
pub struct UsefulPieceCount(pub usize);

// How many pieces were taken.
#[derive(Clone, Copy, PartialEq, Eq, Debug)]
pub struct ReceivedPieceCount(pub usize);

// Callers, C among them, may put any numbers in: each method looks at them first (`Judged`).
// The matrix is lent at each call and no field: for C, and since there is no heap. No constructor from four numbers: the fields are public.
#[derive(Clone, Copy, PartialEq, Eq, Debug)]
pub struct Decoder {
    pub required_piece_count: usize,
    pub piece_byte_len: usize,
    pub useful_piece_count: UsefulPieceCount,
    pub received_piece_count: ReceivedPieceCount,
}

// What became of a piece that was taken: there is one row more or fewer, or there are as many as before, and the answer is 8. That is
// no refusal (docs/DECISIONS.md).
#[derive(Clone, Copy, PartialEq, Eq, Debug)]
pub enum Taken {
    Useful(Decoder),
    NotUseful(Decoder),
}

impl Judged for Decoder {
    ghost sound = { sound };

    ghost bad_state = { bad_state };

    #[tactic(auto, unfolding(crate::specs::Records::sound))]
    fn is_sound(self) -> bool {
        let k = self.required_piece_count;
        let rows = self.useful_piece_count.0;
        let taken = self.received_piece_count.0;
        block::sizes_fit(k, self.piece_byte_len)
            && rows <= k
            && rows <= taken
            && taken <= TAKEN_LIMIT
    }

    // `holds` is public and stays beside it.
    fn fits(self, n: usize) -> bool {
        self.holds(n)
    }
}

impl Decoder {
    // A decoder that has taken no piece; its matrix is cleared.
    #[tactic(auto, using(block::proofs::Bounds::limited, crate::proofs::Sound::matrix_small), unfolding(crate::specs::Entries::new_refusal))]
    pub fn new(
        piece_byte_len: usize,
        required_piece_count: usize,
        elements: &mut [u8],
    ) -> Result<Decoder, RLNCError>
        ensures { NewDecoder piece_byte_len required_piece_count elements.old result elements.new }
    {
        if piece_byte_len == 0 {
            return Err(RLNCError::PieceLengthZero);
        }
        if required_piece_count == 0 {
            return Err(RLNCError::PieceCountZero);
        }
        if block::over_limit(required_piece_count, piece_byte_len) {
            return Err(RLNCError::SizeOverLimit);
        }
        let size = required_piece_count * (required_piece_count + piece_byte_len);
        if elements.len() < size {
            return Err(RLNCError::NoRoom);
        }
        elements[..size].fill(0);
        Ok(Decoder {
            required_piece_count,
            piece_byte_len,
            useful_piece_count: UsefulPieceCount(0),
            received_piece_count: ReceivedPieceCount(0),
        })
    }

    // The record's numbers are good, and k rows fit into n bytes.
    #[tactic(auto, using(crate::proofs::Sound::told, crate::proofs::Sound::matrix_small), unfolding(crate::specs::Records::bad_state))]
    pub fn holds(self, n: usize) -> bool
        ensures { result ≡ not (bad_state self n) }
    {
        let k = self.required_piece_count;
        self.is_sound() && k * (k + self.piece_byte_len) <= n
    }

    #[tactic(auto, unfolding(block::specs::Counts::counted))]
    pub fn get_num_pieces_coded_together(self) -> Result<usize, RLNCError>
        ensures { result ≡ counted (sound self) self.required_piece_count }
    {
        self.checked()?;
        Ok(self.required_piece_count)
    }

    #[tactic(auto, unfolding(block::specs::Counts::counted))]
    pub fn get_piece_byte_len(self) -> Result<usize, RLNCError>
        ensures { result ≡ counted (sound self) self.piece_byte_len }
    {
        self.checked()?;
        Ok(self.piece_byte_len)
    }

    // The coefficients and the payload.
    #[tactic(auto, using(crate::proofs::Sound::told), unfolding(block::specs::Counts::counted))]
    pub fn get_full_coded_piece_byte_len(self) -> Result<usize, RLNCError>
        ensures { result ≡ counted (sound self) (self.required_piece_count + self.piece_byte_len) }
    {
        self.checked()?;
        Ok(self.required_piece_count + self.piece_byte_len)
    }

    #[tactic(auto, unfolding(block::specs::Counts::counted))]
    pub fn get_received_piece_count(self) -> Result<usize, RLNCError>
        ensures { result ≡ counted (sound self) self.received_piece_count.0 }
    {
        self.checked()?;
        Ok(self.received_piece_count.0)
    }

    #[tactic(auto, unfolding(block::specs::Counts::counted))]
    pub fn get_useful_piece_count(self) -> Result<usize, RLNCError>
        ensures { result ≡ counted (sound self) self.useful_piece_count.0 }
    {
        self.checked()?;
        Ok(self.useful_piece_count.0)
    }

    // How many rows are missing.
    #[tactic(auto, using(crate::proofs::Sound::told), unfolding(block::specs::Counts::counted))]
    pub fn get_remaining_piece_count(self) -> Result<usize, RLNCError>
        ensures { result ≡ counted (sound self) (self.required_piece_count - self.useful_piece_count.0) }
    {
        self.checked()?;
        Ok(self.required_piece_count - self.useful_piece_count.0)
    }

    // Takes a piece: a row more, which the rules then reduce with the others.
    #[tactic(auto, using(crate::proofs::Sound::holds), unfolding(crate::specs::Entries::take_refusal))]
    pub fn decode(
        self,
        f: Field,
        elements: &mut [u8],
        full_coded_piece: &[u8],
    ) -> Result<Taken, RLNCError>
        ensures { Decoded (field_of f) self elements.old full_coded_piece.now result elements.new }
    {
        self.admit(elements)?;
        if self.useful_piece_count.0 == self.required_piece_count {
            return Err(RLNCError::ReceivedAllPieces);
        }
        if full_coded_piece.len() != self.required_piece_count + self.piece_byte_len {
            return Err(RLNCError::InvalidPieceLength);
        }
        if TAKEN_LIMIT <= self.received_piece_count.0 {
            return Err(RLNCError::TooManyTaken);
        }
        Ok(self.take_piece(f, elements, full_coded_piece))
    }

    // A piece that `decode` does not refuse; then neither do the rules.
    #[tactic(auto, using(crate::proofs::Accepted::accepted))]
    fn take_piece(self, f: Field, elements: &mut [u8], full_coded_piece: &[u8]) -> Taken
        requires { take_refusal self (length elements.old) (length full_coded_piece.now) ≡ Ok tt }
        ensures { Decoded (field_of f) self elements.old full_coded_piece.now (Ok result) elements.new }
    {
        let rows_before = self.useful_piece_count.0;
        let matrix = DecoderMatrix {
            num_pieces_coded_together: self.required_piece_count,
            rows: rows_before,
            cols: self.required_piece_count + self.piece_byte_len,
        };
        let longer = matrix.add_row(elements, full_coded_piece).unwrap();
        let reduced = longer.rref(f, elements).unwrap();
        let after = Decoder {
            useful_piece_count: UsefulPieceCount(reduced.rows),
            received_piece_count: ReceivedPieceCount(self.received_piece_count.0 + 1),
            ..self
        };
        if reduced.rows == rows_before {
            Taken::NotUseful(after)
        } else {
            Taken::Useful(after)
        }
    }

    // What the caller of `decode` goes on with: the record, which stays as it is where the piece was refused, and the paper's answer, which
    // gives 8 as an `Err`, as the Rust does.
    #[tactic(auto, unfolding(crate::specs::Answers::kept, crate::specs::Answers::taken_number))]
    pub fn after_piece(self, taken: Result<Taken, RLNCError>) -> (Decoder, Answer)
        ensures record { result.0 ≡ kept self taken }
        ensures number { number_of result.1 ≡ taken_number taken }
    {
        match taken {
            Ok(Taken::Useful(next)) => (next, Ok(())),
            Ok(Taken::NotUseful(next)) => (next, Err(RLNCError::PieceNotUseful)),
            Err(e) => (self, Err(e)),
        }
    }

    // As many rows are held as there are pieces.
    #[tactic(auto, unfolding(crate::specs::Entries::completed))]
    pub fn is_already_decoded(self) -> Result<bool, RLNCError>
        ensures { result ≡ completed self }
    {
        self.checked()?;
        Ok(self.useful_piece_count.0 == self.required_piece_count)
    }

    // Recovers the data: the block that the rows hold, up to its last marker. Answers how many bytes it wrote: the buffer is the caller's.
    #[tactic(auto, using(crate::proofs::Sound::holds, crate::proofs::Sound::block_small), unfolding(crate::specs::Entries::recover_refusal))]
    pub fn get_decoded_data(self, elements: &[u8], data: &mut [u8]) -> Result<usize, RLNCError>
        ensures { Recovery marker self elements.now «data».old result «data».new }
    {
        self.admit(elements)?;
        if self.useful_piece_count.0 != self.required_piece_count {
            return Err(RLNCError::NotAllPiecesReceivedYet);
        }
        if data.len() < self.required_piece_count * self.piece_byte_len {
            return Err(RLNCError::NoRoom);
        }
        let block = BlockIn {
            k: self.required_piece_count,
            len: self.piece_byte_len,
            elements,
        };
        let n = block.data_len()?;
        block.copy_to(&mut data[..n]);
        Ok(n)
    }
}
