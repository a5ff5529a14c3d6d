// What an entry of the port answers: `Ok`, or one case for each error of src/common/errors.rs and of the paper's table, under the Rust's names
// where it has them; and the table's number for each.
#![tactic(auto)]

ghost use Rattle.std.specs.Prelude.{◌≡◌};
ghost use Rattle.answers.specs.Number.{code_of, number_of};

// All but PieceNotUseful are refusals. No Display: the paper gives numbers and no texts.
#[derive(Clone, Copy, PartialEq, Eq, Debug)]
pub enum RLNCError {
    CodingVectorLengthMismatch = 1,
    DataLengthMismatch = 2,
    PieceCountZero = 3,
    DataLengthZero = 4,
    PieceLengthZero = 5,
    NotEnoughPiecesToRecode = 6,
    PieceLengthTooShort = 7,
    PieceNotUseful = 8,
    ReceivedAllPieces = 9,
    NotAllPiecesReceivedYet = 10,
    InvalidDecodedDataFormat = 11,
    InvalidPieceLength = 12,
    InvalidOutputBuffer = 13,
    SizeOverLimit = 20,
    NoRoom = 21,
    BadState = 22,
    TooManyTaken = 23,
    UnknownKind = 24,
    CutRecord = 25,
    MixedKinds = 26,
}

pub type Answer = Result<(), RLNCError>;

impl RLNCError {
    pub fn number(self) -> u8
        ensures { result ≡ code_of self }
    {
        self as u8
    }
}

// 0 for `Ok`, whatever it hands out, and the number of an error.
pub fn number<T: Copy>(answer: Result<T, RLNCError>) -> u8
    ensures { result ≡ number_of answer }
{
    match answer {
        Ok(_) => 0,
        Err(e) => e.number(),
    }
}
