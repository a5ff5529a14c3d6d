// The records of a stream, read as they come: `wants` says how many bytes of the input are to be read next, and `read` what they brought. A kind byte
// is wanted first, then each body with the kind byte behind it, so that nothing behind the end record is asked for. What is done with a piece is a
// program's own.
#![tactic(auto)]

ghost use Rattle.std.specs.Prelude.{◌≡◌};
ghost use Rattle.reader.specs.Reading.{started, wanted, opened_by, on, body_brings, progress};

use answers::RLNCError;
use stream::{Geometry, MOST_BYTES, MOST_PIECES, Record};

// The longest body, that of the largest geometry.
const BODY_LEN: usize = MOST_PIECES + MOST_BYTES;

// The longest body with the kind byte behind it: more is never wanted.
pub const INPUT_LEN: usize = BODY_LEN + 1;

// What is wanted next: the first kind byte, the body of a piece with the kind byte behind it, or nothing.
#[derive(Clone, Copy, PartialEq, Eq, Debug)]
pub enum Place {
    Start,
    Body(Geometry),
    Done,
}

// The offset is that of the record that was opened last: of the piece whose body is wanted, of the end record, or of the one that stopped the
// stream.
#[derive(Clone, Copy, PartialEq, Eq, Debug)]
pub struct Reader {
    pub place: Place,
    pub seen: Option<Geometry>,
    pub at: u64,
}

// What the bytes have at their front: no more than the start of the stream, a piece's whole body, or one that was cut short.
#[derive(Clone, Copy, PartialEq, Eq, Debug)]
pub enum Came {
    Start,
    Piece(Geometry),
    Cut,
}

// What the bytes that were wanted brought, and the reader behind them. `then` is the record that was opened behind it: a piece, whose body is wanted
// next, or the end; an error stops the stream.
#[derive(Clone, Copy, PartialEq, Eq, Debug)]
pub struct Progress {
    pub reader: Reader,
    pub came: Came,
    pub then: Result<Record, RLNCError>,
}

impl Reader {
    pub fn new() -> Reader
        ensures { result ≡ started }
    {
        Reader {
            place: Place::Start,
            seen: None,
            at: 0,
        }
    }

    // How many bytes are to be read: 0 when it is done. A match on the state, as in `read`: a closure is no plainer.
    #[tactic(auto, using(crate::proofs::Reading::body_short), unfolding(crate::specs::Reading::wanted))]
    pub fn wants(self) -> usize
        ensures { result ≡ wanted self.place }
    {
        match self.place {
            Place::Start => 1,
            Place::Body(g) => g.body_len() + 1,
            Place::Done => 0,
        }
    }

    // Takes the bytes that are wanted, or fewer where the input has ended. 22 where there are more or none are wanted, and where the offset of the
    // next record is past the largest number.
    #[tactic(auto, using(crate::proofs::Reading::too_many, crate::proofs::Reading::place_decides), unfolding(crate::specs::Reading::brings))]
    pub fn read(self, input: &[u8]) -> Result<Progress, RLNCError>
        ensures { result ≡ progress self input.now }
    {
        if self.wants() < input.len() {
            return Err(RLNCError::BadState);
        }
        match self.place {
            Place::Start => Ok(self.next(Came::Start, opened(self.seen, input))),
            Place::Body(g) => self.body(g, input),
            Place::Done => Err(RLNCError::BadState),
        }
    }

    // The body of a piece, and the kind byte behind it.
    #[tactic(auto, using(crate::proofs::Reading::body_cut, crate::proofs::Reading::body_far))]
    fn body(self, g: Geometry, input: &[u8]) -> Result<Progress, RLNCError>
        ensures { result ≡ body_brings g self input.now }
    {
        let n = g.body_len();
        let Some(rest) = input.get(n..) else {
            return Ok(self.next(Came::Cut, Err(RLNCError::CutRecord)));
        };
        let end = n as u64 + 1;
        let at = self.at.checked_add(end).ok_or(RLNCError::BadState)?;
        let seen = Some(g);
        Ok(Reader { seen, at, ..self }.next(Came::Piece(g), opened(seen, rest)))
    }

    // A record was opened at the offset.
    #[tactic(auto, unfolding(crate::specs::Reading::place_by))]
    fn next(self, came: Came, then: Result<Record, RLNCError>) -> Progress
        ensures { result ≡ on self.seen self.at came «then» }
    {
        let place = match then {
            Ok(Record::Piece(g)) => Place::Body(g),
            Ok(Record::End) | Err(_) => Place::Done,
        };
        Progress {
            reader: Reader { place, ..self },
            came,
            then,
        }
    }
}

// The record that a kind byte opens, its body still to come; 25 where the input has ended.
#[tactic(auto, unfolding(crate::specs::Reading::opened_by))]
fn opened(so_far: Option<Geometry>, input: &[u8]) -> Result<Record, RLNCError>
    ensures { result ≡ opened_by so_far input.now }
{
    match input {
        [kind, ..] => stream::read_kind(so_far, *kind, BODY_LEN),
        [] => Err(RLNCError::CutRecord),
    }
}
