// The steps of `setjoin`: a record of where the joining stands, beside the lent matrix. A step takes a piece, or the end of the stream, and puts
// the lines for it at the front of a lent buffer.
ghost use Rattle.std.specs.Prelude.{◌≡◌, ◌≤◌, ◌<◌, length};
ghost use Rattle.field.specs.FieldOf.{field_of};
ghost use Rattle.listing.specs.Joining.{nothing};
ghost use Rattle.listing.specs.Steps.{Started, Took, Counted, Stepped, Recovered, Finished};

use crate::LINE_LEN;
use answers::{Answer, RLNCError};
use decoder::Decoder;
use field::Field;
use stream::Geometry;

// The decoder, once a piece has come; how many pieces have come, and how many of them were answered 8. The matrix is lent at each call: there is no
// heap to hold it.
#[derive(Clone, Copy, PartialEq, Eq, Debug)]
pub struct Joining {
    pub held: Option<Decoder>,
    pub pieces: u64,
    pub repeats: u64,
}

// The record after a piece, and how many bytes its line has: a length, and no slice, as in `put_line`. So it is in `End`.
#[derive(Clone, Copy, PartialEq, Eq, Debug)]
pub struct Step {
    pub joining: Joining,
    pub size: usize,
}

// The end of a set: how many bytes of data there are, if any, and how many its lines have.
#[derive(Clone, Copy, PartialEq, Eq, Debug)]
pub struct End {
    pub data: Option<usize>,
    pub size: usize,
}

impl Joining {
    pub fn new() -> Joining
        ensures { result ≡ nothing }
    {
        Joining {
            held: None,
            pieces: 0,
            repeats: 0,
        }
    }

    // Takes a piece. The first one makes the decoder of its geometry. A refusal of the decoder is an answer like others and stands in the line.
    // The step itself refuses before it changes anything: 21 where `out` is below the longest line or the first piece finds too small a
    // matrix, 22 where the counts are bad or have no number left.
    pub fn piece(
        self,
        f: Field,
        g: Geometry,
        body: &[u8],
        elements: &mut [u8],
        out: &mut [u8],
    ) -> Result<Step, RLNCError>
        ensures { Stepped (field_of f) self g body.now elements.old out.old result elements.new out.new }
    {
        if out.len() < LINE_LEN {
            return Err(RLNCError::NoRoom);
        }
        if self.pieces < self.repeats || self.pieces == u64::MAX {
            return Err(RLNCError::BadState);
        }
        let held = self.start(g, elements)?;
        let (d, answer) = take(f, held, body, elements);
        Ok(self.count(d, answer, out))
    }

    // The decoder that is held, or a new one of the piece's geometry.
    fn start(self, g: Geometry, elements: &mut [u8]) -> Result<Decoder, RLNCError>
        ensures { Started self.held g elements.old result elements.new }
    {
        match self.held {
            Some(d) => Ok(d),
            None => Decoder::new(g.piece_byte_len(), g.piece_count(), elements),
        }
    }

    // Counts a piece that got an answer, and puts its line.
    fn count(self, d: Decoder, answer: Answer, out: &mut [u8]) -> Step
        requires in_bounds { LINE_LEN ≤ length out.old }
        requires repeats_le_pieces { self.repeats ≤ self.pieces }
        requires pieces_bound { self.pieces < u64.MAX }
        ensures { Counted self d answer out.old result out.new }
    {
        let pieces = self.pieces + 1;
        let is_repeat = answer == Err(RLNCError::PieceNotUseful);
        let repeats = self.repeats + u64::from(is_repeat);
        let size = crate::piece_line(
            out,
            pieces,
            answer,
            d.useful_piece_count,
            d.received_piece_count,
        )
        .unwrap();
        let joining = Joining {
            held: Some(d),
            pieces,
            repeats,
        };
        Step { joining, size }
    }

    // The end of the stream: recovers the data into `data`, and puts the end line and, if there are data, their line. 21 where `out` could be too
    // small for the data that `data` has room for; too small a `data` is recovery's own answer 21, and stands in the end line.
    pub fn finish(self, elements: &[u8], data: &mut [u8], out: &mut [u8]) -> Result<End, RLNCError>
        ensures { Finished self elements.now «data».old out.old result «data».new out.new }
    {
        if out.len().saturating_sub(LINE_LEN) <= 2 * data.len() {
            return Err(RLNCError::NoRoom);
        }
        let found = self.recover(elements, data);
        let size = match found {
            Ok(n) => crate::data_lines(out, &data[..n], self.repeats)?,
            Err(e) => crate::end_line(out, Err(e), 0, self.repeats)?,
        };
        Ok(End {
            data: found.ok(),
            size,
        })
    }

    // Recovers the data: 10 where no piece has come.
    fn recover(self, elements: &[u8], data: &mut [u8]) -> Result<usize, RLNCError>
        ensures { Recovered self.held elements.now «data».old result «data».new }
    {
        let d = self.held.ok_or(RLNCError::NotAllPiecesReceivedYet)?;
        d.get_decoded_data(elements, data)
    }
}

// Takes a piece with the decoder: the record to go on with, and the answer.
fn take(f: Field, d: Decoder, body: &[u8], elements: &mut [u8]) -> (Decoder, Answer)
    ensures { Took (field_of f) d body.now elements.old result elements.new }
{
    d.after_piece(d.decode(f, elements, body))
}
