// The machine of `setjoin`: `wants` says how many bytes of the input it is to be fed next, and `feed` takes them and puts the text for them at the
// front of a lent buffer. How the records are read is the reader's; what is said of them is decided here, to the last byte.
#![tactic(auto)]

ghost use Rattle.std.specs.Prelude.{◌≡◌, ◌≤◌, length};
ghost use Rattle.field.specs.FieldOf.{field_of};
ghost use Rattle.reader.specs.Reading.{wanted, body_in};
ghost use Rattle.listing.specs.Listing.{block_room};
ghost use Rattle.joiner.specs.Machine.{end_room, text_room, fresh, state, Feeding};
ghost use Rattle.joiner.specs.Parts.{Begun, Closed};

use answers::RLNCError;
use field::Field;
use listing::LINE_LEN;
use listing::join::{End, Joining, Step};
use reader::{Came, Progress, Reader};
use stream::{MOST_BYTES, MOST_PIECES, Record};

// The largest geometry's matrix and block.
pub const MATRIX_LEN: usize = MOST_PIECES * (MOST_PIECES + MOST_BYTES);

pub const BLOCK_LEN: usize = MOST_PIECES * MOST_BYTES;

// The longest text of one turn: a piece's line, the end line, and the line of the data.
pub const TEXT_LEN: usize = 2 * LINE_LEN + 2 * BLOCK_LEN + 1;

// How it ended: so many bytes of data stand at the front of the lent block; there are none; or the stream stopped. It is kept from turn to turn, so it
// holds a length and no slice: a slice would keep the block lent.
#[derive(Clone, Copy, PartialEq, Eq, Debug)]
pub enum Ending {
    NotYet,
    Rebuilt(usize),
    Open,
    Stopped,
}

// The matrix, the block and the text are lent at each call: there is no heap to hold them. A struct of the three is no plainer: a caller would make it
// for each call, and `feed` take it apart, since `begin` wants two of them, and `close` the matrix unchanged and the text from further on.
#[derive(Clone, Copy, PartialEq, Eq, Debug)]
pub struct Joiner {
    pub reader: Reader,
    pub joining: Joining,
    pub ending: Ending,
}

// The machine after a turn, and how many bytes of text there are: of what came first, and behind it of what follows, the last lines among them. Slices
// in the place of the two lengths are no plainer: the texts lie one behind the other in the caller's buffer, and it goes on behind them.
#[derive(Clone, Copy, PartialEq, Eq, Debug)]
pub struct Fed {
    pub joiner: Joiner,
    pub first: usize,
    pub later: usize,
}

// A length, as in `Fed`.
#[derive(Clone, Copy, PartialEq, Eq, Debug)]
struct Closing {
    ending: Ending,
    size: usize,
}

impl Joiner {
    pub fn new() -> Joiner
        ensures { result ≡ fresh }
    {
        Joiner {
            reader: Reader::new(),
            joining: Joining::new(),
            ending: Ending::NotYet,
        }
    }

    // How many bytes it is to be fed: 0 when it is done.
    pub fn wants(self) -> usize
        ensures { result ≡ wanted self.reader.place }
    {
        self.reader.wants()
    }

    // Takes the bytes that it wants, or fewer where the input has ended. Refuses before it changes anything: 21 where `out` is below the longest
    // text of a turn, `data` below the largest block, or the first piece finds too small a matrix; 22 where the reader refuses the bytes, where the
    // counts are bad, and where no number is left for one piece more.
    pub fn feed(
        self,
        f: Field,
        input: &[u8],
        elements: &mut [u8],
        data: &mut [u8],
        out: &mut [u8],
    ) -> Result<Fed, RLNCError>
        ensures { Feeding (field_of f) self input.now elements.old «data».old out.old result elements.new «data».new out.new }
    {
        if out.len() < TEXT_LEN || data.len() < BLOCK_LEN {
            return Err(RLNCError::NoRoom);
        }
        let Progress { reader, came, then } = self.reader.read(input)?;
        let Step {
            joining,
            size: first,
        } = begin(self.joining, f, came, input, elements, out)?;
        let Closing {
            ending,
            size: later,
        } = close(joining, then, reader.at, elements, data, &mut out[first..]);
        let joiner = Joiner {
            reader,
            joining,
            ending,
        };
        Ok(Fed {
            joiner,
            first,
            later,
        })
    }
}

// What came first: the header before anything is read, the line of a piece whose body is there, or nothing. A match on what came, as below on what
// follows: a closure is no plainer.
fn begin(
    joining: Joining,
    f: Field,
    came: Came,
    input: &[u8],
    elements: &mut [u8],
    out: &mut [u8],
) -> Result<Step, RLNCError>
    requires text_room_in_bounds { text_room ≤ length out.old }
    requires came_in_bounds { body_in came ≤ length input.now }
    ensures { Begun (field_of f) (state joining elements.old) came input.now out.old result elements.new out.new }
{
    match came {
        Came::Start => {
            let size = listing::header_line(out)?;
            Ok(Step { joining, size })
        }
        Came::Piece(g) => joining.piece(f, g, &input[..g.body_len()], elements, out),
        Came::Cut => Ok(Step { joining, size: 0 }),
    }
}

// What follows: nothing before a body has come; the lines of the end, and the data at the front of the block; or the line of a stop. There is
// room for each.
fn close(
    joining: Joining,
    then: Result<Record, RLNCError>,
    at: u64,
    elements: &[u8],
    data: &mut [u8],
    out: &mut [u8],
) -> Closing
    requires end_room_in_bounds { end_room ≤ length out.old }
    requires block_room_in_bounds { block_room ≤ length «data».old }
    ensures { Closed (state joining elements.now) «then» at «data».old out.old result «data».new out.new }
{
    match then {
        Ok(Record::Piece(_)) => Closing {
            ending: Ending::NotYet,
            size: 0,
        },
        Ok(Record::End) => {
            let End { data, size } = joining
                .finish(elements, &mut data[..BLOCK_LEN], out)
                .unwrap();
            let ending = data.map_or(Ending::Open, Ending::Rebuilt);
            Closing { ending, size }
        }
        Err(e) => Closing {
            ending: Ending::Stopped,
            size: listing::stop_line(out, Err(e), at).unwrap(),
        },
    }
}
