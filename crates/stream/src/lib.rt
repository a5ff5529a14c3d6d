// The piece stream: one byte of kind, then a body whose length the kind fixes. Reading the record at the front of some bytes, and writing
// one.
#![tactic(auto)]

ghost use Rattle.std.specs.Prelude.{◌≡◌, Some};
ghost use Rattle.stream.specs.Geometries.{pieces_of, length_of, kind_of, body_of, Names};
ghost use Rattle.stream.specs.Records.{record_kind, fits_in, piece_record, kind_record, record_at, Written};

use answers::{Answer, RLNCError};

// The three sizes that pieces come in: 3 of 2 bytes, 16 of 240, 32 of 480.
#[derive(Clone, Copy, PartialEq, Eq, Debug)]
pub enum Geometry {
    Of3By2 = 0x11,
    Of16By240 = 0x12,
    Of32By480 = 0x13,
}

// The sizes of the largest one: its pieces, and the bytes of a piece's payload.
pub const MOST_PIECES: usize = 32;

pub const MOST_BYTES: usize = 480;

// The kind byte of the end record.
const END_KIND: u8 = 0x01;

// What stands at the front of some bytes.
#[derive(Clone, Copy, PartialEq, Eq, Debug)]
pub enum Record {
    Piece(Geometry),
    End,
}

impl Geometry {
    pub const ALL: [Geometry; 3] = [Geometry::Of3By2, Geometry::Of16By240, Geometry::Of32By480];

    pub fn piece_count(self) -> usize
        ensures { result ≡ pieces_of self }
    {
        match self {
            Geometry::Of3By2 => 3,
            Geometry::Of16By240 => 16,
            Geometry::Of32By480 => MOST_PIECES,
        }
    }

    pub fn piece_byte_len(self) -> usize
        ensures { result ≡ length_of self }
    {
        match self {
            Geometry::Of3By2 => 2,
            Geometry::Of16By240 => 240,
            Geometry::Of32By480 => MOST_BYTES,
        }
    }

    // The kind byte of a piece.
    pub fn kind(self) -> u8
        ensures { result ≡ kind_of self }
    {
        self as u8
    }

    // The bytes of a whole piece.
    pub fn body_len(self) -> usize
        ensures { result ≡ body_of self }
    {
        self.piece_count() + self.piece_byte_len()
    }
}

// The geometry of a kind byte.
impl TryFrom<u8> for Geometry {
    type Error = RLNCError;

    ghost try_from_gives = { Names };

    #[tactic(auto, unfolding(crate::specs::Geometries::geometry_of))]
    fn try_from(kind: u8) -> Result<Self, RLNCError> {
        let listed = Geometry::ALL.iter().copied().find(|g| g.kind() == kind);
        listed.ok_or(RLNCError::UnknownKind)
    }
}

impl Record {
    // The byte that opens it.
    pub fn kind(self) -> u8
        ensures { result ≡ record_kind self }
    {
        match self {
            Record::Piece(g) => g.kind(),
            Record::End => END_KIND,
        }
    }
}

// A piece of this geometry may follow those of the geometry so far.
#[tactic(auto, unfolding(crate::specs::Records::fits_in, crate::specs::Geometries::same_geometry))]
fn fits(so_far: Option<Geometry>, g: Geometry) -> bool
    ensures { result ≡ fits_in so_far g }
{
    so_far.is_none_or(|h| h == g)
}

// A piece of the geometry, with so many bytes behind its kind.
#[tactic(auto, unfolding(crate::specs::Records::piece_record))]
fn piece_record(so_far: Option<Geometry>, g: Geometry, behind: usize) -> Result<Record, RLNCError>
    ensures { result ≡ piece_record so_far behind (Some g) }
{
    if !fits(so_far, g) {
        return Err(RLNCError::MixedKinds);
    }
    if behind < g.body_len() {
        return Err(RLNCError::CutRecord);
    }
    Ok(Record::Piece(g))
}

// The record of a kind, with so many bytes behind it.
#[tactic(auto, unfolding(crate::specs::Records::kind_record, crate::specs::Geometries::geometry_of, crate::specs::Records::piece_record))]
pub fn read_kind(so_far: Option<Geometry>, kind: u8, behind: usize) -> Result<Record, RLNCError>
    ensures { result ≡ kind_record so_far kind behind }
{
    if kind == END_KIND {
        return Ok(Record::End);
    }
    piece_record(so_far, Geometry::try_from(kind)?, behind)
}

// The record at the front of the bytes.
#[tactic(auto, unfolding(crate::specs::Records::record_at))]
pub fn read(so_far: Option<Geometry>, bytes: &[u8]) -> Result<Record, RLNCError>
    ensures { result ≡ record_at so_far bytes.now }
{
    match bytes {
        [kind, behind @ ..] => read_kind(so_far, *kind, behind.len()),
        [] => Err(RLNCError::CutRecord),
    }
}

// The record of a piece: its kind, then the piece.
#[tactic(auto, unfolding(crate::specs::Records::write_refusal))]
pub fn write(g: Geometry, piece: &[u8], out: &mut [u8]) -> Answer
    ensures { Written g piece.now out.old result out.new }
{
    if piece.len() != g.body_len() {
        return Err(RLNCError::InvalidPieceLength);
    }
    if out.len() != piece.len() + 1 {
        return Err(RLNCError::InvalidOutputBuffer);
    }
    out[0] = g.kind();
    out[1..].copy_from_slice(piece);
    Ok(())
}
