// The piece stream. A geometry crosses as the kind of its pieces, and what has been seen so far as the kind of the pieces before, 0 where
// there were none.
ghost use Rattle.std.specs.Prelude.{◌≡◌, length};
ghost use Rattle.block.specs.Refusal.{if_ok};
ghost use Rattle.stream.specs.Geometries.{geometry_of};
ghost use Rattle.stream.specs.Records.{kind_record, record_at};
ghost use Rattle.rlnc.specs.Streams.{earlier_of, read_by, kind_refusal, record_of, RecordGiven, PieceWritten, SizesGiven};

use crate::give::give;
use answers::{Answer, RLNCError};
use stream::{Geometry, Record};

// What has been seen so far.
#[tactic(auto, using(crate::proofs::Streams::listed), unfolding(crate::specs::Streams::earlier_of, crate::specs::Streams::seen_before))]
fn seen_by(kind: u8) -> Result<Option<Geometry>, RLNCError>
    ensures { result ≡ earlier_of kind }
{
    if kind == 0 {
        return Ok(None);
    }
    Geometry::try_from(kind)
        .map(Some)
        .map_err(|_| RLNCError::BadState)
}

// The record's kind, and the result's number.
fn give_record(found: Result<Record, RLNCError>, kind: &mut u8) -> u8
    ensures { RecordGiven found kind.old result kind.new }
{
    give(found.map(Record::kind), kind)
}

#[tactic(auto, unfolding(crate::specs::Streams::read_by))]
fn read_kind(so_far: u8, next: u8, behind: usize) -> Result<Record, RLNCError>
    ensures { result ≡ read_by (λ s. kind_record s next behind) (earlier_of so_far) }
{
    stream::read_kind(seen_by(so_far)?, next, behind)
}

pub fn rlnc_stream_read_kind(so_far: u8, next: u8, behind: usize, kind: &mut u8) -> u8
    ensures { RecordGiven (read_by (λ s. kind_record s next behind) (earlier_of so_far)) kind.old result kind.new }
{
    give_record(read_kind(so_far, next, behind), kind)
}

#[tactic(auto, unfolding(crate::specs::Streams::read_by))]
fn read(so_far: u8, bytes: &[u8]) -> Result<Record, RLNCError>
    ensures { result ≡ read_by (λ s. record_at s bytes.now) (earlier_of so_far) }
{
    stream::read(seen_by(so_far)?, bytes)
}

pub fn rlnc_stream_read(so_far: u8, bytes: &[u8], kind: &mut u8) -> u8
    ensures { RecordGiven (read_by (λ s. record_at s bytes.now) (earlier_of so_far)) kind.old result kind.new }
{
    give_record(read(so_far, bytes), kind)
}

#[tactic(auto, using(crate::proofs::Streams::listed), unfolding(crate::specs::Streams::kind_refusal, crate::specs::Streams::record_of))]
fn write(kind: u8, piece: &[u8], out: &mut [u8]) -> Answer
    ensures answer { result ≡ kind_refusal (geometry_of kind) (length piece.now) (length out.old) }
    ensures left { out.new ≡ if_ok (kind_refusal (geometry_of kind) (length piece.now) (length out.old)) (record_of (geometry_of kind) piece.now) out.old }
{
    stream::write(Geometry::try_from(kind)?, piece, out)
}

pub fn rlnc_stream_write(kind: u8, piece: &[u8], out: &mut [u8]) -> u8
    ensures { PieceWritten (geometry_of kind) piece.now out.old result out.new }
{
    answers::number(write(kind, piece, out))
}

// k and L of a kind of piece; a whole piece is as many bytes as both together.
#[tactic(auto, using(crate::proofs::Streams::listed), unfolding(crate::specs::Streams::sizes_number, crate::specs::Streams::size_or))]
pub fn rlnc_stream_sizes(kind: u8, piece_count: &mut usize, piece_byte_len: &mut usize) -> u8
    ensures { SizesGiven (geometry_of kind) piece_count.old piece_byte_len.old result piece_count.new piece_byte_len.new }
{
    // Not by `give`: it sets more than one number.
    match Geometry::try_from(kind) {
        Ok(g) => {
            *piece_count = g.piece_count();
            *piece_byte_len = g.piece_byte_len();
            0
        }
        Err(e) => e.number(),
    }
}
