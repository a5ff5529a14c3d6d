// The piece stream. A geometry crosses as the kind of its pieces, and what has been seen so far as the kind of the pieces before, 0 where
// there were none.
ghost use Rattle.stream.specs.Geometries.{geometry_of};
ghost use Rattle.stream.specs.Records.{kind_record, record_at};
ghost use Rattle.rlnc.specs.Streams.{earlier_of, read_by, RecordGiven, PieceWritten, SizesGiven};

#[unsafe(no_mangle)]
pub extern "C" fn rlnc_stream_read_kind(so_far: u8, next: u8, behind: usize, kind: &mut u8) -> u8
    ensures { RecordGiven (read_by (λ s. kind_record s next behind) (earlier_of so_far)) kind.old result kind.new }
{
    rlnc::rlnc_stream_read_kind(so_far, next, behind, kind)
}

#[unsafe(no_mangle)]
pub extern "C" fn rlnc_stream_read(so_far: u8, bytes: &[u8], kind: &mut u8) -> u8
    ensures { RecordGiven (read_by (λ s. record_at s bytes.now) (earlier_of so_far)) kind.old result kind.new }
{
    rlnc::rlnc_stream_read(so_far, bytes, kind)
}

#[unsafe(no_mangle)]
pub extern "C" fn rlnc_stream_write(kind: u8, piece: &[u8], out: &mut [u8]) -> u8
    ensures { PieceWritten (geometry_of kind) piece.now out.old result out.new }
{
    rlnc::rlnc_stream_write(kind, piece, out)
}

// k and L of a kind of piece; a whole piece is as many bytes as both together.
#[unsafe(no_mangle)]
pub extern "C" fn rlnc_stream_sizes(
    kind: u8,
    piece_count: &mut usize,
    piece_byte_len: &mut usize,
) -> u8
    ensures { SizesGiven (geometry_of kind) piece_count.old piece_byte_len.old result piece_count.new piece_byte_len.new }
{
    rlnc::rlnc_stream_sizes(kind, piece_count, piece_byte_len)
}
