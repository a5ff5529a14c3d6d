// The encoder: the numbers `piece_count` and `piece_byte_len`, beside the lent block.
ghost use Rattle.std.specs.Prelude.{◌≡◌, ◌+◌, length};
ghost use Rattle.gf256.proofs.Known.{fips};
ghost use Rattle.block.specs.Padding.{marker};
ghost use Rattle.block.specs.Sizes.{sized};
ghost use Rattle.block.specs.Counts.{counted};
ghost use Rattle.encoder.specs.Entries.{code_refusal, Coded, code_whole_refusal, CodedWhole};
ghost use Rattle.rlnc.specs.Numbered.{Numbered};
ghost use Rattle.rlnc.specs.Given.{CountGiven};
ghost use Rattle.rlnc.specs.Records.{encoder_of, EncoderMade, UnpaddedMade};

use crate::give::give;
use encoder::Encoder;
use field::Field;

// The record of these numbers.
fn encoder_of(piece_count: usize, piece_byte_len: usize) -> Encoder
    ensures { result ≡ encoder_of piece_count piece_byte_len }
{
    Encoder {
        piece_count,
        piece_byte_len,
    }
}

pub fn rlnc_encoder_new(
    data: &[u8],
    block: &mut [u8],
    piece_count: usize,
    piece_byte_len: &mut usize,
) -> u8
    ensures { EncoderMade marker «data».now block.old piece_count piece_byte_len.old result piece_byte_len.new block.new }
{
    let made = Encoder::new(data, block, piece_count);
    give(made.map(|e| e.piece_byte_len), piece_byte_len)
}

pub fn rlnc_encoder_without_padding(
    data: &[u8],
    piece_count: usize,
    piece_byte_len: &mut usize,
) -> u8
    ensures { UnpaddedMade (length «data».now) piece_count piece_byte_len.old result piece_byte_len.new }
{
    let made = Encoder::without_padding(data, piece_count);
    give(made.map(|e| e.piece_byte_len), piece_byte_len)
}

pub fn rlnc_encoder_get_piece_count(
    piece_count: usize,
    piece_byte_len: usize,
    count: &mut usize,
) -> u8
    ensures { CountGiven (counted (sized piece_count piece_byte_len) piece_count) count.old result count.new }
{
    let encoder = encoder_of(piece_count, piece_byte_len);
    give(encoder.get_piece_count(), count)
}

pub fn rlnc_encoder_get_piece_byte_len(
    piece_count: usize,
    piece_byte_len: usize,
    count: &mut usize,
) -> u8
    ensures { CountGiven (counted (sized piece_count piece_byte_len) piece_byte_len) count.old result count.new }
{
    let encoder = encoder_of(piece_count, piece_byte_len);
    give(encoder.get_piece_byte_len(), count)
}

pub fn rlnc_encoder_get_full_coded_piece_byte_len(
    piece_count: usize,
    piece_byte_len: usize,
    count: &mut usize,
) -> u8
    ensures { CountGiven (counted (sized piece_count piece_byte_len) (piece_count + piece_byte_len)) count.old result count.new }
{
    let encoder = encoder_of(piece_count, piece_byte_len);
    give(encoder.get_full_coded_piece_byte_len(), count)
}

pub fn rlnc_encoder_code_with_coding_vector(
    piece_count: usize,
    piece_byte_len: usize,
    block: &[u8],
    coding_vector: &[u8],
    coded_data: &mut [u8],
) -> u8
    ensures { Numbered (λ a. Coded fips (encoder_of piece_count piece_byte_len) block.now coding_vector.now coded_data.old a coded_data.new) (code_refusal (encoder_of piece_count piece_byte_len) (length block.now) (length coding_vector.now) (length coded_data.old)) result }
{
    let encoder = encoder_of(piece_count, piece_byte_len);
    answers::number(encoder.code_with_coding_vector(
        Field::Fips197,
        block,
        coding_vector,
        coded_data,
    ))
}

pub fn rlnc_encoder_code_with_buf(
    piece_count: usize,
    piece_byte_len: usize,
    block: &[u8],
    coding_vector: &[u8],
    full_coded_piece: &mut [u8],
) -> u8
    ensures { Numbered (λ a. CodedWhole fips (encoder_of piece_count piece_byte_len) block.now coding_vector.now full_coded_piece.old a full_coded_piece.new) (code_whole_refusal (encoder_of piece_count piece_byte_len) (length block.now) (length coding_vector.now) (length full_coded_piece.old)) result }
{
    let encoder = encoder_of(piece_count, piece_byte_len);
    answers::number(encoder.code_with_buf(Field::Fips197, block, coding_vector, full_coded_piece))
}
