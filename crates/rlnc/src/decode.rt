// The decoder: the numbers `piece_byte_len`, `required_piece_count`, `useful_piece_count` and `received_piece_count`, beside the lent matrix.
ghost use Rattle.std.specs.Prelude.{◌≡◌};
ghost use Rattle.gf256.proofs.Known.{fips};
ghost use Rattle.block.specs.Padding.{marker};
ghost use Rattle.decoder.specs.Entries.{decoder_of};
ghost use Rattle.rlnc.specs.Records.{DecoderMade, PieceTaken, DataRecovered};

use crate::give::give;
use decoder::{Decoder, ReceivedPieceCount, UsefulPieceCount};
use field::Field;

// The record of these numbers.
pub(crate) fn decoder_of(
    piece_byte_len: usize,
    required_piece_count: usize,
    useful_piece_count: usize,
    received_piece_count: usize,
) -> Decoder
    ensures { result ≡ decoder_of required_piece_count piece_byte_len useful_piece_count received_piece_count }
{
    Decoder {
        required_piece_count,
        piece_byte_len,
        useful_piece_count: UsefulPieceCount(useful_piece_count),
        received_piece_count: ReceivedPieceCount(received_piece_count),
    }
}

pub fn rlnc_decoder_new(
    piece_byte_len: usize,
    required_piece_count: usize,
    elements: &mut [u8],
    useful_piece_count: &mut usize,
    received_piece_count: &mut usize,
) -> u8
    ensures { DecoderMade piece_byte_len required_piece_count elements.old useful_piece_count.old received_piece_count.old result useful_piece_count.new received_piece_count.new elements.new }
{
    // Not by `give`: it sets more than one number.
    match Decoder::new(piece_byte_len, required_piece_count, elements) {
        Ok(d) => {
            *useful_piece_count = d.useful_piece_count.0;
            *received_piece_count = d.received_piece_count.0;
            0
        }
        Err(e) => e.number(),
    }
}

pub fn rlnc_decoder_decode(
    piece_byte_len: usize,
    required_piece_count: usize,
    elements: &mut [u8],
    full_coded_piece: &[u8],
    useful_piece_count: &mut usize,
    received_piece_count: &mut usize,
) -> u8
    ensures { PieceTaken fips (decoder_of required_piece_count piece_byte_len useful_piece_count.old received_piece_count.old) elements.old full_coded_piece.now result useful_piece_count.new received_piece_count.new elements.new }
{
    let decoder = decoder_of(
        piece_byte_len,
        required_piece_count,
        *useful_piece_count,
        *received_piece_count,
    );
    let taken = decoder.decode(Field::Fips197, elements, full_coded_piece);
    let (after, answer) = decoder.after_piece(taken);
    *useful_piece_count = after.useful_piece_count.0;
    *received_piece_count = after.received_piece_count.0;
    answers::number(answer)
}

#[tactic(auto, using(crate::proofs::Records::recovered_given))]
pub fn rlnc_decoder_get_decoded_data(
    piece_byte_len: usize,
    required_piece_count: usize,
    useful_piece_count: usize,
    received_piece_count: usize,
    elements: &[u8],
    data: &mut [u8],
    data_len: &mut usize,
) -> u8
    ensures { DataRecovered marker (decoder_of required_piece_count piece_byte_len useful_piece_count received_piece_count) elements.now «data».old data_len.old result data_len.new «data».new }
{
    let decoder = decoder_of(
        piece_byte_len,
        required_piece_count,
        useful_piece_count,
        received_piece_count,
    );
    give(decoder.get_decoded_data(elements, data), data_len)
}
