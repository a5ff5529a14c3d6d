// What is asked of a decoder's numbers alone.
ghost use Rattle.std.specs.Prelude.{◌+◌, ◌-◌};
ghost use Rattle.block.specs.Counts.{counted};
ghost use Rattle.decoder.specs.Records.{sound};
ghost use Rattle.decoder.specs.Entries.{decoder_of, completed};
ghost use Rattle.rlnc.specs.Given.{CountGiven, CompleteGiven};

use crate::decode::decoder_of;
use crate::give::give;

pub fn rlnc_decoder_get_num_pieces_coded_together(
    piece_byte_len: usize,
    required_piece_count: usize,
    useful_piece_count: usize,
    received_piece_count: usize,
    count: &mut usize,
) -> u8
    ensures { CountGiven (counted (sound (decoder_of required_piece_count piece_byte_len useful_piece_count received_piece_count)) required_piece_count) count.old result count.new }
{
    let decoder = decoder_of(
        piece_byte_len,
        required_piece_count,
        useful_piece_count,
        received_piece_count,
    );
    give(decoder.get_num_pieces_coded_together(), count)
}

pub fn rlnc_decoder_get_piece_byte_len(
    piece_byte_len: usize,
    required_piece_count: usize,
    useful_piece_count: usize,
    received_piece_count: usize,
    count: &mut usize,
) -> u8
    ensures { CountGiven (counted (sound (decoder_of required_piece_count piece_byte_len useful_piece_count received_piece_count)) piece_byte_len) count.old result count.new }
{
    let decoder = decoder_of(
        piece_byte_len,
        required_piece_count,
        useful_piece_count,
        received_piece_count,
    );
    give(decoder.get_piece_byte_len(), count)
}

pub fn rlnc_decoder_get_full_coded_piece_byte_len(
    piece_byte_len: usize,
    required_piece_count: usize,
    useful_piece_count: usize,
    received_piece_count: usize,
    count: &mut usize,
) -> u8
    ensures { CountGiven (counted (sound (decoder_of required_piece_count piece_byte_len useful_piece_count received_piece_count)) (required_piece_count + piece_byte_len)) count.old result count.new }
{
    let decoder = decoder_of(
        piece_byte_len,
        required_piece_count,
        useful_piece_count,
        received_piece_count,
    );
    give(decoder.get_full_coded_piece_byte_len(), count)
}

pub fn rlnc_decoder_get_received_piece_count(
    piece_byte_len: usize,
    required_piece_count: usize,
    useful_piece_count: usize,
    received_piece_count: usize,
    count: &mut usize,
) -> u8
    ensures { CountGiven (counted (sound (decoder_of required_piece_count piece_byte_len useful_piece_count received_piece_count)) received_piece_count) count.old result count.new }
{
    let decoder = decoder_of(
        piece_byte_len,
        required_piece_count,
        useful_piece_count,
        received_piece_count,
    );
    give(decoder.get_received_piece_count(), count)
}

pub fn rlnc_decoder_get_useful_piece_count(
    piece_byte_len: usize,
    required_piece_count: usize,
    useful_piece_count: usize,
    received_piece_count: usize,
    count: &mut usize,
) -> u8
    ensures { CountGiven (counted (sound (decoder_of required_piece_count piece_byte_len useful_piece_count received_piece_count)) useful_piece_count) count.old result count.new }
{
    let decoder = decoder_of(
        piece_byte_len,
        required_piece_count,
        useful_piece_count,
        received_piece_count,
    );
    give(decoder.get_useful_piece_count(), count)
}

pub fn rlnc_decoder_get_remaining_piece_count(
    piece_byte_len: usize,
    required_piece_count: usize,
    useful_piece_count: usize,
    received_piece_count: usize,
    count: &mut usize,
) -> u8
    ensures { CountGiven (counted (sound (decoder_of required_piece_count piece_byte_len useful_piece_count received_piece_count)) (required_piece_count - useful_piece_count)) count.old result count.new }
{
    let decoder = decoder_of(
        piece_byte_len,
        required_piece_count,
        useful_piece_count,
        received_piece_count,
    );
    give(decoder.get_remaining_piece_count(), count)
}

pub fn rlnc_decoder_is_already_decoded(
    piece_byte_len: usize,
    required_piece_count: usize,
    useful_piece_count: usize,
    received_piece_count: usize,
    complete: &mut bool,
) -> u8
    ensures { CompleteGiven (completed (decoder_of required_piece_count piece_byte_len useful_piece_count received_piece_count)) complete.old result complete.new }
{
    let decoder = decoder_of(
        piece_byte_len,
        required_piece_count,
        useful_piece_count,
        received_piece_count,
    );
    give(decoder.is_already_decoded(), complete)
}
