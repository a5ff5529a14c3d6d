// The recoder: the numbers `num_pieces_received`, `full_coded_piece_byte_len` and `num_pieces_coded_together`, beside the lent pieces.
ghost use Rattle.std.specs.Prelude.{◌-◌, length};
ghost use Rattle.gf256.proofs.Known.{fips};
ghost use Rattle.block.specs.Counts.{counted};
ghost use Rattle.recoder.specs.Entries.{sound, recode_refusal, Recoded};
ghost use Rattle.rlnc.specs.Numbered.{Numbered};
ghost use Rattle.rlnc.specs.Given.{CountGiven};
ghost use Rattle.rlnc.specs.Records.{recoder_of, RecoderMade};

#[unsafe(no_mangle)]
pub extern "C" fn rlnc_recoder_new(
    data: &[u8],
    full_coded_piece_byte_len: usize,
    num_pieces_coded_together: usize,
    num_pieces_received: &mut usize,
) -> u8
    ensures { RecoderMade (length «data».now) full_coded_piece_byte_len num_pieces_coded_together num_pieces_received.old result num_pieces_received.new }
{
    rlnc::rlnc_recoder_new(
        data,
        full_coded_piece_byte_len,
        num_pieces_coded_together,
        num_pieces_received,
    )
}

#[unsafe(no_mangle)]
pub extern "C" fn rlnc_recoder_get_original_num_pieces_coded_together(
    num_pieces_received: usize,
    full_coded_piece_byte_len: usize,
    num_pieces_coded_together: usize,
    count: &mut usize,
) -> u8
    ensures { CountGiven (counted (sound (recoder_of num_pieces_received full_coded_piece_byte_len num_pieces_coded_together)) num_pieces_coded_together) count.old result count.new }
{
    rlnc::rlnc_recoder_get_original_num_pieces_coded_together(
        num_pieces_received,
        full_coded_piece_byte_len,
        num_pieces_coded_together,
        count,
    )
}

#[unsafe(no_mangle)]
pub extern "C" fn rlnc_recoder_get_num_pieces_recoded_together(
    num_pieces_received: usize,
    full_coded_piece_byte_len: usize,
    num_pieces_coded_together: usize,
    count: &mut usize,
) -> u8
    ensures { CountGiven (counted (sound (recoder_of num_pieces_received full_coded_piece_byte_len num_pieces_coded_together)) num_pieces_received) count.old result count.new }
{
    rlnc::rlnc_recoder_get_num_pieces_recoded_together(
        num_pieces_received,
        full_coded_piece_byte_len,
        num_pieces_coded_together,
        count,
    )
}

#[unsafe(no_mangle)]
pub extern "C" fn rlnc_recoder_get_piece_byte_len(
    num_pieces_received: usize,
    full_coded_piece_byte_len: usize,
    num_pieces_coded_together: usize,
    count: &mut usize,
) -> u8
    ensures { CountGiven (counted (sound (recoder_of num_pieces_received full_coded_piece_byte_len num_pieces_coded_together)) (full_coded_piece_byte_len - num_pieces_coded_together)) count.old result count.new }
{
    rlnc::rlnc_recoder_get_piece_byte_len(
        num_pieces_received,
        full_coded_piece_byte_len,
        num_pieces_coded_together,
        count,
    )
}

#[unsafe(no_mangle)]
pub extern "C" fn rlnc_recoder_get_full_coded_piece_byte_len(
    num_pieces_received: usize,
    full_coded_piece_byte_len: usize,
    num_pieces_coded_together: usize,
    count: &mut usize,
) -> u8
    ensures { CountGiven (counted (sound (recoder_of num_pieces_received full_coded_piece_byte_len num_pieces_coded_together)) full_coded_piece_byte_len) count.old result count.new }
{
    rlnc::rlnc_recoder_get_full_coded_piece_byte_len(
        num_pieces_received,
        full_coded_piece_byte_len,
        num_pieces_coded_together,
        count,
    )
}

#[unsafe(no_mangle)]
pub extern "C" fn rlnc_recoder_recode_with_buf(
    num_pieces_received: usize,
    full_coded_piece_byte_len: usize,
    num_pieces_coded_together: usize,
    pieces: &[u8],
    recoding_vector: &[u8],
    full_recoded_piece: &mut [u8],
) -> u8
    ensures { Numbered (λ a. Recoded fips (recoder_of num_pieces_received full_coded_piece_byte_len num_pieces_coded_together) pieces.now recoding_vector.now full_recoded_piece.old a full_recoded_piece.new) (recode_refusal (recoder_of num_pieces_received full_coded_piece_byte_len num_pieces_coded_together) (length pieces.now) (length recoding_vector.now) (length full_recoded_piece.old)) result }
{
    rlnc::rlnc_recoder_recode_with_buf(
        num_pieces_received,
        full_coded_piece_byte_len,
        num_pieces_coded_together,
        pieces,
        recoding_vector,
        full_recoded_piece,
    )
}
