// The recoder: the numbers `num_pieces_received`, `full_coded_piece_byte_len` and `num_pieces_coded_together`, beside the lent pieces.
ghost use Rattle.std.specs.Prelude.{◌≡◌, ◌-◌, length};
ghost use Rattle.gf256.proofs.Known.{fips};
ghost use Rattle.block.specs.Counts.{counted};
ghost use Rattle.recoder.specs.Entries.{sound, recode_refusal, Recoded};
ghost use Rattle.rlnc.specs.Numbered.{Numbered};
ghost use Rattle.rlnc.specs.Given.{CountGiven};
ghost use Rattle.rlnc.specs.Records.{recoder_of, RecoderMade};

use crate::give::give;
use field::Field;
use recoder::Recoder;

// The record of these numbers.
fn recoder_of(
    num_pieces_received: usize,
    full_coded_piece_byte_len: usize,
    num_pieces_coded_together: usize,
) -> Recoder
    ensures { result ≡ recoder_of num_pieces_received full_coded_piece_byte_len num_pieces_coded_together }
{
    Recoder {
        num_pieces_received,
        full_coded_piece_byte_len,
        num_pieces_coded_together,
    }
}

pub fn rlnc_recoder_new(
    data: &[u8],
    full_coded_piece_byte_len: usize,
    num_pieces_coded_together: usize,
    num_pieces_received: &mut usize,
) -> u8
    ensures { RecoderMade (length «data».now) full_coded_piece_byte_len num_pieces_coded_together num_pieces_received.old result num_pieces_received.new }
{
    let made = Recoder::new(data, full_coded_piece_byte_len, num_pieces_coded_together);
    give(made.map(|d| d.num_pieces_received), num_pieces_received)
}

pub fn rlnc_recoder_get_original_num_pieces_coded_together(
    num_pieces_received: usize,
    full_coded_piece_byte_len: usize,
    num_pieces_coded_together: usize,
    count: &mut usize,
) -> u8
    ensures { CountGiven (counted (sound (recoder_of num_pieces_received full_coded_piece_byte_len num_pieces_coded_together)) num_pieces_coded_together) count.old result count.new }
{
    let recoder = recoder_of(
        num_pieces_received,
        full_coded_piece_byte_len,
        num_pieces_coded_together,
    );
    give(recoder.get_original_num_pieces_coded_together(), count)
}

pub fn rlnc_recoder_get_num_pieces_recoded_together(
    num_pieces_received: usize,
    full_coded_piece_byte_len: usize,
    num_pieces_coded_together: usize,
    count: &mut usize,
) -> u8
    ensures { CountGiven (counted (sound (recoder_of num_pieces_received full_coded_piece_byte_len num_pieces_coded_together)) num_pieces_received) count.old result count.new }
{
    let recoder = recoder_of(
        num_pieces_received,
        full_coded_piece_byte_len,
        num_pieces_coded_together,
    );
    give(recoder.get_num_pieces_recoded_together(), count)
}

pub fn rlnc_recoder_get_piece_byte_len(
    num_pieces_received: usize,
    full_coded_piece_byte_len: usize,
    num_pieces_coded_together: usize,
    count: &mut usize,
) -> u8
    ensures { CountGiven (counted (sound (recoder_of num_pieces_received full_coded_piece_byte_len num_pieces_coded_together)) (full_coded_piece_byte_len - num_pieces_coded_together)) count.old result count.new }
{
    let recoder = recoder_of(
        num_pieces_received,
        full_coded_piece_byte_len,
        num_pieces_coded_together,
    );
    give(recoder.get_piece_byte_len(), count)
}

pub fn rlnc_recoder_get_full_coded_piece_byte_len(
    num_pieces_received: usize,
    full_coded_piece_byte_len: usize,
    num_pieces_coded_together: usize,
    count: &mut usize,
) -> u8
    ensures { CountGiven (counted (sound (recoder_of num_pieces_received full_coded_piece_byte_len num_pieces_coded_together)) full_coded_piece_byte_len) count.old result count.new }
{
    let recoder = recoder_of(
        num_pieces_received,
        full_coded_piece_byte_len,
        num_pieces_coded_together,
    );
    give(recoder.get_full_coded_piece_byte_len(), count)
}

pub fn rlnc_recoder_recode_with_buf(
    num_pieces_received: usize,
    full_coded_piece_byte_len: usize,
    num_pieces_coded_together: usize,
    pieces: &[u8],
    recoding_vector: &[u8],
    full_recoded_piece: &mut [u8],
) -> u8
    ensures { Numbered (λ a. Recoded fips (recoder_of num_pieces_received full_coded_piece_byte_len num_pieces_coded_together) pieces.now recoding_vector.now full_recoded_piece.old a full_recoded_piece.new) (recode_refusal (recoder_of num_pieces_received full_coded_piece_byte_len num_pieces_coded_together) (length pieces.now) (length recoding_vector.now) (length full_recoded_piece.old)) result }
{
    let recoder = recoder_of(
        num_pieces_received,
        full_coded_piece_byte_len,
        num_pieces_coded_together,
    );
    answers::number(recoder.recode_with_buf(
        Field::Fips197,
        pieces,
        recoding_vector,
        full_recoded_piece,
    ))
}
