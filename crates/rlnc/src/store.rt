// The stored form of a decoder.
ghost use Rattle.decoder.specs.Entries.{decoder_of};
ghost use Rattle.rlnc.specs.Forms.{FormSaved, FormLoaded};

use crate::decode::decoder_of;
use crate::give::give;

#[tactic(auto, using(crate::proofs::Forms::saved_given))]
pub fn rlnc_stored_save(
    piece_byte_len: usize,
    required_piece_count: usize,
    useful_piece_count: usize,
    received_piece_count: usize,
    elements: &[u8],
    form: &mut [u8],
    form_len: &mut usize,
) -> u8
    ensures { FormSaved (decoder_of required_piece_count piece_byte_len useful_piece_count received_piece_count) elements.now form.old form_len.old result form_len.new form.new }
{
    let decoder = decoder_of(
        piece_byte_len,
        required_piece_count,
        useful_piece_count,
        received_piece_count,
    );
    give(stored::save(decoder, elements, form), form_len)
}

pub fn rlnc_stored_load(
    form: &[u8],
    elements: &mut [u8],
    piece_byte_len: &mut usize,
    required_piece_count: &mut usize,
    useful_piece_count: &mut usize,
    received_piece_count: &mut usize,
) -> u8
    ensures { FormLoaded form.now elements.old (decoder_of required_piece_count.old piece_byte_len.old useful_piece_count.old received_piece_count.old) result (decoder_of required_piece_count.new piece_byte_len.new useful_piece_count.new received_piece_count.new) elements.new }
{
    // Not by `give`: it sets more than one number.
    match stored::load(form, elements) {
        Ok(d) => {
            *piece_byte_len = d.piece_byte_len;
            *required_piece_count = d.required_piece_count;
            *useful_piece_count = d.useful_piece_count.0;
            *received_piece_count = d.received_piece_count.0;
            0
        }
        Err(e) => e.number(),
    }
}
