// The entries that `rlnc_c` exports to Rust and C. Each hands its numbers and byte slices on, the field fixed to that of FIPS 197, and hands an
// answer out as its number. A record crosses as its numbers: sizes by value, and behind a reference what the entry sets, which a refusal
// leaves as it is. Kept for the C interface: parameters that always come together, kinds and answers as numbers, whether there is a byte as a
// bool, and each getter as an entry of its own.
#![tactic(auto)]

mod counts;
mod decode;
mod encode;
mod give;
mod helpers;
mod pieces;
mod recode;
mod store;

pub use counts::{
    rlnc_decoder_get_full_coded_piece_byte_len, rlnc_decoder_get_num_pieces_coded_together,
    rlnc_decoder_get_piece_byte_len, rlnc_decoder_get_received_piece_count,
    rlnc_decoder_get_remaining_piece_count, rlnc_decoder_get_useful_piece_count,
    rlnc_decoder_is_already_decoded,
};
pub use decode::{rlnc_decoder_decode, rlnc_decoder_get_decoded_data, rlnc_decoder_new};
pub use encode::{
    rlnc_encoder_code_with_buf, rlnc_encoder_code_with_coding_vector,
    rlnc_encoder_get_full_coded_piece_byte_len, rlnc_encoder_get_piece_byte_len,
    rlnc_encoder_get_piece_count, rlnc_encoder_new, rlnc_encoder_without_padding,
};
pub use helpers::{
    rlnc_combine, rlnc_gf256_div, rlnc_gf256_inv, rlnc_gf256_mul, rlnc_inplace_add_vectors,
    rlnc_inplace_mul_vec_by_scalar, rlnc_mul_part_by_scalar_then_add_into_part,
    rlnc_mul_vec_by_scalar_then_add_into_vec,
};
pub use pieces::{rlnc_stream_read, rlnc_stream_read_kind, rlnc_stream_sizes, rlnc_stream_write};
pub use recode::{
    rlnc_recoder_get_full_coded_piece_byte_len, rlnc_recoder_get_num_pieces_recoded_together,
    rlnc_recoder_get_original_num_pieces_coded_together, rlnc_recoder_get_piece_byte_len,
    rlnc_recoder_new, rlnc_recoder_recode_with_buf,
};
pub use store::{rlnc_stored_load, rlnc_stored_save};
