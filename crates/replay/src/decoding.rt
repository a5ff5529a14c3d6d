// Calls of the decoder, which is kept beside its matrix, and of its stored form.
use super::{Call, Lent, say};
use decoder::{Decoder, ReceivedPieceCount, UsefulPieceCount};
use field::Field;

// The answer is said, and the record is the one to keep.
pub(crate) fn call(rt: &HostRuntime, c: Call, d: Decoder, lent: Lent<'_>) -> Decoder {
    let Lent {
        kept: elements,
        a,
        b,
    } = lent;
    let next = match c.op {
        0x31 => say::kept(rt, d, Decoder::new(c.p, c.q, elements)),
        0x32 => {
            say::answer(rt, Ok(()));
            Decoder {
                required_piece_count: c.p,
                piece_byte_len: c.q,
                useful_piece_count: UsefulPieceCount(c.r),
                received_piece_count: ReceivedPieceCount(c.s),
            }
        }
        0x33 => {
            let (next, answer) = d.after_piece(d.decode(Field::Fips197, elements, a));
            say::answer(rt, answer);
            next
        }
        0x34 => {
            say::length(rt, d.get_decoded_data(elements, b));
            d
        }
        0x35 => {
            say::length(rt, stored::save(d, elements, b));
            d
        }
        _ => say::kept(rt, d, stored::load(a, elements)),
    };
    say::counts(
        rt,
        [
            next.get_num_pieces_coded_together(),
            next.get_piece_byte_len(),
            next.get_full_coded_piece_byte_len(),
            next.get_received_piece_count(),
            next.get_useful_piece_count(),
            next.get_remaining_piece_count(),
        ],
    );
    // In the script 1 is complete, 0 is not, and 2 is refused.
    say::number_or(rt, b" 2", next.is_already_decoded().map(usize::from));
    say::buffers(rt, elements, a, b);
    next
}
