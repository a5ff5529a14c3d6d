// Calls of the recoder, which is kept beside its pieces.
use super::{Call, Lent, say};
use field::Field;
use recoder::Recoder;

// The answer is said, and the record is the one to keep.
pub(crate) fn call(rt: &HostRuntime, c: Call, r: Recoder, lent: Lent<'_>) -> Recoder {
    let Lent { kept: pieces, a, b } = lent;
    let next = match c.op {
        0x21 => say::kept(rt, r, Recoder::new(pieces, c.p, c.q)),
        0x22 => {
            say::answer(rt, Ok(()));
            Recoder {
                num_pieces_received: c.p,
                full_coded_piece_byte_len: c.q,
                num_pieces_coded_together: c.r,
            }
        }
        _ => {
            say::answer(rt, r.recode_with_buf(Field::Fips197, pieces, a, b));
            r
        }
    };
    say::counts(
        rt,
        [
            next.get_original_num_pieces_coded_together(),
            next.get_num_pieces_recoded_together(),
            next.get_piece_byte_len(),
            next.get_full_coded_piece_byte_len(),
        ],
    );
    say::buffers(rt, pieces, a, b);
    next
}
