// Calls of the encoder, which is kept beside its block.
use super::{Call, Lent, say};
use encoder::Encoder;
use field::Field;

// The answer is said, and the record is the one to keep.
pub(crate) fn call(rt: &HostRuntime, c: Call, e: Encoder, lent: Lent<'_>) -> Encoder {
    let Lent { kept: block, a, b } = lent;
    let next = match c.op {
        0x11 => say::kept(rt, e, Encoder::new(a, block, c.p)),
        0x12 => say::kept(rt, e, Encoder::without_padding(block, c.p)),
        0x13 => {
            say::answer(rt, Ok(()));
            Encoder {
                piece_count: c.p,
                piece_byte_len: c.q,
            }
        }
        0x14 => {
            say::answer(rt, e.code_with_coding_vector(Field::Fips197, block, a, b));
            e
        }
        _ => {
            say::answer(rt, e.code_with_buf(Field::Fips197, block, a, b));
            e
        }
    };
    say::counts(
        rt,
        [
            next.get_piece_count(),
            next.get_piece_byte_len(),
            next.get_full_coded_piece_byte_len(),
        ],
    );
    say::buffers(rt, block, a, b);
    next
}
