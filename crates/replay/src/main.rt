// Reads a script of calls from standard input, makes each call of the port, and prints a line for it: its ordinal, the answer, the counts,
// and every byte of the buffers that were lent. What it prints is compared with what the Rust answers to the same script (oracle/README.md
// has the format).
#![tactic(auto)]

ghost use Rattle.std.specs.Prelude.{◌≡◌, ◌+◌, ◌≤◌, length};

use decoder::{Decoder, ReceivedPieceCount, UsefulPieceCount};
use encoder::Encoder;
use recoder::Recoder;
use std::io::Read;

mod decoding;
mod encoding;
mod plain;
mod recoding;
mod say;

// The bytes of a call before its slices.
const HEAD_LEN: usize = 31;

// Room for a block, for pieces, and for each slice of a call.
const BUFFER_LEN: usize = 65536;

// Room for a matrix of 256 pieces of 2 bytes.
const MATRIX_LEN: usize = 256 * (256 + 2);

// What a call says: its kind, five numbers, how much of the kept buffer is lent, how much of it is written anew before, and the lengths
// of the two slices. The kind stays the script's byte, and is matched on: an unknown one does what the last of its module does, or
// forgets the records, which an enum would have to repeat.
#[derive(Clone, Copy)]
struct Call {
    op: u8,
    p: usize,
    q: usize,
    r: usize,
    s: usize,
    t: usize,
    lent: usize,
    load: usize,
    a: usize,
    b: usize,
}

// What is kept from call to call, beside the block, the pieces and the matrix.
#[derive(Clone, Copy)]
struct Kept {
    encoder: Encoder,
    recoder: Recoder,
    decoder: Decoder,
}

// The block, the pieces and the matrix, and room for the two slices of a call.
#[derive(Drop)]
struct Buffers {
    block: [u8; BUFFER_LEN],
    pieces: [u8; BUFFER_LEN],
    elements: [u8; MATRIX_LEN],
    a: [u8; BUFFER_LEN],
    b: [u8; BUFFER_LEN],
}

// What a call is lent: the front of a kept buffer, and its two slices. It is taken apart first: the borrow checker does not
// cover a slice that is read beside one that is written where both lie behind one `&mut Lent`.
#[derive(Drop)]
struct Lent<'a> {
    kept: &'a mut [u8],
    a: &'a mut [u8],
    b: &'a mut [u8],
}

// The next bytes of a call.
fn next<const N: usize>(head: &mut &[u8]) -> [u8; N]
    requires { N ≤ length head.old.now }
    ensures { length head.new.now + N ≡ length head.old.now }
{
    let (bytes, behind) = head.split_first_chunk().unwrap();
    *head = behind;
    *bytes
}

// Numbers stand in a call high byte first.
fn call_in(head: &[u8; HEAD_LEN]) -> Call {
    let mut head = &head[..];
    Call {
        op: u8::from_be_bytes(next(&mut head)),
        p: u32::from_be_bytes(next(&mut head)) as usize,
        q: u32::from_be_bytes(next(&mut head)) as usize,
        r: u32::from_be_bytes(next(&mut head)) as usize,
        s: u32::from_be_bytes(next(&mut head)) as usize,
        t: u32::from_be_bytes(next(&mut head)) as usize,
        lent: u32::from_be_bytes(next(&mut head)) as usize,
        load: usize::from(u16::from_be_bytes(next(&mut head))),
        a: usize::from(u16::from_be_bytes(next(&mut head))),
        b: usize::from(u16::from_be_bytes(next(&mut head))),
    }
}

// Records with no good numbers. Written out: a `Default` of the library's types would be a record that is refused everywhere.
fn nothing() -> Kept {
    let encoder = Encoder {
        piece_count: 0,
        piece_byte_len: 0,
    };
    let recoder = Recoder {
        num_pieces_received: 0,
        full_coded_piece_byte_len: 0,
        num_pieces_coded_together: 0,
    };
    let decoder = Decoder {
        required_piece_count: 0,
        piece_byte_len: 0,
        useful_piece_count: UsefulPieceCount(0),
        received_piece_count: ReceivedPieceCount(0),
    };
    Kept {
        encoder,
        recoder,
        decoder,
    }
}

// So many bytes at the front of a buffer.
fn front(buf: &mut [u8], n: usize) -> &mut [u8] {
    let n = n.min(buf.len());
    &mut buf[..n]
}

// Those bytes, read from the script. Where it ends before, or cannot be read, the others stay.
fn filled<'a>(rt: &HostRuntime, buf: &'a mut [u8], n: usize) -> &'a mut [u8] {
    let part = front(buf, n);
    let _ = rt.stdin().read_exact(part);
    part
}

// The front of a kept buffer that is lent, written anew before as the call says.
fn loaded<'a>(rt: &HostRuntime, c: Call, kept: &'a mut [u8]) -> &'a mut [u8] {
    filled(rt, kept, c.load);
    front(kept, c.lent)
}

// One call. The high digit of its kind says whom it asks. What the three modules do differs in all but the last lines of their `call`, so a trait of
// the three records would be no shorter.
fn one(rt: &HostRuntime, c: Call, k: Kept, buffers: &mut Buffers) -> Kept {
    let a = filled(rt, &mut buffers.a, c.a);
    let b = filled(rt, &mut buffers.b, c.b);
    match c.op / 16 {
        0 => {
            plain::call(rt, c, a, b);
            k
        }
        1 => {
            let kept = loaded(rt, c, &mut buffers.block);
            let encoder = encoding::call(rt, c, k.encoder, Lent { kept, a, b });
            Kept { encoder, ..k }
        }
        2 => {
            let kept = loaded(rt, c, &mut buffers.pieces);
            let recoder = recoding::call(rt, c, k.recoder, Lent { kept, a, b });
            Kept { recoder, ..k }
        }
        3 => {
            let kept = loaded(rt, c, &mut buffers.elements);
            let decoder = decoding::call(rt, c, k.decoder, Lent { kept, a, b });
            Kept { decoder, ..k }
        }
        _ => nothing(),
    }
}

// The next call of the script, which is the n-th; none at its end.
fn turn(rt: &HostRuntime, n: u64, k: Kept, buffers: &mut Buffers) -> Option<Kept> {
    let mut head = [0u8; HEAD_LEN];
    rt.stdin().read_exact(&mut head).ok()?;
    let _ = print!(rt; "{n}");
    let next = one(rt, call_in(&head), k, buffers);
    say::put(rt, b"\n");
    Some(next)
}

// The calls one after the other. A proved loop has to end, and nothing says that an input does: so the calls are counted up to a number
// that no input reaches.
fn main(rt: HostRuntime) {
    let mut buffers = Buffers {
        block: [0; BUFFER_LEN],
        pieces: [0; BUFFER_LEN],
        elements: [0; MATRIX_LEN],
        a: [0; BUFFER_LEN],
        b: [0; BUFFER_LEN],
    };
    let mut kept = nothing();
    for n in 1..u64::MAX {
        let Some(next) = turn(&rt, n, kept, &mut buffers) else {
            return;
        };
        kept = next;
    }
}
