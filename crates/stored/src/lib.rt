// The stored form of a decoder: kind, rows, taken and the matrix, for the geometries of the stream. What is saved loads back, and what
// loads saves back to the same bytes.
#![tactic(auto)]

ghost use Rattle.std.specs.Prelude.{◌≡◌, false, ◌++◌, ◌-◌, ◌*◌, ◌≤◌, ◌<◌, length, replicate, MatchOption};
ghost use Rattle.stream.specs.Geometries.{pieces_of, length_of};
ghost use Rattle.decoder.specs.Records.{k_of, l_of, f_of, bad_state};
ghost use Rattle.stored.specs.Forms.{stored_kind, matrix_size, form_size, stored_geometry, size_geometry, form_of, form_matrix, form_decoder};
ghost use Rattle.stored.specs.Entries.{bad_parts, Saving, Loading};

use answers::RLNCError;
use block::judged::Judged;
use decoder::{Decoder, ReceivedPieceCount, UsefulPieceCount};
use stream::Geometry;

// An enum of the stored kinds is no plainer: it would name the three geometries again, and convert to them.
fn stored_kind(g: Geometry) -> u8
    ensures { result ≡ stored_kind g }
{
    match g {
        Geometry::Of3By2 => 0x21,
        Geometry::Of16By240 => 0x22,
        Geometry::Of32By480 => 0x23,
    }
}

// The bytes of the matrix.
fn matrix_len(g: Geometry) -> usize
    ensures { result ≡ matrix_size g }
{
    g.piece_count() * g.body_len()
}

// The bytes of the whole form, its kind included.
fn form_len(g: Geometry) -> usize
    ensures { result ≡ form_size g }
{
    4 + matrix_len(g)
}

// The geometry of a stored kind, if it is listed.
#[tactic(auto, unfolding(crate::specs::Forms::stored_geometry))]
fn of_kind(kind: u8) -> Option<Geometry>
    ensures { result ≡ stored_geometry kind }
{
    Geometry::ALL
        .iter()
        .copied()
        .find(|g| stored_kind(*g) == kind)
}

// The geometry of a decoder of these sizes, if it is listed.
#[tactic(auto, unfolding(crate::specs::Forms::size_geometry))]
fn of_sizes(piece_count: usize, piece_byte_len: usize) -> Option<Geometry>
    ensures { result ≡ size_geometry piece_count piece_byte_len }
{
    Geometry::ALL.iter().copied().find(|g| g.piece_count() == piece_count
        && g.piece_byte_len() == piece_byte_len)
}

// The held bytes of a matrix, then zeros.
fn put_matrix(held: &[u8], part: &mut [u8])
    requires { length held.now ≤ length part.old }
    ensures { part.new ≡ held.now ++ replicate (length part.old - length held.now) 0 }
{
    let (front, behind) = part.split_at_mut(held.len());
    front.copy_from_slice(held);
    behind.fill(0);
}

// The form of a decoder of this geometry.
fn put_form(g: Geometry, d: Decoder, elements: &[u8], form: &mut [u8])
    requires of_g { (k_of d ≡ pieces_of g) × (l_of d ≡ length_of g) }
    requires good { bad_state d (length elements.now) ≡ false }
    requires size { length form.old ≡ form_size g }
    ensures { form.new ≡ form_of g d elements.now }
{
    let rows = d.useful_piece_count.0;
    let [high, low] = (d.received_piece_count.0 as u16).to_be_bytes();
    let (head, matrix) = form.split_at_mut(4);
    head.copy_from_slice(&[stored_kind(g), rows as u8, high, low]);
    put_matrix(&elements[..rows * g.body_len()], matrix);
}

// The form of a decoder in a good state and of a listed size, at the front of `out`: how many bytes were written. The matrix beside the record, and
// the length for a slice, are kept for the C interface.
pub fn save(d: Decoder, elements: &[u8], out: &mut [u8]) -> Result<usize, RLNCError>
    ensures { Saving d elements.now out.old result out.new }
{
    d.admit(elements)?;
    let g = of_sizes(d.required_piece_count, d.piece_byte_len).ok_or(RLNCError::UnknownKind)?;
    let n = form_len(g);
    if out.len() < n {
        return Err(RLNCError::NoRoom);
    }
    put_form(g, d, elements, &mut out[..n]);
    Ok(n)
}

// The record and the matrix in a form of this geometry; none where it is cut short.
#[tactic(auto, unfolding(crate::specs::Forms::form_rows, crate::specs::Forms::form_taken, crate::specs::Forms::form_matrix, crate::specs::Forms::form_decoder))]
fn parts(g: Geometry, form: &[u8]) -> Option<(Decoder, &[u8])>
    ensures { MatchOption result (length form.now < form_size g) (λ p. (form_size g ≤ length form.now) × (p.0 ≡ form_decoder g form.now) × (p.1.now ≡ form_matrix g form.now)) }
{
    let [_, rows, high, low, rest @ ..] = form else {
        return None;
    };
    let matrix = rest.get(..matrix_len(g))?;
    let taken = u16::from_be_bytes([*high, *low]);
    let d = Decoder {
        required_piece_count: g.piece_count(),
        piece_byte_len: g.piece_byte_len(),
        useful_piece_count: UsefulPieceCount(*rows as usize),
        received_piece_count: ReceivedPieceCount(taken as usize),
    };
    Some((d, matrix))
}

// Bad counts, or a nonzero byte behind the held rows.
#[tactic(auto, unfolding(crate::specs::Entries::bad_parts))]
fn is_bad(d: Decoder, matrix: &[u8]) -> bool
    requires { length matrix.now ≡ k_of d * f_of d }
    ensures { result ≡ bad_parts d matrix.now }
{
    let rows = d.useful_piece_count.0;
    d.required_piece_count < rows
        || d.received_piece_count.0 < rows
        || !rows::is_zero(&matrix[rows * (d.required_piece_count + d.piece_byte_len)..])
}

// The decoder of a form, its matrix at the front of `elements`.
pub fn load(form: &[u8], elements: &mut [u8]) -> Result<Decoder, RLNCError>
    ensures { Loading form.now elements.old result elements.new }
{
    let [kind, ..] = form else {
        return Err(RLNCError::CutRecord);
    };
    let g = of_kind(*kind).ok_or(RLNCError::UnknownKind)?;
    let (d, matrix) = parts(g, form).ok_or(RLNCError::CutRecord)?;
    let n = matrix.len();
    if elements.len() < n {
        return Err(RLNCError::NoRoom);
    }
    if is_bad(d, matrix) {
        return Err(RLNCError::BadState);
    }
    elements[..n].copy_from_slice(matrix);
    Ok(d)
}
