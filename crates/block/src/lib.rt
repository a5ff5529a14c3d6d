// What encoder, recoder and decoder share: the sizes of a block and their limits, the marker (src/full/consts.rs) and, in specs/, the
// padding rule.
#![tactic(auto)]

ghost use Rattle.std.specs.Prelude.{◌≡◌};
ghost use Rattle.answers.specs.declared.RLNCError.TheVariants.{InvalidDecodedDataFormat};
ghost use Rattle.block.specs.Sizes.{over_limit, sized};

pub mod judged;

use answers::RLNCError;

pub const BOUNDARY_MARKER: u8 = 0x81;

pub const MAX_PIECE_COUNT: usize = 256;

pub const MAX_PIECE_BYTE_LEN: usize = 4096;

// More pieces than the limit, or longer ones.
#[tactic(auto, unfolding(crate::specs::Sizes::over_limit))]
pub fn over_limit(piece_count: usize, piece_byte_len: usize) -> bool
    ensures { result ≡ over_limit piece_count piece_byte_len }
{
    MAX_PIECE_COUNT < piece_count || MAX_PIECE_BYTE_LEN < piece_byte_len
}

// Sizes that a record may have: neither is 0 or over its limit.
#[tactic(auto, unfolding(crate::specs::Sizes::sized))]
pub fn sizes_fit(piece_count: usize, piece_byte_len: usize) -> bool
    ensures { result ≡ sized piece_count piece_byte_len }
{
    piece_count != 0 && piece_byte_len != 0 && !over_limit(piece_count, piece_byte_len)
}

// The ways in which a block breaks the padding rule.
#[derive(Clone, Copy, PartialEq, Eq, Debug)]
pub enum BrokenPadding {
    MarkerAbsent,
    MarkerFirst,
    TailNotZero,
}

impl From<BrokenPadding> for RLNCError {
    ghost from_gives = { λ _ e. e ≡ InvalidDecodedDataFormat };

    fn from(_broken: BrokenPadding) -> RLNCError {
        RLNCError::InvalidDecodedDataFormat
    }
}
