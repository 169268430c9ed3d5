ghost use Rattle.std.specs.Char.{digit_value};
ghost use Rattle.std.specs.Prelude.{◌<◌, ◌≤◌, length, slice_index, IfOk, IfSome, MatchOption};
ghost use Rattle.script.specs.Spelling.{Spells, SpellsNothing};

use hex::FromHexError;
use std::alloc::{AllocError, Global};

// The bytes that a text spells in hexadecimal digits, two to a byte and nothing between, or none where it spells no bytes.
// A bad digit is looked for first: the library takes memory for all of the bytes before it reads the first digit.
pub fn spelled_bytes(heap: Global, text: &[u8]) -> Result<Option<Vec<u8>>, AllocError>
    ensures { IfOk result (λ o. MatchOption o (SpellsNothing text.now) (λ v. Spells text.now v.items)) }
{
    if bad_digit(text).is_some() {
        return Ok(None);
    }
    decoded(heap, text)
}

// Where the first character stands that is no hexadecimal digit.
fn bad_digit(text: &[u8]) -> Option<usize>
    ensures { IfSome result (λ i. (i < length text.now) × (16 ≤ digit_value (slice_index text.now i))) }
{
    text.iter().position(|c| !c.is_ascii_hexdigit())
}

// The bytes as the library decodes them.
#[tactic(auto, using(crate::proofs::Decoding::decoded_spells, crate::proofs::Decoding::refused_spells_nothing))]
fn decoded(heap: Global, text: &[u8]) -> Result<Option<Vec<u8>>, AllocError>
    ensures { IfOk result (λ o. MatchOption o (SpellsNothing text.now) (λ v. Spells text.now v.items)) }
{
    hex::decode(heap, text)
        .map(Some)
        .or_else(|fault| match fault {
            // the library's word for want of memory
            FromHexError::OutOfMemory => Err(AllocError),
            _ => Ok(None),
        })
}
