// The calls at the two ends, with buffers of their own: what each answered, and the bytes that it wrote.
mod card;
mod either;
mod network;

ghost use Rattle.std.specs.Prelude.{◌≡◌, [], IfOk, MatchResult, take, vec_len};

use crate::types::Outcome;
use block::Refusal;
pub use either::trace;
pub use network::lapse_ticket;
use std::alloc::{AllocError, Global};

// A buffer of zeros.
fn zeroed(heap: Global, n: usize) -> Result<Vec<u8>, AllocError>
    ensures { IfOk result (λ v. vec_len v ≡ n) }
{
    vec![in heap; 0u8; n]
}

// Leaves of a buffer the first bytes, those that the call wrote, or none where it was refused.
fn keep(wrote: &mut Vec<u8>, n: usize, yielded: &Result<Outcome, Refusal>)
    ensures { MatchResult yielded.now (λ _. wrote.new.items ≡ take n wrote.old.items) (λ _. wrote.new.items ≡ []) }
{
    match yielded {
        Ok(_) => wrote.truncate(n),
        Err(_) => wrote.clear(),
    }
}
