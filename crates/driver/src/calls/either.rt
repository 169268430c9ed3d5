ghost use Rattle.std.specs.Prelude.{◌≡◌, [], IfOk, length, vec_len};
ghost use Rattle.block.specs.Bytes.{AreBytes};
ghost use Rattle.aka.specs.Calls.{does_trace};
ghost use Rattle.driver.specs.Seen.{Made};
ghost use Rattle.driver.specs.Yields.{yield_of};
ghost use Rattle.driver.specs.Called.{Wrote};

use super::{keep, zeroed};
use crate::types::{Answer, Outcome};
use aka::PairEnd;
use block::Refusal;
use std::alloc::{AllocError, Global};

// The length of the six blocks of a trace.
const TRACE: usize = 192;

// Has either end trace a computation. The parameters are those of its own call, with lengths for the buffers.
pub fn trace<E: PairEnd>(
    heap: Global,
    index: usize,
    rand: &[u8],
    size: usize,
    carried: &[u8],
    room: usize,
    scratch: usize,
    end: &E,
) -> Result<Answer, AllocError>
    ensures { IfOk result (λ a. (AreBytes rand.now × AreBytes carried.now) × Made (does_trace (E.setup end.now) index rand.now size carried.now room scratch) a tt) }
{
    let mut wrote = zeroed(heap, room)?;
    let mut wiped = zeroed(heap, scratch)?;
    let yielded = trace_with(index, rand, size, carried, &mut wrote, &mut wiped, end);
    Ok(Answer {
        yielded,
        wrote,
        wrote_auts: Vec::new(heap),
    })
}

// The same with these buffers; what was written is left in `wrote`, and no more.
fn trace_with<E: PairEnd>(
    index: usize,
    rand: &[u8],
    size: usize,
    carried: &[u8],
    wrote: &mut Vec<u8>,
    wiped: &mut [u8],
    end: &E,
) -> Result<Outcome, Refusal>
    ensures strings { AreBytes rand.now × AreBytes carried.now }
    ensures wrote { Wrote (does_trace (E.setup end.now) index rand.now size carried.now (vec_len wrote.old) (length wiped.old)) (yield_of result) wrote.new.items [] tt }
{
    end.is_sound();
    let yielded = end
        .trace(index, rand, size, carried, wrote, wiped)
        .map(|()| Outcome::Traced);
    keep(wrote, TRACE, &yielded);
    yielded
}
