ghost use Rattle.block.specs.Refusals.{Answers};
ghost use Rattle.aka.specs.Replies.{short_ground, Front, reply_ground, Replies};
ghost use Rattle.aka.specs.Views.{card_setup};

use super::CardEnd;
use crate::sizes::Admitted;
use block::Refusal;
use kernel::Kernel;

impl<K: Kernel> CardEnd<K> {
    // What goes back to the network after a receive: RES, AUTS where the challenge was behind, or nothing.
    pub fn reply<'a>(
        &self,
        outcome: Result<(), Refusal>,
        answer: &'a [u8],
        auts: &'a [u8],
    ) -> Result<&'a [u8], Refusal>
        ensures { Answers (reply_ground (card_setup K.Kernel.forth self.now).sizes outcome answer.now auts.now) result (λ p. Replies (card_setup K.Kernel.forth self.now).sizes outcome answer.entry auts.entry p) }
    {
        reply_part(self.core.admitted, outcome, answer, auts)
    }
}

// The part of either buffer that goes back; nothing is the empty part at the front of the answer buffer.
fn reply_part<'a>(
    admitted: Admitted,
    outcome: Result<(), Refusal>,
    answer: &'a [u8],
    auts: &'a [u8],
) -> Result<&'a [u8], Refusal>
    ensures { Answers (reply_ground admitted.sizes outcome answer.now auts.now) result (λ p. Replies admitted.sizes outcome answer.entry auts.entry p) }
{
    match outcome {
        Ok(()) => front(answer, admitted.sizes.res),
        Err(Refusal::Behind) => front(auts, admitted.auts_size()),
        Err(_) => front(answer, 0),
    }
}

// The first n bytes of a buffer, unless it is too short.
// A test and a slice, not `buffer.get(..n).ok_or(..)`: that was tried, but the contract of `get` tells the bytes of a part and not where they lie, which `Front` wants.
fn front<'a>(buffer: &'a [u8], n: usize) -> Result<&'a [u8], Refusal>
    ensures { Answers (short_ground n buffer.now) result (λ p. Front n buffer.entry p) }
{
    if buffer.len() < n {
        return Err(Refusal::Buffer);
    }
    Ok(&buffer[..n])
}
