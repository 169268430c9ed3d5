ghost use Rattle.std.specs.Prelude.{◌≡◌, ◌≤◌, length, take};
ghost use Rattle.block.specs.Refusals.{Answers};
ghost use Rattle.milenage.specs.Functions.{index_of, kind_of};
ghost use Rattle.milenage.specs.Question.{byte1};
ghost use Rattle.milenage.specs.Grounds.{size_ground, sizes_ground, cut_ground};

use super::function::Function;
use block::Refusal;

// Byte 1 of IN: which sizes a function has, and how they are packed.
// The bounds of an end's size set stand once more in crate aka, in `Sizes::admit`: an end refuses a bad set before any question is asked,
// and by other grounds (an SQN's size by `Size`, where a question has `Carried`).
#[tactic(auto, unfolding(crate::specs::Functions::kind_of, crate::specs::Functions::bad_size, crate::specs::Functions::bad_carried, crate::specs::Question::byte1))]
pub(crate) fn size_byte(function: Function, size: usize, carried: usize) -> Result<u8, Refusal>
    ensures { Answers (sizes_ground (index_of function) size carried) result (λ b. b ≡ byte1 (kind_of (index_of function)) size carried) }
{
    match function {
        Function::F1Star | Function::F1 if size < 8 || size > 32 => Err(Refusal::Size),
        Function::F1Star | Function::F1 if carried < 8 || carried > 14 => Err(Refusal::Carried),
        Function::F1Star | Function::F1 => Ok(((carried - 2 - 5) * 32 + (size - 1)) as u8),
        Function::F2 if size < 4 || size > 32 => Err(Refusal::Size),
        Function::F2 if carried > 0 => Err(Refusal::Carried),
        Function::F2 => Ok((size - 1) as u8),
        Function::F3 | Function::F4 if size < 16 || size > 32 => Err(Refusal::Size),
        Function::F3 | Function::F4 if carried > 0 => Err(Refusal::Carried),
        Function::F3 | Function::F4 => Ok((size - 1) as u8),
        Function::F5 | Function::F5Star if size < 6 || size > 12 => Err(Refusal::Size),
        Function::F5 | Function::F5Star if carried > 0 => Err(Refusal::Carried),
        Function::F5 | Function::F5Star => Ok((size - 5) as u8),
        Function::F5StarStar if size < 6 || size > 12 => Err(Refusal::Size),
        Function::F5StarStar if carried < 8 || carried > 32 => Err(Refusal::Carried),
        Function::F5StarStar => Ok(((carried - 1) * 8 + (size - 5)) as u8),
    }
}

// Whether a function has an output size. Of the refusals the one of what is carried is none here, and the others are handed on.
// The match stays: one arm takes `Carried` for none, and the other hands on; `or_else` with a closure would be no plainer.
pub(crate) fn has_size(function: Function, size: usize) -> Result<(), Refusal>
    ensures { Answers (size_ground (index_of function) size) result (λ _. size ≤ 32) }
{
    match size_byte(function, size, 0) {
        Ok(_) | Err(Refusal::Carried) => Ok(()),
        Err(e) => Err(e),
    }
}

// A function's output: the first bytes of its answer block, as many as its size.
// The index is a number, since one that no function has is refused.
pub fn cut(index: usize, size: usize, block: &[u8]) -> Result<&[u8], Refusal>
    ensures { Answers (cut_ground index size (length block.now)) result (λ part. part.now ≡ take size block.now) }
{
    has_size(Function::try_from(index)?, size)?;
    if block.len() != 32 {
        return Err(Refusal::Message);
    }
    Ok(&block[..size])
}
