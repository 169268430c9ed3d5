ghost use Rattle.std.specs.Prelude.{◌≡◌, ◌<◌, ◌∷◌, ◌++◌, length, take};
ghost use Rattle.block.specs.Bytes.{zeros, filled};
ghost use Rattle.block.specs.Refusals.{Answers};
ghost use Rattle.milenage.specs.Functions.{bad_rand, index_of};
ghost use Rattle.milenage.specs.Question.{constant_of};
ghost use Rattle.milenage.specs.Grounds.{question_ground};
ghost use Rattle.milenage.specs.Calls.{asked, Tells, input_of};

use super::Question;
use crate::function::Function;
use crate::sizes::{has_size, size_byte};
use block::{Refusal, xor_blocks};

impl Question {
    // What the function of an index is asked: at a RAND of a size, for an output of a size, with the bytes that it carries.
    // The index is a number, since one that no function has is refused.
    pub fn new(
        index: usize,
        rand_size: usize,
        size: usize,
        carried: &[u8],
    ) -> Result<Question, Refusal>
        ensures { Answers (question_ground index rand_size size (length carried.now)) result (λ q. Tells q (asked index rand_size size carried.now)) }
    {
        Question::of(Function::try_from(index)?, rand_size, size, carried)
    }

    // What a function is asked.
    pub fn of(
        function: Function,
        rand_size: usize,
        size: usize,
        carried: &[u8],
    ) -> Result<Question, Refusal>
        ensures { Answers (question_ground (index_of function) rand_size size (length carried.now)) result (λ q. Tells q (asked (index_of function) rand_size size carried.now)) }
    {
        has_size(function, size)?;
        if bad_rand(rand_size) {
            return Err(Refusal::Rand);
        }
        let sizes = size_byte(function, size, carried.len())?;
        let first = (function.index() * 32 + (rand_size - 1)) as u8;
        Ok(Question {
            function,
            header: header_of(first, sizes, carried),
        })
    }

    // IN: the constant of the function over bytes 16 to 31.
    pub fn in_block(&self, constants: &[u8; 128]) -> [u8; 32]
        ensures { result ≡ input_of constants.now self.now }
    {
        xor_blocks(self.header, constant(constants, self.function))
    }
}

// Whether no RAND has the size.
fn bad_rand(size: usize) -> bool
    ensures { result ≡ bad_rand size }
{
    size < 16 || size > 32
}

// The two bytes, the first thirty of what is carried, zeros.
fn header_of(first: u8, second: u8, carried: &[u8]) -> [u8; 32]
    ensures { result ≡ filled (first ∷ second ∷ take 30 carried.now) }
{
    let mut header = [0; 32];
    header[0] = first;
    header[1] = second;
    let n = carried.len().min(30);
    // Byte 2 on: where the standard lays what is carried.
    header[2..2 + n].copy_from_slice(&carried[0..n]);
    header
}

// Sixteen zeros, then the constant of the function.
fn constant(constants: &[u8; 128], function: Function) -> [u8; 32]
    ensures { result ≡ zeros 16 ++ constant_of constants.now (index_of function) }
{
    let mut block = [0; 32];
    // the place in the words of the definition: `as_chunks` says the same by a list of lists
    let from = 16 * function.index();
    block[16..].copy_from_slice(&constants[from..from + 16]);
    block
}
