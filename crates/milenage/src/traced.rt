ghost use Rattle.std.specs.Prelude.{◌≡◌, length};
ghost use Rattle.std.specs.List.{concat};
ghost use Rattle.block.specs.Bytes.{zeros};
ghost use Rattle.milenage.specs.Blocks.{trace_of};
ghost use Rattle.milenage.specs.Calls.{keyed, Tells, Traces};

use super::computation::Computation;
use super::question::Question;
use super::scratch::{Work, split_scratch};
use block::{Refusal, Wipe, fill_block};
use kernel::Kernel;

// Writes the six blocks of a computation: input and output of the first kernel run, IN, input and output of the second, the answer block.
// What is asked stands argument by argument, as the rules of the call name it: a struct would be made at each call only to be taken apart here.
pub fn trace<'k, K: Kernel>(
    kernel: &'k K,
    opc: &'k [u8; 32],
    constants: &'k [u8; 128],
    index: usize,
    rand: &[u8],
    size: usize,
    carried: &[u8],
    out: &mut [u8],
    scratch: &mut [u8],
) -> Result<(), Refusal>
    ensures wiped { scratch.new ≡ zeros (length scratch.old) }
    ensures traced { Traces (keyed (K.Kernel.forth kernel.now) opc.now constants.now) index rand.now size carried.now out.old (length scratch.old) result out.new }
{
    let guard = Wipe(scratch);
    let question = Question::new(index, rand.len(), size, carried)?;
    let (temp, work) = split_scratch(guard.0).ok_or(Refusal::Buffer)?;
    let out = out.first_chunk_mut::<192>().ok_or(Refusal::Buffer)?;
    let blocks = six_blocks(kernel, opc, constants, rand, question, temp, work);
    out.copy_from_slice(blocks.as_flattened());
    Ok(())
}

// The six blocks, and the answer block among them last.
// Kernel, OPc and constants are handed on one by one: `Computation` holds them together, and is made of them here.
fn six_blocks<'k, K: Kernel>(
    kernel: &'k K,
    opc: &'k [u8; 32],
    constants: &'k [u8; 128],
    rand: &[u8],
    question: Question,
    temp: &mut [u8; 32],
    work: &mut Work,
) -> [[u8; 32]; 6]
    ensures { (q : _) → Tells question q → concat result ≡ trace_of (keyed (K.Kernel.forth kernel.now) opc.now constants.now) rand.now q }
{
    let computation = Computation::begin(kernel, opc, constants, fill_block(rand), temp, work);
    let [first, first_made] = *work;
    let input = question.in_block(constants);
    let block = computation.ask(question, work);
    let [second, second_made] = *work;
    [first, first_made, input, second, second_made, block]
}
