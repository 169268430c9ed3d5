ghost use Rattle.std.specs.Prelude.{◌≡◌, [], length, ℕ, List};
ghost use Rattle.block.specs.Bytes.{zeros, IsBlock};
ghost use Rattle.aka.specs.declared.shared.Core.{Core};
ghost use Rattle.aka.specs.Setup.{Setup, SoundSetup};
ghost use Rattle.aka.specs.Views.{setup_of};
ghost use Rattle.aka.specs.States.{Shows};
ghost use Rattle.aka.specs.Calls.{does_trace};
ghost use Rattle.aka.specs.Told.{told_trace};
ghost use Rattle.aka.specs.Messages.{Reads};
ghost use Rattle.aka.specs.Tokens.{vector_size, answers_size, auts_size};

use super::message::{Message, read_message};
use super::shared::Core;
use super::sizes::Sizes;
use block::Refusal;
use kernel::Kernel;

// What both ends of a pair answer alike.
pub trait PairEnd {
    // what the end was opened with
    ghost setup: { Self → Setup };

    // What the end was opened with is sound.
    fn is_sound(&self)
        ensures { SoundSetup (setup self.now) };

    // The end's size set.
    fn sizes(&self) -> Sizes
        ensures { result ≡ (setup self.now).sizes };

    // The length of a vector: RAND ‖ XRES ‖ CK ‖ IK ‖ AUTN.
    fn vector_size(&self) -> usize
        ensures { result ≡ vector_size (setup self.now).sizes };

    // The length of what a card answers when it accepts: RES ‖ CK ‖ IK.
    fn answers_size(&self) -> usize
        ensures { result ≡ answers_size (setup self.now).sizes };

    // The length of an AUTS.
    fn auts_size(&self) -> usize
        ensures { result ≡ auts_size (setup self.now).sizes };

    // Reads a received token as parts of its bytes: its length under the end's size set tells which it is.
    fn read_message<'a>(&self, bytes: &'a [u8]) -> Result<Message<'a>, Refusal>
        ensures { Reads (setup self.now).sizes bytes.entry result };

    // Writes the six blocks of a computation of the function with an index.
    // What is asked stands argument by argument, as the rules of the call name it: a struct would be made at each call only to be taken apart.
    fn trace(
        &self,
        index: usize,
        rand: &[u8],
        size: usize,
        carried: &[u8],
        out: &mut [u8],
        scratch: &mut [u8],
    ) -> Result<(), Refusal>
        ensures wiped { scratch.new ≡ zeros (length scratch.old) }
        ensures shows { Shows (does_trace (setup self.now) index rand.now size carried.now (length out.old) (length scratch.old)) (told_trace result) out.old out.new [] [] tt };

    // forth of the end's kernel gives blocks
    ghost forth_block: { (e : Self) (x : List ℕ) → IsBlock x → IsBlock ((setup e).forth x) };
}

// An end, by what it holds for good.
pub trait HoldsCore {
    // the kernel that the end was opened with
    type K: Kernel;

    // what the end holds
    ghost core_of: { Self → Core Self.K };

    // What the end holds.
    fn core(&self) -> &Core<Self::K>
        ensures { result.now ≡ core_of self.now };
}

impl<E: HoldsCore> PairEnd for E {
    ghost setup = { λ e. setup_of E.K.forth (E.core_of e) };

    ghost forth_block = { λ e. E.K.forth_block (E.core_of e).kernel };

    fn is_sound(&self) {
        self.core().is_sound();
    }

    fn sizes(&self) -> Sizes {
        self.core().admitted.sizes
    }

    fn vector_size(&self) -> usize {
        self.core().admitted.vector_size()
    }

    fn answers_size(&self) -> usize {
        self.core().admitted.answers_size()
    }

    fn auts_size(&self) -> usize {
        self.core().admitted.auts_size()
    }

    fn read_message<'a>(&self, bytes: &'a [u8]) -> Result<Message<'a>, Refusal> {
        read_message(self.core().admitted, bytes)
    }

    fn trace(
        &self,
        index: usize,
        rand: &[u8],
        size: usize,
        carried: &[u8],
        out: &mut [u8],
        scratch: &mut [u8],
    ) -> Result<(), Refusal> {
        self.core().trace(index, rand, size, carried, out, scratch)
    }
}
