ghost use Rattle.std.specs.Prelude.{◌≡◌, ◌+◌, ◌^◌, ◌<◌, [], length};
ghost use Rattle.block.specs.Bytes.{zeros};
ghost use Rattle.aka.specs.States.{Shows};
ghost use Rattle.aka.specs.Calls.{does_challenge};
ghost use Rattle.aka.specs.Grounds.{MayChallenge};
ghost use Rattle.aka.specs.Told.{told_challenge};
ghost use Rattle.aka.specs.Views.{network_setup, network_of};

use super::{Book, NetworkEnd};
use crate::numbers::is_largest;
use crate::sizes::Admitted;
use crate::ticket::Ticket;
use block::{Refusal, Wipe, fill_block};
use kernel::Kernel;
use milenage::{Work, split_scratch};

impl<K: Kernel> NetworkEnd<K> {
    // Gives a challenge with the next number: writes its vector, and answers the ticket that names it. An open challenge ends.
    pub fn challenge(
        &mut self,
        rand: &[u8],
        amf: &[u8],
        out: &mut [u8],
        scratch: &mut [u8],
    ) -> Result<Ticket, Refusal>
        ensures wiped { scratch.new ≡ zeros (length scratch.old) }
        ensures setup { network_setup K.Kernel.forth self.new ≡ network_setup K.Kernel.forth self.old }
        ensures shows { Shows (does_challenge (network_setup K.Kernel.forth self.old) (network_of self.old) rand.now amf.now (length out.old) (length scratch.old)) (told_challenge result) out.old out.new [] [] (network_of self.new) }
    {
        let guard = Wipe(scratch);
        let admitted = self.core.admitted;
        let (amf, (temp, work)) = may_challenge(
            admitted,
            self.book,
            rand.len(),
            amf,
            out.len(),
            guard.0,
        )?;
        let number = self.book.number + 1;
        let given = self.book.given + 1;
        let xres = self
            .core
            .at(rand, temp, work)
            .write_vector(number, amf, out, work);
        self.book = Book {
            number,
            given,
            pending: Some(given),
            rand: fill_block(rand),
            xres,
        };
        Ok(Ticket::issue(given))
    }
}

// The AMF of a challenge and the blocks of the scratch, if it can be given.
fn may_challenge<'s>(
    admitted: Admitted,
    book: Book,
    rand: usize,
    amf: &[u8],
    out: usize,
    scratch: &'s mut [u8],
) -> Result<([u8; 2], (&'s mut [u8; 32], &'s mut Work)), Refusal>
    requires { book.number < 256 ^ admitted.sizes.sqn }
    ensures { MayChallenge admitted.sizes book.number book.given rand amf.now out (length scratch.old) result }
{
    if rand != admitted.sizes.rand {
        return Err(Refusal::Rand);
    }
    let amf = <[u8; 2]>::try_from(amf).map_err(|_| Refusal::Amf)?;
    if out < admitted.vector_size() {
        return Err(Refusal::Buffer);
    }
    let blocks = split_scratch(scratch).ok_or(Refusal::Buffer)?;
    if is_largest(book.number, admitted.sizes.sqn) || book.given == u32::MAX {
        return Err(Refusal::Spent);
    }
    Ok((amf, blocks))
}
