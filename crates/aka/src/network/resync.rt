ghost use Rattle.std.specs.Prelude.{◌≡◌, not, [], length, IfErr};
ghost use Rattle.std.specs.Result.{is_ok};
ghost use Rattle.block.specs.Bytes.{zeros};
ghost use Rattle.aka.specs.States.{Shows};
ghost use Rattle.aka.specs.Calls.{does_resync};
ghost use Rattle.aka.specs.Grounds.{MayResync};
ghost use Rattle.aka.specs.Told.{told_resync};
ghost use Rattle.aka.specs.Views.{network_setup, network_of};

use super::{NetworkEnd, Resynced};
use crate::sizes::Admitted;
use crate::ticket::Ticket;
use block::{Refusal, Wipe};
use kernel::Kernel;
use milenage::{Work, split_scratch};

impl<K: Kernel> NetworkEnd<K> {
    // Takes the AUTS of the open challenge, which ends: where it tells the larger number, the end's number is raised to it.
    pub fn resync(
        &mut self,
        ticket: Ticket,
        auts: &[u8],
        scratch: &mut [u8],
    ) -> Result<Resynced, Refusal>
        ensures wiped { scratch.new ≡ zeros (length scratch.old) }
        ensures setup { network_setup K.Kernel.forth self.new ≡ network_setup K.Kernel.forth self.old }
        ensures shows { Shows (does_resync (network_setup K.Kernel.forth self.old) (network_of self.old) ticket.serial auts.now (length scratch.old)) (told_resync result) [] [] [] [] (network_of self.new) }
    {
        let guard = Wipe(scratch);
        let rand = self.book.rand;
        let closed = self.close(ticket.spend());
        let admitted = self.core.admitted;
        let (temp, work) = may_resync(admitted, closed, auts.len(), guard.0)?;
        let functions = self.core.at(&rand[..admitted.sizes.rand], temp, work);
        let number = functions.check_auts(auts, work).ok_or(Refusal::Mac)?;
        if number > self.book.number {
            self.book.number = number;
            Ok(Resynced::Raised)
        } else {
            Ok(Resynced::Kept)
        }
    }
}

// The blocks of the scratch, if an AUTS can be looked at by what closing the challenge answered and the lengths of what is passed.
fn may_resync(
    admitted: Admitted,
    closed: Result<(), Refusal>,
    auts: usize,
    scratch: &mut [u8],
) -> Result<(&mut [u8; 32], &mut Work), Refusal>
    requires { IfErr closed (λ e. e ≡ Refusal.Stale) }
    ensures { MayResync admitted.sizes (not (is_ok closed)) auts (length scratch.old) result }
{
    let blocks = split_scratch(scratch).ok_or(Refusal::Buffer)?;
    closed?;
    if auts != admitted.auts_size() {
        return Err(Refusal::Message);
    }
    Ok(blocks)
}
