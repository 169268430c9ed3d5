ghost use Rattle.std.specs.Prelude.{◌≡◌, not, [], Some, IsOk, IfErr};
ghost use Rattle.std.specs.Result.{is_ok};
ghost use Rattle.aka.specs.States.{Shows, stale, spent};
ghost use Rattle.aka.specs.Calls.{does_confirm, does_lapse};
ghost use Rattle.aka.specs.Told.{told_confirm, told_lapse};
ghost use Rattle.aka.specs.Views.{network_setup, network_of};

use super::NetworkEnd;
use crate::bytes::is_front;
use crate::ticket::Ticket;
use block::Refusal;
use kernel::Kernel;

impl<K: Kernel> NetworkEnd<K> {
    // Ends the open challenge, unless the serial is not its.
    pub(super) fn close(&mut self, serial: u32) -> Result<(), Refusal>
        ensures setup { network_setup K.Kernel.forth self.new ≡ network_setup K.Kernel.forth self.old }
        ensures left { network_of self.new ≡ spent serial (network_of self.old) (network_of self.old).number }
        ensures told { stale serial (network_of self.old).pending ≡ not (is_ok result) }
        ensures was { IsOk result → self.old.book.pending ≡ Some serial }
        ensures err { IfErr result (λ e. e ≡ Refusal.Stale) }
    {
        match self.book.pending {
            Some(open) if open == serial => {
                self.book.pending = None;
                Ok(())
            }
            _ => Err(Refusal::Stale),
        }
    }

    // Whether RES is the XRES of the open challenge, which ends.
    pub fn confirm(&mut self, ticket: Ticket, res: &[u8]) -> Result<bool, Refusal>
        ensures setup { network_setup K.Kernel.forth self.new ≡ network_setup K.Kernel.forth self.old }
        ensures shows { Shows (does_confirm (network_of self.old) ticket.serial res.now) (told_confirm result) [] [] [] [] (network_of self.new) }
    {
        let xres = self.book.xres;
        let n = self.core.admitted.sizes.res;
        self.close(ticket.spend())?;
        Ok(is_front(res, xres, n))
    }

    // Gives the open challenge up.
    pub fn lapse(&mut self, ticket: Ticket) -> Result<(), Refusal>
        ensures setup { network_setup K.Kernel.forth self.new ≡ network_setup K.Kernel.forth self.old }
        ensures shows { Shows (does_lapse (network_of self.old) ticket.serial) (told_lapse result) [] [] [] [] (network_of self.new) }
    {
        self.close(ticket.spend())
    }
}
