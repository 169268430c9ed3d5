ghost use Rattle.std.specs.Prelude.{◌≡◌, OnOk};
ghost use Rattle.aka.specs.Calls.{does_lapse};
ghost use Rattle.driver.specs.Called.{LapseNoted};
ghost use Rattle.driver.specs.Runs.{LapsesEnd, LapsesNoted, LapsesTickets, NotesLapse, network_in, log_in};

use super::calls::lapse_ticket;
use super::run::Run;
use super::types::{Noted, Step};
use aka::Ticket;
use kernel::Kernel;
use std::alloc::AllocError;
use std::mem;

impl<K: Kernel, L> Run<'_, '_, '_, '_, K, L> {
    // Lapses the tickets left over, oldest first, and notes each lapse. Every ticket is lapsed, even where there is no memory to note one.
    pub fn lapse_left(&mut self) -> Result<(), AllocError>
        ensures same { LapsesTickets K.Kernel.forth self.old self.new }
        ensures ends { LapsesEnd K.Kernel.forth self.old self.new }
        ensures notes { OnOk result (LapsesNoted K.Kernel.forth self.old self.new) }
    {
        let mut all = Ok(());
        let mut left = mem::replace(self.tickets, Vec::new(self.heap)).into_iter();
        // a `for` takes values that may be dropped, and a ticket may not
        while let Some(ticket) = left.next() {
            let noted = self.note_lapse(ticket);
            all = all.and(noted);
        }
        left.destroy_empty();
        all
    }

    // Lapses a ticket, and notes it where there is memory.
    fn note_lapse(&mut self, ticket: Ticket) -> Result<(), AllocError>
        ensures same { NotesLapse K.Kernel.forth self.old self.new }
        ensures left { network_in self.new ≡ (does_lapse (network_in self.old) ticket.serial).after }
        ensures notes { OnOk result (LapseNoted ticket.serial (network_in self.old) (log_in self.old) (log_in self.new)) }
    {
        let call = Step::Lapse {
            serial: ticket.serial(),
        };
        let answer = lapse_ticket(self.heap, ticket, self.network);
        self.log.push(Noted { call, answer })?;
        Ok(())
    }
}
