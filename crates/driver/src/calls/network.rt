ghost use Rattle.std.specs.Prelude.{◌≡◌, ◌<◌, [], length, vec_len, vec_capacity};
ghost use Rattle.block.specs.Bytes.{AreBytes};
ghost use Rattle.aka.specs.Calls.{does_challenge, does_confirm, does_lapse, does_resync};
ghost use Rattle.aka.specs.Views.{network_setup, network_of};
ghost use Rattle.driver.specs.Seen.{Made, serials};
ghost use Rattle.driver.specs.Yields.{yield_of};
ghost use Rattle.driver.specs.Driven.{keeping};
ghost use Rattle.driver.specs.Called.{Wrote};
ghost use Rattle.driver.specs.Runs.{AtNetwork, GivesTicket, MaySpendTicket, SpendsTicket};

use super::{keep, zeroed};
use crate::run::Run;
use crate::tickets::take_ticket;
use crate::types::{Answer, Outcome};
use aka::{NetworkEnd, PairEnd, Ticket};
use block::Refusal;
use kernel::Kernel;
use std::alloc::{AllocError, Global};

impl<K: Kernel, L> Run<'_, '_, '_, '_, K, L> {
    // Has a challenge given, and holds its ticket behind the others.
    pub fn challenge(
        &mut self,
        rand: &[u8],
        amf: &[u8],
        room: usize,
        scratch: usize,
    ) -> Result<Answer, AllocError>
        ensures same { AtNetwork K.Kernel.forth self.old self.new }
        ensures answers { GivesTicket self.old self.new (does_challenge (network_setup K.Kernel.forth self.old.network.now) (network_of self.old.network.now) rand.now amf.now room scratch) (AreBytes rand.now × AreBytes amf.now) result }
    {
        self.tickets.reserve(1)?;
        let mut wrote = zeroed(self.heap, room)?;
        let mut wiped = zeroed(self.heap, scratch)?;
        let yielded = self.challenge_with(rand, amf, &mut wrote, &mut wiped);
        Ok(Answer {
            yielded,
            wrote,
            wrote_auts: Vec::new(self.heap),
        })
    }

    // The same with these buffers; what was written is left in `wrote`, and no more.
    fn challenge_with(
        &mut self,
        rand: &[u8],
        amf: &[u8],
        wrote: &mut Vec<u8>,
        wiped: &mut [u8],
    ) -> Result<Outcome, Refusal>
        requires { vec_len self.old.tickets.now < vec_capacity self.old.tickets.now }
        ensures same { AtNetwork K.Kernel.forth self.old self.new }
        ensures strings { AreBytes rand.now × AreBytes amf.now }
        ensures wrote { Wrote (does_challenge (network_setup K.Kernel.forth self.old.network.now) (network_of self.old.network.now) rand.now amf.now (vec_len wrote.old) (length wiped.old)) (yield_of result) wrote.new.items [] (network_of self.new.network.now) }
        ensures keeps { serials self.new.tickets.now.items ≡ keeping (serials self.old.tickets.now.items) (yield_of result) }
    {
        self.network.is_sound();
        let size = self.network.vector_size();
        // a `map` was tried: its closure needs clauses of its own, with the room that `push_reserved` asks for, and is no plainer
        let yielded = match self.network.challenge(rand, amf, wrote, wiped) {
            Ok(ticket) => {
                let serial = ticket.serial();
                self.tickets.push_reserved(ticket);
                Ok(Outcome::Issued(serial))
            }
            Err(e) => Err(e),
        };
        keep(wrote, size, &yielded);
        yielded
    }

    // Spends the ticket of a serial by confirm, if it is held.
    pub fn confirm(&mut self, serial: u32, res: &[u8]) -> Option<Answer>
        ensures same { AtNetwork K.Kernel.forth self.old self.new }
        ensures answers { SpendsTicket self.old self.new serial (does_confirm (network_of self.old.network.now) serial res.now) (AreBytes res.now) result }
    {
        let ticket = take_ticket(self.tickets, serial)?;
        let yielded = self.network.confirm(ticket, res).map(Outcome::Confirmed);
        Some(silent(self.heap, yielded))
    }

    // Spends the ticket of a serial by resync, if it is held.
    pub fn resync(
        &mut self,
        serial: u32,
        auts: &[u8],
        scratch: usize,
    ) -> Result<Option<Answer>, AllocError>
        ensures same { AtNetwork K.Kernel.forth self.old self.new }
        ensures answers { MaySpendTicket self.old self.new serial (does_resync (network_setup K.Kernel.forth self.old.network.now) (network_of self.old.network.now) serial auts.now scratch) (AreBytes auts.now) result }
    {
        let mut wiped = zeroed(self.heap, scratch)?;
        let Some(ticket) = take_ticket(self.tickets, serial) else {
            return Ok(None);
        };
        let yielded = self
            .network
            .resync(ticket, auts, &mut wiped)
            .map(Outcome::from);
        Ok(Some(silent(self.heap, yielded)))
    }

    // Spends the ticket of a serial by lapse, if it is held.
    pub fn lapse(&mut self, serial: u32) -> Option<Answer>
        ensures same { AtNetwork K.Kernel.forth self.old self.new }
        ensures answers { SpendsTicket self.old self.new serial (does_lapse (network_of self.old.network.now) serial) (Unit {0}) result }
    {
        let ticket = take_ticket(self.tickets, serial)?;
        Some(lapse_ticket(self.heap, ticket, self.network))
    }
}

// Gives a challenge up.
pub fn lapse_ticket<K: Kernel>(heap: Global, ticket: Ticket, network: &mut NetworkEnd<K>) -> Answer
    ensures setup { network_setup K.Kernel.forth network.new ≡ network_setup K.Kernel.forth network.old }
    ensures answers { Made (does_lapse (network_of network.old) ticket.serial) result (network_of network.new) }
{
    let yielded = network.lapse(ticket).map(|()| Outcome::Lapsed);
    silent(heap, yielded)
}

// What a call answers that writes nothing.
fn silent(heap: Global, yielded: Result<Outcome, Refusal>) -> Answer
    ensures { (result.yielded ≡ yielded) × (result.wrote.items ≡ []) × (result.wrote_auts.items ≡ []) }
{
    Answer {
        yielded,
        wrote: Vec::new(heap),
        wrote_auts: Vec::new(heap),
    }
}
