ghost use Rattle.std.specs.Prelude.{◌≡◌, [], vec_len};
ghost use Rattle.driver.specs.Seen.{call_of};
ghost use Rattle.driver.specs.Runs.{SameEnds, LeadsOn, MakesCall, Performs, PerformsAll, RunsAll};

use super::calls::trace;
use super::technician::Technician;
use super::types::{Answer, End, Noted, Step};
use aka::{CardEnd, NetworkEnd, PairEnd, Ticket};
use kernel::Kernel;
use std::alloc::{AllocError, Global};

// A pair that is driven: its two ends, the tickets held, oldest first, and the log.
// What a call leaves as it was has one name in its contract (`AtNetwork`, `AtCard`, `SameEnds`): no type says what stays behind a `&mut`.
// Each call tells that the bytes it was handed are bytes (`AreBytes`), which the laws over the log ask of its entries.
// A lifetime for each reference: with one for all, the borrows of `drive` get no proof.
// The tickets and the log are borrowed: `drive` hands the log out, and would have to take a run that owned it apart again.
#[derive(Drop)]
pub struct Run<'n, 'c, 't, 'l, K, L> {
    pub heap: Global,
    pub network: &'n mut NetworkEnd<K>,
    pub card: &'c mut CardEnd<L>,
    pub tickets: &'t mut Vec<Ticket>,
    pub log: &'l mut Vec<Noted>,
}

impl<K: Kernel, L: Kernel> Run<'_, '_, '_, '_, K, L> {
    // Makes the calls that are chosen, and lapses the tickets left over.
    // The technician and the turns are handed on to `perform_all` as `drive` has them: a struct of the two would be made for these two calls alone.
    pub(crate) fn run<T: Technician>(
        &mut self,
        technician: &mut T,
        turns: u64,
    ) -> Result<(), AllocError>
        requires tickets { self.old.tickets.now.items ≡ [] }
        requires log { self.old.log.now.items ≡ [] }
        ensures ends { SameEnds K.Kernel.forth L.Kernel.forth self.old self.new }
        ensures none_left { vec_len self.new.tickets.now ≡ 0 }
        ensures drives { RunsAll K.Kernel.forth L.Kernel.forth self.old self.new T.Technician.chooses turns technician.old result technician.new }
    {
        self.network.is_sound();
        let done = self.perform_all(technician, turns);
        let left = self.lapse_left();
        done.and(left)
    }

    // Makes the calls that the technician chooses, until the end is chosen or there are no turns left.
    fn perform_all<T: Technician>(
        &mut self,
        technician: &mut T,
        turns: u64,
    ) -> Result<(), AllocError>
        ensures ends { SameEnds K.Kernel.forth L.Kernel.forth self.old self.new }
        ensures drives { PerformsAll K.Kernel.forth L.Kernel.forth self.old self.new T.Technician.chooses turns technician.old result technician.new }
        ensures leads { LeadsOn K.Kernel.forth L.Kernel.forth self.old self.new }
    {
        for _turn in 0..turns {
            match technician.next(self.log)? {
                Some(step) => self.perform(step)?,
                None => return Ok(()),
            }
        }
        Ok(())
    }

    // Makes the call of a step and notes it. A step that names a ticket which is not held makes no call and no entry.
    fn perform(&mut self, step: Step) -> Result<(), AllocError>
        ensures ends { SameEnds K.Kernel.forth L.Kernel.forth self.old self.new }
        ensures turns { Performs K.Kernel.forth L.Kernel.forth self.old self.new (call_of step) result }
    {
        self.log.reserve(1)?;
        if let Some(answer) = self.make_call(&step)? {
            self.log.push_reserved(Noted { call: step, answer });
        }
        Ok(())
    }

    // Makes the call of a step, unless it names a ticket that is not held.
    // Longer than forty lines: one arm for each step, and each field on a line.
    fn make_call(&mut self, step: &Step) -> Result<Option<Answer>, AllocError>
        ensures ends { SameEnds K.Kernel.forth L.Kernel.forth self.old self.new }
        ensures log { self.new.log ≡ self.old.log }
        ensures answers { MakesCall K.Kernel.forth L.Kernel.forth self.old self.new (call_of step.now) result }
    {
        let heap = self.heap;
        match step {
            Step::Challenge {
                rand,
                amf,
                room,
                scratch,
            } => self.challenge(rand, amf, *room, *scratch).map(Some),
            Step::Confirm { serial, res } => Ok(self.confirm(*serial, res)),
            Step::Resync {
                serial,
                auts,
                scratch,
            } => self.resync(*serial, auts, *scratch),
            Step::Lapse { serial } => Ok(self.lapse(*serial)),
            Step::Receive {
                rand,
                autn,
                room,
                auts_room,
                scratch,
            } => self
                .receive(rand, autn, *room, *auts_room, *scratch)
                .map(Some),
            Step::Trace {
                end,
                index,
                rand,
                size,
                carried,
                room,
                scratch,
            } => match end {
                // two equal calls: one at a `&dyn PairEnd` of either end was tried, and the borrow checker does not cover it
                End::Network => {
                    let network = &*self.network;
                    trace(heap, *index, rand, *size, carried, *room, *scratch, network)
                }
                End::Card => {
                    let card = &*self.card;
                    trace(heap, *index, rand, *size, carried, *room, *scratch, card)
                }
            }
            .map(Some),
        }
    }
}
