ghost use Rattle.std.specs.Prelude.{◌≡◌, length, vec_len, Err, MatchResult, ◌≢◌};
ghost use Rattle.block.specs.Bytes.{AreBytes};
ghost use Rattle.aka.specs.Calls.{does_receive};
ghost use Rattle.aka.specs.Views.{card_setup, card_number};
ghost use Rattle.driver.specs.Seen.{Made};
ghost use Rattle.driver.specs.Yields.{yield_of};
ghost use Rattle.driver.specs.Called.{Wrote};
ghost use Rattle.driver.specs.Runs.{AtCard};

use super::{keep, zeroed};
use crate::run::Run;
use crate::types::{Answer, Outcome};
use aka::{CardEnd, PairEnd};
use block::Refusal;
use kernel::Kernel;
use std::alloc::AllocError;

impl<K, L: Kernel> Run<'_, '_, '_, '_, K, L> {
    // Has the card receive a challenge. The parameters are those of its own call, with lengths for the buffers.
    pub fn receive(
        &mut self,
        rand: &[u8],
        autn: &[u8],
        room: usize,
        auts_room: usize,
        scratch: usize,
    ) -> Result<Answer, AllocError>
        ensures at_card { AtCard L.Kernel.forth self.old self.new }
        ensures answers { MatchResult result (λ a. (AreBytes rand.now × AreBytes autn.now) × Made (does_receive (card_setup L.Kernel.forth self.old.card.now) (card_number self.old.card.now) rand.now autn.now room auts_room scratch) a (card_number self.new.card.now)) (λ _. card_number self.new.card.now ≡ card_number self.old.card.now) }
    {
        let mut wrote = zeroed(self.heap, room)?;
        let mut wrote_auts = zeroed(self.heap, auts_room)?;
        let mut wiped = zeroed(self.heap, scratch)?;
        let yielded = receive_with(
            rand,
            autn,
            &mut wrote,
            &mut wrote_auts,
            &mut wiped,
            self.card,
        );
        Ok(Answer {
            yielded,
            wrote,
            wrote_auts,
        })
    }
}

// The same with these buffers; what was written is left in them, and no more.
fn receive_with<K: Kernel>(
    rand: &[u8],
    autn: &[u8],
    wrote: &mut Vec<u8>,
    wrote_auts: &mut Vec<u8>,
    wiped: &mut [u8],
    card: &mut CardEnd<K>,
) -> Result<Outcome, Refusal>
    ensures setup { card_setup K.Kernel.forth card.new ≡ card_setup K.Kernel.forth card.old }
    ensures strings { AreBytes rand.now × AreBytes autn.now }
    ensures wrote { Wrote (does_receive (card_setup K.Kernel.forth card.old) (card_number card.old) rand.now autn.now (vec_len wrote.old) (vec_len wrote_auts.old) (length wiped.old)) (yield_of result) wrote.new.items wrote_auts.new.items (card_number card.new) }
{
    card.is_sound();
    let answers = card.answers_size();
    let auts = card.auts_size();
    let yielded = card
        .receive(rand, autn, wrote, wrote_auts, wiped)
        .map(|()| Outcome::Accepted);
    keep(wrote, answers, &yielded);
    wrote_auts.truncate(auts_written(&yielded, auts));
    yielded
}

// How much of an AUTS of some length comes with what a receive yielded.
fn auts_written(yielded: &Result<Outcome, Refusal>, auts: usize) -> usize
    ensures behind { yielded.now ≡ Err Refusal.Behind → result ≡ auts }
    ensures other { (yielded.now ≢ Err Refusal.Behind) → result ≡ 0 }
{
    match yielded {
        Err(Refusal::Behind) => auts,
        _ => 0,
    }
}
