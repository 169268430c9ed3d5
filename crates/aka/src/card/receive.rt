ghost use Rattle.std.specs.Prelude.{◌≡◌, length};
ghost use Rattle.block.specs.Bytes.{zeros};
ghost use Rattle.aka.specs.States.{Shows};
ghost use Rattle.aka.specs.Calls.{does_receive};
ghost use Rattle.aka.specs.Grounds.{MayReceive};
ghost use Rattle.aka.specs.Told.{told_receive};
ghost use Rattle.aka.specs.Views.{card_setup, card_number};

use super::CardEnd;
use crate::sizes::Admitted;
use block::{Refusal, Wipe};
use kernel::Kernel;
use milenage::{Work, split_scratch};

impl<K: Kernel> CardEnd<K> {
    // Takes a challenge: writes RES ‖ CK ‖ IK where its number exceeds the card's, which it becomes; otherwise refuses it as behind, and writes the AUTS of the card's number.
    pub fn receive(
        &mut self,
        rand: &[u8],
        autn: &[u8],
        answer: &mut [u8],
        auts: &mut [u8],
        scratch: &mut [u8],
    ) -> Result<(), Refusal>
        ensures wiped { scratch.new ≡ zeros (length scratch.old) }
        ensures setup { card_setup K.Kernel.forth self.new ≡ card_setup K.Kernel.forth self.old }
        ensures shows { Shows (does_receive (card_setup K.Kernel.forth self.old) (card_number self.old) rand.now autn.now (length answer.old) (length auts.old) (length scratch.old)) (told_receive result) answer.old answer.new auts.old auts.new (card_number self.new) }
    {
        let guard = Wipe(scratch);
        let admitted = self.core.admitted;
        let (temp, work) = may_receive(
            admitted,
            rand.len(),
            autn.len(),
            answer.len(),
            auts.len(),
            guard.0,
        )?;
        let (functions, number) = self.core.hear(rand, autn, temp, work).ok_or(Refusal::Mac)?;
        if number > self.number {
            functions.write_answers(answer, work);
            self.number = number;
            Ok(())
        } else {
            functions.write_auts(self.number, auts, work);
            Err(Refusal::Behind)
        }
    }
}

// The blocks of the scratch, if a challenge can be looked at by the lengths of what is passed.
fn may_receive(
    admitted: Admitted,
    rand: usize,
    autn: usize,
    answer: usize,
    auts: usize,
    scratch: &mut [u8],
) -> Result<(&mut [u8; 32], &mut Work), Refusal>
    ensures { MayReceive admitted.sizes rand autn answer auts (length scratch.old) result }
{
    if rand != admitted.sizes.rand {
        return Err(Refusal::Rand);
    }
    if answer < admitted.answers_size() || auts < admitted.auts_size() {
        return Err(Refusal::Buffer);
    }
    let blocks = split_scratch(scratch).ok_or(Refusal::Buffer)?;
    if autn != admitted.autn_size() {
        return Err(Refusal::Message);
    }
    Ok(blocks)
}
