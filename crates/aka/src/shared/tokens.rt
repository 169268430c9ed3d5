ghost use Rattle.std.specs.Prelude.{◌≡◌, ◌+◌, ◌≤◌, ◌++◌, length, take, false, Some, MatchOption};
ghost use Rattle.std.specs.Str.{bytes_eq};
ghost use Rattle.block.specs.Bytes.{over, ◌⊕◌};
ghost use Rattle.block.specs.Numbers.{bytes_of};
ghost use Rattle.aka.specs.Tokens.{auts as auts_of, auts_size, autn_size};
ghost use Rattle.aka.specs.Parts.{right_mac_a, TellsNumber, TellsAutn, TellsAuts};
ghost use Rattle.aka.specs.Views.{setup_of, setup_at, rand_at};

use super::{Core, Functions};
use crate::bytes::is_front;
use crate::message::{split_autn, split_auts};
use crate::numbers::{number_block, read_number};
use crate::sizes::Admitted;
use block::{fill_block, xor_blocks};
use kernel::Kernel;
use milenage::{Function, Work};

impl<K: Kernel> Core<K> {
    // The functions at the RAND of a challenge, and the number that its AUTN tells, if its MAC-A is right.
    // None where the MAC is wrong: which refusal that is, the call says.
    pub(crate) fn hear<'k, 't>(
        &'k self,
        rand: &[u8],
        autn: &[u8],
        temp: &'t mut [u8; 32],
        work: &mut Work,
    ) -> Option<(Functions<'k, 't, K>, u128)>
        requires rand { length rand.now ≡ self.now.admitted.sizes.rand }
        requires autn { length autn.now ≡ autn_size self.now.admitted.sizes }
        ensures { MatchOption result (right_mac_a (setup_of K.Kernel.forth self.now) rand.now autn.now ≡ false) (λ p. (setup_at K.Kernel.forth p.0 ≡ setup_of K.Kernel.forth self.now) × (rand_at p.0 ≡ rand.now) × TellsAutn (setup_of K.Kernel.forth self.now) rand.now autn.now (Some p.1)) }
    {
        let functions = self.at(rand, temp, work);
        let number = functions.check_autn(autn, work)?;
        Some((functions, number))
    }
}

impl<K: Kernel> Functions<'_, '_, K> {
    // The number that an AUTN tells, if its MAC-A is right.
    // None where the MAC is wrong: which refusal that is, the call says.
    // The length of a received AUTN stands in the contracts of three functions inside the crate, `hear`, this and `split_autn`: a type for it would hold the size set a second time.
    // Not a part of `hear`: there the functions would be lent twice, which gets no proof.
    fn check_autn(&self, autn: &[u8], work: &mut Work) -> Option<u128>
        requires { length autn.now ≡ autn_size self.now.admitted.sizes }
        ensures { TellsAutn (setup_at K.Kernel.forth self.now) (rand_at self.now) autn.now result }
    {
        let token = split_autn(self.admitted, autn);
        // A token's parts are slices of the received bytes, as a caller reads them, so the AMF too is a slice.
        let amf = <[u8; 2]>::try_from(token.amf).unwrap();
        let sqn = unmask(token.masked, self.ak(work));
        let mac = self.mac(Function::F1, amf, sqn, work);
        told(self.admitted, sqn, mac, token.mac)
    }

    // The number that an AUTS tells, if its MAC-S is right.
    // None where the MAC is wrong: which refusal that is, the call says.
    pub(crate) fn check_auts(&self, auts: &[u8], work: &mut Work) -> Option<u128>
        requires { length auts.now ≡ auts_size self.now.admitted.sizes }
        ensures { TellsAuts (setup_at K.Kernel.forth self.now) (rand_at self.now) auts.now result }
    {
        let token = split_auts(self.admitted, auts);
        let sqn = unmask(token.masked, self.ak_star(token.mac, work));
        let mac = self.mac_s(sqn, work);
        told(self.admitted, sqn, mac, token.mac)
    }

    // Writes the AUTS of a number.
    pub(crate) fn write_auts(&self, number: u128, out: &mut [u8], work: &mut Work)
        requires { auts_size self.now.admitted.sizes ≤ length out.old }
        ensures { out.new ≡ over (auts_of (setup_at K.Kernel.forth self.now) (rand_at self.now) (bytes_of self.now.admitted.sizes.sqn number)) out.old }
    {
        let s = self.admitted.sizes;
        let sqn = number_block(number, s.sqn);
        let mac = self.mac_s(sqn, work);
        let ak = self.ak_star(&mac[..s.mac], work);
        let n = self.admitted.auts_size();
        put_auts(self.admitted, xor_blocks(sqn, ak), mac, &mut out[..n]);
    }
}

// A masked number without its mask, the front of a block.
fn unmask(masked: &[u8], ak: [u8; 32]) -> [u8; 32]
    requires { length masked.now ≤ 32 }
    ensures { take (length masked.now) result ≡ masked.now ⊕ take (length masked.now) ak }
{
    xor_blocks(fill_block(masked), ak)
}

// The number at the front of a block, if the MAC is the front of its block.
fn told(admitted: Admitted, sqn: [u8; 32], mac: [u8; 32], received: &[u8]) -> Option<u128>
    ensures { TellsNumber (bytes_eq (take admitted.sizes.mac mac) received.now) admitted.sizes.sqn (take admitted.sizes.sqn sqn) result }
{
    let s = admitted.sizes;
    if is_front(received, mac, s.mac) {
        Some(read_number(&sqn[..s.sqn]))
    } else {
        None
    }
}

// Writes the masked number ‖ MAC-S, cut from their blocks.
// The function of an AUTN, `put_autn`, is not shared, since an AUTS has no AMF: one function with a part that may be absent would be no plainer.
fn put_auts(admitted: Admitted, masked: [u8; 32], mac: [u8; 32], out: &mut [u8])
    requires { length out.old ≡ auts_size admitted.sizes }
    ensures { out.new ≡ take admitted.sizes.sqn masked ++ take admitted.sizes.mac mac }
{
    let s = admitted.sizes;
    let (front, back) = out.split_at_mut(s.sqn);
    front.copy_from_slice(&masked[..s.sqn]);
    back.copy_from_slice(&mac[..s.mac]);
}
