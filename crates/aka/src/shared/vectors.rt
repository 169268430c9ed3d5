ghost use Rattle.std.specs.Prelude.{◌≡◌, ◌+◌, ◌≤◌, ◌++◌, length, take};
ghost use Rattle.block.specs.Bytes.{over};
ghost use Rattle.block.specs.Numbers.{bytes_of};
ghost use Rattle.aka.specs.Setup.{f2 as XRES};
ghost use Rattle.aka.specs.Tokens.{vector, answers as answers_of, answers_size, autn_size, vector_size};
ghost use Rattle.aka.specs.Parts.{PartsOf};
ghost use Rattle.aka.specs.Views.{setup_at, rand_at};

use super::{Functions, Keys, Parts};
use crate::numbers::number_block;
use crate::sizes::Admitted;
use block::xor_blocks;
use kernel::Kernel;
use milenage::{Function, Work};

impl<K: Kernel> Functions<'_, '_, K> {
    // Writes the vector with a number, and answers the block of XRES.
    pub(crate) fn write_vector(
        &self,
        number: u128,
        amf: [u8; 2],
        out: &mut [u8],
        work: &mut Work,
    ) -> [u8; 32]
        requires { vector_size self.now.admitted.sizes ≤ length out.old }
        ensures value { take self.now.admitted.sizes.res result ≡ XRES (setup_at K.Kernel.forth self.now) (rand_at self.now) }
        ensures after { out.new ≡ over (vector (setup_at K.Kernel.forth self.now) (rand_at self.now) amf (bytes_of self.now.admitted.sizes.sqn number)) out.old }
    {
        let admitted = self.admitted;
        let sqn = number_block(number, admitted.sizes.sqn);
        let parts = self.parts(sqn, amf, work);
        let n = admitted.vector_size();
        put_vector(admitted, parts, self.rand, amf, &mut out[..n]);
        parts.keys.res
    }

    // The blocks of the vector with a number.
    fn parts(&self, sqn: [u8; 32], amf: [u8; 2], work: &mut Work) -> Parts
        ensures { PartsOf (setup_at K.Kernel.forth self.now) (rand_at self.now) amf (take self.now.admitted.sizes.sqn sqn) result }
    {
        let keys = self.keys(work);
        let masked = xor_blocks(sqn, self.ak(work));
        let mac = self.mac(Function::F1, amf, sqn, work);
        Parts { keys, masked, mac }
    }

    // Writes RES ‖ CK ‖ IK.
    pub(crate) fn write_answers(&self, out: &mut [u8], work: &mut Work)
        requires { answers_size self.now.admitted.sizes ≤ length out.old }
        ensures { out.new ≡ over (answers_of (setup_at K.Kernel.forth self.now) (rand_at self.now)) out.old }
    {
        let keys = self.keys(work);
        let n = self.admitted.answers_size();
        put_answers(self.admitted, keys, &mut out[..n]);
    }
}

// Writes RAND ‖ XRES ‖ CK ‖ IK ‖ AUTN, cut from their blocks.
fn put_vector(admitted: Admitted, parts: Parts, rand: [u8; 32], amf: [u8; 2], out: &mut [u8])
    requires { length out.old ≡ vector_size admitted.sizes }
    ensures { out.new ≡ take admitted.sizes.rand rand ++ (take admitted.sizes.res parts.keys.res ++ take admitted.sizes.ck parts.keys.ck ++ take admitted.sizes.ik parts.keys.ik) ++ (take admitted.sizes.sqn parts.masked ++ amf ++ take admitted.sizes.mac parts.mac) }
{
    let n = admitted.sizes.rand;
    let (front, rest) = out.split_at_mut(n);
    let (answers, autn) = rest.split_at_mut(admitted.answers_size());
    front.copy_from_slice(&rand[..n]);
    put_answers(admitted, parts.keys, answers);
    put_autn(admitted, parts.masked, amf, parts.mac, autn);
}

// Writes RES ‖ CK ‖ IK, cut from their blocks.
fn put_answers(admitted: Admitted, keys: Keys, out: &mut [u8])
    requires { length out.old ≡ answers_size admitted.sizes }
    ensures { out.new ≡ take admitted.sizes.res keys.res ++ take admitted.sizes.ck keys.ck ++ take admitted.sizes.ik keys.ik }
{
    let s = admitted.sizes;
    let (res, rest) = out.split_at_mut(s.res);
    let (ck, ik) = rest.split_at_mut(s.ck);
    res.copy_from_slice(&keys.res[..s.res]);
    ck.copy_from_slice(&keys.ck[..s.ck]);
    ik.copy_from_slice(&keys.ik[..s.ik]);
}

// Writes (SQN ⊕ AK) ‖ AMF ‖ MAC-A, cut from their blocks.
fn put_autn(admitted: Admitted, masked: [u8; 32], amf: [u8; 2], mac: [u8; 32], out: &mut [u8])
    requires { length out.old ≡ autn_size admitted.sizes }
    ensures { out.new ≡ take admitted.sizes.sqn masked ++ amf ++ take admitted.sizes.mac mac }
{
    let s = admitted.sizes;
    let (front, rest) = out.split_at_mut(s.sqn);
    let (middle, back) = rest.split_at_mut(2);
    front.copy_from_slice(&masked[..s.sqn]);
    middle.copy_from_slice(&amf);
    back.copy_from_slice(&mac[..s.mac]);
}
