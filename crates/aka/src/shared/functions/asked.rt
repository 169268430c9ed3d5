ghost use Rattle.std.specs.Prelude.{◌≡◌, ◌+◌, ◌<◌, ◌≤◌, ◌++◌, length, take};
ghost use Rattle.milenage.specs.Functions.{index_of};
ghost use Rattle.milenage.specs.Grounds.{question_ground};
ghost use Rattle.aka.specs.Setup.{ask as output_of, f5 as AK, ak_star, mac_s};
ghost use Rattle.aka.specs.Parts.{KeysOf};
ghost use Rattle.aka.specs.Views.{setup_of, setup_at, rand_at};

use super::Functions;
use crate::shared::{Core, Keys};
use crate::sizes::ResyncMask;
use block::fill_block;
use kernel::Kernel;
use milenage::{Computation, Function, Question, Work};

impl<K: Kernel> Core<K> {
    // The functions at a RAND of the end's size: TEMP is made, and stays in the scratch.
    pub(crate) fn at<'k, 't>(
        &'k self,
        rand: &[u8],
        temp: &'t mut [u8; 32],
        work: &mut Work,
    ) -> Functions<'k, 't, K>
        requires { length rand.now ≡ self.now.admitted.sizes.rand }
        ensures setup { setup_at K.Kernel.forth result ≡ setup_of K.Kernel.forth self.now }
        ensures rand { rand_at result ≡ rand.now }
    {
        let rand = fill_block(rand);
        let computation = Computation::begin(
            &self.kernel,
            &self.opc,
            &self.constants,
            rand,
            temp,
            work,
        );
        Functions {
            computation,
            admitted: self.admitted,
            rand,
        }
    }
}

impl<K: Kernel> Functions<'_, '_, K> {
    // The block that a function's output is cut from.
    fn output(&self, function: Function, size: usize, carried: &[u8], work: &mut Work) -> [u8; 32]
        requires { question_ground (index_of function) self.now.admitted.sizes.rand size (length carried.now) ≡ 0 }
        ensures { take size result ≡ output_of (setup_at K.Kernel.forth self.now) (index_of function) (rand_at self.now) size carried.now }
    {
        let n = self.admitted.sizes.rand;
        let question = Question::of(function, n, size, carried).unwrap();
        self.computation.ask(question, work)
    }

    // RES, CK and IK: f2, f3 and f4.
    #[tactic(auto, unfolding(milenage::specs::Functions::kind_of, milenage::specs::Functions::bad_size, milenage::specs::Functions::bad_carried))]
    pub(crate) fn keys(&self, work: &mut Work) -> Keys
        ensures { KeysOf (setup_at K.Kernel.forth self.now) (rand_at self.now) result }
    {
        let s = self.admitted.sizes;
        Keys {
            res: self.output(Function::F2, s.res, &[], work),
            ck: self.output(Function::F3, s.ck, &[], work),
            ik: self.output(Function::F4, s.ik, &[], work),
        }
    }

    // AK: f5.
    #[tactic(auto, unfolding(milenage::specs::Functions::kind_of, milenage::specs::Functions::bad_size, milenage::specs::Functions::bad_carried))]
    pub(crate) fn ak(&self, work: &mut Work) -> [u8; 32]
        ensures { take self.now.admitted.sizes.sqn result ≡ AK (setup_at K.Kernel.forth self.now) (rand_at self.now) }
    {
        self.output(Function::F5, self.admitted.sizes.ak, &[], work)
    }

    // The MAC of an AMF and a number, by f1 or f1*.
    pub(crate) fn mac(
        &self,
        function: Function,
        amf: [u8; 2],
        sqn: [u8; 32],
        work: &mut Work,
    ) -> [u8; 32]
        requires { index_of function < 2 }
        ensures { take self.now.admitted.sizes.mac result ≡ output_of (setup_at K.Kernel.forth self.now) (index_of function) (rand_at self.now) self.now.admitted.sizes.mac (amf ++ take self.now.admitted.sizes.sqn sqn) }
    {
        let s = self.admitted.sizes;
        let carried = carry(amf, sqn, s.sqn);
        self.output(function, s.mac, &carried[..2 + s.sqn], work)
    }

    // MAC-S of a number: f1* with AMF 00 00.
    #[tactic(auto, unfolding(crate::specs::Setup::mac_s))]
    pub(crate) fn mac_s(&self, sqn: [u8; 32], work: &mut Work) -> [u8; 32]
        ensures { take self.now.admitted.sizes.mac result ≡ mac_s (setup_at K.Kernel.forth self.now) (rand_at self.now) (take self.now.admitted.sizes.sqn sqn) }
    {
        self.mac(Function::F1Star, [0, 0], sqn, work)
    }

    // AK*: f5*, or f5** of the MAC-S.
    #[tactic(auto, unfolding(milenage::specs::Functions::kind_of, milenage::specs::Functions::bad_size, milenage::specs::Functions::bad_carried, crate::specs::Setup::ak_star))]
    pub(crate) fn ak_star(&self, mac_s: &[u8], work: &mut Work) -> [u8; 32]
        requires { length mac_s.now ≡ self.now.admitted.sizes.mac }
        ensures { take self.now.admitted.sizes.sqn result ≡ ak_star (setup_at K.Kernel.forth self.now) (rand_at self.now) mac_s.now }
    {
        let s = self.admitted.sizes;
        match s.resync {
            ResyncMask::F5Star => self.output(Function::F5Star, s.ak, &[], work),
            ResyncMask::F5StarStar => self.output(Function::F5StarStar, s.ak, mac_s, work),
        }
    }
}

// The AMF and the number, as f1 and f1* carry them, then zeros: a block for the size that an end has, since it has no heap.
fn carry(amf: [u8; 2], sqn: [u8; 32], n: usize) -> [u8; 32]
    requires { n ≤ 12 }
    ensures { take (2 + n) result ≡ amf ++ take n sqn }
{
    let mut carried = [0; 32];
    let (front, rest) = carried.split_at_mut(2);
    front.copy_from_slice(&amf);
    rest[..n].copy_from_slice(&sqn[..n]);
    carried
}
