use aka::Sizes;
use driver::{Noted, Outcome, Step};

// What the log shows of the last calls of a pair, and the sizes by which their bytes are cut.
#[derive(Clone, Copy)]
pub struct Latest<'a> {
    pub log: &'a [Noted],
    pub sizes: Sizes,
}

impl<'a> Latest<'a> {
    // The entry of the last challenge given.
    fn given(self) -> Option<&'a Noted> {
        self.log.iter().rev().find(|entry| matches!(entry.answer.yielded, Ok(Outcome::Issued(_))))
    }

    // The entry of the last receive.
    fn received(self) -> Option<&'a Noted> {
        self.log
            .iter()
            .rev()
            .find(|entry| matches!(entry.call, Step::Receive { .. }))
    }

    // The RAND of the last challenge given.
    pub fn rand(self) -> Option<&'a [u8]> {
        match &self.given()?.call {
            Step::Challenge { rand, .. } => Some(rand),
            _ => None,
        }
    }

    // The AUTN of the last challenge given: in its vector it stands behind RAND, XRES, CK and IK.
    pub fn autn(self) -> Option<&'a [u8]> {
        let Sizes {
            rand,
            res,
            ck,
            ik,
            ..
        } = self.sizes;
        let vector = self.given()?.answer.wrote.as_slice();
        vector.get(rand..)?.get(res..)?.get(ck..)?.get(ik..)
    }

    // The RES of the last receive.
    pub fn res(self) -> Option<&'a [u8]> {
        self.received()?.answer.wrote.get(..self.sizes.res)
    }

    // The AUTS of the last receive.
    pub fn auts(self) -> Option<&'a [u8]> {
        Some(&self.received()?.answer.wrote_auts)
    }
}
