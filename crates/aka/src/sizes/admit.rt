ghost use Rattle.std.specs.Prelude.{◌≡◌, ◌<◌};
ghost use Rattle.aka.specs.Opening.{Admits};
ghost use Rattle.aka.specs.Tokens.{answers_size, autn_size, auts_size, vector_size};

use super::{Admitted, Sizes};
use block::Refusal;

impl Admitted {
    // The length of RES ‖ CK ‖ IK.
    pub fn answers_size(&self) -> usize
        ensures { result ≡ answers_size self.now.sizes }
    {
        self.sizes.res + self.sizes.ck + self.sizes.ik
    }

    // The length of an AUTN.
    pub fn autn_size(&self) -> usize
        ensures { result ≡ autn_size self.now.sizes }
    {
        self.sizes.sqn + 2 + self.sizes.mac
    }

    // The length of an AUTS.
    pub fn auts_size(&self) -> usize
        ensures { result ≡ auts_size self.now.sizes }
    {
        self.sizes.sqn + self.sizes.mac
    }

    // The length of a vector.
    pub fn vector_size(&self) -> usize
        ensures { result ≡ vector_size self.now.sizes }
    {
        self.sizes.rand + self.answers_size() + self.autn_size()
    }
}

impl Sizes {
    // The size set, if an end may have it.
    // A method and not `TryFrom`: an end alone admits its sizes, which `pub(crate)` says, and an impl of a trait has no such word.
    pub(crate) fn admit(self) -> Result<Admitted, Refusal>
        ensures { Admits self result }
    {
        if self.rand < 16 || self.rand > 32 || self.sqn < 6 || self.sqn > 12 {
            return Err(Refusal::Size);
        }
        if self.ak < 6 || self.ak > 12 {
            return Err(Refusal::Size);
        }
        if self.mac < 8 || self.mac > 32 || self.res < 4 || self.res > 32 {
            return Err(Refusal::Size);
        }
        if self.ck < 16 || self.ck > 32 || self.ik < 16 || self.ik > 32 {
            return Err(Refusal::Size);
        }
        if self.ak != self.sqn {
            return Err(Refusal::Mask);
        }
        Ok(Admitted { sizes: self })
    }
}
