use super::CardEnd;
use crate::pair_end::HoldsCore;
use crate::shared::Core;
use kernel::Kernel;

impl<K: Kernel> HoldsCore for CardEnd<K> {
    type K = K;

    ghost core_of = { λ e. e.core };

    fn core(&self) -> &Core<K> {
        &self.core
    }
}
