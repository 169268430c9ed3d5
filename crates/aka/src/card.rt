ghost use Rattle.std.specs.Prelude.{◌^◌, ◌<◌};

use super::shared::Core;

mod opening;
mod reading;
mod receive;
mod replying;

// The card's end of a pair.
// Its call says again that the setup stays and that the scratch is wiped: no type says what a call leaves behind a `&mut`.
#[derive(Drop)]
pub struct CardEnd<K> {
    core: Core<K>,
    number: u128,
    ghost numbered: { number < 256 ^ core.admitted.sizes.sqn },
}
