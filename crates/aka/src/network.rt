ghost use Rattle.std.specs.Prelude.{◌^◌, ◌<◌};

use super::shared::Core;

mod challenge;
mod closing;
mod opening;
mod reading;
mod resync;

// What moves at the network end: its number, how many challenges it gave, the serial of the open one, and its RAND and XRES.
// The record is plain, with an `Option` of the open serial that a ticket is tested against, a form that the interface asks for
// (docs/DECISIONS.md, 24); RAND and XRES stand beside it, blocks whose sizes the size set tells, since an end has no heap.
#[derive(Clone, Copy)]
struct Book {
    number: u128,
    given: u32,
    pending: Option<u32>,
    rand: [u8; 32],
    xres: [u8; 32],
}

// What a resynchronisation did to the end's number.
#[derive(Clone, Copy)]
pub enum Resynced {
    Raised,
    Kept,
}

// The network's end of a pair.
// Each call says again that the setup stays and that the scratch is wiped: no type says what a call leaves behind a `&mut`.
#[derive(Drop)]
pub struct NetworkEnd<K> {
    core: Core<K>,
    book: Book,
    ghost numbered: { book.number < 256 ^ core.admitted.sizes.sqn },
}
