// Rijndael with blocks and keys of 256 bits.
#![tactic(auto)]

mod as_kernel;
mod cipher;
mod rijndael;
mod schedule;
mod state;

pub use rijndael::{Rijndael, back_undoes_forth};
pub use schedule::round_constants_double;
