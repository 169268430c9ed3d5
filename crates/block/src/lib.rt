// Byte strings, numbers, refusals and the guard over scratch bytes.
#![tactic(auto)]

mod bytes;
mod laws;
mod numbers;
mod refusal;
mod wipe;

pub use bytes::{fill_block, xor_blocks};
pub use laws::{
    exclusive_or_laws_stand, filling_laws_stand, number_laws_stand, smallest_ground_is_reported,
};
pub use numbers::{number_of, put_number};
pub use refusal::Refusal;
pub use wipe::Wipe;
