// The functions f1 to f5** of Milenage-256 (3GPP TS 35.235), over any kernel.
#![tactic(auto)]

mod computation;
mod function;
mod laws;
mod opc;
mod question;
mod scratch;
mod sizes;
mod standard;
mod traced;

pub use computation::Computation;
pub use function::Function;
pub use laws::{
    byte_zero_is_the_standards, equal_blocks_same_question, filling_is_seen_in_the_input,
    same_input_same_question,
};
pub use opc::derive_opc;
pub use question::Question;
pub use scratch::{Work, split_scratch};
pub use sizes::cut;
pub use standard::{standard_constants, standard_name};
pub use traced::trace;
