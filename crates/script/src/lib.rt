// The technician's script: lines that set up a pair, and lines that are steps.
#![tactic(auto)]

mod digits;
mod fields;
mod orders;
mod reading;

pub use digits::spelled_bytes;
pub use fields::Expected;
pub use orders::{Base, Layers, Operator, Order, Setting, Source};
pub use reading::{Fault, parse};
