// The field of 256 elements, and the substitution of bytes that is made from it.
#![tactic(auto)]

mod field;

pub use field::{double, inverse_laws_stand, restore, substitute};
