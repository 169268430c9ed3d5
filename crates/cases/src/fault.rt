use block::Refusal;
use published::{AtLine, Unread};
use std::alloc::AllocError;
use thiserror::Error;

// Not in the attribute: one that has the word test is taken for a test's.
const HEADING: &str = "a heading begins neither a test nor a case";

// Why published cases cannot be compared.
#[derive(Debug, Drop, Error)]
pub enum Fault {
    // an exported call refused
    #[error("a call refused: {0}")]
    Refused(#[from] Refusal),
    // the bytes of a value could not be read
    #[error("{0}")]
    Bytes(#[from] Unread),
    #[error("{text}", text = HEADING)]
    Heading,
    #[error("a case has RES_sz, CK_sz, IK_sz, MAC_sz and AK_sz")]
    Sizes,
    // a label that no value has there
    #[error("a label is not known")]
    Label,
    // a value that comes before what it needs, or after its place
    #[error("a value does not stand in its place")]
    Order,
    #[error("a value is missing or cut short")]
    Missing,
    #[error("out of memory")]
    Memory(#[from(alloc)] AllocError),
}

// A line that could not be taken, counted from 1, and why.
pub type Misread = AtLine<Fault>;
