use hex::FromHex;
use std::alloc::{AllocError, Global};
use std::fmt;
use thiserror::Error;

// Bytes as they are printed, two hexadecimal digits each: by {} with a space between, by {:#} with nothing between.
#[derive(Clone, Copy)]
pub struct Hex<'a>(pub &'a [u8]);

impl fmt::Display for Hex<'_> {
    fn fmt<W: fmt::Write>(&self, f: &mut fmt::Formatter<W>) -> fmt::Result {
        for (i, b) in self.0.iter().enumerate() {
            // A space as it is: what stands between as a text of its own costs more than the digits of a byte.
            if i > 0 && !f.alternate() {
                f.write_str(" ")?;
            }
            write!(f, "{b:02x}")?;
        }
        Ok(())
    }
}

// Why bytes could not be read: a word is not two hexadecimal digits, or there is no memory.
#[derive(Debug, Drop, Error)]
pub enum Unread {
    #[error("a byte has two hexadecimal digits")]
    Word,
    #[error("out of memory")]
    Memory(#[from(alloc)] AllocError),
}

// The byte that a word of two digits spells.
fn byte(word: &str) -> Result<u8, Unread> {
    <[u8; 1]>::from_hex(word)
        .map(u8::from_be_bytes)
        .map_err(|_| Unread::Word)
}

// The bytes that a text spells, each in two hexadecimal digits, with a space between.
pub fn bytes_of(heap: Global, text: &str) -> Result<Vec<u8>, Unread> {
    text.split(' ').map(byte).try_collect(heap)
}
