use super::digits::spelled_bytes;
use super::orders::Source;
use std::alloc::{AllocError, Global};
use thiserror::Error;

// What was expected of a line.
#[derive(Clone, Copy, Debug, Error)]
pub enum Expected {
    // a word that begins a line
    #[error("expected key, layers, op, opc, constants, sizes, network, card, challenge, receive, confirm, resync, lapse or trace")]
    Command,
    // only fields that the command has, each once
    #[error("expected fields of this command as name=value, each once")]
    Fields,
    // a field of this name
    #[error("expected the field {0}=")]
    Field(&'static str),
    // hexadecimal digits in the field of this name
    #[error("expected hexadecimal digits, two to a byte, in {0}=")]
    Bytes(&'static str),
    // a number in the field of this name
    #[error("expected a number in {0}=")]
    Number(&'static str),
    #[error("expected more memory")]
    Memory(#[from(alloc)] AllocError),
}

// The value of a word, if it is a field of this name.
fn value_in<'a>(word: &'a str, name: &str) -> Option<&'a str> {
    word.strip_prefix(name)?.strip_prefix('=')
}

// Whether a word is a field of one of these names.
fn is_known(word: &str, names: &[&'static str]) -> bool {
    names.iter().any(|name| value_in(word, *name).is_some())
}

// The number that a value spells in the field of this name.
fn number(value: &str, name: &'static str) -> Result<usize, Expected> {
    value.parse::<usize>().map_err(|_| Expected::Number(name))
}

// The words of a line behind the first, its fields, and where the bytes that they spell go.
#[derive(Clone, Copy)]
pub struct Fields<'a> {
    pub heap: Global,
    pub words: &'a str,
}

impl<'a> Fields<'a> {
    // Sees that the words are fields of these names, none twice.
    pub fn only(self, names: &[&'static str]) -> Result<(), Expected> {
        let known = self
            .words
            .split(' ')
            .filter(|word| !word.is_empty())
            .all(|word| is_known(word, names));
        // counted only where each is known: the words are gone through once more for every name
        if known && names.iter().all(|name| self.times(*name) <= 1) {
            Ok(())
        } else {
            Err(Expected::Fields)
        }
    }

    // How often a field of this name stands among the words.
    fn times(self, name: &str) -> usize {
        self.words
            .split(' ')
            .filter(|word| value_in(*word, name).is_some())
            .count()
    }

    // The value of a field, if it stands among the words.
    pub fn optional(self, name: &str) -> Option<&'a str> {
        self.words.split(' ').find_map(|word| value_in(word, name))
    }

    // The value of a field that a line must have.
    fn required(self, name: &'static str) -> Result<&'a str, Expected> {
        self.optional(name).ok_or(Expected::Field(name))
    }

    // The bytes that a value spells in the field of this name.
    fn spelled(self, name: &'static str, value: &str) -> Result<Vec<u8>, Expected> {
        spelled_bytes(self.heap, value.as_bytes())?.ok_or(Expected::Bytes(name))
    }

    // The bytes of a field.
    pub fn bytes(self, name: &'static str) -> Result<Vec<u8>, Expected> {
        self.spelled(name, self.required(name)?)
    }

    // The bytes of the only field that a line may have.
    pub fn only_bytes(self, name: &'static str) -> Result<Vec<u8>, Expected> {
        self.only(&[name])?;
        self.bytes(name)
    }

    // The bytes of a field, or none where the field is absent.
    pub fn bytes_or_none(self, name: &'static str) -> Result<Vec<u8>, Expected> {
        match self.optional(name) {
            Some(value) => self.spelled(name, value),
            None => Ok(Vec::new(self.heap)),
        }
    }

    // The bytes of a field, or the word last.
    pub fn source(self, name: &'static str) -> Result<Source, Expected> {
        match self.required(name)? {
            "last" => Ok(Source::Last),
            value => self.spelled(name, value).map(Source::Given),
        }
    }

    // What the value of a field names: one of these.
    pub fn one_of<T: Copy>(
        self,
        name: &'static str,
        named: &[(&'static str, T)],
    ) -> Result<T, Expected> {
        let value = self.required(name)?;
        named
            .iter()
            .find_map(|(word, what)| (value == *word).then_some(*what))
            .ok_or(Expected::Field(name))
    }

    // The number of a field.
    pub fn count(self, name: &'static str) -> Result<usize, Expected> {
        number(self.required(name)?, name)
    }

    // The number of a field, or another where the field is absent.
    pub fn count_or(self, name: &'static str, other: usize) -> Result<usize, Expected> {
        self.optional(name)
            .map_or(Ok(other), |value| number(value, name))
    }

    // The ticket of a line.
    pub fn ticket(self) -> Result<u32, Expected> {
        u32::try_from(self.count("ticket")?).map_err(|_| Expected::Number("ticket"))
    }
}
