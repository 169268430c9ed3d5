ghost use Rattle.std.specs.Prelude.{◌≡◌, ◌≢◌, ℕ, List, MatchOption};
ghost use Rattle.published.specs.Reading.{Holds, value_line};

use std::fmt;
use thiserror::Error;

// A line of published data.
#[derive(Drop)]
pub enum Line<'a> {
    // LABEL = { bytes }: the label, and the bytes as they are spelled
    // in the order in which the line has them, and unnamed as the heading is
    Value(&'a str, &'a str),
    // any other line that is not empty
    Heading(&'a str),
    Blank,
}

// The label and the spelled bytes of a line LABEL = { bytes }.
#[tactic(auto, using(crate::proofs::NoValue::unclosed))]
fn value(line: &str) -> Option<(&str, &str)>
    ensures { MatchOption result
        ((label bytes : List ℕ) → line.now ≢ value_line label bytes)
        (λ v. line.now ≡ value_line v.0.now v.1.now) }
{
    let (label, rest) = line.split_once(" = { ")?;
    Some((label, rest.strip_suffix(" }")?))
}

impl<'a> From<&'a str> for Line<'a> {
    ghost from_gives = { λ line held. Holds line.now held };

    fn from(line: &'a str) -> Line<'a> {
        match value(line) {
            Some((label, bytes)) => Line::Value(label, bytes),
            None if line.is_empty() => Line::Blank,
            None => Line::Heading(line),
        }
    }
}

// What is wrong with a line, and the line's number from 1.
#[derive(Clone, Copy, Debug, Drop, Error)]
#[error_bound(E: fmt::Display)]
#[error("line {line}: {fault}")]
pub struct AtLine<E> {
    pub line: usize,
    pub fault: E,
}
