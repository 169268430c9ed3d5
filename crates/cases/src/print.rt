ghost use Rattle.std.specs.Prelude.{◌≡◌, Some, None, MatchResult};

use super::fault::{Fault, Misread};
use published::{Line, bytes_of};
use std::alloc::Global;

// A part of published data: it begins at a heading, and takes the values that stand below.
pub trait Section: Drop {
    // Begins what a heading announces, after the sections so far.
    fn begin(sections: &mut Vec<Self>, heap: Global, heading: &str) -> Result<(), Fault>;

    // Takes the value of a label.
    fn take(&mut self, label: &str, bytes: Vec<u8>) -> Result<(), Fault>;
}

// The sections that a text prints.
pub fn sections_of<S: Section>(heap: Global, text: &str) -> Result<Vec<S>, Misread> {
    let mut sections = Vec::new(heap);
    for (n, line) in (1usize..).zip(text.lines()) {
        take_line(heap, &mut sections, line).map_err(|fault| Misread { line: n, fault })?;
    }
    Ok(sections)
}

// Takes a line: it begins another section, or has a value of the last one.
fn take_line<S: Section>(heap: Global, sections: &mut Vec<S>, line: &str) -> Result<(), Fault> {
    match Line::from(line) {
        Line::Heading(heading) => S::begin(sections, heap, heading),
        Line::Value(label, hex) => {
            let section = sections.last_mut().ok_or(Fault::Order)?;
            section.take(label, bytes_of(heap, hex)?)
        }
        Line::Blank => Ok(()),
    }
}

// The name between the signs of a test's heading, as === NAME ===.
pub fn test_name(heading: &str) -> Result<&str, Fault> {
    heading
        .strip_prefix("=== ")
        .and_then(|rest| rest.strip_suffix(" ==="))
        .ok_or(Fault::Heading)
}

// Puts a value into its place: no value comes twice.
pub fn put_once(place: &mut Option<Vec<u8>>, value: Vec<u8>) -> Result<(), Fault>
    ensures { MatchResult result (λ _. (place.old ≡ None) × (place.new ≡ Some value)) (λ e. (e ≡ Fault.Order) × (place.new ≡ place.old)) }
{
    if place.is_some() {
        return Err(Fault::Order);
    }
    *place = Some(value);
    Ok(())
}
