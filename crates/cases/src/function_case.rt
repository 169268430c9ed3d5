ghost use Rattle.std.specs.Prelude.{◌≡◌, take, vec_len, IfOk};
ghost use Rattle.published.specs.Comparison.{Compared, more};
ghost use Rattle.cases.specs.Functions.{size_of};
ghost use Rattle.cases.specs.Opened.{value_of};

use super::fault::Fault;
use super::label::{FunctionLabel, Part};
use super::opened::Opened;
use super::sizes::CaseSizes;
use super::traced::{Trace, Traced};
use super::value::Value;
use milenage::{Function, cut};
use published::Tally;
use std::alloc::Global;

// A published case of the functions: the sizes of their outputs, and its values in the order of print.
#[derive(Drop)]
pub struct FunctionCase {
    pub name: String,
    pub sizes: CaseSizes,
    values: Vec<Value<FunctionLabel>>,
}

impl FunctionCase {
    // A case of which only the heading is read, as Case #1a: RES_sz=32, .. tells its sizes.
    pub fn new(heap: Global, heading: &str) -> Result<FunctionCase, Fault> {
        let (name, sizes) = heading.split_once(": ").ok_or(Fault::Sizes)?;
        Ok(FunctionCase {
            name: String::from_str(heap, name)?,
            sizes: sizes.parse()?,
            values: Vec::new(heap),
        })
    }

    // Takes a value. Those of f5** come after the MAC-S that it carries.
    pub fn take(&mut self, label: FunctionLabel, bytes: Vec<u8>) -> Result<(), Fault> {
        if label.function == Function::F5StarStar {
            self.mac_s().ok_or(Fault::Order)?;
        }
        self.values.push(Value { label, bytes })?;
        Ok(())
    }

    // The published output of a function.
    pub fn output(&self, function: Function) -> Option<&[u8]> {
        let label = FunctionLabel {
            function,
            part: Part::Output,
        };
        self.values
            .iter()
            .find(|value| value.label == label)
            .map(|value| value.bytes.as_slice())
    }

    // The MAC-S of the case, which f5** carries.
    fn mac_s(&self) -> Option<&[u8]> {
        self.output(Function::F1Star)
    }

    // The six blocks of a function.
    pub fn trace(&self, opened: &Opened, function: Function) -> Result<Trace, Fault> {
        let mac_s = self.mac_s().ok_or(Fault::Missing)?;
        opened.trace(function, self.sizes.of(function), mac_s)
    }

    // A function's output, of its answer block.
    pub fn cut<'a>(&self, function: Function, answer: &'a [u8]) -> Result<&'a [u8], Fault>
        ensures { IfOk result (λ part. part.now ≡ take (size_of self.now.sizes function) answer.now) }
    {
        Ok(cut(function.index(), self.sizes.of(function), answer)?)
    }

    // Compares each published value of the case.
    pub fn compare(&self, opened: &Opened) -> Result<Tally, Fault>
        ensures { IfOk result (λ tally. tally.compared ≡ more (vec_len self.now.values) 0) }
    {
        let mac_s = self.mac_s().ok_or(Fault::Missing)?;
        let mut tally = Tally::new();
        for value in &self.values {
            value.compare(opened, self.sizes, mac_s, &mut tally)?;
        }
        Ok(tally)
    }
}

impl Value<FunctionLabel> {
    // Compares the value with what the exported calls make of it, at a case's sizes and its MAC-S.
    fn compare(
        &self,
        opened: &Opened,
        sizes: CaseSizes,
        mac_s: &[u8],
        tally: &mut Tally,
    ) -> Result<bool, Fault>
        ensures { IfOk result (λ agrees. Compared tally.old (value_of opened.now sizes mac_s.now self.now.label.function self.now.label.part) self.now.bytes.items agrees tally.new) }
    {
        let FunctionLabel { function, part } = self.label;
        let size = sizes.of(function);
        let trace = opened.trace(function, size, mac_s)?;
        let agrees = match part {
            Part::Traced(place) => tally.compare(&trace.block(place), &self.bytes),
            Part::MacS => tally.compare(mac_s, &self.bytes),
            Part::Output => {
                let answer = trace.block(Traced::Answer);
                tally.compare(cut(function.index(), size, &answer)?, &self.bytes)
            }
        };
        Ok(agrees)
    }
}
