ghost use Rattle.std.specs.Prelude.{◌≡◌, vec_len};
ghost use Rattle.published.specs.Comparison.{Compared, more};
ghost use Rattle.cases.specs.Opened.{opc_block_of};

use super::fault::{Fault, Misread};
use super::function_case::FunctionCase;
use super::inputs::Inputs;
use super::label::{Input, Label};
use super::opc_block::OpcBlock;
use super::opened::Opened;
use super::print::{Section, sections_of, test_name};
use super::value::Value;
use published::Tally;
use std::alloc::Global;

// A published test of the functions: its inputs, the blocks of its OPc, its cases.
#[derive(Drop)]
pub struct FunctionTest {
    pub name: String,
    inputs: Inputs,
    opc: Vec<Value<OpcBlock>>,
    pub cases: Vec<FunctionCase>,
}

impl FunctionTest {
    // A test of which only the heading is read.
    fn new(heap: Global, heading: &str) -> Result<FunctionTest, Fault> {
        let name = String::from_str(heap, test_name(heading)?)?;
        Ok(FunctionTest {
            name,
            inputs: Inputs::new(heap),
            opc: Vec::new(heap),
            cases: Vec::new(heap),
        })
    }

    fn take_input(&mut self, input: Input, bytes: Vec<u8>) -> Result<(), Fault> {
        if !self.opc.is_empty() || !self.cases.is_empty() {
            return Err(Fault::Order);
        }
        self.inputs.take(input, bytes)
    }

    fn take_opc(&mut self, label: OpcBlock, bytes: Vec<u8>) -> Result<(), Fault> {
        if self.inputs.whole().is_none() || !self.cases.is_empty() {
            return Err(Fault::Order);
        }
        self.opc.push(Value { label, bytes })?;
        Ok(())
    }

    // Derives the test's OPc.
    pub fn open(&self) -> Result<Opened, Fault> {
        Opened::new(&self.inputs)
    }

    // Compares each published block of OPc.
    pub fn compare_opc(&self, opened: &Opened) -> Tally
        ensures { result.compared ≡ more (vec_len self.now.opc) 0 }
    {
        let mut tally = Tally::new();
        for value in &self.opc {
            value.compare(opened, &mut tally);
        }
        tally
    }
}

impl Value<OpcBlock> {
    // Compares the block with what the exported calls make of it.
    fn compare(&self, opened: &Opened, tally: &mut Tally) -> bool
        ensures { Compared tally.old (opc_block_of opened.now self.now.label) self.now.bytes.items result tally.new }
    {
        tally.compare(&opened.opc_block(self.label), &self.bytes)
    }
}

impl Section for FunctionTest {
    // Begins a case of the test at hand, or another test.
    fn begin(tests: &mut Vec<FunctionTest>, heap: Global, heading: &str) -> Result<(), Fault> {
        if heading.starts_with("Case ") {
            let test = tests.last_mut().ok_or(Fault::Order)?;
            test.cases.push(FunctionCase::new(heap, heading)?)?;
        } else {
            tests.push(FunctionTest::new(heap, heading)?)?;
        }
        Ok(())
    }

    // The inputs come first, then the blocks of OPc, then each case with its own values.
    fn take(&mut self, label: &str, bytes: Vec<u8>) -> Result<(), Fault> {
        match label.parse()? {
            Label::Input(input) => self.take_input(input, bytes),
            Label::Opc(block) => self.take_opc(block, bytes),
            Label::Function(label) => {
                let case = self.cases.last_mut().ok_or(Fault::Order)?;
                case.take(label, bytes)
            }
        }
    }
}

// The tests of the functions that a text prints: a name of its own, as at kernel_cases_of.
pub fn function_tests_of(heap: Global, text: &str) -> Result<Vec<FunctionTest>, Misread> {
    sections_of(heap, text)
}
