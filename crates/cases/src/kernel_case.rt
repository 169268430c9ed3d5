ghost use Rattle.std.specs.Prelude.{◌≡◌, IfOk};
ghost use Rattle.block.specs.Bytes.{filled};
ghost use Rattle.published.specs.Comparison.{Compared};
ghost use Rattle.cases.specs.KernelCases.{Runs, read};

use super::fault::{Fault, Misread};
use super::print::{Section, put_once, sections_of, test_name};
use kernel::Kernel;
use published::Tally;
use rijndael::Rijndael;
use std::alloc::Global;

// A published case of the kernel: Y is forth of X under the key.
#[derive(Drop)]
pub struct KernelCase {
    pub name: String,
    key: Option<Vec<u8>>,
    x: Option<Vec<u8>>,
    y: Option<Vec<u8>>,
}

// A block that the kernel made, and whether it is the published one.
// It owns its block, as a case hands it out; what the crate lab compares is lent.
#[derive(Clone, Copy)]
pub struct Checked {
    pub block: [u8; 32],
    pub agrees: bool,
}

// What the kernel made of a case: Y by forth, and X by back.
#[derive(Clone, Copy)]
pub struct KernelRun {
    pub forth: Checked,
    pub back: Checked,
}

impl Checked {
    // Compares a block with the published one.
    fn new(block: [u8; 32], published: &[u8], tally: &mut Tally) -> Checked
        ensures same { result.block ≡ block }
        ensures compared { Compared tally.old block published.now result.agrees tally.new }
    {
        Checked {
            block,
            agrees: tally.compare(&block, published),
        }
    }
}

// A value that is read, and is a block of 32 bytes.
fn whole_block(value: &Option<Vec<u8>>) -> Result<[u8; 32], Fault>
    ensures same { IfOk result (λ block. block ≡ read value.now) }
    ensures filled { IfOk result (λ block. block ≡ filled (read value.now)) }
{
    let bytes = value.as_ref().ok_or(Fault::Missing)?;
    <[u8; 32]>::try_from(bytes.as_slice()).map_err(|_| Fault::Missing)
}

impl KernelCase {
    // Runs the case forth and back, and compares both blocks.
    pub fn run(&self, tally: &mut Tally) -> Result<KernelRun, Fault>
        ensures { IfOk result (λ run. Runs (read self.now.key) (read self.now.x) (read self.now.y) tally.old run tally.new) }
    {
        let x = whole_block(&self.x)?;
        let y = whole_block(&self.y)?;
        // a key that is missing is refused as one of no bytes
        let kernel = Rijndael::new(self.key.as_deref().unwrap_or_default())?;
        let forth = Checked::new(kernel.encrypt(x), &y, tally);
        let back = Checked::new(kernel.decrypt(y), &x, tally);
        Ok(KernelRun { forth, back })
    }
}

// Each heading begins another case, with KEY, X and Y.
impl Section for KernelCase {
    fn begin(cases: &mut Vec<KernelCase>, heap: Global, heading: &str) -> Result<(), Fault> {
        cases.push(KernelCase {
            name: String::from_str(heap, test_name(heading)?)?,
            key: None,
            x: None,
            y: None,
        })?;
        Ok(())
    }

    fn take(&mut self, label: &str, value: Vec<u8>) -> Result<(), Fault> {
        match label {
            "KEY" => put_once(&mut self.key, value),
            "X" => put_once(&mut self.x, value),
            "Y" => put_once(&mut self.y, value),
            _ => Err(Fault::Label),
        }
    }
}

// The cases of the kernel that a text prints.
// Not sections_of itself for all to call: this name tells what is read, and how sections are read stays inside the crate.
pub fn kernel_cases_of(heap: Global, text: &str) -> Result<Vec<KernelCase>, Misread> {
    sections_of(heap, text)
}
