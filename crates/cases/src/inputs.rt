use super::fault::Fault;
use super::label::Input;
use super::print::put_once;
use std::alloc::Global;

// The inputs of a test, as far as they are read.
#[derive(Drop)]
pub struct Inputs {
    pub op: Option<Vec<u8>>,
    pub key: Option<Vec<u8>>,
    pub rand: Option<Vec<u8>>,
    pub sqn: Option<Vec<u8>>,
    pub amf: Option<Vec<u8>>,
    // c0 to c7
    pub constants: Vec<[u8; 16]>,
}

// All inputs of a test.
#[derive(Clone, Copy)]
pub struct Whole<'a> {
    pub op: &'a Vec<u8>,
    pub key: &'a Vec<u8>,
    pub rand: &'a Vec<u8>,
    pub sqn: &'a Vec<u8>,
    pub amf: &'a Vec<u8>,
    pub constants: &'a [[u8; 16]; 8],
}

impl Inputs {
    // Nothing read yet.
    pub fn new(heap: Global) -> Inputs {
        Inputs {
            op: None,
            key: None,
            rand: None,
            sqn: None,
            amf: None,
            constants: Vec::new(heap),
        }
    }

    // Takes an input.
    pub fn take(&mut self, input: Input, value: Vec<u8>) -> Result<(), Fault> {
        match input {
            Input::Op => put_once(&mut self.op, value),
            Input::Key => put_once(&mut self.key, value),
            Input::Rand => put_once(&mut self.rand, value),
            Input::Sqn => put_once(&mut self.sqn, value),
            Input::Amf => put_once(&mut self.amf, value),
            Input::Constant(n) => self.append_constant(n, &value),
        }
    }

    // Takes a constant. They come in their order, each of 16 bytes.
    fn append_constant(&mut self, n: usize, value: &[u8]) -> Result<(), Fault> {
        let constant = <[u8; 16]>::try_from(value).map_err(|_| Fault::Order)?;
        if self.constants.len() != n {
            return Err(Fault::Order);
        }
        self.constants.push(constant)?;
        Ok(())
    }

    // The inputs, once each is read.
    pub fn whole(&self) -> Option<Whole<'_>> {
        Some(Whole {
            op: self.op.as_ref()?,
            key: self.key.as_ref()?,
            rand: self.rand.as_ref()?,
            sqn: self.sqn.as_ref()?,
            amf: self.amf.as_ref()?,
            constants: self.constants.as_slice().try_into().ok()?,
        })
    }
}
