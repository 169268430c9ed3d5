ghost use Rattle.std.specs.Prelude.{◌≡◌};
ghost use Rattle.cases.specs.Functions.{size_of};

use super::fault::Fault;
use milenage::Function;
use std::str::FromStr;

// The sizes of the outputs of a case, in bytes.
#[derive(Clone, Copy)]
pub struct CaseSizes {
    pub res: usize,
    pub ck: usize,
    pub ik: usize,
    pub mac: usize,
    pub ak: usize,
}

// The sizes that a text such as RES_sz=32, CK_sz=32, IK_sz=32, MAC_sz=32, AK_sz=12 tells.
impl FromStr for CaseSizes {
    type Err = Fault;

    fn from_str(text: &str) -> Result<CaseSizes, Fault> {
        let mut words = text.split(", ");
        let sizes = CaseSizes {
            res: size(words.next(), "RES_sz=")?,
            ck: size(words.next(), "CK_sz=")?,
            ik: size(words.next(), "IK_sz=")?,
            mac: size(words.next(), "MAC_sz=")?,
            ak: size(words.next(), "AK_sz=")?,
        };
        match words.next() {
            None => Ok(sizes),
            Some(_) => Err(Fault::Sizes),
        }
    }
}

impl CaseSizes {
    // The size of a function's output.
    pub fn of(self, function: Function) -> usize
        ensures { result ≡ size_of self function }
    {
        match function {
            Function::F1Star | Function::F1 => self.mac,
            Function::F2 => self.res,
            Function::F3 => self.ck,
            Function::F4 => self.ik,
            Function::F5 | Function::F5Star | Function::F5StarStar => self.ak,
        }
    }
}

// One size, as RES_sz=32 tells it.
fn size(word: Option<&str>, name: &str) -> Result<usize, Fault> {
    word.and_then(|word| word.strip_prefix(name))
        .ok_or(Fault::Sizes)?
        .parse()
        .map_err(|_| Fault::Sizes)
}
