ghost use Rattle.std.specs.Prelude.{◌≡◌, IfOk};
ghost use Rattle.cases.specs.Functions.{carried_of};
ghost use Rattle.cases.specs.Opened.{traced_by, opc_block_of};

use super::fault::Fault;
use super::inputs::{Inputs, Whole};
use super::opc_block::OpcBlock;
use super::traced::Trace;
use aka::{NetworkEnd, PairEnd, Sizes};
use block::fill_block;
use milenage::{Function, derive_opc, standard_name};
use rijndael::Rijndael;

// A test whose OPc is derived, ready to be asked.
#[derive(Drop)]
pub struct Opened {
    kernel: Rijndael,
    // an end whose trace and kernel are the test's; its size set does not bind the trace
    end: NetworkEnd<Rijndael>,
    op: [u8; 32],
    opc: [u8; 32],
    rand: Vec<u8>,
    // AMF, then SQN
    authenticated: Vec<u8>,
}

impl Opened {
    // Derives OPc from the inputs of a test.
    pub fn new(inputs: &Inputs) -> Result<Opened, Fault> {
        let Whole {
            op,
            key,
            rand,
            sqn,
            amf,
            constants,
        } = inputs.whole().ok_or(Fault::Missing)?;
        let kernel = Rijndael::new(key)?;
        let opc = derive_opc(&kernel, op, standard_name(), &mut [0; 96])?;
        let end = NetworkEnd::open(
            Rijndael::new(key)?,
            &opc,
            constants.as_flattened(),
            Sizes::SMALLEST,
            &[0; 6],
        )?;
        let mut authenticated = amf.clone()?;
        authenticated.extend_from_slice(sqn)?;
        Ok(Opened {
            kernel,
            end,
            op: fill_block(op),
            opc,
            rand: rand.clone()?,
            authenticated,
        })
    }

    // A block on the way from OP to OPc.
    pub fn opc_block(&self, block: OpcBlock) -> [u8; 32]
        ensures { result ≡ opc_block_of self.now block }
    {
        block.between(&self.kernel, self.op, self.opc)
    }

    // The six blocks of a function at an output size.
    pub fn trace(&self, function: Function, size: usize, mac_s: &[u8]) -> Result<Trace, Fault>
        ensures { IfOk result (λ trace. trace.blocks ≡ traced_by self.now function size mac_s.now) }
    {
        let mut blocks = [0; 192];
        self.end.trace(
            function.index(),
            &self.rand,
            size,
            carried(function, &self.authenticated, mac_s),
            &mut blocks,
            &mut [0; 96],
        )?;
        Ok(Trace { blocks })
    }
}

// What a function carries: AMF and SQN, a MAC-S, or nothing.
fn carried<'a>(function: Function, authenticated: &'a [u8], mac_s: &'a [u8]) -> &'a [u8]
    ensures { result.now ≡ carried_of function authenticated.now mac_s.now }
{
    match function {
        Function::F1Star | Function::F1 => authenticated,
        Function::F5StarStar => mac_s,
        _ => &[],
    }
}
