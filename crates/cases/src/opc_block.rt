ghost use Rattle.std.specs.Prelude.{◌≡◌};
ghost use Rattle.cases.specs.Opc.{opc_block, label_of};

use super::labelled::Labelled;
use block::xor_blocks;
use kernel::Kernel;

// The published blocks on the way from OP to OPc: forth(OP), V, input and output of the second kernel run, OPc.
#[derive(Clone, Copy)]
pub enum OpcBlock {
    FirstOutput,
    Version,
    SecondInput,
    SecondOutput,
    Opc,
}

impl Labelled for OpcBlock {
    ghost label_text = { label_of };

    fn label(self) -> &'static str {
        match self {
            OpcBlock::FirstOutput => "PRF_K(OP)",
            OpcBlock::Version => "V",
            OpcBlock::SecondInput => "OPc:PRF_in2",
            OpcBlock::SecondOutput => "OPc:PRF_out2",
            OpcBlock::Opc => "OPc",
        }
    }
}

impl OpcBlock {
    pub const ALL: [OpcBlock; 5] = [
        OpcBlock::FirstOutput,
        OpcBlock::Version,
        OpcBlock::SecondInput,
        OpcBlock::SecondOutput,
        OpcBlock::Opc,
    ];

    // The block that a kernel, an OP and their OPc come to: what OPc went through is back of OPc ⊕ OP.
    pub fn between<K: Kernel>(self, kernel: &K, op: [u8; 32], opc: [u8; 32]) -> [u8; 32]
        ensures { result ≡ opc_block (K.Kernel.forth kernel.now) (K.Kernel.back kernel.now) op opc self }
    {
        let first = kernel.encrypt(op);
        let second = kernel.decrypt(xor_blocks(opc, op));
        match self {
            OpcBlock::FirstOutput => first,
            OpcBlock::Version => xor_blocks(first, second),
            OpcBlock::SecondInput => second,
            OpcBlock::SecondOutput => kernel.encrypt(second),
            OpcBlock::Opc => opc,
        }
    }
}
