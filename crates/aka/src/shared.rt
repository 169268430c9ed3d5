ghost use Rattle.std.specs.Prelude.{◌≡◌, length};
ghost use Rattle.block.specs.Bytes.{AreBytes, IsBlock};

use super::sizes::Admitted;

mod functions;
mod opening;
mod tokens;
mod tracing;
mod vectors;

pub(crate) use functions::Functions;

// What an end holds for good: its kernel, OPc, c0 to c7 end to end, and its size set.
#[derive(Drop)]
pub struct Core<K> {
    kernel: K,
    opc: [u8; 32],
    constants: [u8; 128],
    pub(crate) admitted: Admitted,
    ghost opc_block: { IsBlock opc },
    ghost constants_long: { length constants ≡ 128 },
    ghost constants_bytes: { AreBytes constants },
}

// The blocks that RES, CK and IK are cut from: an end has no heap, and their sizes stand once, in its size set.
#[derive(Clone, Copy)]
pub struct Keys {
    pub res: [u8; 32],
    pub ck: [u8; 32],
    pub ik: [u8; 32],
}

// The blocks that a vector is cut from, with their sizes in the size set as those of `Keys`.
#[derive(Clone, Copy)]
pub struct Parts {
    pub keys: Keys,
    pub masked: [u8; 32],
    pub mac: [u8; 32],
}
