ghost use Rattle.std.specs.Prelude.{◌≡◌, ◌≤◌, length};
ghost use Rattle.block.specs.Bytes.{zeros};
ghost use Rattle.block.specs.Refusals.{Answers};
ghost use Rattle.milenage.specs.Blocks.{opc_of, version_block};
ghost use Rattle.milenage.specs.Grounds.{derive_ground};

use super::scratch::{run, split_scratch};
use block::{Refusal, Wipe, xor_blocks};
use kernel::Kernel;

// The first byte of V: the code of a key of 32 bytes.
const KEY_SIZE_CODE: u8 = 1;

// OPc from OP and ALGONAME: OP ⊕ forth(forth(OP) ⊕ V).
pub fn derive_opc<K: Kernel>(
    kernel: &K,
    op: &[u8],
    name: &[u8],
    scratch: &mut [u8],
) -> Result<[u8; 32], Refusal>
    ensures wiped { scratch.new ≡ zeros (length scratch.old) }
    ensures derived { Answers (derive_ground op.now name.now (length scratch.old)) result (λ v. v ≡ opc_of (K.Kernel.forth kernel.now) name.now op.now) }
{
    let guard = Wipe(scratch);
    let op = <[u8; 32]>::try_from(op).map_err(|_| Refusal::OperatorField)?;
    if name.len() > 31 || name.contains(&0) {
        return Err(Refusal::Name);
    }
    let (_, work) = split_scratch(guard.0).ok_or(Refusal::Buffer)?;
    let x = xor_blocks(run(kernel, op, work), version_block(name));
    Ok(xor_blocks(op, run(kernel, x, work)))
}

// V: the key size's byte, the name, zeros.
fn version_block(name: &[u8]) -> [u8; 32]
    requires { length name.now ≤ 31 }
    ensures { result ≡ version_block name.now }
{
    let mut version = [0; 32];
    version[0] = KEY_SIZE_CODE;
    let n = name.len();
    // Byte 1 on: where the standard lays the name.
    version[1..1 + n].copy_from_slice(name);
    version
}
