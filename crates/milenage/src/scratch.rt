ghost use Rattle.std.specs.Prelude.{◌≡◌, ◌<◌, ◌≤◌, [], ◌∷◌, length, take, drop, IfSome, MatchOption};

use kernel::Kernel;

// Input and output of the last kernel run.
pub type Work = [[u8; 32]; 2];

// The blocks at the front of lent scratch bytes: one for TEMP, which stays for every question, and those of a kernel run. None where they are fewer than 96.
// What the scratch ends as is not said: whoever lends it wipes it.
pub fn split_scratch(scratch: &mut [u8]) -> Option<(&mut [u8; 32], &mut Work)>
    ensures size { MatchOption result (length scratch.old < 96) (λ _. 96 ≤ length scratch.old) }
    ensures front { IfSome result (λ p. (p.0.now ≡ take 32 scratch.old) × (p.1.now ≡ take 32 (drop 32 scratch.old) ∷ take 32 (drop 64 scratch.old) ∷ [])) }
{
    let (blocks, _) = scratch.as_chunks_mut::<32>();
    let (temp, rest) = blocks.split_first_mut()?;
    let work = rest.first_chunk_mut::<2>()?;
    Some((temp, work))
}

// The one run of a kernel: x and what the kernel makes of it stay in the scratch.
pub(crate) fn run<K: Kernel>(kernel: &K, x: [u8; 32], work: &mut Work) -> [u8; 32]
    ensures made { result ≡ K.Kernel.forth kernel.now x }
    ensures ran { work.new ≡ x ∷ K.Kernel.forth kernel.now x ∷ [] }
{
    *work = [x, kernel.encrypt(x)];
    work[1]
}
