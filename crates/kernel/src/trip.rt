ghost use Rattle.std.specs.Prelude.{◌≡◌};

use super::Kernel;

// A block through a kernel and back again, whatever the kernel is and however it is layered: it comes back as it went.
pub fn there_and_back<K: Kernel>(kernel: &K, x: [u8; 32]) -> [u8; 32]
    ensures { result ≡ x }
{
    kernel.decrypt(kernel.encrypt(x))
}
