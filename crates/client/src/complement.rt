ghost use Rattle.client.specs.Complement.{turned};
ghost use Rattle.client.specs.ComplementLaws.{turned_twice, turned_block};

use block::xor_blocks;
use kernel::Kernel;

// A kernel of the client's own: it turns every bit over. It keeps nothing secret, and serves to try the ends.
#[derive(Drop)]
pub struct Complement;

impl Kernel for Complement {
    ghost forth = { λ _. turned };

    ghost back = { λ _. turned };

    ghost back_forth = { λ k. turned_twice };

    ghost forth_back = { λ k. turned_twice };

    ghost forth_block = { λ k. turned_block };

    ghost back_block = { λ k. turned_block };

    fn encrypt(&self, x: [u8; 32]) -> [u8; 32] {
        xor_blocks(x, [0xff; 32])
    }

    // Turning every bit over undoes itself.
    fn decrypt(&self, x: [u8; 32]) -> [u8; 32] {
        self.encrypt(x)
    }
}
