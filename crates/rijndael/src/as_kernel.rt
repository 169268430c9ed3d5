ghost use Rattle.rijndael.specs.Cipher.{encrypt as encrypt_of, decrypt as decrypt_of};
ghost use Rattle.rijndael.specs.CipherLaws.{decrypt_encrypt, encrypt_decrypt, encrypt_block, decrypt_block};

use super::rijndael::Rijndael;
use kernel::Kernel;

// Rijndael is a kernel: forth encrypts and back decrypts.
impl Kernel for Rijndael {
    ghost forth = { λ k. encrypt_of k.keys };

    ghost back = { λ k. decrypt_of k.keys };

    ghost back_forth = { λ k. decrypt_encrypt k.keys k.bytes };

    ghost forth_back = { λ k. encrypt_decrypt k.keys k.bytes };

    ghost forth_block = { λ k. encrypt_block k.keys k.bytes };

    ghost back_block = { λ k. decrypt_block k.keys k.bytes };

    fn encrypt(&self, x: [u8; 32]) -> [u8; 32] {
        self.run_forth(x)
    }

    fn decrypt(&self, x: [u8; 32]) -> [u8; 32] {
        self.run_back(x)
    }
}
