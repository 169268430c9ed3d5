ghost use Rattle.std.specs.Prelude.{◌≡◌, ◌<◌, ◌≤◌, MatchOption};
ghost use Rattle.block.specs.Refusals.{Answers};
ghost use Rattle.rijndael.specs.Schedule.{key_ground, round_keys};
ghost use Rattle.rijndael.specs.Cipher.{KeysAreBytes, key as key_of, encrypt as encrypt_of, decrypt as decrypt_of};
ghost use Rattle.rijndael.specs.State.{store as stored};
ghost use Rattle.rijndael.specs.Laws.{RoundTrips};

use super::cipher;
use super::schedule::round_keys;
use super::state::{Keys, store};
use block::Refusal;

// The cipher under one key, whose schedule is expanded once.
#[derive(Drop)]
pub struct Rijndael {
    keys: Keys,
    ghost bytes: { KeysAreBytes keys },
}

impl Rijndael {
    // Takes a key of 32 bytes, and refuses any other.
    pub fn new(key: &[u8]) -> Result<Rijndael, Refusal>
        ensures { Answers (key_ground key.now) result (λ k. k.keys ≡ round_keys key.now) }
    {
        let bytes = <[u8; 32]>::try_from(key).map_err(|_| Refusal::Key)?;
        let keys = round_keys(&bytes);
        Ok(Rijndael { keys })
    }

    // Round key n, words 8n to 8n+7 byte by byte, or none where n is above 14.
    pub fn round_key(&self, n: usize) -> Option<[u8; 32]>
        ensures { MatchOption result (15 ≤ n) (λ k. (n < 15) × (k ≡ stored (key_of self.now.keys n))) }
    {
        // By `?`, not `map`: a closure there would want clauses of its own, since its result is told by none.
        let k = cipher::split(&self.keys).get(n)?;
        Some(store(*k))
    }

    // The block, encrypted.
    pub(crate) fn run_forth(&self, x: [u8; 32]) -> [u8; 32]
        ensures { result ≡ encrypt_of self.now.keys x }
    {
        cipher::encrypt(&self.keys, x)
    }

    // The block, decrypted.
    pub(crate) fn run_back(&self, x: [u8; 32]) -> [u8; 32]
        ensures { result ≡ decrypt_of self.now.keys x }
    {
        cipher::decrypt(&self.keys, x)
    }
}

// Decryption undoes encryption and encryption decryption, and both give blocks.
pub fn back_undoes_forth()
    ensures { RoundTrips }
{}
