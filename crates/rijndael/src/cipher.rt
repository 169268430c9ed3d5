ghost use Rattle.std.specs.Prelude.{◌≡◌};
ghost use Rattle.rijndael.specs.Cipher.{key as key_of, encrypt as encrypt_of, decrypt as decrypt_of};
ghost use Rattle.rijndael.specs.State.{table, sub as subbed, unsub as unsubbed, shift as shifted, unshift as unshifted, mix as mixed, unmix as unmixed, add as added};

use super::state::{Keys, State, add, load, mix, shift, store, sub, unmix, unshift, unsub};

// The fifteen round keys, four rows each.
pub(super) fn split(keys: &Keys) -> &[State]
    ensures { result.now ≡ table 15 (key_of keys.now) }
{
    let (round_keys, _) = keys.as_chunks::<4>();
    round_keys
}

// A round under the round key k, with its column mix.
fn round(k: State, s: State) -> State
    ensures { result ≡ added k (mixed (shifted (subbed s))) }
{
    add(k, mix(shift(sub(s))))
}

// Undoes a round under the round key k.
fn unround(k: State, s: State) -> State
    ensures { result ≡ unsubbed (unshifted (unmixed (added k s))) }
{
    unsub(unshift(unmix(add(k, s))))
}

pub fn encrypt(keys: &Keys, x: [u8; 32]) -> [u8; 32]
    ensures { result ≡ encrypt_of keys.now x }
{
    let round_keys = split(keys);
    let mut s = add(round_keys[0], load(x));
    // A round's result goes to s by t: Rattle does not read a call whose result is laid in an array that stands already.
    for k in &round_keys[1..14] {
        let t = round(*k, s);
        s = t;
    }
    store(add(round_keys[14], shift(sub(s))))
}

pub fn decrypt(keys: &Keys, x: [u8; 32]) -> [u8; 32]
    ensures { result ≡ decrypt_of keys.now x }
{
    let round_keys = split(keys);
    let mut s = unsub(unshift(add(round_keys[14], load(x))));
    // A round's result goes to s by t for the reason that stands in `encrypt`.
    for k in round_keys[1..14].iter().rev() {
        let t = unround(*k, s);
        s = t;
    }
    store(add(round_keys[0], s))
}
