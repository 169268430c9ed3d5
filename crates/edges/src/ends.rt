use super::report::part;
use aka::{CardEnd, NetworkEnd, Sizes, Ticket};
use block::Refusal;
use rijndael::Rijndael;

pub const KEY: [u8; 32] = [1; 32];

// A vector at the smallest sizes: RAND, XRES, CK, IK and AUTN. Its places stand here and in the other programs that
// cut vectors: programs share no crate of their own.
pub type Vector = [u8; 68];

// Where RAND ends in a vector.
pub const RAND_END: usize = 16;

// Where AUTN begins in a vector.
pub const AUTN: usize = 52;

// The last byte of AUTN in a vector. A place and no `last_mut`, which gives an option that is never empty here.
pub const AUTN_LAST: usize = 67;

// A kernel to open an end with.
pub fn kernel() -> anyhow::Result<Rijndael> {
    Ok(Rijndael::new(&KEY)?)
}

// Opens an end of either kind at a number, by the function that is handed in: opening is a function of each end and no
// call of their trait, for what an end is right after it differs, and each has a contract of its own.
pub fn opened<E, F: FnOnce(Rijndael, &[u8], &[u8], Sizes, &[u8]) -> Result<E, Refusal>>(
    opens: F,
    number: [u8; 6],
) -> anyhow::Result<E>
    requires { F.IsAlwaysCallable opens }
{
    let end = opens(kernel()?, part(32), part(128), Sizes::SMALLEST, &number)?;
    Ok(end)
}

// Gives a challenge, and writes its vector.
pub fn challenge(
    network: &mut NetworkEnd<Rijndael>,
    vector: &mut Vector,
) -> Result<Ticket, Refusal> {
    network.challenge(part(16), part(2), vector, &mut [0; 96])
}

// Hands the challenge of a vector to the card, and gives back what it writes as AUTS.
pub fn auts_of(card: &mut CardEnd<Rijndael>, vector: &Vector) -> [u8; 14] {
    let mut answer = [0; 36];
    let mut auts = [0; 14];
    let _ = card.receive(
        &vector[..RAND_END],
        &vector[AUTN..],
        &mut answer,
        &mut auts,
        &mut [0; 96],
    );
    auts
}
