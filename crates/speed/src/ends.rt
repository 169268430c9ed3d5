use super::KEY;
use aka::{CardEnd, NetworkEnd, Sizes};
use milenage::{derive_opc, standard_constants, standard_name};
use rijndael::Rijndael;

// How many challenges are given before they are received.
pub const BATCH: usize = 64;

const RAND: [u8; 16] = [0x3c; 16];

const AMF: [u8; 2] = [0x80, 0];

const SIZES: Sizes = Sizes {
    res: 8,
    ..Sizes::SMALLEST
};

// RAND, XRES, CK, IK and AUTN at these sizes, which are the smallest but for a RES of 8 bytes. A vector's places stand
// here and in the other programs that cut vectors: programs share no crate of their own.
type Vector = [u8; 72];

// Where RAND ends in a vector.
const RAND_END: usize = 16;

// Where AUTN begins in a vector.
const AUTN: usize = 56;

// RES, CK and IK.
type Answer = [u8; 40];

// A network end and a card on kernels of one key, and the vectors of a batch.
#[derive(Drop)]
pub struct Pair {
    network: NetworkEnd<Rijndael>,
    card: CardEnd<Rijndael>,
    vectors: [Vector; BATCH],
    pub answer: Answer,
}

fn kernel() -> anyhow::Result<Rijndael> {
    Ok(Rijndael::new(&KEY)?)
}

// Gives a challenge, and gives it up.
fn challenge(network: &mut NetworkEnd<Rijndael>, vector: &mut Vector) -> anyhow::Result<()> {
    let ticket = network.challenge(&RAND, &AMF, vector, &mut [0; 96])?;
    Ok(network.lapse(ticket)?)
}

// RES, CK and IK, with which the card accepts a challenge.
fn receive(card: &mut CardEnd<Rijndael>, vector: &Vector) -> anyhow::Result<Answer> {
    let mut answer = [0; 40];
    card.receive(
        &vector[..RAND_END],
        &vector[AUTN..],
        &mut answer,
        &mut [0; 14],
        &mut [0; 96],
    )?;
    Ok(answer)
}

impl Pair {
    pub fn open() -> anyhow::Result<Pair> {
        let constants = standard_constants();
        let opc = derive_opc(&kernel()?, &KEY, standard_name(), &mut [0; 96])?;
        Ok(Pair {
            network: NetworkEnd::open(kernel()?, &opc, &constants, SIZES, &[0; 6])?,
            card: CardEnd::open(kernel()?, &opc, &constants, SIZES, &[0; 6])?,
            vectors: [[0; 72]; BATCH],
            answer: [0; 40],
        })
    }

    // Gives a batch of challenges.
    pub fn give(&mut self) -> anyhow::Result<()> {
        for vector in &mut self.vectors {
            challenge(&mut self.network, vector)?;
        }
        Ok(())
    }

    // Has the card receive the challenges of a batch, each of which it accepts.
    pub fn take(&mut self) -> anyhow::Result<()> {
        for vector in &self.vectors {
            self.answer = receive(&mut self.card, vector)?;
        }
        Ok(())
    }

    // The vector of the batch's last challenge.
    pub fn last_vector(&self) -> Vector {
        self.vectors[BATCH - 1]
    }
}
