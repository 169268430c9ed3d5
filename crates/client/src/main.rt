// A client of the library that brings a kernel of its own, and runs both ends on it.
#![tactic(auto)]

mod complement;

use aka::{CardEnd, NetworkEnd, Sizes, Ticket};
use anyhow::Context;
use complement::Complement;
use milenage::standard_constants;
use published::Hex;

const OPC: [u8; 32] = [0x5a; 32];

const RAND: [u8; 16] = [0x3c; 16];

const AMF: [u8; 2] = [0x80, 0];

// A vector at the smallest sizes: RAND, XRES, CK, IK and AUTN. Its places stand here and in the other programs that
// cut vectors: programs share no crate of their own.
type Vector = [u8; 68];

// Where RAND ends in a vector.
const RAND_END: usize = 16;

// Where AUTN begins in a vector.
const AUTN: usize = 52;

// Gives a ticket up, which spends it.
fn give_up(network: &mut NetworkEnd<Complement>, ticket: Ticket) {
    let _ = network.lapse(ticket);
    // the ticket is gone
}

// Gives a challenge, and writes its vector.
fn challenge(network: &mut NetworkEnd<Complement>, vector: &mut Vector) -> anyhow::Result<Ticket> {
    Ok(network.challenge(&RAND, &AMF, vector, &mut [0; 96])?)
}

// Hands a vector's RAND and AUTN to the card, and gives back its RES.
fn answer(card: &mut CardEnd<Complement>, vector: Vector) -> anyhow::Result<[u8; 4]> {
    let mut answer = [0; 36];
    let mut auts = [0; 14];
    let outcome = card.receive(
        &vector[..RAND_END],
        &vector[AUTN..],
        &mut answer,
        &mut auts,
        &mut [0; 96],
    );
    let part = card.reply(outcome, &answer, &auts)?;
    part.try_into()
        .context("the card's reply is no RES of 4 bytes")
}

fn ends() -> anyhow::Result<(NetworkEnd<Complement>, CardEnd<Complement>)> {
    let constants = standard_constants();
    let network = NetworkEnd::open(Complement, &OPC, &constants, Sizes::SMALLEST, &[0; 6])?;
    let card = CardEnd::open(Complement, &OPC, &constants, Sizes::SMALLEST, &[0; 6])?;
    Ok((network, card))
}

fn main(rt: HostRuntime) -> anyhow::Result<()> {
    let (mut network, mut card) = ends()?;
    let mut vector = [0; 68];
    let ticket = challenge(&mut network, &mut vector)?;
    let confirmed = match answer(&mut card, vector) {
        Ok(res) => network.confirm(ticket, &res),
        Err(e) => {
            give_up(&mut network, ticket);
            return Err(e);
        }
    };
    println!(rt; "vector    {}", Hex(&vector))?;
    match confirmed {
        Ok(yes) => println!(rt; "confirmed {yes}")?,
        Err(e) => println!(rt; "refused   {e}")?,
    }
    let second = challenge(&mut network, &mut vector)?;
    give_up(&mut network, second);
    println!(rt; "a second challenge was given up")?;
    Ok(())
}
