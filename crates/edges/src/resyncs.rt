use super::ends::{auts_of, challenge, opened};
use super::report::{Case, Report, front, front_mut};
use aka::{CardEnd, NetworkEnd};
use block::Refusal;

// A resynchronisation by the length of its AUTS, whose last byte is altered or not, and of its scratch; with a stale ticket or not.
struct ResyncCall {
    stale: bool,
    auts: usize,
    altered: bool,
    scratch: usize,
}

// The last byte of an AUTS. A place and no `last_mut`, which gives an option that is never empty here.
const AUTS_LAST: usize = 13;

const GOOD: ResyncCall = ResyncCall {
    stale: false,
    auts: 14,
    altered: false,
    scratch: 96,
};

#[rattlefmt::skip]
const RESYNCS: [Case<ResyncCall>; 11] = [
    Case { case: "the card's AUTS", asked: GOOD, wanted: None },
    Case { case: "scratch 95", asked: ResyncCall { scratch: 95, ..GOOD }, wanted: Some(Refusal::Buffer) },
    Case { case: "scratch 0 and stale", asked: ResyncCall { stale: true, scratch: 0, ..GOOD }, wanted: Some(Refusal::Buffer) },
    Case { case: "scratch 95 and AUTS 13", asked: ResyncCall { auts: 13, scratch: 95, ..GOOD }, wanted: Some(Refusal::Buffer) },
    Case { case: "scratch 95 and MAC", asked: ResyncCall { altered: true, scratch: 95, ..GOOD }, wanted: Some(Refusal::Buffer) },
    Case { case: "stale", asked: ResyncCall { stale: true, ..GOOD }, wanted: Some(Refusal::Stale) },
    Case { case: "stale and AUTS 0", asked: ResyncCall { stale: true, auts: 0, ..GOOD }, wanted: Some(Refusal::Stale) },
    Case { case: "stale and MAC", asked: ResyncCall { stale: true, altered: true, ..GOOD }, wanted: Some(Refusal::Stale) },
    Case { case: "AUTS 13", asked: ResyncCall { auts: 13, ..GOOD }, wanted: Some(Refusal::Message) },
    Case { case: "AUTS 0", asked: ResyncCall { auts: 0, ..GOOD }, wanted: Some(Refusal::Message) },
    Case { case: "MAC", asked: ResyncCall { altered: true, ..GOOD }, wanted: Some(Refusal::Mac) },
];

// Resynchronises a network end with a card that is ahead of it.
fn attempt(c: &ResyncCall) -> anyhow::Result<Option<Refusal>> {
    let mut network = opened(NetworkEnd::open, [0; 6])?;
    let mut card = opened(CardEnd::open, [9; 6])?;
    let mut vector = [0; 68];
    let ticket = challenge(&mut network, &mut vector)?;
    let mut auts = auts_of(&mut card, &vector);
    if c.altered {
        auts[AUTS_LAST] ^= 1;
    }
    if c.stale {
        let next = challenge(&mut network, &mut vector);
        let _ = next.and_then(|ticket| network.lapse(ticket));
    }
    let mut scratch = [0; 96];
    let outcome = network.resync(
        ticket,
        front(&auts, c.auts),
        front_mut(&mut scratch, c.scratch),
    );
    Ok(outcome.err())
}

// The grounds of a resynchronisation.
pub fn check(report: &mut Report<'_>) -> anyhow::Result<()> {
    report.expect_each("resync", &RESYNCS, attempt)
}
