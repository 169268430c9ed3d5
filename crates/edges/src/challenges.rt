use super::ends::{challenge, opened};
use super::report::{Case, Report, front_mut, part};
use aka::NetworkEnd;
use block::Refusal;

// A challenge by its network end's number, and by the lengths of what it is handed.
struct ChallengeCall {
    number: [u8; 6],
    rand: usize,
    amf: usize,
    out: usize,
    scratch: usize,
}

const ALL_FF: [u8; 6] = [255; 6];

const ONE_BELOW: [u8; 6] = [255, 255, 255, 255, 255, 254];

const GOOD: ChallengeCall = ChallengeCall {
    number: ONE_BELOW,
    rand: 16,
    amf: 2,
    out: 68,
    scratch: 96,
};

#[rattlefmt::skip]
const CHALLENGES: [Case<ChallengeCall>; 14] = [
    Case { case: "all sizes smallest, 68 bytes", asked: GOOD, wanted: None },
    Case { case: "everything empty", asked: ChallengeCall { number: ALL_FF, rand: 0, amf: 0, out: 0, scratch: 0 }, wanted: Some(Refusal::Rand) },
    Case { case: "RAND 15", asked: ChallengeCall { rand: 15, ..GOOD }, wanted: Some(Refusal::Rand) },
    Case { case: "RAND 17 and AMF 1", asked: ChallengeCall { rand: 17, amf: 1, ..GOOD }, wanted: Some(Refusal::Rand) },
    Case { case: "RAND 15 and output 67", asked: ChallengeCall { rand: 15, out: 67, ..GOOD }, wanted: Some(Refusal::Rand) },
    Case { case: "RAND 15 and number all ff", asked: ChallengeCall { number: ALL_FF, rand: 15, ..GOOD }, wanted: Some(Refusal::Rand) },
    Case { case: "AMF 1", asked: ChallengeCall { amf: 1, ..GOOD }, wanted: Some(Refusal::Amf) },
    Case { case: "AMF 3 and scratch 95", asked: ChallengeCall { amf: 3, scratch: 95, ..GOOD }, wanted: Some(Refusal::Amf) },
    Case { case: "AMF 0 and number all ff", asked: ChallengeCall { number: ALL_FF, amf: 0, ..GOOD }, wanted: Some(Refusal::Amf) },
    Case { case: "output 67", asked: ChallengeCall { out: 67, ..GOOD }, wanted: Some(Refusal::Buffer) },
    Case { case: "scratch 95", asked: ChallengeCall { scratch: 95, ..GOOD }, wanted: Some(Refusal::Buffer) },
    Case { case: "output 67 and number all ff", asked: ChallengeCall { number: ALL_FF, out: 67, ..GOOD }, wanted: Some(Refusal::Buffer) },
    Case { case: "number all ff", asked: ChallengeCall { number: ALL_FF, ..GOOD }, wanted: Some(Refusal::Spent) },
    Case { case: "number one below all ff", asked: ChallengeCall { out: 96, ..GOOD }, wanted: None },
];

// Gives a challenge, and lapses its ticket.
fn attempt(c: &ChallengeCall) -> anyhow::Result<Option<Refusal>> {
    let mut end = opened(NetworkEnd::open, c.number)?;
    let mut out = [0; 96];
    let mut scratch = [9; 96];
    let outcome = end.challenge(
        part(c.rand),
        part(c.amf),
        front_mut(&mut out, c.out),
        front_mut(&mut scratch, c.scratch),
    );
    Ok(outcome.and_then(|ticket| end.lapse(ticket)).err())
}

// A ticket whose challenge was replaced is stale, at confirm and at lapse.
fn stale(report: &mut Report<'_>) -> anyhow::Result<()> {
    let mut end = opened(NetworkEnd::open, [0; 6])?;
    let mut vector = [0; 68];
    let first = challenge(&mut end, &mut vector);
    let second = challenge(&mut end, &mut vector);
    let third = challenge(&mut end, &mut vector);
    let confirmed = first.and_then(|ticket| end.confirm(ticket, &[])).err();
    let lapsed = second.and_then(|ticket| end.lapse(ticket)).err();
    let open = third.and_then(|ticket| end.confirm(ticket, &[])).err();
    let replaced = "a ticket whose challenge was replaced";
    report.expect("confirm", replaced, Some(Refusal::Stale), confirmed)?;
    report.expect("lapse", replaced, Some(Refusal::Stale), lapsed)?;
    report.expect("confirm", "the open ticket, an empty RES", None, open)
}

// The grounds of a challenge.
pub fn check(report: &mut Report<'_>) -> anyhow::Result<()> {
    report.expect_each("challenge", &CHALLENGES, attempt)?;
    stale(report)
}
