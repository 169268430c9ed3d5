use super::ends::{AUTN, AUTN_LAST, RAND_END, Vector, auts_of, challenge, opened};
use super::report::{Case, Report, front, front_mut, part};
use aka::{CardEnd, NetworkEnd, PairEnd};
use block::Refusal;

// A receive by the lengths of what it is handed; of AUTN its first bytes, the last one altered or not; at a card that has seen it or not.
struct ReceiveCall {
    rand: usize,
    autn: usize,
    answer: usize,
    auts: usize,
    scratch: usize,
    altered: bool,
    seen: bool,
}

const GOOD: ReceiveCall = ReceiveCall {
    rand: 16,
    autn: 16,
    answer: 36,
    auts: 14,
    scratch: 96,
    altered: false,
    seen: false,
};

#[rattlefmt::skip]
const RECEIVES: [Case<ReceiveCall>; 17] = [
    Case { case: "a challenge", asked: GOOD, wanted: None },
    Case { case: "the same AUTN again", asked: ReceiveCall { seen: true, ..GOOD }, wanted: Some(Refusal::Behind) },
    Case { case: "everything empty", asked: ReceiveCall { rand: 0, autn: 0, answer: 0, auts: 0, scratch: 0, ..GOOD }, wanted: Some(Refusal::Rand) },
    Case { case: "RAND 15", asked: ReceiveCall { rand: 15, ..GOOD }, wanted: Some(Refusal::Rand) },
    Case { case: "RAND 15 and answer 35", asked: ReceiveCall { rand: 15, answer: 35, ..GOOD }, wanted: Some(Refusal::Rand) },
    Case { case: "RAND 15 and AUTN 15", asked: ReceiveCall { rand: 15, autn: 15, ..GOOD }, wanted: Some(Refusal::Rand) },
    Case { case: "answer 35", asked: ReceiveCall { answer: 35, ..GOOD }, wanted: Some(Refusal::Buffer) },
    Case { case: "AUTS buffer 13", asked: ReceiveCall { auts: 13, ..GOOD }, wanted: Some(Refusal::Buffer) },
    Case { case: "scratch 95", asked: ReceiveCall { scratch: 95, ..GOOD }, wanted: Some(Refusal::Buffer) },
    Case { case: "answer 0 and AUTN 15", asked: ReceiveCall { autn: 15, answer: 0, ..GOOD }, wanted: Some(Refusal::Buffer) },
    Case { case: "AUTS buffer 0 and MAC", asked: ReceiveCall { auts: 0, altered: true, ..GOOD }, wanted: Some(Refusal::Buffer) },
    Case { case: "answer 35 and behind", asked: ReceiveCall { answer: 35, seen: true, ..GOOD }, wanted: Some(Refusal::Buffer) },
    Case { case: "AUTN 15", asked: ReceiveCall { autn: 15, ..GOOD }, wanted: Some(Refusal::Message) },
    Case { case: "AUTN 0", asked: ReceiveCall { autn: 0, ..GOOD }, wanted: Some(Refusal::Message) },
    Case { case: "AUTN 15 and behind", asked: ReceiveCall { autn: 15, seen: true, ..GOOD }, wanted: Some(Refusal::Message) },
    Case { case: "MAC", asked: ReceiveCall { altered: true, ..GOOD }, wanted: Some(Refusal::Mac) },
    Case { case: "MAC and behind", asked: ReceiveCall { altered: true, seen: true, ..GOOD }, wanted: Some(Refusal::Mac) },
];

// A reply to an outcome, by the lengths of the two buffers.
struct ReplyCall {
    outcome: Result<(), Refusal>,
    answer: usize,
    auts: usize,
}

#[rattlefmt::skip]
const REPLIES: [Case<ReplyCall>; 4] = [
    Case { case: "accepted, answer 3", asked: ReplyCall { outcome: Ok(()), answer: 3, auts: 14 }, wanted: Some(Refusal::Buffer) },
    Case { case: "accepted, AUTS buffer 0", asked: ReplyCall { outcome: Ok(()), answer: 4, auts: 0 }, wanted: None },
    Case { case: "behind, AUTS buffer 13", asked: ReplyCall { outcome: Err(Refusal::Behind), answer: 36, auts: 13 }, wanted: Some(Refusal::Buffer) },
    Case { case: "MAC, both empty", asked: ReplyCall { outcome: Err(Refusal::Mac), answer: 0, auts: 0 }, wanted: None },
];

// The vector of a challenge that the network end gives.
fn vector() -> anyhow::Result<Vector> {
    let mut network = opened(NetworkEnd::open, [0; 6])?;
    let mut vector = [0; 68];
    let ticket = challenge(&mut network, &mut vector)?;
    network.lapse(ticket)?;
    Ok(vector)
}

fn attempt(c: &ReceiveCall) -> anyhow::Result<Option<Refusal>> {
    let mut sent = vector()?;
    let mut card = opened(CardEnd::open, [0; 6])?;
    if c.seen {
        let _ = auts_of(&mut card, &sent);
    }
    if c.altered {
        sent[AUTN_LAST] ^= 1;
    }
    let mut answer = [0; 36];
    let mut auts = [0; 14];
    let mut scratch = [9; 96];
    let outcome = card.receive(
        front(&sent[..RAND_END], c.rand),
        front(&sent[AUTN..], c.autn),
        front_mut(&mut answer, c.answer),
        front_mut(&mut auts, c.auts),
        front_mut(&mut scratch, c.scratch),
    );
    Ok(outcome.err())
}

// Reading messages, and the reply to outcomes.
fn messages(report: &mut Report<'_>) -> anyhow::Result<()> {
    let card = opened(CardEnd::open, [0; 6])?;
    for (n, wanted) in [
        (0, Some(Refusal::Message)),
        (13, Some(Refusal::Message)),
        (14, None),
        (15, Some(Refusal::Message)),
        (16, None),
        (17, Some(Refusal::Message)),
    ] {
        let got = card.read_message(part(n)).err();
        report.expect("message", "a message of some length", wanted, got)?;
    }
    report.expect_each("reply", &REPLIES, |c| {
        Ok(card.reply(c.outcome, part(c.answer), part(c.auts)).err())
    })
}

// The grounds of a receive, messages and replies.
pub fn check(report: &mut Report<'_>) -> anyhow::Result<()> {
    report.expect_each("receive", &RECEIVES, attempt)?;
    messages(report)
}
