use super::ends::kernel;
use super::report::{Case, Report, part};
use aka::{CardEnd, NetworkEnd, ResyncMask, Sizes};
use block::Refusal;
use rijndael::Rijndael;

// An opening by the lengths of what it is handed.
struct OpenCall {
    opc: usize,
    constants: usize,
    rand: usize,
    sqn: usize,
    ak: usize,
    number: usize,
}

const GOOD: OpenCall = OpenCall {
    opc: 32,
    constants: 128,
    rand: 16,
    sqn: 6,
    ak: 6,
    number: 6,
};

#[rattlefmt::skip]
const OPENINGS: [Case<OpenCall>; 20] = [
    Case { case: "all in order", asked: GOOD, wanted: None },
    Case { case: "everything empty", asked: OpenCall { opc: 0, constants: 0, rand: 0, sqn: 0, ak: 0, number: 0 }, wanted: Some(Refusal::OperatorField) },
    Case { case: "OPc 31", asked: OpenCall { opc: 31, ..GOOD }, wanted: Some(Refusal::OperatorField) },
    Case { case: "OPc 33 and constants 127", asked: OpenCall { opc: 33, constants: 127, ..GOOD }, wanted: Some(Refusal::OperatorField) },
    Case { case: "OPc 31 and RAND 15", asked: OpenCall { opc: 31, rand: 15, ..GOOD }, wanted: Some(Refusal::OperatorField) },
    Case { case: "OPc 31 and AK not SQN", asked: OpenCall { opc: 31, ak: 7, ..GOOD }, wanted: Some(Refusal::OperatorField) },
    Case { case: "OPc 31 and number 5", asked: OpenCall { opc: 31, number: 5, ..GOOD }, wanted: Some(Refusal::OperatorField) },
    Case { case: "constants 127", asked: OpenCall { constants: 127, ..GOOD }, wanted: Some(Refusal::Constants) },
    Case { case: "constants 129 and RAND 33", asked: OpenCall { constants: 129, rand: 33, ..GOOD }, wanted: Some(Refusal::Constants) },
    Case { case: "constants 0 and AK not SQN", asked: OpenCall { constants: 0, ak: 7, ..GOOD }, wanted: Some(Refusal::Constants) },
    Case { case: "constants 0 and number 7", asked: OpenCall { constants: 0, number: 7, ..GOOD }, wanted: Some(Refusal::Constants) },
    Case { case: "RAND 15", asked: OpenCall { rand: 15, ..GOOD }, wanted: Some(Refusal::Size) },
    Case { case: "RAND 33", asked: OpenCall { rand: 33, ..GOOD }, wanted: Some(Refusal::Size) },
    Case { case: "AK and SQN 5", asked: OpenCall { sqn: 5, ak: 5, number: 5, ..GOOD }, wanted: Some(Refusal::Size) },
    Case { case: "AK 13, SQN 12", asked: OpenCall { sqn: 12, ak: 13, number: 12, ..GOOD }, wanted: Some(Refusal::Size) },
    Case { case: "RAND 15 and number 5", asked: OpenCall { rand: 15, number: 5, ..GOOD }, wanted: Some(Refusal::Size) },
    Case { case: "AK not SQN", asked: OpenCall { ak: 7, ..GOOD }, wanted: Some(Refusal::Mask) },
    Case { case: "AK not SQN and number 5", asked: OpenCall { ak: 7, number: 5, ..GOOD }, wanted: Some(Refusal::Mask) },
    Case { case: "number 5", asked: OpenCall { number: 5, ..GOOD }, wanted: Some(Refusal::Number) },
    Case { case: "number 0", asked: OpenCall { number: 0, ..GOOD }, wanted: Some(Refusal::Number) },
];

impl OpenCall {
    // Opens an end of either kind, by the function that is handed in: see `opened`.
    fn attempt<E: Drop, F: FnOnce(Rijndael, &[u8], &[u8], Sizes, &[u8]) -> Result<E, Refusal>>(
        &self,
        opens: F,
    ) -> anyhow::Result<Option<Refusal>>
        requires { F.IsAlwaysCallable opens }
    {
        let sizes = Sizes {
            rand: self.rand,
            sqn: self.sqn,
            ak: self.ak,
            resync: ResyncMask::F5StarStar,
            ..Sizes::SMALLEST
        };
        let outcome = opens(
            kernel()?,
            part(self.opc),
            part(self.constants),
            sizes,
            part(self.number),
        );
        Ok(outcome.err())
    }
}

// Opening either end.
pub fn check(report: &mut Report<'_>) -> anyhow::Result<()> {
    for c in &OPENINGS {
        let network = c.asked.attempt(NetworkEnd::open)?;
        report.expect("network", c.case, c.wanted, network)?;
        let card = c.asked.attempt(CardEnd::open)?;
        report.expect("card", c.case, c.wanted, card)?;
    }
    Ok(())
}
