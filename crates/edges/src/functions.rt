use super::ends::{KEY, kernel};
use super::report::{Case, Report, front_mut, part};
use block::Refusal;
use kernel::Whitened;
use milenage::{cut, derive_opc, standard_constants, trace};
use rijndael::Rijndael;

// A trace by its index and its size, and by the lengths of what it is handed.
struct TraceCall {
    index: usize,
    size: usize,
    rand: usize,
    carried: usize,
    out: usize,
    scratch: usize,
}

const GOOD_TRACE: TraceCall = TraceCall {
    index: 1,
    size: 8,
    rand: 16,
    carried: 8,
    out: 192,
    scratch: 96,
};

#[rattlefmt::skip]
const TRACES: [Case<TraceCall>; 26] = [
    Case { case: "index 8", asked: TraceCall { index: 8, ..GOOD_TRACE }, wanted: Some(Refusal::Index) },
    Case { case: "index 8, RAND 15", asked: TraceCall { index: 8, rand: 15, ..GOOD_TRACE }, wanted: Some(Refusal::Index) },
    Case { case: "index 8, output 0", asked: TraceCall { index: 8, out: 0, ..GOOD_TRACE }, wanted: Some(Refusal::Index) },
    Case { case: "MAC 7", asked: TraceCall { size: 7, ..GOOD_TRACE }, wanted: Some(Refusal::Size) },
    Case { case: "MAC 33", asked: TraceCall { index: 0, size: 33, ..GOOD_TRACE }, wanted: Some(Refusal::Size) },
    Case { case: "RES 3", asked: TraceCall { index: 2, size: 3, carried: 0, ..GOOD_TRACE }, wanted: Some(Refusal::Size) },
    Case { case: "RES 4", asked: TraceCall { index: 2, size: 4, carried: 0, ..GOOD_TRACE }, wanted: None },
    Case { case: "CK 15", asked: TraceCall { index: 3, size: 15, carried: 0, ..GOOD_TRACE }, wanted: Some(Refusal::Size) },
    Case { case: "AK 5", asked: TraceCall { index: 5, size: 5, carried: 0, ..GOOD_TRACE }, wanted: Some(Refusal::Size) },
    Case { case: "AK 13", asked: TraceCall { index: 6, size: 13, carried: 0, ..GOOD_TRACE }, wanted: Some(Refusal::Size) },
    Case { case: "AK 5 and RAND 15", asked: TraceCall { index: 7, size: 5, rand: 15, ..GOOD_TRACE }, wanted: Some(Refusal::Size) },
    Case { case: "AK 5 and carried 7", asked: TraceCall { index: 7, size: 5, carried: 7, ..GOOD_TRACE }, wanted: Some(Refusal::Size) },
    Case { case: "AK 5 and output 191", asked: TraceCall { index: 5, size: 5, carried: 0, out: 191, ..GOOD_TRACE }, wanted: Some(Refusal::Size) },
    Case { case: "RAND 15", asked: TraceCall { rand: 15, ..GOOD_TRACE }, wanted: Some(Refusal::Rand) },
    Case { case: "RAND 16", asked: GOOD_TRACE, wanted: None },
    Case { case: "RAND 32", asked: TraceCall { rand: 32, ..GOOD_TRACE }, wanted: None },
    Case { case: "RAND 33", asked: TraceCall { rand: 33, ..GOOD_TRACE }, wanted: Some(Refusal::Rand) },
    Case { case: "RAND 15 and carried 7", asked: TraceCall { rand: 15, carried: 7, ..GOOD_TRACE }, wanted: Some(Refusal::Rand) },
    Case { case: "RAND 15 and scratch 0", asked: TraceCall { rand: 15, scratch: 0, ..GOOD_TRACE }, wanted: Some(Refusal::Rand) },
    Case { case: "carried 7 to f1", asked: TraceCall { carried: 7, ..GOOD_TRACE }, wanted: Some(Refusal::Carried) },
    Case { case: "carried 15 to f1*", asked: TraceCall { index: 0, carried: 15, ..GOOD_TRACE }, wanted: Some(Refusal::Carried) },
    Case { case: "carried 1 to f5", asked: TraceCall { index: 5, size: 6, carried: 1, ..GOOD_TRACE }, wanted: Some(Refusal::Carried) },
    Case { case: "carried 33 to f5**", asked: TraceCall { index: 7, size: 6, carried: 33, ..GOOD_TRACE }, wanted: Some(Refusal::Carried) },
    Case { case: "carried 7 and output 191", asked: TraceCall { index: 7, size: 6, carried: 7, out: 191, ..GOOD_TRACE }, wanted: Some(Refusal::Carried) },
    Case { case: "output 191", asked: TraceCall { index: 7, size: 6, carried: 32, out: 191, ..GOOD_TRACE }, wanted: Some(Refusal::Buffer) },
    Case { case: "scratch 95", asked: TraceCall { index: 7, size: 12, scratch: 95, ..GOOD_TRACE }, wanted: Some(Refusal::Buffer) },
];

// A derivation of OPc by the lengths of what it is handed.
struct DeriveCall {
    op: usize,
    name: usize,
    scratch: usize,
}

const GOOD_DERIVATION: DeriveCall = DeriveCall {
    op: 32,
    name: 11,
    scratch: 96,
};

#[rattlefmt::skip]
const DERIVATIONS: [Case<DeriveCall>; 9] = [
    Case { case: "OP 0", asked: DeriveCall { op: 0, ..GOOD_DERIVATION }, wanted: Some(Refusal::OperatorField) },
    Case { case: "OP 33", asked: DeriveCall { op: 33, ..GOOD_DERIVATION }, wanted: Some(Refusal::OperatorField) },
    Case { case: "OP 31 and name 32", asked: DeriveCall { op: 31, name: 32, ..GOOD_DERIVATION }, wanted: Some(Refusal::OperatorField) },
    Case { case: "OP 31 and scratch 0", asked: DeriveCall { op: 31, scratch: 0, ..GOOD_DERIVATION }, wanted: Some(Refusal::OperatorField) },
    Case { case: "name 0", asked: DeriveCall { name: 0, ..GOOD_DERIVATION }, wanted: None },
    Case { case: "name 31", asked: DeriveCall { name: 31, ..GOOD_DERIVATION }, wanted: None },
    Case { case: "name 32", asked: DeriveCall { name: 32, ..GOOD_DERIVATION }, wanted: Some(Refusal::Name) },
    Case { case: "name 32 and scratch 95", asked: DeriveCall { name: 32, scratch: 95, ..GOOD_DERIVATION }, wanted: Some(Refusal::Name) },
    Case { case: "scratch 95", asked: DeriveCall { scratch: 95, ..GOOD_DERIVATION }, wanted: Some(Refusal::Buffer) },
];

// A cut by its index, its size and the block's length.
struct CutCall {
    index: usize,
    size: usize,
    block: usize,
}

#[rattlefmt::skip]
const CUTS: [Case<CutCall>; 7] = [
    Case { case: "index 8", asked: CutCall { index: 8, size: 8, block: 32 }, wanted: Some(Refusal::Index) },
    Case { case: "index 8 and block 31", asked: CutCall { index: 8, size: 8, block: 31 }, wanted: Some(Refusal::Index) },
    Case { case: "AK 13", asked: CutCall { index: 5, size: 13, block: 32 }, wanted: Some(Refusal::Size) },
    Case { case: "AK 13 and block 0", asked: CutCall { index: 5, size: 13, block: 0 }, wanted: Some(Refusal::Size) },
    Case { case: "block 31", asked: CutCall { index: 5, size: 12, block: 31 }, wanted: Some(Refusal::Message) },
    Case { case: "block 33", asked: CutCall { index: 2, size: 32, block: 33 }, wanted: Some(Refusal::Message) },
    Case { case: "RES 32", asked: CutCall { index: 2, size: 32, block: 32 }, wanted: None },
];

fn kernels(report: &mut Report<'_>) -> anyhow::Result<()> {
    for n in [0, 31, 33] {
        let got = Rijndael::new(part(n)).err();
        report.expect("rijndael", "a key not of 32", Some(Refusal::Key), got)?;
    }
    report.expect("rijndael", "a key of 32", None, Rijndael::new(&KEY).err())?;
    for (a, b) in [(31, 32), (32, 33), (0, 0)] {
        let got = Whitened::new(kernel()?, part(a), part(b)).err();
        report.expect("whitened", "masks", Some(Refusal::Key), got)?;
    }
    let got = Whitened::new(kernel()?, part(32), part(32)).err();
    report.expect("whitened", "masks", None, got)
}

fn traced(kernel: &Rijndael, c: &TraceCall) -> Option<Refusal> {
    let mut out = [0; 192];
    let mut scratch = [9; 96];
    trace(
        kernel,
        &KEY,
        &standard_constants(),
        c.index,
        part(c.rand),
        c.size,
        part(c.carried),
        front_mut(&mut out, c.out),
        front_mut(&mut scratch, c.scratch),
    )
    .err()
}

fn derived(kernel: &Rijndael, c: &DeriveCall) -> Option<Refusal> {
    let mut scratch = [9; 96];
    derive_opc(
        kernel,
        part(c.op),
        part(c.name),
        front_mut(&mut scratch, c.scratch),
    )
    .err()
}

// The kernels, the derivation of OPc, trace and cut.
pub fn check(report: &mut Report<'_>) -> anyhow::Result<()> {
    kernels(report)?;
    let kernel = kernel()?;
    report.expect_each("derive OPc", &DERIVATIONS, |c| Ok(derived(&kernel, c)))?;
    let zero = derive_opc(&kernel, &KEY, b"A\x00B", &mut [9; 96]).err();
    report.expect(
        "derive OPc",
        "a name that holds 00",
        Some(Refusal::Name),
        zero,
    )?;
    report.expect_each("trace", &TRACES, |c| Ok(traced(&kernel, c)))?;
    report.expect_each(
        "cut",
        &CUTS,
        |c| Ok(cut(c.index, c.size, part(c.block)).err()),
    )
}
