ghost use Rattle.std.specs.Prelude.{◌≡◌};
ghost use Rattle.milenage.specs.Blocks.{standard_name};
ghost use Rattle.milenage.specs.Calls.{StandardConstants};

// One constant a line: zeros, but for the last byte of c1 to c7, which is 1, 2, 4 and so on to 64.
#[rattlefmt::skip]
const STANDARD_CONSTANTS: [u8; 128] = [
    0, 0, 0, 0, 0, 0, 0, 0, 0, 0, 0, 0, 0, 0, 0, 0,
    0, 0, 0, 0, 0, 0, 0, 0, 0, 0, 0, 0, 0, 0, 0, 1,
    0, 0, 0, 0, 0, 0, 0, 0, 0, 0, 0, 0, 0, 0, 0, 2,
    0, 0, 0, 0, 0, 0, 0, 0, 0, 0, 0, 0, 0, 0, 0, 4,
    0, 0, 0, 0, 0, 0, 0, 0, 0, 0, 0, 0, 0, 0, 0, 8,
    0, 0, 0, 0, 0, 0, 0, 0, 0, 0, 0, 0, 0, 0, 0, 16,
    0, 0, 0, 0, 0, 0, 0, 0, 0, 0, 0, 0, 0, 0, 0, 32,
    0, 0, 0, 0, 0, 0, 0, 0, 0, 0, 0, 0, 0, 0, 0, 64,
];

// The constants c0 to c7 of 3GPP TS 35.235, end to end.
pub fn standard_constants() -> [u8; 128]
    ensures { StandardConstants result }
{
    STANDARD_CONSTANTS
}

// ALGONAME in 3GPP use.
pub fn standard_name() -> &'static [u8]
    ensures { result.now ≡ standard_name }
{
    b"MILENAGE2.0"
}
