ghost use Rattle.std.specs.Prelude.{◌≡◌, ◌+◌, ◌*◌, ◌%◌, ◌^◌, ◌<◌, ◌≤◌, [], ◌∷◌, bit_xor, slice_index, slice_index_or};
ghost use Rattle.field.specs.Field.{xtime};
ghost use Rattle.rijndael.specs.State.{table, sum, at, state as state_of, load as loaded, store as stored, sub as subbed, unsub as unsubbed, shift as shifted, unshift as unshifted, mix as mixed, unmix as unmixed, add as added, EachByte, EachByteOfState};

use field::{double, restore, substitute};
use std::array;

pub type Row = [u8; 8];

// Four rows of eight bytes.
pub type State = [Row; 4];

// The rows of the fifteen round keys.
// `[State; 15]` was tried: a struct that holds arrays of arrays of arrays gets no proof.
pub type Keys = [Row; 60];

// What f makes of each byte. `bytes.map(f)` was tried on a copy without contracts: forth takes 0.76 µs a block, and 0.55
// in this form (docs/SPEED.md).
pub fn each_byte<const N: usize, F: Fn(u8) -> u8>(bytes: [u8; N], f: F) -> [u8; N]
    requires { F.IsAlwaysCallable f }
    ensures { EachByte (F.post f) N bytes.entry result }
{
    array::from_fn(
        |i|
            requires { (i < N) × F.IsAlwaysCallable f }
            ensures { F.post f (slice_index bytes i) result }
        { f(bytes[i]) },
    )
}

// The exclusive or, byte by byte. One function with `block::xor_blocks` would be no plainer: that one ensures `a ⊕ b` of
// blocks of 32 bytes, and this one the table of N bytes by which State and Schedule define rows and words.
pub fn xor<const N: usize>(a: [u8; N], b: [u8; N]) -> [u8; N]
    ensures { result ≡ table N (λ i. bit_xor (slice_index a.entry i) (slice_index b.entry i)) }
{
    array::from_fn(
        |i|
            requires { i < N }
            ensures { result ≡ bit_xor (slice_index a i) (slice_index b i) }
        { a[i] ^ b[i] },
    )
}

// Row r of a block's state.
fn load_row(x: &[u8; 32], r: usize) -> Row
    requires { r < 4 }
    ensures { result ≡ table 8 (λ c. slice_index x.now (4 * c + r)) }
{
    array::from_fn(|c| x[4 * c + r])
}

// The state of a block, column by column. The rows are written out here and in `each_byte_of_state`, `add` and
// `combine`: `array::from_fn(|r| ..)` proves in all four, but forth then takes 0.62 µs a block, not 0.59.
#[tactic(auto, unfolding(crate::specs::State::load))]
pub fn load(x: [u8; 32]) -> State
    ensures { result ≡ loaded x }
{
    [
        load_row(&x, 0),
        load_row(&x, 1),
        load_row(&x, 2),
        load_row(&x, 3),
    ]
}

// The block of a state.
pub fn store(s: State) -> [u8; 32]
    ensures { result ≡ stored s }
{
    array::from_fn(|i| s[i % 4][i / 4])
}

// What f makes of each byte of a state. The rows are written out for the time of `from_fn`: see `load`.
fn each_byte_of_state<F: Fn(u8) -> u8 + Copy>(s: State, f: F) -> State
    requires { F.IsAlwaysCallable f }
    ensures { EachByteOfState (F.post f) s result }
{
    [
        each_byte(s[0], f),
        each_byte(s[1], f),
        each_byte(s[2], f),
        each_byte(s[3], f),
    ]
}

pub fn sub(s: State) -> State
    ensures { result ≡ subbed s }
{
    each_byte_of_state(s, |b| substitute(b))
}

pub fn unsub(s: State) -> State
    ensures { result ≡ unsubbed s }
{
    each_byte_of_state(s, |b| restore(b))
}

// The bytes moved left by n places. `rotate_left` was tried on a copy without contracts: forth takes 2.1 µs a block, and
// 0.55 in this form (docs/SPEED.md).
pub fn left<const N: usize>(bytes: [u8; N], n: usize) -> [u8; N]
    requires { N + n < 2 ^ 64 }
    ensures { result ≡ table N (λ i. slice_index bytes.entry ((i + n) % N)) }
{
    array::from_fn(
        |i|
            requires { (i < N) × (N + n < 2 ^ 64) }
            ensures { result ≡ slice_index bytes ((i + n) % N) }
        { bytes[(i + n) % N] },
    )
}

// Each row moved left by its places. One function with `unshift` over `by: [u8; 4]` was tried, and proves, but forth then
// takes 0.78 µs a block, not 0.59.
#[tactic(auto, unfolding(crate::specs::State::shift))]
pub fn shift(s: State) -> State
    ensures { result ≡ shifted s }
{
    [left(s[0], 0), left(s[1], 1), left(s[2], 3), left(s[3], 4)]
}

// Undoes `shift`, beside which stands why it is a function of its own.
#[tactic(auto, unfolding(crate::specs::State::unshift))]
pub fn unshift(s: State) -> State
    ensures { result ≡ unshifted s }
{
    [left(s[0], 8), left(s[1], 7), left(s[2], 5), left(s[3], 4)]
}

// Adds the round key k. The rows are written out for the time of `from_fn`: see `load`.
#[tactic(auto, unfolding(crate::specs::State::add))]
pub fn add(k: State, s: State) -> State
    ensures { result ≡ added k s }
{
    [
        xor(s[0], k[0]),
        xor(s[1], k[1]),
        xor(s[2], k[2]),
        xor(s[3], k[3]),
    ]
}

fn double_state(s: State) -> State
    ensures { result ≡ state_of (λ r c. xtime (at s r c)) }
{
    each_byte_of_state(s, |b| double(b))
}

fn sum_rows(a: Row, b: Row, c: Row, d: Row) -> Row
    ensures { result ≡ table 8 (λ k. sum 4 (λ j. at (a ∷ b ∷ c ∷ d ∷ []) j k)) }
{
    xor(xor(a, b), xor(c, d))
}

// The multiples a, b, c and d of a state by the first row of a matrix, added up along the matrix:
// each next row of it is moved one place right. The rows are written out for the time of `from_fn`: see `load`.
fn combine(a: State, b: State, c: State, d: State) -> State
    ensures { result ≡ state_of (λ r k. sum 4 (λ j. at (slice_index_or (a ∷ b ∷ c ∷ d ∷ []) j []) ((r + j) % 4) k)) }
{
    [
        sum_rows(a[0], b[1], c[2], d[3]),
        sum_rows(a[1], b[2], c[3], d[0]),
        sum_rows(a[2], b[3], c[0], d[1]),
        sum_rows(a[3], b[0], c[1], d[2]),
    ]
}

// Multiples 02, 03, 01 and 01 of the state, combined.
pub fn mix(s: State) -> State
    ensures { result ≡ mixed s }
{
    let two = double_state(s);
    combine(two, add(two, s), s, s)
}

// Multiples 0e, 0b, 0d and 09 of the state, combined.
pub fn unmix(s: State) -> State
    ensures { result ≡ unmixed s }
{
    let two = double_state(s);
    let four = double_state(two);
    let eight = double_state(four);
    let by_0e = add(add(eight, four), two);
    let by_0b = add(add(eight, two), s);
    let by_0d = add(add(eight, four), s);
    let by_09 = add(eight, s);
    combine(by_0e, by_0b, by_0d, by_09)
}
