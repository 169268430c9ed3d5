ghost use Rattle.std.specs.Prelude.{◌≡◌, ◌/◌, ◌%◌, ◌<◌, ◌≤◌, [], length, slice_index_or};
ghost use Rattle.rijndael.specs.Schedule.{Doubling, constant, rot_word, sub_word, change as change_of, next as next_of, schedule as schedule_of, round_key, round_keys};

use super::state::{Keys, Row, each_byte, left, xor};
use field::substitute;
use std::array;

type Word = [u8; 4];

// The words w0 to w119.
type Words = [Word; 120];

const ROUND_CONSTANTS: [u8; 14] = *b"\x01\x02\x04\x08\x10\x20\x40\x80\x1b\x36\x6c\xd8\xab\x4d";

// The first round constant is 01, and each next one is x times the last.
pub fn round_constants_double()
    ensures { Doubling ROUND_CONSTANTS }
{}

// Round constant i, counted from 1.
fn round_constant(i: usize) -> u8
    requires { (1 ≤ i) × (i ≤ 14) }
    ensures { result ≡ constant i }
{
    ROUND_CONSTANTS[i - 1]
}

#[tactic(auto, unfolding(crate::specs::Schedule::rot_word))]
fn rot_word(w: Word) -> Word
    ensures { result ≡ rot_word w }
{
    left(w, 1)
}

fn sub_word(w: Word) -> Word
    ensures { result ≡ sub_word w }
{
    each_byte(w, |b| substitute(b))
}

// What word i adds to word i - 8, where v is word i - 1.
fn change(i: usize, v: Word) -> Word
    requires { (8 ≤ i) × (i < 120) }
    ensures { result ≡ change_of i v }
{
    match i % 8 {
        0 => xor(sub_word(rot_word(v)), [round_constant(i / 8), 0, 0, 0]),
        4 => sub_word(v),
        _ => v,
    }
}

// Word i of a key, from the words before it.
fn next(key: &[u8; 32], i: usize, words: &Words) -> Word
    requires { i < 120 }
    ensures { result ≡ next_of key.now i words.now }
{
    if i < 8 {
        // The place in the definition, words of four bytes: `as_chunks` would say the same by a list of lists.
        array::from_fn(|j| key[4 * i + j])
    } else {
        xor(words[i - 8], change(i, words[i - 1]))
    }
}

// The words of a key.
fn schedule(key: &[u8; 32]) -> Words
    ensures { result ≡ schedule_of key.now }
{
    let mut words = [[0; 4]; 120];
    // The index stays: a word is made from earlier words, and `array::from_fn` does not show its closure the words made so far.
    for i in 0..120 {
        words[i] = next(key, i, &words);
    }
    words
}

// Row r of round key n: byte r of each of its eight words.
fn key_row(words: &Words, n: usize, r: usize) -> Row
    requires { (n < 15) × (r < 4) }
    ensures { result ≡ slice_index_or (round_key words.now n) r [] }
{
    // The place in the definition, eight words a round key: `as_chunks` would say the same by a list of lists.
    array::from_fn(|c| words[8 * n + c][r])
}

// The rows of a key's round keys.
pub(super) fn round_keys(key: &[u8; 32]) -> Keys
    ensures { result ≡ round_keys key.now }
{
    let words = schedule(key);
    array::from_fn(
        |i|
            requires { i < 60 }
            ensures { result ≡ slice_index_or (round_key words (i / 4)) (i % 4) [] }
        { key_row(&words, i / 4, i % 4) },
    )
}
