// Bits in words, taken a vector at a time.
ghost use Rattle.std.specs.Prelude.{
  ◌≡◌,
  ◌+◌,
  ◌*◌,
  ◌/◌,
  ◌<◌,
  ◌≤◌,
  ◌↔◌,
  ◌==◌,
  length,
  bit_and,
  bit_or,
  IsTrue,
};
ghost use Rattle.std.specs.Simd.Lanes.{chunk, put_chunk, zip2};
ghost use Rattle.bloom_sig.specs.Words.{AreDisjoint, AreJoined, IsSet, ShareBit, bit_of_words};

use std::simd::prelude::*;

/// The bits of a word.
pub const WORD: usize = 64;

// The words of a vector.
const LANES: usize = 4;

/// Whether the bit of a number is set.
pub fn has_bit(words: &[u64], number: usize) -> bool
    requires { number / 64 < length words.now }
    ensures { result ≡ (bit_of_words words.now number == 1) }
{
    words[number / WORD] >> (number % WORD) & 1 == 1
}

/// Sets the bit of a number.
pub fn set_bit(words: &mut [u64], number: usize)
    requires { number / 64 < length words.old }
    ensures { IsSet number words.old words.new }
{
    words[number / WORD] |= 1 << (number % WORD);
}

/// Sets the bits of the other words too.
pub fn join_words(words: &mut [u64], others: &[u64])
    requires { length words.old ≡ length others.now }
    ensures { AreJoined 0 (length words.old) words.old others.now words.new }
{
    let vectors = words.len() / LANES;
    join_vectors(words, others, vectors);
    join_rest(words, others, vectors * LANES);
}

// Sets the bits of that many vectors of the other words.
fn join_vectors(words: &mut [u64], others: &[u64], vectors: usize)
    requires same { length words.old ≡ length others.now }
    requires room { vectors * 4 ≤ length words.old }
    ensures { AreJoined 0 (vectors * 4) words.old others.now words.new }
{
    for i in 0..vectors {
        join_vector(words, others, i * LANES);
    }
}

// Sets the bits of the vector that begins at this word.
fn join_vector(words: &mut [u64], others: &[u64], at: usize)
    requires same { length words.old ≡ length others.now }
    requires room { at + 4 ≤ length words.old }
    ensures { words.new ≡ put_chunk at words.old
        (zip2 bit_or (chunk at 4 words.old) (chunk at 4 others.now)) }
{
    let joined = u64x4::from_slice(&words[at..]) | u64x4::from_slice(&others[at..]);
    joined.copy_to_slice(&mut words[at..]);
}

// Sets the bits of the other words from this place on.
fn join_rest(words: &mut [u64], others: &[u64], from: usize)
    requires same { length words.old ≡ length others.now }
    ensures { AreJoined from (length words.old) words.old others.now words.new }
{
    for k in from..words.len() {
        words[k] |= others[k];
    }
}

/// Whether some bit is set in both. Each word is looked at, whatever stands in the others.
pub fn share_a_bit(words: &[u64], others: &[u64]) -> bool
    requires { length words.now ≡ length others.now }
    ensures { IsTrue result ↔ ShareBit words.now others.now }
{
    let vectors = words.len() / LANES;
    let in_vectors = common_in_vectors(words, others, vectors);
    let in_rest = common_in_rest(words, others, vectors * LANES);
    in_vectors | in_rest != 0
}

// The bits in common of that many vectors; 0 exactly where there are none.
fn common_in_vectors(words: &[u64], others: &[u64], vectors: usize) -> u64
    requires same { length words.now ≡ length others.now }
    requires room { vectors * 4 ≤ length words.now }
    ensures { (result ≡ 0) ↔ AreDisjoint 0 (vectors * 4) words.now others.now }
{
    let mut common = 0;
    for i in 0..vectors {
        common |= common_in_vector(words, others, i * LANES);
    }
    common
}

// The bits in common of the vector that begins at this word.
fn common_in_vector(words: &[u64], others: &[u64], at: usize) -> u64
    requires same { length words.now ≡ length others.now }
    requires room { at + 4 ≤ length words.now }
    ensures { (result ≡ 0) ↔ AreDisjoint at (at + 4) words.now others.now }
{
    (u64x4::from_slice(&words[at..]) & u64x4::from_slice(&others[at..])).reduce_or()
}

// The bits in common from this word on; 0 exactly where there are none.
fn common_in_rest(words: &[u64], others: &[u64], from: usize) -> u64
    requires same { length words.now ≡ length others.now }
    ensures { (result ≡ 0) ↔ AreDisjoint from (length words.now) words.now others.now }
{
    let mut common = 0;
    for k in from..words.len() {
        common |= words[k] & others[k];
    }
    common
}
