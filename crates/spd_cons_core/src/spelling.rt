//! How a key is spelled in five words, and where its search starts.
ghost use Rattle.std.specs.Prelude.{◌≡◌, ◌*◌, ◌/◌, ◌%◌, ◌^◌, ◌<◌, ◌≤◌, ℤ, FitsSigned};
ghost use Rattle.std.specs.Int.{w128};
ghost use Rattle.spd_cons_core.specs.declared.key.Key.{Key};
ghost use Rattle.spd_cons_core.specs.Spelling.{words_of, low, high, mixed, hash_of, first_bucket, IsKey};

use crate::key::{Entry, Key};
use crate::table::Words;

/// The golden ratio's 64 bits, by which a multiplicative hash spreads its input (Knuth, The Art of
/// Computer Programming, volume 3).
const SPREAD: u64 = 0x9E37_79B9_7F4A_7C15;

/// How far each step of the hash turns its bits.
const TURN: u32 = 29;

/// The low and the high 64 bits of a number's two's complement of 128 bits.
fn halves(n: i128) -> (u64, u64)
    ensures low { result.0 ≡ low n }
    ensures high { result.1 ≡ high n }
{
    let bits = n.cast_unsigned();
    ((bits % (1 << 64)) as u64, (bits / (1 << 64)) as u64)
}

/// The number of an entry, as a word.
fn entry_word(entry: Entry) -> u64
    ensures word { result ≡ entry.0 }
    ensures in_range { entry.0 < 2 ^ 32 }
{
    let Entry(number) = entry;
    u64::from(number)
}

/// The five words that spell a key. Different keys have different words.
pub fn words_of(key: &Key) -> Words
    ensures words { result ≡ words_of key.now }
    ensures in_range { IsKey key.now }
{
    match *key {
        Key::Test { level, yes, no } => Words([
            1 + 16 * u64::from(level),
            entry_word(yes),
            entry_word(no),
            0,
            0,
        ]),
        Key::Num(n) => {
            let (low, high) = halves(n);
            Words([2, low, high, 0, 0])
        }
        Key::Pair(m, n) => {
            let (first_low, first_high) = halves(m);
            let (second_low, second_high) = halves(n);
            Words([3, first_low, first_high, second_low, second_high])
        }
        Key::Act(action) => Words([4, u64::from(action), 0, 0, 0]),
    }
}

/// The number whose two's complement of 128 bits has these halves.
fn whole(low_half: u64, high_half: u64) -> i128
    ensures { (n : ℤ) → FitsSigned w128 n → low_half ≡ low n → high_half ≡ high n → result ≡ n }
{
    (u128::from(high_half) * (1 << 64) + u128::from(low_half)).cast_signed()
}

/// The entry that a word numbers.
fn word_entry(word: u64) -> Entry
    ensures { word < 2 ^ 32 → result.0 ≡ word }
{
    Entry((word % (1 << 32)) as u32)
}

/// The key that five words spell, where they spell one.
pub fn key_of(words: &Words) -> Key
    ensures { (key : Key) → IsKey key → words.now ≡ words_of key → result ≡ key }
{
    let [kind, first, second, third, fourth] = words.0;
    match kind % 16 {
        1 => Key::Test {
            level: (kind / 16 % (1 << 16)) as u16,
            yes: word_entry(first),
            no: word_entry(second),
        },
        2 => Key::Num(whole(first, second)),
        3 => Key::Pair(whole(first, second), whole(third, fourth)),
        _ => Key::Act(word_entry(first).0),
    }
}

/// A hash with one more word in it.
fn mix(hash: u64, word: u64) -> u64
    ensures { result ≡ mixed hash word }
{
    (hash ^ word).rotate_left(TURN).wrapping_mul(SPREAD)
}

/// The hash of a key's words.
fn hash_of(words: &Words) -> u64
    ensures { result ≡ hash_of words.now }
{
    words.0.iter().fold(0, |hash, word| mix(hash, *word))
}

/// The bucket at which the search for a key starts, of 2^`bits` buckets, for 1 to 63 bits: the first
/// `bits` bits of the hash of the key's words.
pub fn start_bucket(key: &Key, bits: u32) -> u64
    requires some_bits { 1 ≤ bits }
    requires most_bits { bits ≤ 63 }
    ensures start { result ≡ first_bucket (words_of key.now) (2 ^ bits) }
    ensures below { result < 2 ^ bits }
    ensures in_range { IsKey key.now }
{
    hash_of(&words_of(key)) >> (64 - bits)
}
