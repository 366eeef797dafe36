//! The text of a scaled number: sign, whole part, point, and one digit for each place of its unit.

ghost use Rattle.std.specs.Prelude.{◌≡◌, ◌+◌, ◌≤◌, ◌++◌, ◌^◌, ◌⊎◌, length, take, decimal};
ghost use Rattle.spd_scaled.specs.Units.{last_digits, units_text};

use itoa::Buffer;

/// Writes `piece` from `at` on, and answers the place behind it.
fn put(buf: &mut [u8], at: usize, piece: &[u8]) -> usize
    requires { at + length piece.now ≤ length buf.old }
    ensures end { result ≡ at + length piece.now }
    ensures text { take result buf.new ≡ take at buf.old ++ piece.now }
{
    let end = at + piece.len();
    buf[at..end].copy_from_slice(piece);
    end
}

/// How many units make one: `10^places`.
fn units_of_one(places: u8) -> u128
    requires { (places ≡ 9) ⊎ (places ≡ 12) }
    ensures { result ≡ 10 ^ places }
{
    if places == 9 {
        1_000_000_000
    } else {
        1_000_000_000_000
    }
}

/// Writes a number from `at` on, without leading zeros, and answers the place behind it.
fn put_whole(buf: &mut [u8], at: usize, n: u128) -> usize
    requires { at + 40 ≤ length buf.old }
    ensures end { result ≡ at + length (decimal n) }
    ensures within { result ≤ at + 40 }
    ensures text { take result buf.new ≡ take at buf.old ++ decimal n }
{
    let mut digits = Buffer::new();
    put(buf, at, digits.format(n).as_bytes())
}

/// Writes the last `places` digits of a number from `at` on, and answers the place behind them.
fn put_places(buf: &mut [u8], at: usize, n: u128, places: u8) -> usize
    requires places { (places ≡ 9) ⊎ (places ≡ 12) }
    requires room { at + 12 ≤ length buf.old }
    ensures end { result ≡ at + places }
    ensures text { take result buf.new ≡ take at buf.old ++ last_digits places n }
{
    let one = units_of_one(places);
    let mut digits = Buffer::new();
    // A 1, and then exactly `places` digits.
    let padded = digits.format(one + n % one).as_bytes();
    put(buf, at, &padded[1..])
}

/// Writes `n` units of `10^-places` at the front of `buf`, and answers the length of the text: `-` for
/// a negative number, the whole part without leading zeros, a point, and exactly `places` digits.
/// Values, rewards and costs have 9 places, probabilities 12. What stands behind the text is left open.
pub fn put_units(n: i128, places: u8, buf: &mut [u8; 64]) -> usize
    requires { (places ≡ 9) ⊎ (places ≡ 12) }
    ensures end { result ≡ length (units_text places n) }
    ensures text { take result buf.new ≡ units_text places n }
    ensures room { result ≤ 64 }
{
    let sign: &[u8] = if n < 0 { b"-" } else { b"" };
    let start = put(buf, 0, sign);
    let magnitude = n.unsigned_abs();
    let point = put_whole(buf, start, magnitude / units_of_one(places));
    let places_start = put(buf, point, b".");
    put_places(buf, places_start, magnitude, places)
}
