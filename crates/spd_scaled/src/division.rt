//! Division of whole numbers that rounds down or up, where `/` rounds toward zero.

ghost use Rattle.std.specs.Prelude.{◌≡◌, pos, ◌+ℤ◌, ◌*ℤ◌, ◌≤ℤ◌, ◌<ℤ◌, ℤ};
ghost use Rattle.spd_scaled.specs.Scaled.{floor_div as floor_of, ceil_div as ceil_of, IsWithin};

/// `n / d` for `d` above 0, rounded down: `floor_div(-7, 2)` is -4.
pub fn floor_div(n: i128, d: i128) -> i128
    requires { pos 0 <ℤ d }
    ensures quotient { result ≡ floor_of n d }
    ensures at_most { (result *ℤ d) ≤ℤ n }
    ensures next_above { n <ℤ (result *ℤ d +ℤ d) }
    ensures within { (c : ℤ) → IsWithin (c *ℤ d) n → IsWithin c result }
{
    let quotient = n / d;
    if n % d < 0 { quotient - 1 } else { quotient }
}

/// `n / d` for `d` above 0, rounded up: `ceil_div(-7, 2)` is -3.
pub fn ceil_div(n: i128, d: i128) -> i128
    requires { pos 0 <ℤ d }
    ensures quotient { result ≡ ceil_of n d }
    ensures at_least { n ≤ℤ (result *ℤ d) }
    ensures last_below { (result *ℤ d) <ℤ (n +ℤ d) }
    ensures within { (c : ℤ) → IsWithin (c *ℤ d) n → IsWithin c result }
{
    let quotient = n / d;
    if n % d > 0 { quotient + 1 } else { quotient }
}
