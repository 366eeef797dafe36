//! Comparing short texts.

ghost use Rattle.std.specs.Prelude.{◌≡◌, ◌*◌, ◌≤◌, length, take, Decides};

/// Whether two texts begin with the same N bytes.
#[inline(always)]
fn same_front<const N: usize>(a: &[u8], b: &[u8]) -> bool
    requires in_a { N ≤ length a.now }
    requires in_b { N ≤ length b.now }
    ensures { Decides result (take N a.now ≡ take N b.now) }
{
    // No early exit, so that all bytes are compared at a time.
    let mut same = true;
    for k in 0..N {
        same &= a[k] == b[k];
    }
    same
}

/// Whether two texts of one length, from N bytes to 2 N, are the same: whether their first and their last N bytes are, which may overlap.
#[inline(always)]
fn same_ends<const N: usize>(a: &[u8], b: &[u8]) -> bool
    requires one_length { length a.now ≡ length b.now }
    requires long { N ≤ length a.now }
    requires short { length a.now ≤ 2 * N }
    ensures { Decides result (a.now ≡ b.now) }
{
    if !same_front::<N>(a, b) {
        return false;
    }
    let at = a.len() - N;
    let (_, last_a) = a.split_at(at);
    let (_, last_b) = b.split_at(at);
    same_front::<N>(last_a, last_b)
}

/// Whether two texts of any length are the same. It stays a call, so that the compiler mixes none of its reads with those of short texts.
#[inline(never)]
fn same_of_any_length(a: &[u8], b: &[u8]) -> bool
    ensures { Decides result (a.now ≡ b.now) }
{
    a == b
}

/// Whether two texts of one length are the same. Names have few bytes: up to 16 of them are compared by two reads of each text.
#[inline(always)]
pub(crate) fn same(a: &[u8], b: &[u8]) -> bool
    requires { length a.now ≡ length b.now }
    ensures { Decides result (a.now ≡ b.now) }
{
    match a.len() {
        1 => same_ends::<1>(a, b),
        2..=4 => same_ends::<2>(a, b),
        5..=8 => same_ends::<4>(a, b),
        9..=16 => same_ends::<8>(a, b),
        _ => same_of_any_length(a, b),
    }
}
