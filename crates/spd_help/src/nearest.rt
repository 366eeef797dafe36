//! The name that a misspelt one may be meant to be.
ghost use Rattle.std.specs.Prelude.{◌≡◌, ◌<◌, ◌≤◌, length, IfSome};
ghost use Rattle.std.specs.List.{common_prefix_len};

/// How many bytes two texts have in common at their front.
fn common_front(a: &[u8], b: &[u8]) -> usize
    ensures short { result ≤ length a.now }
    ensures fits { result ≤ length b.now }
{
    for i in 0..a.len().min(b.len()) {
        if a[i] != b[i] {
            return i;
        }
    }
    a.len().min(b.len())
}

/// How many bytes two texts have in common at their end.
fn common_end(a: &[u8], b: &[u8]) -> usize
    ensures short { result ≤ length a.now }
    ensures fits { result ≤ length b.now }
{
    for i in 0..a.len().min(b.len()) {
        if a[a.len() - 1 - i] != b[b.len() - 1 - i] {
            return i;
        }
    }
    a.len().min(b.len())
}

/// How many bytes of the longer of two texts stand between what they have in common at their front and at their end.
pub(crate) fn distance(a: &[u8], b: &[u8]) -> usize {
    let front = common_front(a, b);
    let end = common_end(&a[front..], &b[front..]);
    a.len().max(b.len()) - front - end
}

/// Whether a word may be meant to be a name: at most two bytes differ, and something is common.
pub(crate) fn is_near(word: &[u8], name: &[u8]) -> bool {
    let distance = distance(word, name);
    distance <= 2 && distance < name.len().max(word.len())
}
