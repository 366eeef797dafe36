//! The words of a line.

ghost use Rattle.std.specs.Prelude.{◌≡◌, ◌≤◌, ◌<◌, [], ◌∷◌, length, MatchOption};
ghost use Rattle.std.specs.List.{list_all, position_or_len};
ghost use Rattle.spd_query.specs.Lines.{is_blank, may_stand, words_of};
ghost use Rattle.spd_query.specs.inner.Places.{IsAtWord};

/// Space, tab and CR.
pub(crate) fn is_blank(byte: u8) -> bool
    ensures { result ≡ is_blank byte }
{
    matches!(byte, b' ' | b'\t' | b'\r')
}

/// Tab, CR and 0x20 to 0x7E.
fn may_stand(byte: u8) -> bool
    ensures { result ≡ may_stand byte }
{
    matches!(byte, b'\t' | b'\r' | 0x20..=0x7e)
}

/// Whether each byte of a line may stand there.
pub(crate) fn all_may_stand(line: &[u8]) -> bool
    ensures { result ≡ list_all may_stand line.now }
{
    // No early exit, so that many bytes are tested at a time.
    let mut all = true;
    for byte in line {
        all &= may_stand(*byte);
    }
    all
}

/// A line from its first byte on that is no blank.
pub(crate) fn without_blanks(line: &[u8]) -> &[u8]
    ensures words { words_of result.now ≡ words_of line.now }
    ensures at_word { IsAtWord result.now }
    ensures shorter { length result.now ≤ length line.now }
{
    let mut rest = line;
    while let [first, behind @ ..] = rest {
        if !is_blank(*first) {
            return rest;
        }
        rest = behind;
    }
    rest
}

/// A line without the blank at which it begins, if it does.
pub(crate) fn without_blank(line: &[u8]) -> &[u8]
    ensures { words_of result.now ≡ words_of line.now }
{
    if let [first, behind @ ..] = line {
        if is_blank(*first) {
            return behind;
        }
    }
    line
}

/// The length of the word at which a line begins.
fn word_len(line: &[u8]) -> usize
    ensures first { result ≡ position_or_len is_blank line.now }
    ensures within { result ≤ length line.now }
{
    let mut len = 0;
    while len < line.len() && !is_blank(line[len]) {
        len += 1;
    }
    len
}

/// The word at which a line begins, and what stands behind it.
pub(crate) fn first_word(line: &[u8]) -> (&[u8], &[u8])
    requires some { 0 < length line.now }
    requires at_word { IsAtWord line.now }
    ensures words { words_of line.now ≡ result.0.now ∷ words_of result.1.now }
    ensures shorter { length result.1.now < length line.now }
{
    line.split_at(word_len(line))
}

/// The first word of a line, and what stands behind it.
pub(crate) fn split_word(line: &[u8]) -> Option<(&[u8], &[u8])>
    ensures words { MatchOption result (words_of line.now ≡ []) (λ r. words_of line.now ≡ r.0.now ∷ words_of r.1.now) }
{
    let line = without_blanks(line);
    if line.is_empty() {
        return None;
    }
    Some(first_word(line))
}
