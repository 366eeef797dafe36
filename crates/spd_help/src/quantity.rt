//! What a number of a model file is, and which numbers can stand there.

use crate::source::Source;
use spd_lex::Kind;

/// What a number of a model file is.
#[derive(Clone, Copy, PartialEq, Eq, Debug)]
pub(crate) enum Quantity {
    Discount,
    Tolerance,
    Horizon,
    /// A reward or a cost.
    Reward,
    /// In a decision diagram.
    Diagram,
    /// In an action's tree.
    Probability,
}

/// The number of the last word outside brackets before a token, or 0.
pub(crate) fn top_word(source: &Source<'_>, number: usize) -> usize {
    let mut depth: usize = 0;
    let mut last = 0;
    for before in 0..number.min(source.len()) {
        match source.kind(before) {
            Some(Kind::Open) => depth = depth.saturating_add(1),
            Some(Kind::Close) => depth = depth.saturating_sub(1),
            Some(Kind::Word) if depth == 0 => last = before,
            _ => {}
        }
    }
    last
}

/// What the number at a token is.
pub(crate) fn quantity_of(source: &Source<'_>, number: usize) -> Quantity {
    let top = top_word(source, number);
    if source.is(top, b"discount") {
        Quantity::Discount
    } else if source.is(top, b"tolerance") {
        Quantity::Tolerance
    } else if source.is(top, b"horizon") {
        Quantity::Horizon
    } else if source.is(top, b"reward") || source.is(top, b"cost") {
        Quantity::Reward
    } else if source.is(top.saturating_sub(1), b"dd") {
        Quantity::Diagram
    } else {
        Quantity::Probability
    }
}

impl Quantity {
    /// How many places such a number has.
    pub(crate) fn places(self) -> &'static [u8] {
        match self {
            Quantity::Discount => b"  A discount has at most 6 places behind the point.",
            Quantity::Tolerance => b"  A tolerance has at most 9 places behind the point.",
            Quantity::Horizon => b"  A horizon is a whole number of steps.",
            Quantity::Reward => b"  A reward or cost has at most 9 places behind the point.",
            Quantity::Diagram =>
                b"  A number in a decision diagram has at most 12 places behind the point.",
            Quantity::Probability => b"  A probability has at most 12 places behind the point.",
        }
    }

    /// How great such a number may be.
    pub(crate) fn greatest(self) -> &'static [u8] {
        match self {
            Quantity::Discount =>
                b"  A discount is below 1, at most 0.999999: without one the rewards of a long course have no end.",
            Quantity::Tolerance => b"  A tolerance is at most 10^21.",
            Quantity::Horizon => b"  A horizon is at most 1000.",
            Quantity::Reward => b"  A reward or cost has a magnitude of at most 10^18.",
            Quantity::Diagram =>
                b"  A number in a decision diagram has a magnitude of at most 10^18.",
            Quantity::Probability => b"  A probability is at most 1.",
        }
    }

    /// How small such a number may be.
    pub(crate) fn least(self) -> &'static [u8] {
        match self {
            Quantity::Discount => b"  A discount is at least 0 and below 1.",
            Quantity::Tolerance => b"  A tolerance is at least 0.",
            Quantity::Horizon => b"  A horizon is a whole number from 0 to 1000.",
            _ => b"  A probability is at least 0.",
        }
    }
}

/// What is wrong with a word that is no number.
pub(crate) fn not_a_number(word: &[u8]) -> &'static [u8] {
    if word.contains(&b'/') {
        b"  A fraction is written as a decimal: 0.25 in place of 1/4."
    } else if word.contains(&b',') {
        b"  A decimal has a point, not a comma: 0.9 in place of 0,9."
    } else if word.contains(&b'%') {
        b"  A percentage is written as a decimal: 0.9 in place of 90%."
    } else if word.contains(&b'=') || word.contains(&b':') {
        b"  No sign stands before a number: `discount 0.9`."
    } else {
        b"  A number is digits with a point or none, as 0.25, and an exponent or none, as 1e-3."
    }
}
