//! Words that are names, or words of the grammar.

ghost use Rattle.std.specs.Prelude.{◌≡◌, ◌<◌, ◌≤◌, length, position, count_by, IfSome, Some};
ghost use Rattle.spd_cert.specs.Words.{var_number, action_number, value_number, is_equals, is_pair, pair_from, pair_value, version_of, why_of, side_of};

use spd_model::{Action, Model, Name, Side, Var, Why};

/// The number of the variable of this name.
fn var_place(vars: &[Var], name: &[u8]) -> Option<usize>
    ensures number { result ≡ var_number vars.now name.now }
    ensures within { IfSome result (λ var. var < length vars.now) }
{
    vars.iter().position(|var| var.name.as_slice() == name)
}

/// The number of the action of this name.
fn action_place(actions: &[Action], name: &[u8]) -> Option<usize>
    ensures number { result ≡ action_number actions.now name.now }
    ensures within { IfSome result (λ action. action < length actions.now) }
{
    actions
        .iter()
        .position(|action| action.name.as_slice() == name)
}

/// The number of the value of this name.
fn value_place(values: &[Name], name: &[u8]) -> Option<usize>
    ensures number { result ≡ value_number values.now name.now }
    ensures within { IfSome result (λ value. value < length values.now) }
{
    values.iter().position(|value| value.as_slice() == name)
}

/// The number of a model's variable of this name.
pub(crate) fn var_number(model: &Model, name: &[u8]) -> Option<u32>
    ensures number { result ≡ var_number model.now.vars name.now }
    ensures within { IfSome result (λ var. var < length model.now.vars) }
{
    match var_place(model.vars.as_slice(), name) {
        Some(place) => Some(place as u32),
        None => None,
    }
}

/// The number of a model's action of this name.
pub(crate) fn action_number(model: &Model, name: &[u8]) -> Option<u32>
    ensures { result ≡ action_number model.now.actions name.now }
{
    match action_place(model.actions.as_slice(), name) {
        Some(place) => Some(place as u32),
        None => None,
    }
}

/// How many `=` stand in a word.
fn equals_count(text: &[u8]) -> usize
    ensures { result ≡ count_by is_equals text.now }
{
    text.iter().filter(|byte| **byte == b'=').count()
}

/// Whether exactly one `=` stands in a word.
pub(crate) fn is_pair(text: &[u8]) -> bool
    ensures { result ≡ is_pair text.now }
{
    equals_count(text) == 1
}

/// The place of the first `=` of a word.
fn equals_at(text: &[u8]) -> Option<usize>
    ensures place { result ≡ position is_equals text.now }
    ensures within { IfSome result (λ n. n < length text.now) }
{
    text.iter().position(|byte| *byte == b'=')
}

/// The number of the value that a word names behind its byte of this place, where the variable's name stands before it.
fn value_behind(var: &Var, text: &[u8], n: usize) -> Option<u8>
    requires few { length var.now.values ≤ 64 }
    requires within { n < length text.now }
    ensures { result ≡ pair_from var.now text.now (Some n) }
{
    if &text[..n] != var.name.as_slice() {
        return None;
    }
    match value_place(var.values.as_slice(), &text[n + 1..]) {
        Some(place) => Some(place as u8),
        None => None,
    }
}

/// The number of the value v for which a word is `variable=v`.
pub(crate) fn pair_value(var: &Var, text: &[u8]) -> Option<u8>
    requires { length var.now.values ≤ 64 }
    ensures { result ≡ pair_value var.now text.now }
{
    match equals_at(text) {
        Some(n) => value_behind(var, text, n),
        None => None,
    }
}

/// The version that a word names.
pub(crate) fn version_of(text: &[u8]) -> Option<u8>
    ensures { result ≡ version_of text.now }
{
    if text == b"1".as_slice() {
        Some(1)
    } else if text == b"2".as_slice() {
        Some(2)
    } else {
        None
    }
}

/// Why a run ended, as a word says it.
pub(crate) fn why_of(text: &[u8]) -> Option<Why>
    ensures { result ≡ why_of text.now }
{
    if text == b"done".as_slice() {
        Some(Why::Done)
    } else if text == b"limit".as_slice() {
        Some(Why::Limit)
    } else {
        None
    }
}

/// The side of a residual that a word names.
pub(crate) fn side_of(text: &[u8]) -> Option<Side>
    ensures { result ≡ side_of text.now }
{
    if text == b"above".as_slice() {
        Some(Side::Above)
    } else if text == b"below".as_slice() {
        Some(Side::Below)
    } else {
        None
    }
}
