//! Merging of ranges: states whose joint range of values stays within a span get one value.
//!
//! APRICODD (St-Aubin, Hoey and Boutilier, NIPS 2000) makes value functions smaller by joining close values.
//! How groups are formed here is this project's own rule.

ghost use Rattle.std.specs.Prelude.{◌≡◌, All, Contains, IfOk, map, pos, ◌≤ℤ◌, ◌^◌};
ghost use Rattle.std.specs.List.Sorted.{IsStrictlySortedBy};
ghost use Rattle.spd_model.specs.Ranges.{in_order, group_of, groups_of, middle_of, value_in, merged};
ghost use Rattle.spd_plain.specs.inner.Bounds.{range_of, bounds_cmp, AreSmallBounds};

use spd_scaled::floor_div;
use std::alloc::{AllocError, Global};
use std::collections::BTreeSet;

/// The bounds of a value, in units of 10^-9, ordered by `low` and then by `high`.
#[derive(Clone, Copy, PartialEq, Eq, PartialOrd, Ord)]
pub struct Bounds {
    /// The least that the value may be.
    pub low: i128,
    /// The greatest that the value may be.
    pub high: i128,
}

/// The value of each state after ranges are merged, in units of 10^-9, in the order of `ranges`.
///
/// Groups are formed over the distinct ranges in order. A group takes each next range as long as the greatest upper
/// end, that range's included, is at most the group's lower end plus `span`. Each state gets the middle of its group,
/// from the lower end to the greatest upper end, rounded down. The error is want of memory.
pub(crate) fn merge_ranges(
    alloc: Global,
    ranges: &[Bounds],
    span: i128,
) -> Result<Vec<i128>, AllocError>
    requires small { All AreSmallBounds ranges.now }
    requires span_low { pos 0 ≤ℤ span }
    requires span_high { span ≤ℤ pos (10 ^ 30) }
    ensures { IfOk result (λ values. values.items ≡ merged span (map range_of ranges.now)) }
{
    let distinct = distinct_ranges(alloc, ranges)?;
    let values = group_values(alloc, &distinct, span)?;
    let mut merged = Vec::with_capacity(alloc, ranges.len())?;
    for range in ranges {
        let place = distinct.binary_search(range).unwrap();
        merged.push(values[place])?;
    }
    Ok(merged)
}

// The distinct ranges, in order.
fn distinct_ranges(alloc: Global, ranges: &[Bounds]) -> Result<Vec<Bounds>, AllocError>
    ensures items { IfOk result (λ distinct. map range_of distinct.items ≡ in_order (map range_of ranges.now)) }
    ensures found { IfOk result (λ distinct. All (Contains distinct.items) ranges.now) }
    ensures ordered { IfOk result (λ distinct. IsStrictlySortedBy bounds_cmp distinct.items) }
    ensures small { All AreSmallBounds ranges.now → IfOk result (λ distinct. All AreSmallBounds distinct.items) }
{
    let mut distinct = BTreeSet::new(alloc);
    for range in ranges {
        distinct.insert(*range)?;
    }
    distinct.iter().copied().collect(alloc)
}

// The middle of its group for each of the ranges, which are distinct and in order.
fn group_values(alloc: Global, distinct: &[Bounds], span: i128) -> Result<Vec<i128>, AllocError>
    requires small { All AreSmallBounds distinct.now }
    requires span_low { pos 0 ≤ℤ span }
    requires span_high { span ≤ℤ pos (10 ^ 30) }
    requires ordered { IsStrictlySortedBy bounds_cmp distinct.now }
    ensures { IfOk result (λ values.
        values.items ≡ map (value_in (groups_of span (map range_of distinct.now))) (map range_of distinct.now)) }
{
    let mut values = Vec::with_capacity(alloc, distinct.len())?;
    let Some(first) = distinct.first() else {
        return Ok(values);
    };
    // The first range comes again in the loop, and leaves its group as it is.
    let mut group = *first;
    for (i, range) in distinct.iter().enumerate() {
        let high = group.high.max(range.high);
        if high <= group.low + span {
            group.high = high;
        } else {
            values.resize(i, middle(group))?;
            group = *range;
        }
    }
    values.resize(distinct.len(), middle(group))?;
    Ok(values)
}

// The middle of a range, rounded down.
fn middle(range: Bounds) -> i128
    requires { AreSmallBounds range }
    ensures { result ≡ middle_of (group_of (range_of range)) }
{
    floor_div(range.low + range.high, 2)
}
