//! Groups of ranges that follow one another in order.

ghost use Rattle.std.specs.Prelude.{◌≡◌, ◌≤ℤ◌, ◌+ℤ◌, pos, map, All, AllPairs, IfOk, true, int_le};
ghost use Rattle.std.specs.Int.{int_max};
ghost use Rattle.std.proofs.Props.{props};
ghost use Rattle.spd_model.specs.Ranges.{groups_of};
ghost use Rattle.spd_nodes.specs.declared.leaf.Leaf.TheVariants.{Pair};
ghost use Rattle.spd_apply.specs.Leaves.{leaf_before};
ghost use Rattle.spd_apply.specs.Operations.{is_pair};
ghost use Rattle.spd_ranges.specs.Merging.{range_at};
ghost use Rattle.spd_ranges.specs.inner.Groups.{begun_by, begins_by, found_in, is_range, stands_before, told_by};

use spd_apply::LeafMap;
use spd_nodes::Leaf;
use std::alloc::{AllocError, Global};

/// A group of ranges that follow one another in order.
#[derive(Clone, Copy, Debug)]
pub(crate) struct Group {
    /// The lower end of its first range, and of the group's range.
    low: i128,
    /// The upper end of its first range.
    first_high: i128,
    /// The greatest upper end.
    high: i128,
}

impl Group {
    /// The group of one pair.
    fn of(pair: Leaf) -> Group
        ensures { result ≡ begun_by (range_at pair) }
    {
        let (low, high) = match pair {
            Leaf::Num(a) => (a, a),
            Leaf::Pair(a, x) => (a, x),
            Leaf::Act(a) => (a as i128, a as i128),
        };
        Group {
            low,
            first_high: high,
            high,
        }
    }

    /// Whether the group's range stays within a span with the next pair.
    fn takes(self, next: Group, span: i128) -> bool
        requires { pos 0 ≤ℤ span }
        ensures { result ≡ int_le (int_max self.high next.high) (self.low +ℤ span) }
    {
        match self.low.checked_add(span) {
            Some(end) => self.high.max(next.high) <= end,
            // The sum is above each `i128`.
            None => true,
        }
    }

    /// The group with the next pair.
    fn joined(self, next: Group) -> Group
        ensures { result ≡ record { low = self.low; first_high = self.first_high; high = int_max self.high next.high } }
    {
        Group {
            low: self.low,
            first_high: self.first_high,
            high: self.high.max(next.high),
        }
    }

    /// Whether the group begins with a range or before it.
    fn begins_by(self, low: i128, high: i128) -> bool
        ensures { result ≡ begins_by (record { low = low; high = high }) self }
    {
        self.low < low || (self.low == low && self.first_high <= high)
    }

    /// The group's range, as a pair.
    fn range(self) -> Leaf
        ensures { result ≡ Pair self.low self.high }
    {
        Leaf::Pair(self.low, self.high)
    }
}

/// Groups in the order of their first ranges, as a map of each pair to the range of its group.
#[derive(Drop)]
pub(crate) struct Grouping {
    groups: Vec<Group>,
    ghost in_order: { AllPairs (λ g h. stands_before g h ≡ true) groups.items } by { Prim.hlevel props },
}

impl LeafMap for Grouping {
    ghost fits = { λ _ a. is_pair a };

    ghost of = { λ r a. found_in r.groups.items a };

    fn fits(&self, a: Leaf) -> bool {
        match a {
            Leaf::Pair(_, _) => true,
            _ => false,
        }
    }

    fn of(&self, a: Leaf) -> Leaf {
        match a {
            Leaf::Pair(low, high) => {
                let begun = self.groups.partition_point(|g| g.begins_by(low, high));
                match self.groups[..begun].last() {
                    Some(group) => group.range(),
                    None => a,
                }
            }
            _ => a,
        }
    }
}

/// The groups of distinct pairs in order, as the merge rule joins them. A group takes each next pair as long as the greatest upper
/// end, that pair's included, is at most the group's lower end plus `span`. The error is want of memory.
pub(crate) fn join_pairs(alloc: Global, pairs: &[Leaf], span: i128) -> Result<Grouping, AllocError>
    requires ranges { All (λ a. is_range a ≡ true) pairs.now }
    requires ordered { AllPairs (λ a b. leaf_before a b ≡ true) pairs.now }
    requires span { pos 0 ≤ℤ span }
    ensures { IfOk result (λ g. g.groups.items ≡ map told_by (groups_of span (map range_at pairs.now))) }
{
    let mut groups = Vec::new(alloc);
    let Some((first, rest)) = pairs.split_first() else {
        return Ok(Grouping { groups });
    };
    let mut group = Group::of(*first);
    for pair in rest {
        let next = Group::of(*pair);
        if group.takes(next, span) {
            group = group.joined(next);
        } else {
            groups.push(group)?;
            group = next;
        }
    }
    groups.push(group)?;
    Ok(Grouping { groups })
}
