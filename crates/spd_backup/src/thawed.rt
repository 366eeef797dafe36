//! A process's parts as diagrams of a forest.

ghost use Rattle.std.specs.Prelude.{◌≡◌, ℕ, ◌+◌, ◌*◌, ◌<◌, ◌≤◌, length, sum, take, drop};
ghost use Rattle.spd_backup.specs.Thawing.{weights_in};

use spd_nodes::Ref;

/// A process's probabilities and rewards as diagrams.
#[derive(Debug, Drop)]
pub struct Thawed {
    /// The probabilities, in units of 10^-12: by action, then variable, then the variable's next value.
    pub weights: Vec<Ref>,
    /// The reward of each action, in units of 10^-9.
    pub rewards: Vec<Ref>,
    /// Each variable's number of values.
    pub sizes: Vec<u8>,
    /// The discount, in units of 10^-6.
    pub g: u32,
}

/// The sum of variables' numbers of values.
pub fn count_of(sizes: &[u8]) -> usize
    requires { length sizes.now ≤ 100 }
    ensures sum { result ≡ sum sizes.now }
    ensures few { result ≤ 25500 }
{
    let mut count = 0;
    for size in sizes {
        count += *size as usize;
    }
    count
}

/// Some of the Refs in a row.
fn part_of(refs: &[Ref], from: usize, count: usize) -> &[Ref]
    requires { from + count ≤ length refs.now }
    ensures { result.now ≡ take count (drop from refs.now) }
{
    &refs[from..from + count]
}

/// The weights of a variable's next values after an action, one for each value in order.
#[tactic(auto, using(crate::proofs::PartLaws::part_laws))]
pub fn weights_of(thawed: &Thawed, action: u32, var: usize) -> &[Ref]
    requires few { length thawed.now.sizes.items ≤ 100 }
    requires var { var < length thawed.now.sizes.items }
    requires action { (action + 1) * sum thawed.now.sizes.items ≤ length thawed.now.weights.items }
    ensures { result.now ≡ weights_in thawed.now.sizes.items thawed.now.weights.items action var }
{
    let sizes = thawed.sizes.as_slice();
    let all = count_of(sizes);
    let before = count_of(&sizes[..var]);
    let from = action as usize * all + before;
    part_of(thawed.weights.as_slice(), from, sizes[var] as usize)
}
