//! Operations on diagrams, at each leaf.
//!
//! `spd_apply` has the recursion behind all operations. A `Rule` says what it makes of two trees, and how that follows from trees
//! below theirs (`plan`): a leaf, something below, or a test of two things below. A `Descent` is a rule that may also end in
//! several nodes at once, which it makes by itself (`bottom`). `make_pair` views each root once and follows a rule with a memo;
//! it is proved once, for each rule and each forest. An operation on one diagram takes it twice. `apply` and `map_leaves` are
//! rules that go down to the leaves; `leaves_of` lists those, and `fits_leaves` and `maps_leaves` test whether an operation or a
//! map is defined on them. docs/OPERATIONS.md shows how a rule is written. What a memo holds is said of trees: each answer's tree
//! is what the rule makes of the pair's trees, whole or not.
#![tactic(auto)]

pub mod binary;
pub mod conditions;
pub mod leaf_op;
pub mod leaves;
pub mod make;
pub mod maps;
pub mod operations;
pub mod pointwise;
pub mod rounding;
pub mod rule;
pub mod split;
pub mod unary;

pub use binary::apply;
pub use conditions::{fits_leaves, maps_leaves};
pub use leaf_op::{LeafMap, LeafOp};
pub use leaves::leaves_of;
pub use make::{make_alone, make_pair};
pub use maps::{ActNum, First, Second, SecondAct};
pub use operations::{Add, Keep, MakePair, Max, Min, Mul, PickFirst, Sub};
pub use pointwise::Pointwise;
pub use rounding::{CeilBy, FloorBy, TimesCeil, TimesFloor};
pub use rule::{Below, Descent, Node, OpFault, Plan, Rule};
pub use split::{halves, lower_level, test_of_halves};
pub use unary::{EachLeaf, map_leaves};
