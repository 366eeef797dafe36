//! The reduced diagram of a small table, and its leaf at a state.

ghost use Rattle.std.specs.Prelude.{◌≡◌, [], ◌∷◌, IfOk};
ghost use Rattle.spd_model.specs.States.{sizes};

use spd_frozen::{Memory, Node, of_table};
use spd_model::{Action, Model, State, Tree, Var};
use spd_nodes::Leaf;
use sqlite_items::Items;
use std::alloc::Global;
use std::test::Fail;

/// A model of the variable `x` with the values `yes` and `no`.
fn model(alloc: Global) -> Result<Model, Memory>
    ensures { IfOk result (λ model. sizes model ≡ 2 ∷ []) }
{
    let mut values = Items::new(alloc);
    values.push(Items::from_slice(alloc, b"yes")?)?;
    values.push(Items::from_slice(alloc, b"no")?)?;
    let mut vars = Items::new(alloc);
    vars.push(Var {
        name: Items::from_slice(alloc, b"x")?,
        values,
    })?;
    let mut tables = Items::new(alloc);
    tables.push(Tree::Leaf(500_000_000_000))?;
    let mut actions = Items::new(alloc);
    actions.push(Action {
        name: Items::from_slice(alloc, b"stay")?,
        tables,
        cost: Items::new(alloc),
    })?;
    Ok(Model {
        vars,
        dds: Items::new(alloc),
        actions,
        reward: Items::new(alloc),
        discount: 500_000,
        tolerance: 100_000_000,
        horizon: None,
    })
}

#[test]
fn a_table_gives_its_reduced_diagram(rt: HostRuntime) -> Result<(), Fail> {
    let alloc = rt.alloc();
    let model = model(alloc)?;
    let yes = Leaf::Num(1_968_750_000);
    let no = Leaf::Num(0);
    let frozen = of_table(alloc, &model, &[yes, no])?;
    assert_eq!(rt; frozen.at(&State::of(&[1])), no);
    let nodes = frozen.nodes();
    assert_eq!(rt; nodes.len(), 3);
    assert_eq!(rt; nodes[0], Node::Leaf(yes));
    assert_eq!(rt; nodes[1], Node::Leaf(no));
    let kids = [0, 1].to_vec(alloc)?;
    assert_eq!(rt; nodes[2], Node::Branch { var: 0, kids });
    Ok(())
}
