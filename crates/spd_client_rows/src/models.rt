//! A model and a turn that lines ask for.

ghost use Rattle.std.specs.Prelude.{◌≡◌, [], ◌∷◌, length, IfOk};
ghost use Rattle.spd_model.specs.States.{sizes};
ghost use Rattle.spd_frozen.specs.Fits.{FitsModel};

use spd_frozen::{Iterate, Memory, Residual, of_table};
use spd_model::{Action, Model, Side, State, Tree, Var};
use spd_nodes::Leaf;
use sqlite_items::Items;
use std::alloc::Global;

/// A model of the variable `x` with the values `yes` and `no`, and the action `stay`.
pub(crate) fn model(alloc: Global) -> Result<Model, Memory>
    ensures sizes { IfOk result (λ model. sizes model ≡ 2 ∷ []) }
    ensures actions { IfOk result (λ model. length model.actions ≡ 1) }
{
    let mut values = Items::new(alloc);
    values.push(Items::from_slice(alloc, b"yes")?)?;
    values.push(Items::from_slice(alloc, b"no")?)?;
    let mut vars = Items::new(alloc);
    vars.push(Var {
        name: Items::from_slice(alloc, b"x")?,
        values,
    })?;
    let mut tables = Items::new(alloc);
    tables.push(Tree::Leaf(500_000_000_000))?;
    let mut actions = Items::new(alloc);
    actions.push(Action {
        name: Items::from_slice(alloc, b"stay")?,
        tables,
        cost: Items::new(alloc),
    })?;
    Ok(Model {
        vars,
        dds: Items::new(alloc),
        actions,
        reward: Items::new(alloc),
        discount: 500_000,
        tolerance: 100_000_000,
        horizon: None,
    })
}

/// Turn 5: the value is 1.96875 at `yes` and 0 at `no`, and the residual 0.015625.
pub(crate) fn iterate(alloc: Global, model: &Model) -> Result<Iterate, Memory>
    requires sizes { sizes model.now ≡ 2 ∷ [] }
    requires actions { length model.now.actions ≡ 1 }
    ensures { IfOk result (FitsModel model.now) }
{
    let values = [Leaf::Num(1_968_750_000), Leaf::Num(0)];
    let actions = [Leaf::Act(0), Leaf::Act(0)];
    let value = of_table(alloc, model, &values)?;
    let policy = of_table(alloc, model, &actions)?;
    Ok(Iterate {
        turn: 5,
        value,
        policy,
        residual: Residual {
            r: 15_625_000,
            at: State::of(&[0]),
            side: Side::Above,
            action: 0,
        },
        error: 31_250_000,
    })
}
