//! Who is told of a run's turns.
use spd_frozen::Iterate;
use spd_model::Model;
use spd_tasks::Open;

/// What is told of a run's turns. It has no part in what the run makes, and its call returns.
pub trait Watch: Sync {
    /// The run stands at this turn of the model, whose table has so many nodes.
    fn turned(&self, model: &Model, iterate: &Iterate, nodes: usize);
}

/// A gate that does nothing isn't told of turns either.
impl Watch for Open {
    fn turned(&self, _model: &Model, _iterate: &Iterate, _nodes: usize) {}
}
