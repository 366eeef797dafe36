use spd_model::Tree;
use sqlite_items::Items;

/// What stands in an action so far: a table for each variable in its place, and the parts of the cost.
#[derive(Drop)]
pub(crate) struct Tables {
    pub tables: Vec<Option<Tree>>,
    pub cost: Option<Items<Tree>>,
}
