use crate::index::Index;
use crate::names::Names;
use spd_model::{Action, Tree};
use sqlite_items::Items;

/// What the sections say that were read so far. The settings are in their own units.
#[derive(Drop)]
pub(crate) struct Said<'f> {
    pub names: Names<'f>,
    /// The names of the actions.
    pub action_index: Index<'f>,
    pub actions: Items<Action>,
    pub reward: Option<Items<Tree>>,
    pub discount: Option<i128>,
    pub tolerance: Option<i128>,
    pub horizon: Option<i128>,
}
