//! The rule of the table, which holds between any two steps of any threads.
use crate::view::{Size, View};
use atomic_table::TableRule;

/// The words and the views of the seats are those of a machine that meets its invariant.
pub struct SoundTable;

impl TableRule<(), View, Size> for SoundTable {
    ghost use Rattle.spd_cons.specs.Ruled.{IsRuled, first_view};

    ghost holds = { IsRuled };

    ghost first = { first_view };
}
