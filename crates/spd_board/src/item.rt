//! The items of a board.

ghost use Rattle.std.specs.Prelude.{◌≡◌, ℕ};
ghost use Rattle.std.specs.Arc.{arc_value};

use left_right::Absorb;
use std::alloc::AllocError;
use std::collections::LinkedList;
use std::sync::Arc;

/// What a board may show. Its first item has the number 0, and each other one the number after that of the item before.
pub trait Numbered {
    // The number of an item.
    ghost nr: { Self → ℕ };

    fn number(&self) -> u32
        ensures { result ≡ nr self.now };
}

/// One of the two copies that `left_right` keeps: a share of the item that is shown.
#[derive(Drop)]
pub struct Shown<T: Drop> {
    pub(crate) item: Arc<T>,
}

impl<T: Drop> Absorb<Arc<T>> for Shown<T> {
    type State = T;

    ghost state = { λ s. arc_value s.item };

    ghost applied = { λ _ item. arc_value item };

    fn absorb_first(&mut self, operation: &Arc<T>, _other: &Shown<T>) -> Result<(), AllocError> {
        self.item = Arc::try_clone(operation)?;
        Ok(())
    }

    fn absorb_second(&mut self, operation: Arc<T>, _other: &Shown<T>) -> Result<(), Arc<T>> {
        self.item = operation;
        Ok(())
    }
}

/// What an end of the board has seen: the items that were published so far, in order. No value of it is made.
pub struct View<T> {
    pub(crate) seen: LinkedList<T>,
}
