//! What each atomic step tells its seat: it was an event of the machine.
use crate::view::View;
use atomic_table::{Join, Play, Split};
use spd_cons_core::Key;
use std::marker::{Brand, PhantomData};

/// The key that a call searches for, which each call picks.
pub trait Searched {
    ghost use Rattle.spd_cons_core.specs.declared.key.Key.{Key};

    ghost key: { Key };
}

impl Searched for Brand {
    ghost use Rattle.spd_cons_core.specs.declared.key.Key.TheVariants.{Act};

    ghost key = { Act 0 };
}

pub struct LoadsBucket<K> {
    of: PhantomData<K>,
}

impl<K: Searched> Play<(), View> for LoadsBucket<K> {
    ghost use Rattle.spd_cons.specs.Told.{TellsBucket};

    ghost then = { λ st m found after. TellsBucket K.key m found after };
}

pub struct Claims;

impl Play<(), View> for Claims {
    ghost use Rattle.spd_cons.specs.Told.{TellsClaim};

    ghost then = { λ st m found after. TellsClaim m found after };
}

pub struct StoresContent;

impl Play<(), View> for StoresContent {
    ghost use Rattle.spd_cons.specs.Told.{TellsStore};

    ghost then = { λ st m found after. TellsStore m found after };
}

pub struct ExchangesBucket;

impl Play<(), View> for ExchangesBucket {
    ghost use Rattle.spd_cons.specs.Told.{TellsExchange};

    ghost then = { λ st m found after. TellsExchange m found after };
}

pub struct LoadsContent;

impl Play<(), View> for LoadsContent {
    ghost use Rattle.spd_cons.specs.Told.{TellsContent};

    ghost then = { λ st m found after. TellsContent m found after };
}

/// A load of a word of an entry that the seat knows.
pub struct ReadsKnown;

impl Play<(), View> for ReadsKnown {
    ghost use Rattle.spd_cons.specs.Told.{TellsKnown};

    ghost then = { λ st m found after. TellsKnown st.word m found after };
}

/// A load of the claim number, from which a seat learns what holds of the table.
pub struct Looks;

impl Play<(), View> for Looks {
    ghost use Rattle.spd_cons.specs.Told.{TellsLook};

    ghost then = { λ st m found after. TellsLook m after };
}

pub struct SplitsSeat;

impl Split<View> for SplitsSeat {
    ghost use Rattle.spd_cons.specs.Told.{split_view, new_view};

    ghost left = { split_view };

    ghost right = { new_view };
}

pub struct JoinsSeats;

impl Join<View> for JoinsSeats {
    ghost use Rattle.spd_cons.specs.Told.{joined_view, spent_view};

    ghost both = { joined_view };

    ghost spent = { spent_view };
}
