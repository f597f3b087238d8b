//! A store that is lent: what serves it gives back the same store.
ghost use Rattle.std.specs.Prelude.{◌≡◌};

use std::marker::{Brand, PhantomData};
use vo_store::Store;

/// Which store is lent, a name that proofs alone know.
pub trait Loan {
    ghost use Rattle.std.specs.Borrow.{GName};

    ghost name: { GName };
}

impl Loan for Brand {
    ghost use Rattle.vo_wire.specs.Loans.{no_name};

    ghost name = { no_name };
}

#[derive(Drop)]
pub struct LentStore<'a> {
    pub store: &'a mut Store,
}

/// A store of this loan.
#[derive(Drop)]
pub struct StoreServer<'a, K: Loan> {
    pub lent: LentStore<'a>,
    pub loan: PhantomData<K>,
    ghost same: { lent.store.ghost_name ≡ K.name },
}
