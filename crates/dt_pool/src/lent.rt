ghost use Rattle.std.specs.Prelude.{◌≡◌, Some, slice_get};
ghost use Rattle.rtrb.specs.Ring.{received};
ghost use Rattle.dt_pool.specs.Links.{last_item, name_of_inlet};

use crate::lending::Lending;
use rtrb::Consumer;
use std::marker::{Model, PhantomData};
use std::snapshot::Snapshot;

/// An item that is lent to a worker, with the end of a ring that remembers what it was.
#[derive(Drop)]
pub struct Lent<X, N: Lending<X>> {
    pub(crate) item: X,
    pub(crate) was: Consumer<Snapshot<X>>,
    pub(crate) number: usize,
    pub(crate) of: PhantomData<N>,
}

impl<X, N: Lending<X>> Model for Lent<X, N> {
    ghost use Rattle.std.specs.Prelude.{◌≡◌, Some, slice_get};
    ghost use Rattle.rtrb.specs.Ring.{received};
    ghost use Rattle.dt_pool.specs.Links.{last_item, name_of_inlet};

    ghost Value = { X };

    ghost view = { λ l. l.item };

    ghost invariant = { λ l. (slice_get N.links l.number ≡ Some (name_of_inlet l.was)) × N.can l.item × (last_item (received l.was) ≡ Some l.item) };
}

/// An item that a worker gives back, with the end of a ring that remembers what it was.
#[derive(Drop)]
pub struct Worked<X, N: Lending<X>> {
    pub(crate) item: X,
    pub(crate) was: Consumer<Snapshot<X>>,
    pub(crate) number: usize,
    pub(crate) of: PhantomData<N>,
}

impl<X, N: Lending<X>> Model for Worked<X, N> {
    ghost use Rattle.std.specs.Prelude.{◌≡◌, Some, slice_get};
    ghost use Rattle.rtrb.specs.Ring.{received};
    ghost use Rattle.dt_pool.specs.Links.{last_item, name_of_inlet};

    ghost Value = { X };

    ghost view = { λ l. l.item };

    ghost invariant = { λ l. (slice_get N.links l.number ≡ Some (name_of_inlet l.was)) × ((old : _) → last_item (received l.was) ≡ Some old → N.goes old l.item) };
}

impl<X, N: Lending<X>> Lent<X, N> {
    /// An item that may be lent, and that its ring remembers.
    pub(crate) fn new(item: X, was: Consumer<Snapshot<X>>, number: usize) -> Self
        requires link { slice_get N.links number ≡ Some (name_of_inlet was) }
        requires can { N.can item }
        requires last { last_item (received was) ≡ Some item }
    {
        Lent {
            item,
            was,
            number,
            of: PhantomData,
        }
    }

    /// Works the item.
    pub(crate) fn work<F: Fn(&mut X)>(self, work: &F) -> Worked<X, N>
        requires can { (p : _) → N.can p.now → F.pre work.now p }
        requires goes { (p q : _) → F.post work.now p tt q → N.goes p.now q.now }
    {
        let Lent {
            mut item,
            was,
            number,
            of,
        } = self;
        work(&mut item);
        Worked {
            item,
            was,
            number,
            of,
        }
    }
}
