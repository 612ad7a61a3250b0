use std::marker::Brand;

/// The name of one run of helpers: by which rings it is known what was lent, what may be lent, and what the work makes of it.
pub trait Lending<X> {
    ghost use Rattle.std.specs.Prelude.{List};
    ghost use Rattle.dt_pool.specs.Links.{LinkName};

    /// The rings by which it is known what was lent, by the helpers' numbers.
    ghost links: { List LinkName };

    /// Which items may be lent.
    ghost can: { X → Type 0 };

    /// What the work makes of an item.
    ghost goes: { X → X → Type 0 };
}

impl<X> Lending<X> for Brand {
    ghost use Rattle.std.specs.Prelude.{[]};

    ghost links = { [] };

    ghost can = { λ _. Unit {0} };

    ghost goes = { λ _ _. Unit {0} };
}
