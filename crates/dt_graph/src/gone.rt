ghost use Rattle.std.specs.Prelude.{◌≡◌, ◌++◌, ◌∷◌, [], List};
ghost use Rattle.std.specs.Borrow.{ftrue};
ghost use Rattle.dt_graph.specs.declared.kept.Kept.{Kept};

use crate::kept::Kept;
use std::marker::Model;

/// The records that are kept no more, for contracts to see. It has no bytes, and its methods do nothing at run time. The model
/// below says that it owns no memory; a type that has such a value needs one.
#[derive(Drop)]
pub struct Gone {
    pub ghost records: { List Kept },
}

impl Model for Gone {
    ghost also_owns = { λ _. ftrue };
}

impl Gone {
    /// No record.
    #[inline(always)]
    pub fn nothing() -> Gone
        ensures { result.records ≡ [] }
    {
        Gone {}
    }

    /// With one record more.
    #[inline(always)]
    pub fn after(&self, _kept: &Kept) -> Gone
        ensures { result.records ≡ self.now.records ++ _kept.now ∷ [] }
    {
        Gone {}
    }
}
