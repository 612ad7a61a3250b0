ghost use Rattle.std.specs.Prelude.{◌≡◌, [], ◌∷◌, ◌++◌, IfOk, OnOk, OnErr};
ghost use Rattle.dt_txn.specs.Accesses.{AreAscendingAccesses};
ghost use Rattle.dt_txn.specs.AccessesInner.{kept_accesses};

use dt_access::Access;
use dt_text::NoMemory;
use std::alloc::Global;
use std::marker::Model;
use std::slice::from_ref;

/// The room for rows in the first vector that a list takes, once it has more than two of them.
const ROOM: usize = 4;

/// The rows that a transaction uses, in ascending order of their keys' bytes; so no key stands twice. One or two, as most
/// transactions use, lie in the list itself.
#[derive(Debug, Drop)]
pub struct Accesses {
    alloc: Global,
    items: Items,
}

/// Where the rows lie.
#[derive(Debug, Drop)]
enum Items {
    /// One alone.
    One(Access),
    /// Two of them.
    Two([Access; 2]),
    /// Any other number of them, elsewhere. None at all take no memory.
    Many(Vec<Access>),
}

impl Model for Accesses {
    ghost use Rattle.std.specs.Prelude.{List};
    ghost use Rattle.dt_access.specs.declared.Access.{Access};
    ghost use Rattle.dt_txn.specs.Accesses.{AreAscendingAccesses};
    ghost use Rattle.dt_txn.specs.AccessesInner.{kept_accesses};

    ghost Value = { List Access };

    ghost view = { λ a. kept_accesses a.items };

    ghost invariant = { λ a. AreAscendingAccesses (kept_accesses a.items) };
}

impl Accesses {
    /// The empty list. Takes no memory.
    pub fn new(alloc: Global) -> Self
        ensures { result ≡ [] }
    {
        Accesses {
            alloc,
            items: Items::Many(Vec::new(alloc)),
        }
    }

    /// Adds a row whose key is greater than all held ones; after `NoMemory` the list is as before. Up to two rows take no
    /// memory.
    pub fn push(&mut self, access: Access) -> Result<(), NoMemory>
        requires { AreAscendingAccesses (self.old ++ access ∷ []) }
        ensures added { OnOk result (self.new ≡ self.old ++ access ∷ []) }
        ensures same { OnErr result (self.new ≡ self.old) }
    {
        if let Items::Many(items) = &mut self.items {
            if !items.is_empty() {
                items.push(access)?;
                return Ok(());
            }
        }
        self.items = with_one(self.alloc, self.as_slice(), access)?;
        Ok(())
    }

    /// The rows, in order. Takes no memory.
    pub fn as_slice(&self) -> &[Access]
        ensures same { result.now ≡ self.now }
        ensures ascending { AreAscendingAccesses self.now }
    {
        match &self.items {
            Items::One(item) => from_ref(item),
            Items::Two(items) => &items[..],
            Items::Many(items) => items.as_slice(),
        }
    }

    /// An equal list. Takes memory where there are more than two rows.
    pub fn copy(&self, alloc: Global) -> Result<Self, NoMemory>
        ensures { IfOk result (λ copied. copied ≡ self.now) }
    {
        let items = match &self.items {
            Items::One(item) => Items::One(item.copy(alloc)?),
            Items::Two([first, second]) => Items::Two([first.copy(alloc)?, second.copy(alloc)?]),
            Items::Many(items) => Items::Many(copies(alloc, items.as_slice(), items.len())?),
        };
        Ok(Accesses {
            alloc: self.alloc,
            items,
        })
    }
}

/// Copies of some rows, and one more at the back.
fn with_one(alloc: Global, rows: &[Access], access: Access) -> Result<Items, NoMemory>
    ensures { IfOk result (λ items. kept_accesses items ≡ rows.now ++ access ∷ []) }
{
    match rows {
        [] => Ok(Items::One(access)),
        [first] => Ok(Items::Two([first.copy(alloc)?, access])),
        _ => {
            let mut items = copies(alloc, rows, ROOM)?;
            items.push(access)?;
            Ok(Items::Many(items))
        }
    }
}

/// Copies of all rows, in order, in a vector that begins with room for so many.
fn copies(alloc: Global, rows: &[Access], room: usize) -> Result<Vec<Access>, NoMemory>
    ensures { IfOk result (λ copies. copies.items ≡ rows.now) }
{
    let mut copies = Vec::with_capacity(alloc, room)?;
    for row in rows {
        copies.push(row.copy(alloc)?)?;
    }
    Ok(copies)
}
