ghost use Rattle.std.specs.Prelude.{◌≡◌, ◌≤◌, [], ◌∷◌, ◌++◌, IfOk, OnOk, OnErr, length};
ghost use Rattle.dt_access.specs.HomesInner.{FitsInList, kept_homes};
ghost use Rattle.dt_access.specs.Orders.{AreAscendingHomes};

use dt_text::{Common, NoMemory};
use std::alloc::Global;
use std::marker::Model;

/// How many homes fit into a list itself.
const FEW: usize = 8;

/// Homes in ascending order; so none stands twice. Up to eight of them lie in the list itself, more in common with its copies:
/// a copy takes no memory.
#[derive(Debug, Drop)]
pub struct Homes {
    alloc: Global,
    form: Form,
}

/// Where the homes lie.
#[derive(Debug, Drop)]
enum Form {
    /// The first so many of these homes.
    Few(u8, [u8; 8]),
    /// Elsewhere.
    Many(Common<Vec<u8>>),
}

impl Model for Homes {
    ghost use Rattle.std.specs.Prelude.{List, ℕ};
    ghost use Rattle.dt_access.specs.HomesInner.{FitsInList, kept_homes};
    ghost use Rattle.dt_access.specs.Orders.{AreAscendingHomes};

    ghost Value = { List ℕ };

    ghost view = { λ h. kept_homes h.form };

    ghost invariant = { λ h. FitsInList h.form × AreAscendingHomes (kept_homes h.form) };
}

impl Homes {
    /// The empty list. Takes no memory.
    pub fn new(alloc: Global) -> Self
        ensures { result ≡ [] }
    {
        Homes {
            alloc,
            form: Form::Few(0, [0; 8]),
        }
    }

    /// The homes of a slice, which stand in ascending order there.
    pub fn from_slice(alloc: Global, homes: &[u8]) -> Result<Self, NoMemory>
        requires { AreAscendingHomes homes.now }
        ensures { IfOk result (λ made. made ≡ homes.now) }
    {
        let form = if homes.len() <= FEW {
            few(homes)
        } else {
            let many = Vec::from_slice(alloc, homes)?;
            Form::Many(Common::new(alloc, many)?)
        };
        Ok(Homes { alloc, form })
    }

    /// Adds a home that is greater than all held ones; after `NoMemory` the list is as before.
    pub fn push(&mut self, home: u8) -> Result<(), NoMemory>
        requires { AreAscendingHomes (self.old ++ home ∷ []) }
        ensures added { OnOk result (self.new ≡ self.old ++ home ∷ []) }
        ensures same { OnErr result (self.new ≡ self.old) }
    {
        let mut homes = Vec::from_slice(self.alloc, self.as_slice())?;
        homes.push(home)?;
        *self = Homes::from_slice(self.alloc, homes.as_slice())?;
        Ok(())
    }

    /// The homes, in order. Takes no memory.
    pub fn as_slice(&self) -> &[u8]
        ensures same { result.now ≡ self.now }
        ensures ascending { AreAscendingHomes self.now }
    {
        match &self.form {
            Form::Few(count, homes) => &homes[..*count as usize],
            Form::Many(homes) => homes.get().as_slice(),
        }
    }

    /// An equal list. Takes no memory.
    pub fn copy(&self, _alloc: Global) -> Result<Self, NoMemory>
        ensures { IfOk result (λ copied. copied ≡ self.now) }
    {
        let form = match &self.form {
            Form::Few(count, homes) => Form::Few(*count, *homes),
            Form::Many(homes) => Form::Many(homes.copy()?),
        };
        Ok(Homes {
            alloc: self.alloc,
            form,
        })
    }
}

/// The form of few homes. Takes no memory.
fn few(homes: &[u8]) -> Form
    requires { length homes.now ≤ 8 }
    ensures same { kept_homes result ≡ homes.now }
    ensures fits { FitsInList result }
{
    let mut kept = [0; 8];
    kept[..homes.len()].copy_from_slice(homes);
    Form::Few(homes.len() as u8, kept)
}
