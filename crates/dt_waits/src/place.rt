ghost use Rattle.std.specs.Prelude.{◌≡◌, ◌<◌, ◌+◌, ◌^◌, None, Some};

use std::marker::Model;

/// A place in a list, or none. It takes four bytes, where an option takes eight.
#[derive(Drop)]
pub struct Place {
    /// One more than the place; 0 where there is none.
    after: u32,
}

impl Model for Place {
    ghost use Rattle.std.specs.Prelude.{Option, ℕ};
    ghost use Rattle.dt_lists.specs.Place.{place_before};

    ghost Value = { Option ℕ };

    ghost view = { λ p. place_before p.after };
}

impl Place {
    /// No place.
    pub fn none() -> Self
        ensures { result ≡ None }
    {
        Place { after: 0 }
    }

    /// A place, which is not the last that has 32 bits.
    pub fn at(place: u32) -> Self
        requires { place + 1 < 2 ^ 32 }
        ensures { result ≡ Some place }
    {
        Place { after: place + 1 }
    }

    /// The place, if there is one.
    pub fn get(&self) -> Option<u32>
        ensures { result ≡ self.now }
    {
        if self.after == 0 {
            None
        } else {
            Some(self.after - 1)
        }
    }
}
