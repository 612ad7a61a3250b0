ghost use Rattle.std.specs.Prelude.{◌<◌, ◌↔◌, IsTrue};
ghost use Rattle.dt_lists.specs.Lists.{AllIn, Has};

/// Whether a home is one of these.
pub fn has_home(homes: &[u8], home: u8) -> bool
    ensures { IsTrue result ↔ Has homes.now home }
{
    homes.contains(&home)
}

/// Whether each home is less than a count of regions.
pub fn are_below(homes: &[u8], count: usize) -> bool
    ensures { IsTrue result ↔ AllIn (λ home. home < count) homes.now }
{
    for home in homes {
        if *home as usize >= count {
            return false;
        }
    }
    true
}
