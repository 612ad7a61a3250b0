ghost use Rattle.std.specs.Prelude.{◌≡◌, [], ◌∷◌, MatchOption};
ghost use Rattle.dt_queue.specs.ListedInner.{listed_left};

/// That a row was listed at the push of this number. Each listing of the row that is older has a number up to `before`, which is 0
/// where there is none.
#[derive(Clone, Copy)]
pub struct Listing {
    pub row: usize,
    pub number: u64,
    pub before: u64,
}

/// The rows that are listed between two pushes, each once. Where a row has several of these listings, the oldest one counts: it alone
/// has nothing before it but what came up to the first of the two pushes.
#[derive(Clone, Copy)]
pub struct ListedBetween<'a> {
    pub listings: &'a [Listing],
    pub low: u64,
}

impl<'a> ListedBetween<'a> {
    /// No row.
    pub fn none() -> Self
        ensures { listed_left result ≡ [] }
    {
        ListedBetween {
            listings: &[],
            low: 0,
        }
    }

    /// Takes the next row, if one is left.
    pub fn next(&mut self) -> Option<usize>
        ensures { MatchOption result ((listed_left self.old ≡ []) × (listed_left self.new ≡ [])) (λ row. listed_left self.old ≡ row ∷ listed_left self.new) }
    {
        while let Some((listing, rest)) = self.listings.split_first() {
            self.listings = rest;
            if listing.before <= self.low {
                return Some(listing.row);
            }
        }
        None
    }
}
