ghost use Rattle.std.specs.Prelude.{◌≡◌};
ghost use Rattle.dt_gen.specs.Draws.{next_state, number_of_state};

/// Pseudo-random numbers of 15 bits, which are the same ones each time.
#[derive(Drop)]
pub(crate) struct Draws {
    pub(crate) state: u32,
}

impl Draws {
    /// Before the first draw.
    pub(crate) fn new() -> Self
        ensures { result.state ≡ 1 }
    {
        Draws { state: 1 }
    }

    /// Draws the next number.
    pub(crate) fn draw(&mut self) -> u32
        ensures state { self.new.state ≡ next_state self.old.state }
        ensures number { result ≡ number_of_state (next_state self.old.state) }
    {
        let state = u64::from(self.state) * 1_103_515_245 + 12_345;
        self.state = (state % 2_147_483_648) as u32;
        self.state / 65_536
    }
}
