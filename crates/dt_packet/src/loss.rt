ghost use Rattle.std.specs.Prelude.{◌↔◌, IsTrue};
ghost use Rattle.dt_packet.specs.Loss.{IsEvery, IsVerdict};

/// Which packets of a link are lost, and which come twice.
#[derive(Clone, Copy, Debug, PartialEq, Eq)]
pub struct LossPlan {
    /// Of every n packets the last one is lost; none is where this is 0.
    pub drop: u32,
    /// Of every n packets the last one comes twice, unless it is lost; none does where this is 0.
    pub repeat: u32,
}

/// What becomes of a packet.
#[derive(Clone, Copy, Debug, PartialEq, Eq)]
pub enum Verdict {
    /// It is put once.
    Pass,
    /// It is not put.
    Lost,
    /// It is put twice, one right after the other.
    Twice,
}

impl LossPlan {
    /// What becomes of the packet of this number; the packets of a link are numbered from 1. Takes no memory.
    pub fn verdict(&self, number: u64) -> Verdict
        ensures { IsVerdict self.now number result }
    {
        if is_every(self.drop, number) {
            Verdict::Lost
        } else if is_every(self.repeat, number) {
            Verdict::Twice
        } else {
            Verdict::Pass
        }
    }
}

/// Whether this is the last of n numbers, counted from 1 on.
fn is_every(step: u32, number: u64) -> bool
    ensures { IsTrue result ↔ IsEvery step number }
{
    step > 0 && number % u64::from(step) == 0
}
