ghost use Rattle.std.specs.Prelude.{◌≡◌, ◌+◌, ◌<◌, ◌^◌, length, replicate, IfOk, None};
ghost use Rattle.dt_world.specs.SessionReplayInner.{after_reply, after_submission, count_at, wait_at};

use dt_access::TxnId;
use dt_text::NoMemory;
use std::alloc::Global;
use std::marker::Model;

/// What each session waits for and how much each region has submitted, after some of the events.
#[derive(Drop)]
pub struct SessionReplay {
    waits: Vec<Option<TxnId>>,
    submitted: Vec<u32>,
}

impl Model for SessionReplay {
    ghost use Rattle.dt_world.specs.SessionReplayInner.{SessionReplayView};

    ghost Value = { SessionReplayView };

    ghost view = { λ c. record { waits = c.waits.items; submitted = c.submitted.items } };
}

impl SessionReplay {
    /// n sessions that wait for nothing, and m regions that have submitted nothing.
    pub fn new(alloc: Global, sessions: usize, regions: u8) -> Result<Self, NoMemory>
        ensures { IfOk result (λ replay. replay ≡ record { waits = replicate sessions None; submitted = replicate regions 0 }) }
    {
        let mut waits = Vec::new(alloc);
        for _session in 0..sessions {
            waits.push(None)?;
        }
        let mut submitted = Vec::new(alloc);
        for _region in 0..regions {
            submitted.push(0)?;
        }
        Ok(SessionReplay { waits, submitted })
    }

    /// A region submits the attempt of the session at a place.
    pub fn submit(&mut self, place: usize, region: u8)
        requires place { place < length self.old.waits }
        requires region { region < length self.old.submitted }
        requires few { count_at self.old region + 1 < 2 ^ 32 }
        ensures { self.new ≡ after_submission self.old place region }
    {
        let seq = self.submitted[region as usize] + 1;
        self.submitted[region as usize] = seq;
        self.waits[place] = Some(TxnId { seq, region });
    }

    /// What the session at a place waits for.
    pub fn waits(&self, place: usize) -> Option<TxnId>
        requires { place < length self.now.waits }
        ensures { result ≡ wait_at self.now place }
    {
        self.waits[place]
    }

    /// The session at a place is answered.
    pub fn answer(&mut self, place: usize)
        requires { place < length self.old.waits }
        ensures { self.new ≡ after_reply self.old place }
    {
        self.waits[place] = None;
    }
}
