ghost use Rattle.std.specs.Prelude.{◌≡◌, ◌<◌, ◌≤◌, length, take, IfOk, OnErr};
ghost use Rattle.dt_outside.specs.Faults.{Rose};
ghost use Rattle.dt_outside.specs.Sink.{Adds, SinkView, Writes};

use crate::failures::Failed;

/// A place that takes bytes, one piece after another.
///
/// A sink may show the bytes that it holds. Whether it shows or not, it counts its faults. The count
/// never falls, and ends at `u64::MAX`.
pub trait Sink {
    // What is seen of it.
    ghost seen: { Self → SinkView };

    /// Adds the first bytes of `piece` and gives their number, at least 1 where there is one.
    ///
    /// `Failed` where the device failed or took nothing: a fault, it was counted, and nothing was
    /// added.
    fn write(&mut self, piece: &[u8]) -> Result<usize, Failed>
        ensures within { IfOk result (λ n. n ≤ length piece.now) }
        ensures progress { IfOk result (λ n. 0 < length piece.now → 0 < n) }
        ensures added { IfOk result (λ n. Adds (seen self.old).held (seen self.new).held (take n piece.now)) }
        ensures failed { OnErr result (Rose (seen self.old).faults (seen self.new).faults) }
        ensures same { OnErr result ((seen self.new).held ≡ (seen self.old).held) }
        ensures later { (seen self.old).faults ≤ (seen self.new).faults };
}

/// Adds the whole piece. Each turn adds at least one byte.
///
/// `Failed` where the sink failed, which was counted; then some first bytes of the piece were added,
/// and no others.
pub fn write_all<O: Sink>(out: &mut O, piece: &[u8]) -> Result<(), Failed>
    ensures { Writes (O.seen out.old) (O.seen out.new) piece.now result }
{
    let mut written = 0;
    while written < piece.len() {
        written += out.write(&piece[written..])?;
    }
    Ok(())
}
