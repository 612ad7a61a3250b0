ghost use Rattle.std.specs.Prelude.{◌≡◌, ◌<◌, ◌≤◌, None, length, IfOk, OnOk, OnErr};
ghost use Rattle.std.specs.Io.{WritesAtMost};
ghost use Rattle.std.specs.Io.KnownBytes.{WriteAppends};
ghost use Rattle.dt_outside.specs.Faults.{next_count};

use crate::failures::Failed;
use crate::sinks::Sink;
use std::io;
use std::io::{ErrorKind, Write};
use std::marker::Model;

/// A real stream. It shows no content.
#[derive(Drop)]
pub struct StdSink<W: Write> {
    writer: W,
    faults: u64,
}

impl<W: Write> Model for StdSink<W> {
    ghost use Rattle.dt_outside.specs.Sink.{StdSinkView};

    ghost Value = { StdSinkView };

    ghost view = { λ sink. record { taken = W.contents sink.writer; faults = sink.faults } };
}

impl<W: Write + Drop> StdSink<W> {
    /// A sink that hands its bytes to `writer`, with no fault so far. Takes no memory.
    pub fn new(writer: W) -> Self
        ensures { result ≡ record { taken = W.contents writer; faults = 0 } }
    {
        StdSink { writer, faults: 0 }
    }
}

impl<W: Write + Drop> Sink for StdSink<W> {
    ghost seen = { λ sink. record { held = None; faults = sink.faults } };

    /// One write, made again where it was interrupted. Each `Failed` is one fault, and nothing else is:
    /// the writer failed, or took nothing of a piece that isn't empty. The writer took as many bytes as
    /// are answered, and none at a fault.
    fn write(&mut self, piece: &[u8]) -> Result<usize, Failed>
        ensures within { IfOk result (λ n. n ≤ length piece.now) }
        ensures progress { IfOk result (λ n. 0 < length piece.now → 0 < n) }
        ensures taken { WriteAppends self.old.taken self.new.taken result piece.now }
        ensures ok { OnOk result (self.new.faults ≡ self.old.faults) }
        ensures failed { OnErr result (self.new.faults ≡ next_count self.old.faults) }
        ensures later { self.old.faults ≤ self.new.faults }
    {
        match write_retrying(&mut self.writer, piece) {
            Ok(taken) if taken > 0 || piece.is_empty() => Ok(taken),
            _ => {
                self.faults = self.faults.saturating_add(1);
                Err(Failed)
            }
        }
    }
}

/// One write, made again where it was interrupted.
fn write_retrying<W: Write>(writer: &mut W, piece: &[u8]) -> io::Result<usize>
    ensures within { WritesAtMost result piece.now }
    ensures taken { WriteAppends (W.contents writer.old) (W.contents writer.new) result piece.now }
{
    for _ in 0..u64::MAX {
        match writer.write(piece) {
            Err(error) if error.kind() == ErrorKind::Interrupted => {}
            answer => return answer,
        }
    }
    Err(io::Error::from(ErrorKind::Interrupted))
}
