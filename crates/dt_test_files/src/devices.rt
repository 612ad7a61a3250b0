//! A device that moves few bytes at a time, is interrupted, and ends.
ghost use Rattle.std.specs.Prelude.{◌≤◌, IfOk};

use std::io;
use std::io::{Read, Write};

/// It gives or takes at most ten bytes at a time, every third call is interrupted, and after `left` bytes in all there is nothing
/// more, or a failure.
#[derive(Drop)]
pub struct Narrow {
    left: usize,
    fails: bool,
    calls: usize,
}

impl Narrow {
    pub fn new(left: usize, fails: bool) -> Self {
        Narrow {
            left,
            fails,
            calls: 0,
        }
    }

    /// How many bytes this call moves, of `wanted`.
    fn moved(&mut self, wanted: usize) -> io::Result<usize>
        ensures { IfOk result (λ n. n ≤ wanted) }
    {
        self.calls = self.calls.saturating_add(1);
        if self.calls % 3 == 1 {
            return Err(io::Error::from(io::ErrorKind::Interrupted));
        }
        if self.left == 0 && self.fails {
            return Err(io::Error::from(io::ErrorKind::BrokenPipe));
        }
        let moved = wanted.min(self.left).min(10);
        self.left -= moved;
        Ok(moved)
    }
}

impl Read for Narrow {
    fn read(&mut self, buf: &mut [u8]) -> io::Result<usize> {
        self.moved(buf.len())
    }
}

impl Write for Narrow {
    fn write(&mut self, buf: &[u8]) -> io::Result<usize> {
        self.moved(buf.len())
    }

    fn flush(&mut self) -> io::Result<()> {
        Ok(())
    }
}
