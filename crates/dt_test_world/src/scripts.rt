//! Cases that stand in texts: a cluster, its sessions, their events, and what is to come of them.
use crate::worlds::{Asked, told};
use dt_text::put_u64;
use std::alloc::Global;
use std::test::Fail;

/// A text, line by line.
#[derive(Drop)]
pub struct File {
    alloc: Global,
    bytes: Vec<u8>,
}

impl File {
    pub fn new(alloc: Global) -> Self {
        File {
            alloc,
            bytes: Vec::new(alloc),
        }
    }

    /// Adds a line, in which each `#` stands for the next of these numbers.
    pub fn add(&mut self, line: &str, numbers: &[u32]) -> Result<(), Fail> {
        self.fill(line.as_bytes(), "", numbers)
    }

    /// Adds a line, in which each `$` stands for this name, and each `#` for the next of these numbers.
    pub fn add_named(&mut self, line: &str, name: &str, numbers: &[u32]) -> Result<(), Fail> {
        self.fill(line.as_bytes(), name, numbers)
    }

    /// Adds these lines.
    pub fn add_all(&mut self, lines: &[&str]) -> Result<(), Fail> {
        for line in lines {
            self.add(line, &[])?;
        }
        Ok(())
    }

    /// Adds these lines, in which each `$` stands for this name.
    pub fn add_all_named(&mut self, lines: &[&str], name: &str) -> Result<(), Fail> {
        for line in lines {
            self.add_named(line, name, &[])?;
        }
        Ok(())
    }

    /// Adds what another text holds.
    pub fn extend(&mut self, other: &File) -> Result<(), Fail> {
        self.bytes.extend_from_slice(other.bytes.as_slice())?;
        Ok(())
    }

    /// A copy of its bytes.
    pub fn bytes(&self) -> Result<Vec<u8>, Fail> {
        Ok(self.bytes.as_slice().to_vec(self.alloc)?)
    }

    fn fill(&mut self, line: &[u8], name: &str, numbers: &[u32]) -> Result<(), Fail> {
        let mut place: usize = 0;
        for byte in line {
            match *byte {
                b'#' => {
                    if let Some(number) = numbers.get(place) {
                        put_u64(self.alloc, &mut self.bytes, u64::from(*number))?;
                    }
                    place = place.saturating_add(1);
                }
                b'$' => self.bytes.extend_from_slice(name.as_bytes())?,
                other => self.bytes.push(other)?,
            }
        }
        self.bytes.push(b'\n')?;
        Ok(())
    }
}

/// Events as they are tried, and what is to come of them.
#[derive(Drop)]
pub struct Script {
    /// All events.
    tried: File,
    /// The legal ones.
    made: File,
    /// The line and the rule of each of the others.
    refused: File,
    lines: u32,
}

impl Script {
    pub fn new(alloc: Global) -> Self {
        Script {
            tried: File::new(alloc),
            made: File::new(alloc),
            refused: File::new(alloc),
            lines: 0,
        }
    }

    /// Adds an event, in which each `#` stands for the next of these numbers. Behind a `!` stands the rule by which it is refused.
    pub fn add(&mut self, line: &str, numbers: &[u32]) -> Result<(), Fail> {
        self.add_named(line, "", numbers)
    }

    /// Adds these events.
    pub fn add_all(&mut self, lines: &[&str]) -> Result<(), Fail> {
        for line in lines {
            self.add(line, &[])?;
        }
        Ok(())
    }

    /// Adds an event, in which also each `$` stands for this name.
    pub fn add_named(&mut self, line: &str, name: &str, numbers: &[u32]) -> Result<(), Fail> {
        let event = event_of(line);
        self.lines = self.lines.saturating_add(1);
        self.tried.fill(event, name, numbers)?;
        match rule_of(line) {
            Some(rule) => self.refused.add("line #: rule #", &[self.lines, rule]),
            None => self.made.fill(event, name, numbers),
        }
    }
}

/// What stands in a line before a `!`.
fn event_of(line: &str) -> &[u8] {
    let bytes = line.as_bytes();
    match bytes.iter().position(|byte| *byte == b'!') {
        Some(place) => &bytes[..place],
        None => bytes,
    }
}

/// The rule that stands in a line behind a `!`.
fn rule_of(line: &str) -> Option<u32> {
    let bytes = line.as_bytes();
    let place = bytes.iter().position(|byte| *byte == b'!')?;
    let digit = bytes.get(place + 1)?;
    Some(u32::from(digit.saturating_sub(b'0')))
}

/// A cluster, its sessions, their events, and the report that is to come of those that are legal, up to its events.
#[derive(Drop)]
pub struct Play {
    pub cluster: File,
    pub workload: File,
    pub events: Script,
    pub report: File,
    /// The report from its order on, where that is made apart.
    pub order: File,
}

impl Play {
    pub fn new(alloc: Global) -> Self {
        Play {
            cluster: File::new(alloc),
            workload: File::new(alloc),
            events: Script::new(alloc),
            report: File::new(alloc),
            order: File::new(alloc),
        }
    }

    /// Whether what comes of it, its report too, is what is to come of it.
    pub fn comes_as_wanted(&self, alloc: Global) -> Result<bool, Fail> {
        Ok(self.told(alloc, Asked::Report)? == self.wanted(alloc)?)
    }

    /// What is to come of it: the line and the rule of each event that is refused, and the report of the others.
    fn wanted(&self, alloc: Global) -> Result<Vec<u8>, Fail> {
        let mut want = File::new(alloc);
        self.put_wanted(&mut want)?;
        want.bytes()
    }

    fn put_wanted(&self, want: &mut File) -> Result<(), Fail> {
        want.extend(&self.events.refused)?;
        want.extend(&self.report)?;
        want.extend(&self.order)?;
        want.add("events", &[])?;
        want.extend(&self.events.made)
    }

    /// What comes of it.
    pub fn told(&self, alloc: Global, asked: Asked) -> Result<Vec<u8>, Fail> {
        told(
            alloc,
            self.cluster.bytes.as_slice(),
            self.workload.bytes.as_slice(),
            self.events.tried.bytes.as_slice(),
            asked,
        )
    }
}
