ghost use Rattle.std.specs.Prelude.{◌≡◌, ◌≢◌, ◌<◌, ◌≤◌, None, length, IfOk, IfSome};
ghost use Rattle.dt_outside.specs.Faults.{next_count, Rose};

use crate::failures::LoadError;
use crate::folders::Folder;
use std::alloc::Global;
use std::fs::File;
use std::io::Read;
use std::marker::Model;
use std::rt::Files;

/// The files of the real disk, by their paths. It shows no content.
#[derive(Drop)]
pub struct DiskFolder<'a, R> {
    rt: &'a R,
    faults: u64,
    missed: Option<String>,
}

impl<'a, R> Model for DiskFolder<'a, R> {
    ghost use Rattle.dt_outside.specs.Folder.{DiskFolderView, stored_name};

    ghost Value = { DiskFolderView };

    ghost view = { λ disk. record { faults = disk.faults; missed = stored_name disk.missed } };
}

impl<'a, R: Files> DiskFolder<'a, R> {
    /// The disk of this runtime, with no fault so far. Takes no memory.
    pub fn new(rt: &'a R) -> Self
        ensures { result ≡ record { faults = 0; missed = None } }
    {
        DiskFolder {
            rt,
            faults: 0,
            missed: None,
        }
    }
}

impl<R: Files> Folder for DiskFolder<'_, R> {
    ghost seen = { λ disk. record { told = None; faults = disk.faults; missed = disk.missed } };

    /// Reads the file to its end. Each `Failed` is one fault, and nothing else is. The name of a load
    /// that failed is kept, if there is memory for it.
    fn load(&mut self, alloc: Global, name: &str, limit: u64) -> Result<Vec<u8>, LoadError>
        ensures capped { IfOk result (λ bytes. length bytes.items ≤ limit) }
        ensures counted { result ≡ Err LoadError.Failed → self.new.faults ≡ next_count self.old.faults }
        ensures failed { result ≡ Err LoadError.Failed → Rose self.old.faults self.new.faults }
        ensures missed { result ≡ Err LoadError.Failed → IfSome self.new.missed (λ missed. missed ≡ name.now) }
        ensures same_missed { result ≢ Err LoadError.Failed → self.new.missed ≡ self.old.missed }
        ensures same_count { result ≡ Err LoadError.NoMemory → self.new.faults ≡ self.old.faults }
        ensures else_same { result ≢ Err LoadError.Failed → self.new ≡ self.old }
        ensures later { self.old.faults ≤ self.new.faults }
    {
        let result = read_file(self.rt, alloc, name, limit);
        if let Err(LoadError::Failed) = result {
            self.faults = self.faults.saturating_add(1);
            self.missed = String::from_str(alloc, name).ok();
        }
        result
    }
}

/// The bytes of a file, where there are at most `limit`.
fn read_file<R: Files>(rt: &R, alloc: Global, name: &str, limit: u64) -> Result<Vec<u8>, LoadError>
    ensures capped { IfOk result (λ bytes. length bytes.items ≤ limit) }
{
    read_within(alloc, File::open(rt, name)?, limit)
}

/// All bytes that the reader gives, where there are at most `limit`, however few it gives at a time. A
/// read that was interrupted is made again.
pub fn read_within<R: Read + Drop>(
    alloc: Global,
    reader: R,
    limit: u64,
) -> Result<Vec<u8>, LoadError>
    ensures capped { IfOk result (λ bytes. length bytes.items ≤ limit) }
    ensures whole { IfSome (R.remaining reader) (λ all. IfOk result (λ bytes. bytes.items ≡ all)) }
    ensures long { IfSome (R.remaining reader) (λ all. result ≡ Err LoadError.TooLong → limit < length all) }
{
    let mut bytes = Vec::new(alloc);
    reader
        .take(limit.saturating_add(1))
        .read_to_end(&mut bytes)?;
    if bytes.len() as u64 > limit {
        return Err(LoadError::TooLong);
    }
    Ok(bytes)
}
