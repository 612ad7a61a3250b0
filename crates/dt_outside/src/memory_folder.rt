ghost use Rattle.std.specs.Prelude.{◌≡◌, ◌≢◌, ◌<◌, ◌≤◌, ◌↔◌, map, length, IfOk, IfSome, None, Some, IsTrue, false, if◌then◌else◌, string_bytes, nat_eq, find};
ghost use Rattle.std.specs.Option.{option_map, option_copied};
ghost use Rattle.std.specs.Cmp.Lexicographic.{pointwise};
ghost use Rattle.dt_outside.specs.Faults.{next_count};
ghost use Rattle.dt_outside.specs.Folder.{IsAboveLimit, file_in, fails_next, stored_file};

use crate::failures::LoadError;
use crate::folders::Folder;
use std::alloc::Global;
use std::marker::Model;

/// A folder in memory. It reports which files it has, and fails at the loads whose numbers it was made with.
#[derive(Drop)]
pub struct MemoryFolder {
    files: Vec<(String, Vec<u8>)>,
    failing: Vec<u64>,
    loads: u64,
    faults: u64,
    missed: Option<String>,
}

impl Model for MemoryFolder {
    ghost use Rattle.std.specs.Prelude.{map};
    ghost use Rattle.dt_outside.specs.Folder.{MemoryFolderView, stored_file, stored_name};

    ghost Value = { MemoryFolderView };

    ghost view = { λ f. record {
      files = map stored_file f.files.items;
      failing = f.failing.items;
      loads = f.loads;
      faults = f.faults;
      missed = stored_name f.missed;
    } };
}

impl MemoryFolder {
    /// A folder of these files, each a name and its bytes; of two files of one name the first
    /// counts. The loads whose numbers, from 1, are in `failing` fail. Takes no memory.
    pub fn new(files: Vec<(String, Vec<u8>)>, failing: Vec<u64>) -> Self
        ensures { result ≡ record { files = map stored_file files.items; failing = failing.items; loads = 0; faults = 0; missed = None } }
    {
        MemoryFolder {
            files,
            failing,
            loads: 0,
            faults: 0,
            missed: None,
        }
    }

    /// What the next load answers.
    fn next_answer(&self, alloc: Global, name: &str, limit: u64) -> Result<Vec<u8>, LoadError>
        ensures failed { (result ≡ Err LoadError.Failed) ↔ IsTrue (fails_next self.now name.now) }
        ensures whole { IfOk result (λ bytes. file_in self.now.files name.now ≡ Some bytes.items) }
        ensures capped { IfOk result (λ bytes. length bytes.items ≤ limit) }
        ensures long { (result ≡ Err LoadError.TooLong) ↔
            ((fails_next self.now name.now ≡ false) × IsAboveLimit (file_in self.now.files) name.now limit) }
    {
        let number = self.loads.saturating_add(1);
        let is_failing = self.failing.contains(&number);
        match content_of(&self.files, name) {
            Some(content) if !is_failing => copy_within(alloc, content, limit),
            _ => Err(LoadError::Failed),
        }
    }
}

/// The content of the first file of this name.
#[tactic(auto, using(crate::proofs::FilesByName::finding))]
fn content_of<'a>(files: &'a [(String, Vec<u8>)], name: &str) -> Option<&'a Vec<u8>>
    ensures { option_map (λ bytes. bytes.items) (option_copied result) ≡ file_in (map stored_file files.now) name.now }
{
    let (_, content) = entry_of(files, name)?;
    Some(content)
}

/// The first file of this name.
fn entry_of<'a>(files: &'a [(String, Vec<u8>)], name: &str) -> Option<&'a (String, Vec<u8>)>
    ensures { option_copied result ≡ find (λ file. pointwise nat_eq (string_bytes file.0) name.now) files.now }
{
    files.iter().find(|file| file.0.as_str() == name)
}

/// A copy of the bytes, where there are at most `limit`.
fn copy_within(alloc: Global, bytes: &[u8], limit: u64) -> Result<Vec<u8>, LoadError>
    ensures copy { IfOk result (λ copy. copy.items ≡ bytes.now) }
    ensures capped { IfOk result (λ copy. length copy.items ≤ limit) }
    ensures not_failed { result ≢ Err LoadError.Failed }
    ensures long { (result ≡ Err LoadError.TooLong) ↔ (limit < length bytes.now) }
{
    if bytes.len() as u64 > limit {
        return Err(LoadError::TooLong);
    }
    Ok(Vec::from_slice(alloc, bytes)?)
}

impl Folder for MemoryFolder {
    ghost seen = { λ folder. record {
      told = Some (file_in folder.files);
      faults = folder.faults;
      missed = folder.missed;
    } };

    /// Fails exactly where the number of this load is one that fails, or no file has the name. Each
    /// load is counted, and each failure as a fault; both counts end at `u64::MAX`. The name of a load
    /// that failed is kept, if there is memory for it. After `NoMemory` the folder is as before.
    fn load(&mut self, alloc: Global, name: &str, limit: u64) -> Result<Vec<u8>, LoadError>
        // The answer.
        ensures failed { (result ≡ Err LoadError.Failed) ↔ IsTrue (fails_next self.old name.now) }
        ensures whole { IfOk result (λ bytes. file_in self.old.files name.now ≡ Some bytes.items) }
        ensures capped { IfOk result (λ bytes. length bytes.items ≤ limit) }
        ensures long { (result ≡ Err LoadError.TooLong) ↔
            ((fails_next self.old name.now ≡ false) × IsAboveLimit (file_in self.old.files) name.now limit) }

        // The folder after it.
        ensures counted { result ≢ Err LoadError.NoMemory → self.new ≡ record self.old {
          loads = next_count self.old.loads;
          faults = if fails_next self.old name.now then next_count self.old.faults else self.old.faults;
          missed = self.new.missed;
        } }
        ensures missed { result ≡ Err LoadError.Failed → IfSome self.new.missed (λ missed. missed ≡ name.now) }
        ensures same_missed { result ≢ Err LoadError.Failed → self.new.missed ≡ self.old.missed }
        ensures same { result ≡ Err LoadError.NoMemory → self.new ≡ self.old }
        ensures later { self.old.faults ≤ self.new.faults }
    {
        let answer = self.next_answer(alloc, name, limit);
        if let Err(LoadError::NoMemory) = answer {
            return answer;
        }
        self.loads = self.loads.saturating_add(1);
        if let Err(LoadError::Failed) = answer {
            self.faults = self.faults.saturating_add(1);
            self.missed = String::from_str(alloc, name).ok();
        }
        answer
    }
}
