//! Folders: which file each load gives, in memory and of the real disk, and what is read of a reader that gives few bytes at a time.
ghost use Rattle.std.specs.Prelude.{◌≡◌, ℕ, ◌≤◌, List, length, MatchResult, Some};
ghost use Rattle.dt_outside.specs.Faults.{Rose};
ghost use Rattle.dt_outside.specs.Folder.{Files};

use crate::devices::Narrow;
use dt_outside::{DiskFolder, Folder, LoadError, MemoryFolder, read_within};
use dt_test_texts::wrong;
use std::alloc::Global;
use std::mem::forget;
use std::test::Fail;
use std::{env, fs, rt};

/// What a caller of any folder relies on: a file that is known and short enough is given whole, unless the folder counts a fault
/// or memory runs out.
fn load_told<F: Folder>(
    files: &mut F,
    alloc: Global,
    name: &str,
    limit: u64,
) -> Result<Vec<u8>, LoadError>
    ensures { (told : Files) (content : List ℕ) →
        (F.seen files.old).told ≡ Some told → told name.now ≡ Some content → length content ≤ limit →
        ¬ Rose ((F.seen files.old).faults) ((F.seen files.new).faults) →
        MatchResult result (λ bytes. bytes.items ≡ content) (λ error. error ≡ LoadError.NoMemory) }
{
    files.load(alloc, name, limit)
}

/// A load: the name of the file, the limit, and what it gives.
type Load<'a> = (&'a str, u64, Result<&'a [u8], LoadError>);

fn is_same(loaded: &Result<Vec<u8>, LoadError>, want: Result<&[u8], LoadError>) -> bool {
    match (loaded, want) {
        (Ok(bytes), Ok(content)) => bytes.as_slice() == content,
        (Err(error), Err(cause)) => *error == cause,
        _ => false,
    }
}

/// Whether a load gives what it says.
fn gives<F: Folder>(alloc: Global, folder: &mut F, load: &Load) -> bool {
    let (name, limit, want) = *load;
    let loaded = load_told(folder, alloc, name, limit);
    is_same(&loaded, want)
}

/// Fails at the first load that gives something else.
fn check_loads<F: Folder>(alloc: Global, folder: &mut F, loads: &[Load]) -> Result<(), Fail> {
    for (row, load) in loads.iter().enumerate() {
        if !gives(alloc, folder, load) {
            return Err(wrong(row));
        }
    }
    Ok(())
}

const FILES: &[(&str, &[u8])] = &[("a", b"one"), ("b", b"two"), ("a", b"three")];

/// The third load fails, and the seventh.
const FAILING: &[u64] = &[3, 7];

const LOADS: &[Load<'static>] = &[
    ("a", 3, Ok(b"one")),
    ("b", 9, Ok(b"two")),
    ("a", 3, Err(LoadError::Failed)),
    ("c", 9, Err(LoadError::Failed)),
    ("a", 2, Err(LoadError::TooLong)),
    ("a", 3, Ok(b"one")),
    ("c", 0, Err(LoadError::Failed)),
    ("", 9, Err(LoadError::Failed)),
];

/// A file in memory.
fn file(alloc: Global, name: &str, content: &[u8]) -> Result<(String, Vec<u8>), Fail> {
    Ok((String::from_str(alloc, name)?, content.to_vec(alloc)?))
}

/// The files in memory.
fn files(alloc: Global) -> Result<Vec<(String, Vec<u8>)>, Fail> {
    let mut files = Vec::new(alloc);
    for (name, content) in FILES {
        files.push(file(alloc, *name, *content)?)?;
    }
    Ok(files)
}

#[test]
fn a_folder_in_memory_gives_the_first_file_of_a_name(rt: HostRuntime) -> Result<(), Fail> {
    let failing = FAILING.to_vec(rt.alloc())?;
    let mut folder = MemoryFolder::new(files(rt.alloc())?, failing);
    let checked = check_loads(rt.alloc(), &mut folder, LOADS);
    forget(folder);
    checked
}

/// So many bytes, of which 251 in a row differ.
fn counted(alloc: Global, n: u32) -> Result<Vec<u8>, Fail> {
    let mut bytes = Vec::new(alloc);
    for place in 0..n {
        bytes.push((place % 251) as u8)?;
    }
    Ok(bytes)
}

/// Writes a file to the disk, and loads it and what is no file.
fn check_disk<R: rt::Files>(rt: &R, alloc: Global, path: &str) -> Result<(), Fail> {
    let content = counted(alloc, 20_000)?;
    fs::write(rt, path, content.as_slice())?;
    let loads = [
        (path, 20_000, Ok(content.as_slice())),
        (path, 19_999, Err(LoadError::TooLong)),
        ("dt_outside_missing", 20_000, Err(LoadError::Failed)),
        (".", 20_000, Err(LoadError::Failed)),
    ];
    check_loads(alloc, &mut DiskFolder::new(rt), loads.as_slice())
}

#[test]
fn a_disk_gives_the_bytes_of_a_file(rt: HostRuntime) -> Result<(), Fail> {
    let path = env::temp_dir(&rt)?.join(rt.alloc(), "dt_outside_20000_bytes")?;
    check_disk(&rt, rt.alloc(), path.as_str())?;
    fs::remove_file(&rt, path.as_str())?;
    Ok(())
}

/// How many bytes a narrow device has, whether it fails behind them, the limit, and how many are read.
const READS: &[(usize, bool, u64, Result<usize, LoadError>)] = &[
    (0, false, 0, Ok(0)),
    (25, false, 25, Ok(25)),
    (25, false, u64::MAX, Ok(25)),
    (300, false, 299, Err(LoadError::TooLong)),
    (25, true, 100, Err(LoadError::Failed)),
];

/// How many bytes are read of a narrow device.
fn length(alloc: Global, device: Narrow, limit: u64) -> Result<usize, LoadError> {
    match read_within(alloc, device, limit) {
        Ok(bytes) => Ok(bytes.len()),
        Err(error) => Err(error),
    }
}

/// Fails at the first device of which something else is read.
fn check_reads(alloc: Global) -> Result<(), Fail> {
    for (row, (left, fails, limit, want)) in READS.iter().enumerate() {
        if length(alloc, Narrow::new(*left, *fails), *limit) != *want {
            return Err(wrong(row));
        }
    }
    Ok(())
}

#[test]
fn a_reader_is_read_to_its_end_ten_bytes_at_a_time(rt: HostRuntime) -> Result<(), Fail> {
    check_reads(rt.alloc())
}

/// What errors say.
const SAID: &[(LoadError, &str)] = &[
    (LoadError::Failed, "the file could not be read"),
    (LoadError::TooLong, "the file is too long"),
    (LoadError::NoMemory, "no memory"),
];

fn says(alloc: Global, error: LoadError, want: &str) -> Result<bool, Fail> {
    let said = format!(in alloc; "{error}")?;
    Ok(said.as_str() == want)
}

/// Fails at the first error that says something else.
fn check_said(alloc: Global) -> Result<(), Fail> {
    for (row, (error, want)) in SAID.iter().enumerate() {
        if !says(alloc, *error, *want)? {
            return Err(wrong(row));
        }
    }
    Ok(())
}

#[test]
fn errors_of_folders_say_what_happened(rt: HostRuntime) -> Result<(), Fail> {
    check_said(rt.alloc())
}
