//! Cluster files: the cluster that each is, or its first fault.
use crate::pieces::put_numbers;
use dt_cluster::{Cluster, builtin};
use dt_cluster_file::{ClusterCause, ClusterError, ClusterPlace, Label, read_cluster};
use dt_test_texts::{put_all, put_number, wrong};
use dt_text::{Key, NoMemory, Value, put_value};
use std::alloc::Global;
use std::mem::forget;
use std::test::Fail;

/// More bytes than a test reads.
const MANY: usize = 100000;

/// A place in words.
fn place_text(alloc: Global, place: &ClusterPlace) -> Result<String, Fail> {
    let (kind, label) = match place {
        ClusterPlace::Whole => return Ok(format!(in alloc; "whole")?),
        ClusterPlace::Procs(byte) => return Ok(format!(in alloc; "procs {byte}")?),
        ClusterPlace::Entry(label) => ("entry", label),
        ClusterPlace::Home(label) => ("home", label),
        ClusterPlace::Row(label) => ("row", label),
    };
    label_text(alloc, kind, label)
}

/// A kind of place and the name of an entry there.
fn label_text(alloc: Global, kind: &str, label: &Label) -> Result<String, Fail> {
    let name = std::str::from_utf8(label.bytes()).unwrap_or("no text");
    Ok(format!(in alloc; "{kind} {name}")?)
}

/// A fault in words.
fn fault_text(alloc: Global, place: &ClusterPlace, cause: ClusterCause) -> Result<Vec<u8>, Fail> {
    let place = place_text(alloc, place)?;
    let text = format!(in alloc; "{place} {cause:?}")?;
    Ok(text.as_bytes().to_vec(alloc)?)
}

/// Keys, each with its home.
fn put_homes(alloc: Global, out: &mut Vec<u8>, homes: &[(Key, u8)]) -> Result<(), NoMemory> {
    for (key, home) in homes {
        put_all(out, &[b" ", key.bytes()])?;
        put_number(alloc, out, b"@", u64::from(*home))?;
    }
    Ok(())
}

/// A row as its key, `=` and its value.
pub fn put_row(alloc: Global, out: &mut Vec<u8>, row: &(Key, Value)) -> Result<(), NoMemory> {
    put_all(out, &[row.0.bytes(), b"="])?;
    put_value(alloc, out, &row.1)
}

/// Rows, each behind a space.
fn put_rows(alloc: Global, out: &mut Vec<u8>, rows: &[(Key, Value)]) -> Result<(), NoMemory> {
    for row in rows {
        out.push(b' ')?;
        put_row(alloc, out, row)?;
    }
    Ok(())
}

/// A cluster in words: `v2` where its version is 2, its numbers and how many procedures it has, each key with its home, and each with its value.
fn put_cluster(alloc: Global, out: &mut Vec<u8>, cluster: &Cluster) -> Result<(), NoMemory> {
    if cluster.version == 2 {
        out.extend_from_slice(b"v2 ")?;
    }
    put_number(alloc, out, b"", u64::from(cluster.regions))?;
    let numbers = [
        cluster.workers,
        cluster.tries,
        cluster.drop,
        cluster.repeat,
        cluster.procs.len(),
    ];
    put_numbers(alloc, out, &numbers)?;
    put_homes(alloc, out, cluster.homes.as_slice())?;
    put_rows(alloc, out, cluster.rows.as_slice())
}

/// A cluster in words.
fn words_of(alloc: Global, cluster: &Cluster) -> Result<Vec<u8>, Fail> {
    let mut out = Vec::new(alloc);
    put_cluster(alloc, &mut out, cluster)?;
    Ok(out)
}

/// A copy of a cluster, in words. It is left to the end of the process: that it may be dropped would be proved here.
fn words_of_copy(alloc: Global, cluster: &Cluster) -> Result<Vec<u8>, Fail> {
    let copy = cluster.copy(alloc)?;
    let words = words_of(alloc, &copy);
    forget(copy);
    words
}

/// A copy of the cluster of a file, in words, or its first fault.
fn told(alloc: Global, file: &[u8]) -> Result<Vec<u8>, Fail> {
    if file.len() > MANY {
        return Err(Fail::from("a test reads few bytes"));
    }
    match read_cluster(alloc, file) {
        Ok(cluster) => {
            let told = words_of_copy(alloc, &cluster);
            forget(cluster);
            told
        }
        Err(ClusterError::Fault(fault)) => fault_text(alloc, &fault.place, fault.cause),
        Err(ClusterError::NoMemory) => Err(Fail::from(NoMemory)),
    }
}

/// Files, each with what is reported of it.
const FILES: &[(&[u8], &str)] = &[
    (b"regions =", "whole NotToml"),
    (b"regions = 1\nregions = 2", "whole NotToml"),
    (b"regions = 1 # \xff", "whole NotToml"),
    (b"", "entry regions Missing"),
    (b"workers = 0", "entry regions Missing"),
    (b"regions = 9", "entry regions Range"),
    (b"regions = 0", "entry regions Range"),
    (b"regions = -1", "entry regions Range"),
    (b"regions = 4294967297", "entry regions Range"),
    (b"regions = \"1\"", "entry regions Kind"),
    (b"regions = 1.0", "entry regions Kind"),
    (b"[regions]", "entry regions Kind"),
    (b"regions = 8", "8 4 3 0 0 8"),
    (b"regions = 8\nversion = 1", "8 4 3 0 0 8"),
    (b"regions = 8\nversion = 2", "v2 8 4 3 0 0 8"),
    (b"regions = 8\nversion = 3", "entry version Range"),
    (b"regions = 8\nversion = 0", "entry version Range"),
    (b"regions = 8\nversion = \"2\"", "entry version Kind"),
    (b"version = 3\nregions = 9", "entry regions Range"),
    (
        b"workers = 0\nversion = 3\nregions = 1",
        "entry version Range",
    ),
    (b"regions = 2\n[homes]\n\"b/1\" = 0", "2 4 3 0 0 8 b/1@0"),
    (
        b"regions = 2\nversion = 2\n[homes]\n\"b/1\" = 0",
        "home b/1 BadKey",
    ),
    (
        b"regions = 2\nversion = 2\n[homes]\n\"/x/y\" = \"0\"",
        "home /x/y BadKey",
    ),
    (
        b"regions = 2\nversion = 2\n[homes]\nb = 0\n\"/x\" = 1",
        "v2 2 4 3 0 0 8 /x@1 b@0",
    ),
    (
        b"regions = 2\nversion = 2\n[homes]\nb = 0\n[rows]\n\"b/1\" = 7",
        "v2 2 4 3 0 0 8 b@0 b/1=7",
    ),
    (b"zz = 1\nabc = 2", "entry abc Unknown"),
    (b"regions = 9\n\"\" = 1\nabc = 1", "entry  Unknown"),
    (b"regions = 1\nRegions = 1", "entry Regions Unknown"),
    (
        b"regions = 1\nregion = 1\nregionss = 1",
        "entry region Unknown",
    ),
    (b"regions = 1\nworkers = 0", "entry workers Range"),
    (b"regions = 1\nworkers = 17", "entry workers Range"),
    (b"regions = 1\nworkers = 16", "1 16 3 0 0 8"),
    (b"regions = 1\nworkers = true", "entry workers Kind"),
    (b"regions = 1\ntries = 0", "entry tries Range"),
    (b"regions = 1\ntries = 9", "entry tries Range"),
    (b"regions = 1\ntries = []", "entry tries Kind"),
    (b"regions = 1\ndrop = 1", "entry drop Range"),
    (b"regions = 1\ndrop = -1", "entry drop Range"),
    (b"regions = 1\ndrop = 1001", "entry drop Range"),
    (b"regions = 1\ndrop = 0", "1 4 3 0 0 8"),
    (b"regions = 1\ndrop = 2", "1 4 3 2 0 8"),
    (b"regions = 1\ndrop = 1000", "1 4 3 1000 0 8"),
    (b"regions = 1\ndrop = 2020-01-01", "entry drop Kind"),
    (b"regions = 1\nrepeat = 1001", "entry repeat Range"),
    (b"regions = 1\nrepeat = 1", "1 4 3 0 1 8"),
    (b"regions = 1\nrepeat = {}", "entry repeat Kind"),
    (
        b"repeat = 1001\ndrop = 1\ntries = 0\nworkers = \"\"\nregions = 1",
        "entry workers Kind",
    ),
    (
        b"repeat = 1001\ndrop = 1\ntries = 0\nregions = 1",
        "entry tries Range",
    ),
    (
        b"repeat = 1001\ndrop = 1\nprocs = 1\nregions = 1",
        "entry drop Range",
    ),
    (
        b"repeat = 1001\nprocs = 1\nregions = 1",
        "entry repeat Range",
    ),
    (b"regions = 1\nprocs = 1\nhomes = 1", "entry procs Kind"),
    (b"regions = 1\nprocs = \"\"\nhomes = 1", "entry homes Kind"),
    (b"regions = 1\nhomes = 1\nrows = 1", "entry homes Kind"),
    (b"regions = 1\nrows = [1]", "entry rows Kind"),
    (b"regions = 1\n[homes]\n\"a b\" = 0", "home a b BadKey"),
    (b"regions = 1\n[homes]\nA = \"x\"", "home A BadKey"),
    (b"regions = 1\n[homes]\n\"\" = 0", "home  BadKey"),
    (b"regions = 2\n[homes]\na = 2", "home a Range"),
    (b"regions = 2\n[homes]\na = 1", "2 4 3 0 0 8 a@1"),
    (b"regions = 2\n[homes]\na = -1", "home a Range"),
    (b"regions = 2\n[homes]\na = 256", "home a Range"),
    (b"regions = 2\n[homes]\na = \"0\"", "home a Kind"),
    (
        b"regions = 2\n[homes]\nb = 9\na = \"0\"\n\"a b\" = 1",
        "home a Kind",
    ),
    (
        b"regions = 2\n[homes]\nz = 9\na = 0\nb = 1\n[rows]\nA = 1",
        "home z Range",
    ),
    (b"regions = 1\n[rows]\nA = 1.5", "row A BadKey"),
    (b"regions = 1\n[rows]\na = 1.5", "row a Kind"),
    (b"regions = 1\n[rows]\na.b = 1", "row a Kind"),
    (b"regions = 1\n[rows]\n\"a.b\" = 1", "1 4 3 0 0 8 a.b=1"),
    (b"regions = 1\n[rows]\na = \"\\t\"", "row a BadText"),
    (b"regions = 1\n[rows]\na = \"\xc3\xa9\"", "row a BadText"),
    (
        b"regions = 1\n[rows]\nb = 1.5\na = \"~ \"\n\"a-\" = \"\\n\"",
        "row a- BadText",
    ),
    (b"\xef\xbb\xbfregions = 1", "1 4 3 0 0 8"),
    (b"regions = 1\nrows.a = 1\n[rows]\nb = 1", "whole NotToml"),
    (b"regions = 9223372036854775808", "whole NotToml"),
    (b"regions = 1\nprocs = '''\r\n'''", "1 4 3 0 0 0"),
    (b"regions = 1\r\n", "1 4 3 0 0 8"),
    (
        b"regions = 1\nprocs = \"proc f(k: text) read a = j; { }\"",
        "procs 25 UnknownName",
    ),
    (
        b"regions = 1\nprocs = \"x\"\n[homes]\na = 9",
        "procs 0 Syntax",
    ),
    (
        b"regions = 1\nprocs = '''proc f(k: int) read a = k; { }'''",
        "procs 24 Kind",
    ),
    (
        b"regions = 1\nprocs = '''proc f(k: text, k: int) read a = k; { }'''",
        "procs 16 Twice",
    ),
    (
        b"regions = 1\nprocs = '''proc f() read a = \"k\"; { let x = ((((((((((((((((((((((((((((((((((((((((((((((((((((((((((((((((1'''",
        "procs 96 TooMany",
    ),
    (
        b"regions = 1\nprocs = '''\nproc f(k: text)\n  read a = k;\n{ give row(a); }\n'''",
        "1 4 3 0 0 1",
    ),
    (
        b"regions = 3\nworkers = 1\ntries = 8\ndrop = 5\nrepeat = 7\n[homes]\nb = 1\na = 2\n[rows]\nx = \"\\\"a\\\\ \"\n\"a/1\" = -9223372036854775808\n",
        "3 1 8 5 7 8 a@2 b@1 a/1=-9223372036854775808 x=\"\\\"a\\\\ \"",
    ),
];

/// Fails at the first file of which something else is told.
fn check_files(alloc: Global) -> Result<(), Fail> {
    for (row, (file, words)) in FILES.iter().enumerate() {
        if told(alloc, file)?.as_slice() != words.as_bytes() {
            return Err(wrong(row));
        }
    }
    Ok(())
}

#[test]
fn each_file_is_a_cluster_or_has_a_first_fault(rt: HostRuntime) -> Result<(), Fail> {
    check_files(rt.alloc())
}

/// Adds n lines of homes, from number 100 on.
fn put_many_homes(alloc: Global, file: &mut Vec<u8>, count: u32) -> Result<(), NoMemory> {
    for number in 100..100 + count.min(800) {
        put_number(alloc, file, b"k", u64::from(number))?;
        put_all(file, &[b" = 0\n"])?;
    }
    Ok(())
}

/// Adds n lines of rows, each with its number, from number 100 on.
fn put_many_rows(alloc: Global, file: &mut Vec<u8>, count: u32) -> Result<(), NoMemory> {
    for number in 100..100 + count.min(800) {
        put_number(alloc, file, b"k", u64::from(number))?;
        put_number(alloc, file, b" = ", u64::from(number))?;
        put_all(file, &[b"\n"])?;
    }
    Ok(())
}

/// A file with n homes and rows.
fn many_keys(alloc: Global, count: u32) -> Result<Vec<u8>, NoMemory> {
    let mut file = Vec::new(alloc);
    put_all(&mut file, &[b"regions = 1\n[homes]\n"])?;
    put_many_homes(alloc, &mut file, count)?;
    put_all(&mut file, &[b"[rows]\n"])?;
    put_many_rows(alloc, &mut file, count)?;
    Ok(file)
}

/// Numbers of homes and rows, and how much is told of such a file.
const LENGTHS: &[(u32, usize)] = &[(1, 27), (255, 4091), (256, 4107), (257, 4123), (700, 11211)];

/// Fails at the first number of which less or more is told.
fn check_lengths(alloc: Global) -> Result<(), Fail> {
    for (row, (count, want)) in LENGTHS.iter().enumerate() {
        let file = many_keys(alloc, *count)?;
        if told(alloc, file.as_slice())?.len() != *want {
            return Err(wrong(row));
        }
    }
    Ok(())
}

#[test]
fn a_cluster_has_hundreds_of_homes_and_rows(rt: HostRuntime) -> Result<(), Fail> {
    check_lengths(rt.alloc())
}

/// The built-in cluster, in words.
fn built_in(alloc: Global) -> Result<Vec<u8>, Fail> {
    let cluster = builtin(alloc, 8)?;
    let words = words_of(alloc, &cluster);
    forget(cluster);
    words
}

#[test]
fn the_built_in_cluster_has_its_limits(rt: HostRuntime) -> Result<(), Fail> {
    assert!(rt; built_in(rt.alloc())?.as_slice() == b"8 4 3 0 0 8".as_slice());
    Ok(())
}
