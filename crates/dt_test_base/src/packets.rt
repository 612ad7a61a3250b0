//! Packets: their copies.
use dt_access::{Access, Mode, TxnId, put_id};
use dt_packet::Packet;
use dt_test_texts::{key_of, wrong};
use dt_text::{Common, Key, NoMemory, put_u64};
use dt_txn::{Accesses, Body, Entries, Entry, Txn, Txns, part_at};
use std::alloc::Global;
use std::mem::forget;
use std::test::Fail;

/// An access list with one write of a key, which was moved this many times.
fn one_write(alloc: Global, key: Key, counter: u32) -> Result<Accesses, Fail> {
    let mut access = Accesses::new(alloc);
    access.push(Access {
        key,
        mode: Mode::Write,
        home: 0,
        counter,
    })?;
    Ok(access)
}

/// A transaction of region 0 that moves a key from there to region 1.
fn txn(alloc: Global, seq: u32) -> Result<Txn, Fail> {
    let key = key_of(alloc, b"b")?;
    let access = one_write(alloc, key.copy(alloc)?, seq)?;
    Ok(Txn {
        id: TxnId { seq, region: 0 },
        rank: 3,
        body: Body::Move(key, 1),
        access,
    })
}

/// The entry of a transaction at region 1.
fn entry_of(alloc: Global, txn: Common<Txn>) -> Result<Entry, Fail> {
    let part = part_at(alloc, txn.get(), 1)?;
    let part = Common::new(alloc, part)?;
    Ok(Entry { part, txn })
}

/// Adds a request and an entry of a transaction.
fn add(alloc: Global, asked: &mut Txns, entries: &mut Entries, seq: u32) -> Result<(), Fail> {
    let txn = Common::new(alloc, txn(alloc, seq)?)?;
    asked.push(txn.copy()?)?;
    entries.push(entry_of(alloc, txn)?)?;
    Ok(())
}

/// A packet with no requests and no entries.
fn empty_packet(alloc: Global) -> Packet {
    Packet {
        source: 1,
        target: 2,
        stamp: 30,
        asked_at: 4,
        asked: Txns::new(alloc),
        log_at: 5,
        entries: Entries::new(alloc),
        took: 6,
        received: 7,
    }
}

/// Adds n requests and n entries to a packet.
fn fill(alloc: Global, packet: &mut Packet, count: u32) -> Result<(), Fail> {
    for seq in 1..=count {
        add(alloc, &mut packet.asked, &mut packet.entries, seq)?;
    }
    Ok(())
}

/// Adds the numbers of a packet.
fn put_numbers(alloc: Global, out: &mut Vec<u8>, packet: &Packet) -> Result<(), NoMemory> {
    let numbers = [
        u64::from(packet.source),
        u64::from(packet.target),
        packet.stamp,
        u64::from(packet.asked_at),
        u64::from(packet.log_at),
        u64::from(packet.took),
        u64::from(packet.received),
    ];
    for number in numbers {
        put_u64(alloc, out, number)?;
        out.push(b' ')?;
    }
    Ok(())
}

/// Adds a transaction: its id, its rank, and its access list.
fn put_txn(alloc: Global, out: &mut Vec<u8>, txn: &Txn) -> Result<(), NoMemory> {
    put_id(alloc, out, txn.id)?;
    out.push(b'^')?;
    put_u64(alloc, out, u64::from(txn.rank))?;
    for entry in txn.access.as_slice() {
        out.extend_from_slice(entry.key.bytes())?;
        out.push(b'@')?;
        put_u64(alloc, out, u64::from(entry.home))?;
        out.push(b'#')?;
        put_u64(alloc, out, u64::from(entry.counter))?;
    }
    out.push(b' ')?;
    Ok(())
}

/// Adds requests.
fn put_asked(alloc: Global, out: &mut Vec<u8>, asked: &Txns) -> Result<(), NoMemory> {
    for txn in asked.as_slice() {
        put_txn(alloc, out, txn.get())?;
    }
    Ok(())
}

/// Adds entries with their homes.
fn put_entries(alloc: Global, out: &mut Vec<u8>, entries: &Entries) -> Result<(), NoMemory> {
    for entry in entries.as_slice() {
        put_u64(alloc, out, u64::from(entry.part.get().home))?;
        out.push(b':')?;
        put_txn(alloc, out, entry.txn.get())?;
    }
    Ok(())
}

/// A packet in words: its numbers, its requests, and its entries with their homes.
fn told(alloc: Global, packet: &Packet) -> Result<Vec<u8>, Fail> {
    let mut out = Vec::new(alloc);
    put_numbers(alloc, &mut out, packet)?;
    put_asked(alloc, &mut out, &packet.asked)?;
    put_entries(alloc, &mut out, &packet.entries)?;
    Ok(out)
}

/// A copy of a packet with n requests and entries.
fn copy_of(alloc: Global, count: u32) -> Result<Packet, Fail> {
    let mut packet = empty_packet(alloc);
    let filled = fill(alloc, &mut packet, count);
    let copied = packet.copy(alloc);
    forget(packet);
    filled?;
    Ok(copied?)
}

/// Such a copy in words.
fn copy_told(alloc: Global, count: u32) -> Result<Vec<u8>, Fail> {
    let copied = copy_of(alloc, count)?;
    let told = told(alloc, &copied);
    forget(copied);
    told
}

/// How many requests and entries a packet has, and how it is shown.
const TOLD: &[(u32, &[u8])] = &[
    (0, b"1 2 30 4 5 6 7 "),
    (1, b"1 2 30 4 5 6 7 1.0^3b@0#1 1:1.0^3b@0#1 "),
    (
        2,
        b"1 2 30 4 5 6 7 1.0^3b@0#1 2.0^3b@0#2 1:1.0^3b@0#1 1:2.0^3b@0#2 ",
    ),
];

/// Fails at the first packet of which a copy is shown in another way.
fn check(alloc: Global) -> Result<(), Fail> {
    for (row, (count, want)) in TOLD.iter().enumerate() {
        if copy_told(alloc, *count)?.as_slice() != *want {
            return Err(wrong(row));
        }
    }
    Ok(())
}

#[test]
fn a_copy_is_told_as_its_packet(rt: HostRuntime) -> Result<(), Fail> {
    check(rt.alloc())
}

/// How many requests and entries a copy of a packet has, to which n of each were added.
fn lengths_of_copy(alloc: Global, count: u32) -> Result<(usize, usize), Fail> {
    let copied = copy_of(alloc, count)?;
    let lengths = (copied.asked.len(), copied.entries.len());
    forget(copied);
    Ok(lengths)
}

#[test]
fn a_full_packet_is_copied_whole(rt: HostRuntime) -> Result<(), Fail> {
    let (asked, entries) = lengths_of_copy(rt.alloc(), 256)?;
    assert!(rt; asked == 256 && entries == 256);
    Ok(())
}
