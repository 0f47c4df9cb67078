// The room's calls. A record is six numbers.
use crate::narrow::*;
use rtr_numbers::{at, put_numbers};
use rtr_room::{EnterError, LeaveError, Position, Record};

fn record_of(n: &[u64]) -> Record {
    Record {
        kind: low32(at(n, 0)),
        w0: low32(at(n, 1)),
        w1: low32(at(n, 2)),
        w2: low32(at(n, 3)),
        w3: low32(at(n, 4)),
        asn: low32(at(n, 5)),
    }
}

fn put_record(r: Record, out: &mut [u64]) -> bool {
    let said = [
        r.kind as u64,
        r.w0 as u64,
        r.w1 as u64,
        r.w2 as u64,
        r.w3 as u64,
        r.asn as u64,
    ];
    put_numbers(out, &said)
}

fn made(family: u64, n: &[u64]) -> Record {
    if family == 4 {
        return Record::ipv4(
            low8(at(n, 1)),
            low8(at(n, 2)),
            low32(at(n, 3)),
            low32(at(n, 7)),
        );
    }
    Record::ipv6(
        low8(at(n, 1)),
        low8(at(n, 2)),
        low32(at(n, 3)),
        low32(at(n, 4)),
        low32(at(n, 5)),
        low32(at(n, 6)),
        low32(at(n, 7)),
    )
}

// A record of family, length, max, the address's four numbers and the AS number.
#[unsafe(no_mangle)]
pub extern "C" fn test_record(given: &[u64], record: &mut [u64]) -> bool {
    put_record(made(at(given, 0), given), record)
}

// Record i of a room.
#[unsafe(no_mangle)]
pub extern "C" fn test_get(room: &[u32], i: usize, record: &mut [u64]) -> bool {
    match rtr_room::get(room, i) {
        Some(r) => put_record(r, record),
        None => false,
    }
}

// A record's family, prefix length and max, each in 16 bits.
#[unsafe(no_mangle)]
pub extern "C" fn test_kind_of(record: &[u64]) -> u64 {
    let r = record_of(record);
    let family = r.family() as u64 % 65536;
    let length = r.prefix_length() as u64 % 65536;
    let max = r.max_length() as u64 % 65536;
    family * 4294967296 + length * 65536 + max
}

#[unsafe(no_mangle)]
pub extern "C" fn test_rules(room: &[u32], limit: usize, count: usize) -> bool {
    rtr_room::rules(room, limit, count)
}

// 0, 17, 18 or 22; the count after it.
#[unsafe(no_mangle)]
pub extern "C" fn test_enter(
    room: &mut [u32],
    count: usize,
    record: &[u64],
    after: &mut u64,
) -> u8 {
    *after = count as u64;
    match rtr_room::enter(room, count, record_of(record)) {
        Ok(n) => {
            *after = n as u64;
            0
        }
        Err(EnterError::AlreadyIn) => 17,
        Err(EnterError::Full) => 18,
        Err(EnterError::NotARoom) => 22,
    }
}

// 0, 16 or 22; the count after it.
#[unsafe(no_mangle)]
pub extern "C" fn test_leave(
    room: &mut [u32],
    count: usize,
    record: &[u64],
    after: &mut u64,
) -> u8 {
    *after = count as u64;
    match rtr_room::leave(room, count, record_of(record)) {
        Ok(n) => {
            *after = n as u64;
            0
        }
        Err(LeaveError::NotIn) => 16,
        Err(LeaveError::NotARoom) => 22,
    }
}

// 0 and where it stands, 16 and where it would, or 22.
#[unsafe(no_mangle)]
pub extern "C" fn test_look_up(room: &[u32], count: usize, record: &[u64], place: &mut u64) -> u8 {
    match rtr_room::look_up(room, count, record_of(record)) {
        Ok(Position::At(n)) => {
            *place = n as u64;
            0
        }
        Ok(Position::Missing(n)) => {
            *place = n as u64;
            16
        }
        Err(_) => 22,
    }
}

#[unsafe(no_mangle)]
pub extern "C" fn test_empty(room: &mut [u32]) {
    rtr_room::empty(room);
}

// 0 or 22.
#[unsafe(no_mangle)]
pub extern "C" fn test_copy(from: &[u32], room: &mut [u32]) -> u8 {
    match rtr_room::copy(from, room) {
        Ok(()) => 0,
        Err(_) => 22,
    }
}
