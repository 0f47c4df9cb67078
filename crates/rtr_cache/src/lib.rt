// The cache's side: a table, or what changed from one table to another, as the run of PDUs that a cache answers with. Tables are lent as rooms and only read. A refusal writes
// nothing, and what stands behind a run in the output stays.
#![tactic(auto)]

ghost use Rattle.std.specs.Prelude.{[], ◌≡◌, ◌+◌, ◌*◌, ◌≤◌, ◌<◌, length};
ghost use Rattle.rtr_codec.specs.Reading.{in_use};
ghost use Rattle.rtr_encode.specs.Answers.{number_of};
ghost use Rattle.rtr_encode.specs.Encode.{encoding};
ghost use Rattle.rtr_room.specs.Room.{records};
ghost use Rattle.rtr_receiver.specs.declared.LoadKind.{LoadKind};
ghost use Rattle.rtr_listing.specs.Private.{Fits, Put};
ghost use Rattle.rtr_listing.specs.Promises.{puts};
ghost use Rattle.rtr_cache.specs.Cache.{flags_of, sent_ipv4, sent_ipv6, sent_prefix, sent_response, sent_end, interval_of, run_bytes, is_lent, run_refusal, run_leaves, full_run_says, change_run_says};
ghost use Rattle.rtr_cache.specs.Private.{sided, side_bytes, IsRoom, Few, behind_of};
ghost use Rattle.rtr_receiver.specs.Fits.{TableNumbersFit};
ghost use Rattle.rtr_cache.specs.Serves.{RoomFits};

use rtr_changes::next_only;
use rtr_encode::{
    EncodeError, encode_cache_response, encode_end_of_data, encode_ipv4_prefix, encode_ipv6_prefix,
};
use rtr_models::{
    Ipv6Addr, RtrCacheResponse, RtrEndOfData, RtrIPv4Prefix, RtrIPv6Prefix, RtrProtocolVersion,
};
use rtr_receiver::{RECORD_LIMIT, Table};
use rtr_room::{Record, get, rules};

// Why no run is written.
#[derive(Clone, Copy)]
pub enum RunError {
    NotARoom,
    OutputShort { needed: usize },
}

impl RunError {
    // Document 01's number of it.
    pub fn number(self) -> u8
        ensures { result ≡ number_of (run_refusal self) }
    {
        match self {
            RunError::NotARoom => 22,
            RunError::OutputShort { needed: _ } => 9,
        }
    }
}

// ---- PDUs: each is written from a place on, and gives the next place

// Behind what was written.
fn behind(at: usize, answer: Result<usize, EncodeError>) -> usize
    requires { behind_of at answer < 18446744073709551616 }
    ensures { result ≡ behind_of at answer }
{
    match answer {
        Ok(n) => at + n,
        Err(_) => at,
    }
}

fn put_response(out: &mut [u8], at: usize, version: RtrProtocolVersion, session: u16) -> usize
    requires { Fits out.old at (encoding in_use (sent_response version session) []) }
    ensures { Put out.old at (encoding in_use (sent_response version session) []) result out.new }
{
    let pdu = RtrCacheResponse {
        version,
        session_id: session,
    };
    let answer = encode_cache_response(pdu, &mut out[at..]);
    behind(at, answer)
}

// Only the lowest bit is ever set.
fn flags_of(announced: bool) -> u8
    ensures { result ≡ flags_of announced }
{
    if announced {
        return 1;
    }
    0
}

fn put_ipv4(out: &mut [u8], at: usize, version: RtrProtocolVersion, flags: u8, r: Record) -> usize
    requires { Fits out.old at (encoding in_use (sent_ipv4 version flags r) []) }
    ensures { Put out.old at (encoding in_use (sent_ipv4 version flags r) []) result out.new }
{
    let pdu = RtrIPv4Prefix {
        version,
        flags,
        prefix_length: r.prefix_length() as u8,
        max_length: r.max_length() as u8,
        prefix: r.w0,
        asn: r.asn,
    };
    let answer = encode_ipv4_prefix(pdu, &mut out[at..]);
    behind(at, answer)
}

fn put_ipv6(out: &mut [u8], at: usize, version: RtrProtocolVersion, flags: u8, r: Record) -> usize
    requires { Fits out.old at (encoding in_use (sent_ipv6 version flags r) []) }
    ensures { Put out.old at (encoding in_use (sent_ipv6 version flags r) []) result out.new }
{
    let prefix = Ipv6Addr {
        w0: r.w0,
        w1: r.w1,
        w2: r.w2,
        w3: r.w3,
    };
    let pdu = RtrIPv6Prefix {
        version,
        flags,
        prefix_length: r.prefix_length() as u8,
        max_length: r.max_length() as u8,
        prefix,
        asn: r.asn,
    };
    let answer = encode_ipv6_prefix(pdu, &mut out[at..]);
    behind(at, answer)
}

// A record as the prefix PDU of its family.
fn put_prefix(
    out: &mut [u8],
    at: usize,
    version: RtrProtocolVersion,
    announced: bool,
    r: Record,
) -> usize
    requires { Fits out.old at (encoding in_use (sent_prefix version (sided announced r)) []) }
    ensures { Put out.old at (encoding in_use (sent_prefix version (sided announced r)) []) result out.new }
{
    let flags = flags_of(announced);
    if r.family() == 4 {
        return put_ipv4(out, at, version, flags, r);
    }
    put_ipv6(out, at, version, flags, r)
}

// Version 0 has no intervals.
fn interval_of(version: RtrProtocolVersion, seconds: u32) -> Option<u32>
    ensures { result ≡ interval_of version seconds }
{
    match version {
        RtrProtocolVersion::V0 => None,
        RtrProtocolVersion::V1 => Some(seconds),
    }
}

fn put_end(out: &mut [u8], at: usize, version: RtrProtocolVersion, end: Table) -> usize
    requires { Fits out.old at (encoding in_use (sent_end version end) []) }
    ensures { Put out.old at (encoding in_use (sent_end version end) []) result out.new }
{
    let refresh_interval = interval_of(version, end.refresh);
    let retry_interval = interval_of(version, end.retry);
    let expire_interval = interval_of(version, end.expire);
    let pdu = RtrEndOfData {
        version,
        session_id: end.session,
        serial_number: end.serial,
        refresh_interval,
        retry_interval,
        expire_interval,
    };
    let answer = encode_end_of_data(pdu, &mut out[at..]);
    behind(at, answer)
}

// ---- Lengths

fn prefix_size(r: Record) -> usize
    ensures { ((version : _) (announced : _) → result ≡ length (encoding in_use (sent_prefix version (sided announced r)) [])) × (result ≤ 32) }
{
    if r.family() == 4 {
        return 20;
    }
    32
}

fn end_size(version: RtrProtocolVersion) -> usize
    ensures { ((end : _) → result ≡ length (encoding in_use (sent_end version end) [])) × (result ≤ 24) }
{
    match version {
        RtrProtocolVersion::V0 => 12,
        RtrProtocolVersion::V1 => 24,
    }
}

// ---- One side: the records of a that b has not

fn side_length(a: &[u32], a_count: usize, b: &[u32], b_count: usize) -> usize
    requires { (IsRoom a.now a_count × IsRoom b.now b_count) × Few a_count }
    ensures { ((version : _) (announced : _) → result ≡ length (side_bytes version announced (records a_count a.now) (records b_count b.now))) × (result ≤ 32 * a_count) }
{
    let mut sum = 0;
    let mut i = 0;
    // No hand count: the next place is behind the one that was found.
    while let Ok(Some(p)) = next_only(a, a_count, b, b_count, i)
        && let Some(r) = get(a, p)
    {
        sum += prefix_size(r);
        i = p + 1;
    }
    sum
}

fn put_side(
    out: &mut [u8],
    at: usize,
    version: RtrProtocolVersion,
    announced: bool,
    a: &[u32],
    a_count: usize,
    b: &[u32],
    b_count: usize,
) -> usize
    requires { (IsRoom a.now a_count × IsRoom b.now b_count) × (Fits out.old at (side_bytes version announced (records a_count a.now) (records b_count b.now))) }
    ensures { Put out.old at (side_bytes version announced (records a_count a.now) (records b_count b.now)) result out.new }
{
    let mut next = at;
    let mut i = 0;
    // No hand count: the next place is behind the one that was found.
    while let Ok(Some(p)) = next_only(a, a_count, b, b_count, i)
        && let Some(r) = get(a, p)
    {
        next = put_prefix(out, next, version, announced, r);
        i = p + 1;
    }
    next
}

// ---- Runs

// Refusal 9.
fn short(needed: usize) -> Result<usize, RunError>
    ensures { result ≡ Err (RunError.OutputShort needed) }
{
    Err(RunError::OutputShort { needed })
}

// From one table to another: lengths first, so that nothing is written where it does not fit.
fn write_run(
    version: RtrProtocolVersion,
    end: Table,
    first: &[u32],
    first_count: usize,
    second: &[u32],
    second_count: usize,
    out: &mut [u8],
) -> Result<usize, RunError>
    requires { (IsRoom first.now first_count × IsRoom second.now second_count) × (Few first_count × Few second_count) }
    ensures { run_leaves result out.new ≡ puts (run_bytes LoadKind.Change version end (records first_count first.now) (records second_count second.now)) out.old }
{
    let withdrawn = side_length(first, first_count, second, second_count);
    let announced = side_length(second, second_count, first, first_count);
    let needed = 8 + withdrawn + announced + end_size(version);
    if out.len() < needed {
        return short(needed);
    }
    let at_first = put_response(out, 0, version, end.session);
    let at_second = put_side(
        out,
        at_first,
        version,
        false,
        first,
        first_count,
        second,
        second_count,
    );
    let at_end = put_side(
        out,
        at_second,
        version,
        true,
        second,
        second_count,
        first,
        first_count,
    );
    put_end(out, at_end, version, end);
    Ok(needed)
}

// A table is lent: a room of a size that a receiver may have, which keeps the room rules.
fn is_lent(room: &[u32], count: usize) -> bool
    ensures { result ≡ is_lent count room.now }
{
    let limit = room.len() / 6;
    if limit != RECORD_LIMIT {
        return false;
    }
    rules(room, limit, count)
}

// The answer to a Reset Query: all of a table.
pub fn full_run(
    version: RtrProtocolVersion,
    end: Table,
    room: &[u32],
    count: usize,
    out: &mut [u8],
) -> Result<usize, RunError>
    ensures says { run_leaves result out.new ≡ full_run_says version end room.now count out.old }
    ensures numbers_fit { TableNumbersFit end × RoomFits room.now }
{
    if !is_lent(room, count) {
        return Err(RunError::NotARoom);
    }
    write_run(version, end, &room[0..0], 0, room, count, out)
}

// The answer to a Serial Query: what changed from the first table to the second.
pub fn change_run(
    version: RtrProtocolVersion,
    end: Table,
    first: &[u32],
    first_count: usize,
    second: &[u32],
    second_count: usize,
    out: &mut [u8],
) -> Result<usize, RunError>
    ensures says { run_leaves result out.new ≡ change_run_says version end first.now first_count second.now second_count out.old }
    ensures numbers_fit { TableNumbersFit end × (RoomFits first.now × RoomFits second.now) }
{
    if !is_lent(first, first_count) {
        return Err(RunError::NotARoom);
    }
    if !is_lent(second, second_count) {
        return Err(RunError::NotARoom);
    }
    write_run(version, end, first, first_count, second, second_count, out)
}
