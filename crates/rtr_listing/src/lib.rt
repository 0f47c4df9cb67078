// The listing of a table as lines of text: a head (the stop, and what the last End of Data said) and five lines for each record. Every call takes
// every input; a refusal writes nothing, and bytes after what is written stay.
#![tactic(auto)]

ghost use Rattle.std.specs.Prelude.{◌≡◌, ◌+◌, ◌*◌, ◌≤◌, ◌<◌, length};
ghost use Rattle.rtr_encode.specs.Answers.{number_of};
ghost use Rattle.rtr_room.specs.Room.{records};
ghost use Rattle.rtr_receiver.specs.Promises.{record_limit};
ghost use Rattle.rtr_listing.specs.Listing.{glyph, digits, places, decimal, line_of, stopped_as, table_lines, head_lines, head_of, address_of, record_lines, all_lines};
ghost use Rattle.rtr_listing.specs.Promises.{list_refusal, leaves, puts, is_listed, listing_says};
ghost use Rattle.rtr_listing.specs.Private.{Fits, Put};

use rtr_receiver::{Phase, Session, Table, is_limit};
use rtr_room::{Record, get, rules};

// Why nothing is written.
#[derive(Clone, Copy)]
pub enum ListError {
    NotAReceiver,
    OutputShort { needed: usize },
}

impl ListError {
    // Document 01's number of it.
    pub fn number(self) -> u8
        ensures { result ≡ number_of (list_refusal self) }
    {
        match self {
            ListError::NotAReceiver => 22,
            ListError::OutputShort { needed: _ } => 9,
        }
    }
}

// What a listing says before its records: the stop's number, 0 without one; the table's session, serial and intervals if there is one; and how many records it has.
#[derive(Clone, Copy)]
pub struct Head {
    pub stopped: usize,
    pub table: Option<Table>,
    pub count: usize,
}

// No head and no record has more bytes.
const LINES: usize = 128;

// "count has four digits".
const COUNT_DIGITS: usize = 4;

// ---- Texts and numbers: each writes from a place on and gives the next place

fn put_text(out: &mut [u8], at: usize, text: &[u8]) -> usize
    requires { Fits out.old at text.now }
    ensures { Put out.old at text.now result out.new }
{
    // Not `copy_from_slice`: it calls C's memmove, and the library is to need memset alone.
    for (i, &byte) in text.iter().enumerate() {
        out[at + i] = byte;
    }
    at + text.len()
}

// The byte of a digit.
fn glyph(digit: usize) -> u8
    requires { digit < 16 }
    ensures { result ≡ glyph digit }
{
    if digit < 10 {
        return (48 + digit) as u8;
    }
    (87 + digit) as u8
}

// The last k digits of a number, from the last one to the first.
fn put_digits(out: &mut [u8], at: usize, base: usize, k: usize, n: usize) -> usize
    requires { (0 < base) × ((base ≤ 16) × (at + k ≤ length out.old)) }
    ensures { Put out.old at (digits base k n) result out.new }
{
    let mut rest = n;
    for i in (0..k).rev() {
        out[at + i] = glyph(rest % base);
        rest /= base;
    }
    at + k
}

// How many decimal digits a number of 32 bits has.
fn places(n: usize) -> usize
    ensures { result ≡ places n }
{
    if n < 10 {
        return 1;
    }
    if n < 100 {
        return 2;
    }
    if n < 1000 {
        return 3;
    }
    if n < 10000 {
        return 4;
    }
    if n < 100000 {
        return 5;
    }
    if n < 1000000 {
        return 6;
    }
    if n < 10000000 {
        return 7;
    }
    if n < 100000000 {
        return 8;
    }
    if n < 1000000000 {
        return 9;
    }
    10
}

// ---- Lines

// A line with so many digits of a number.
fn put_counted(out: &mut [u8], at: usize, name: &[u8], k: usize, n: usize) -> usize
    requires { Fits out.old at (line_of name.now (digits 10 k n)) }
    ensures { Put out.old at (line_of name.now (digits 10 k n)) result out.new }
{
    let value = put_text(out, at, name);
    let end = put_digits(out, value, 10, k, n);
    put_text(out, end, b"\n")
}

// A line with a number, without leading zeros.
fn put_number(out: &mut [u8], at: usize, name: &[u8], n: usize) -> usize
    requires { Fits out.old at (line_of name.now (decimal n)) }
    ensures { Put out.old at (line_of name.now (decimal n)) result out.new }
{
    put_counted(out, at, name, places(n), n)
}

// The stop's number, 0 without a stop.
fn stopped_as(phase: Phase) -> usize
    ensures { result ≡ stopped_as phase }
{
    match phase {
        Phase::Stopped(stop) => stop.number() as usize,
        _ => 0,
    }
}

// The head of a session's listing.
pub fn head_of(s: Session) -> Head
    ensures { result ≡ head_of s }
{
    Head {
        stopped: stopped_as(s.phase),
        table: s.table,
        count: s.live.records,
    }
}

fn put_table(out: &mut [u8], at: usize, t: Table, count: usize) -> usize
    requires { Fits out.old at (table_lines (Some t) count) }
    ensures { Put out.old at (table_lines (Some t) count) result out.new }
{
    let serial = put_number(out, at, b"session=", t.session as usize);
    let refresh = put_number(out, serial, b"serial=", t.serial as usize);
    let retry = put_number(out, refresh, b"refresh=", t.refresh as usize);
    let expire = put_number(out, retry, b"retry=", t.retry as usize);
    let last = put_number(out, expire, b"expire=", t.expire as usize);
    put_counted(out, last, b"count=", COUNT_DIGITS, count)
}

fn put_head(out: &mut [u8], at: usize, head: Head) -> usize
    requires { Fits out.old at (head_lines head) }
    ensures { Put out.old at (head_lines head) result out.new }
{
    let next = put_number(out, at, b"stopped=", head.stopped);
    match head.table {
        None => put_text(out, next, b"count=none\n"),
        Some(t) => put_table(out, next, t, head.count),
    }
}

// A quarter of an address, or all of an IPv4 one.
fn put_word(out: &mut [u8], at: usize, word: u32) -> usize
    requires { at + 8 ≤ length out.old }
    ensures { Put out.old at (digits 16 8 word) result out.new }
{
    put_digits(out, at, 16, 8, word as usize)
}

fn put_address(out: &mut [u8], at: usize, r: Record) -> usize
    requires { Fits out.old at (address_of r) }
    ensures { Put out.old at (address_of r) result out.new }
{
    if r.family() == 4 {
        return put_word(out, at, r.w0);
    }
    let second = put_word(out, at, r.w0);
    let third = put_word(out, second, r.w1);
    let fourth = put_word(out, third, r.w2);
    put_word(out, fourth, r.w3)
}

fn put_address_line(out: &mut [u8], at: usize, name: &[u8], r: Record) -> usize
    requires { Fits out.old at (line_of name.now (address_of r)) }
    ensures { Put out.old at (line_of name.now (address_of r)) result out.new }
{
    let value = put_text(out, at, name);
    let end = put_address(out, value, r);
    put_text(out, end, b"\n")
}

fn put_record(out: &mut [u8], at: usize, r: Record) -> usize
    requires { Fits out.old at (record_lines r) }
    ensures { Put out.old at (record_lines r) result out.new }
{
    let address = put_number(out, at, b"family=", r.family() as usize);
    let length = put_address_line(out, address, b"address=", r);
    let max = put_number(out, length, b"length=", r.prefix_length() as usize);
    let asn = put_number(out, max, b"max=", r.max_length() as usize);
    put_number(out, asn, b"asn=", r.asn as usize)
}

// ---- Lengths, by writing aside

fn head_length(head: Head) -> usize
    ensures { (result ≡ length (head_lines head)) × (result ≤ 128) }
{
    let mut lines = [0u8; LINES];
    put_head(&mut lines, 0, head)
}

fn record_length(r: Record) -> usize
    ensures { (result ≡ length (record_lines r)) × (result ≤ 128) }
{
    let mut lines = [0u8; LINES];
    put_record(&mut lines, 0, r)
}

// The lines of the first so many records.
fn records_length(live: &[u32], count: usize) -> usize
    requires { (6 * count ≤ length live.now) × (count ≤ record_limit) }
    ensures { (result ≡ length (all_lines (records count live.now))) × (result ≤ 128 * count) }
{
    let mut sum = 0;
    for i in 0..count {
        let Some(r) = get(live, i) else {
            return sum;
        };
        sum += record_length(r);
    }
    sum
}

fn put_records(out: &mut [u8], at: usize, live: &[u32], count: usize) -> usize
    requires { (6 * count ≤ length live.now) × (Fits out.old at (all_lines (records count live.now))) }
    ensures { Put out.old at (all_lines (records count live.now)) result out.new }
{
    let mut next = at;
    for i in 0..count {
        let Some(r) = get(live, i) else {
            return next;
        };
        next = put_record(out, next, r);
    }
    next
}

// ---- The listing

// Refusal 9.
fn short(needed: usize) -> Result<usize, ListError>
    ensures { result ≡ Err (ListError.OutputShort needed) }
{
    Err(ListError::OutputShort { needed })
}

// The lines before the records.
pub fn head_lines(s: Session, out: &mut [u8]) -> Result<usize, ListError>
    ensures { leaves result out.new ≡ puts (head_lines (head_of s)) out.old }
{
    let head = head_of(s);
    let needed = head_length(head);
    if out.len() < needed {
        return short(needed);
    }
    put_head(out, 0, head);
    Ok(needed)
}

// The five lines of a record.
pub fn record_lines(r: Record, out: &mut [u8]) -> Result<usize, ListError>
    ensures { leaves result out.new ≡ puts (record_lines r) out.old }
{
    let needed = record_length(r);
    if out.len() < needed {
        return short(needed);
    }
    put_record(out, 0, r);
    Ok(needed)
}

// A line of a name and a text.
pub fn text_line(name: &[u8], value: &[u8], out: &mut [u8]) -> Result<usize, ListError>
    ensures { leaves result out.new ≡ puts (line_of name.now value.now) out.old }
{
    let needed = name.len() + value.len() + 1;
    if out.len() < needed {
        return short(needed);
    }
    let from = put_text(out, 0, name);
    let end = put_text(out, from, value);
    put_text(out, end, b"\n");
    Ok(needed)
}

// A line of a name and a number, without leading zeros; of one over 32 bits the last ten digits.
pub fn number_line(name: &[u8], n: usize, out: &mut [u8]) -> Result<usize, ListError>
    ensures { leaves result out.new ≡ puts (line_of name.now (decimal n)) out.old }
{
    let needed = name.len() + places(n) + 1;
    if out.len() < needed {
        return short(needed);
    }
    put_number(out, 0, name, n);
    Ok(needed)
}

// A receiver may have the limit, no record stands without a table, and the live room keeps the room rules.
fn is_listed(s: Session, live: &[u32]) -> bool
    ensures { result ≡ is_listed s.life.limit s live.now }
{
    if !is_limit(s.life.limit) {
        return false;
    }
    if s.table.is_none() && s.live.records != 0 {
        return false;
    }
    rules(live, s.life.limit, s.live.records)
}

// The whole listing of a session and its live room: lengths first, so that nothing is written where it does not fit.
pub fn listing(s: Session, live: &[u32], out: &mut [u8]) -> Result<usize, ListError>
    ensures { leaves result out.new ≡ listing_says s.life.limit s live.now out.old }
{
    if !is_listed(s, live) {
        return Err(ListError::NotAReceiver);
    }
    let head = head_of(s);
    let needed = head_length(head) + records_length(live, head.count);
    if out.len() < needed {
        return short(needed);
    }
    let next = put_head(out, 0, head);
    put_records(out, next, live, head.count);
    Ok(needed)
}
