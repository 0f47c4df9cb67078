// A listing read back: the stop's number, the table's numbers and its records, into a lent room; or the number of the first line that does not fit or is missing. The call takes every text.
#![tactic(auto)]

ghost use Rattle.std.specs.Prelude.{true, ◌&&◌, ◌||◌, List, [], ◌∷◌, ◌++◌, ◌≡◌, ◌+◌, ◌*◌, ◌≤◌, ◌<◌, eqb, leb, length, drop, replicate};
ghost use Rattle.rtr_receiver.specs.Promises.{record_limit};
ghost use Rattle.rtr_room.specs.Room.{records, is_room, limit_of};
ghost use Rattle.rtr_room.specs.Table.{ordered};
ghost use Rattle.rtr_listing.specs.Listing.{text};
ghost use Rattle.rtr_listing.specs.Digits.{are_decimal, has_no_lead, hex_digit, is_hex, are_hex, value_of};
ghost use Rattle.rtr_listing.specs.declared.Head.{Head};
ghost use Rattle.rtr_listed.specs.Listed.{fitting, same_text, named, number_in, count_widths, count_in, record_of, word_at, address_in, may_stop, widest};
ghost use Rattle.rtr_listed.specs.Promises.{listed_refusal, refusal_number, listed_said, listed_says};
ghost use Rattle.rtr_listed.specs.Private.{line_length, number_said, address_said, refused_at, past_end, number_took, NumberTook, WordsTook, NoneTook, TableTook, HeadTook, RecordTook, narrowed, ValueIs, RecordsTook};

use rtr_listing::Head;
use rtr_receiver::{RECORD_LIMIT, Table};
use rtr_room::{Position, Record, empty, enter, look_up};

// Why no listing was read.
#[derive(Clone, Copy)]
pub enum ListedError {
    NotARoom,
    // The first line that does not fit or is missing.
    Line(usize),
}

impl ListedError {
    // Document 02's number of it.
    pub fn number(self) -> u8
        ensures { result ≡ refusal_number (listed_refusal self) }
    {
        match self {
            ListedError::NotARoom => 22,
            ListedError::Line(_) => 24,
        }
    }
}

// A place in the text, the number of the line there, and whether all lines before it fitted: where one did not, the cursor stays at it.
#[derive(Clone, Copy)]
struct Cursor {
    at: usize,
    line: usize,
    fits: bool,
}

// The four numbers of an address; IPv4 fills the first alone.
#[derive(Clone, Copy)]
struct Words {
    w0: u32,
    w1: u32,
    w2: u32,
    w3: u32,
}

// Where a line's value begins and ends.
#[derive(Clone, Copy)]
struct Span {
    from: usize,
    end: usize,
}

// Each has what was read of a line and the cursor behind it. Not an `Option`: of a line that does not fit there is the cursor too, which tells its number.
#[derive(Clone, Copy)]
struct NumberRead {
    value: usize,
    next: Cursor,
}

#[derive(Clone, Copy)]
struct WordsRead {
    words: Words,
    next: Cursor,
}

#[derive(Clone, Copy)]
struct TableRead {
    table: Table,
    next: Cursor,
}

#[derive(Clone, Copy)]
struct HeadRead {
    head: Head,
    next: Cursor,
}

#[derive(Clone, Copy)]
struct RecordRead {
    entry: Record,
    next: Cursor,
}

// The highest number of 32 bits.
const WORD: usize = 4294967295;

// "count has four digits".
const COUNT_DIGITS: usize = 4;

// ---- Lines

// The place of the first line feed from a place on, or the text's length.
// Not inlined: beside all that a reader keeps, the loop over a line's bytes would go through the stack.
#[inline(never)]
fn line_end(listing: &[u8], at: usize) -> usize
    requires { at ≤ length listing.now }
    ensures { (result ≡ at + line_length (drop at listing.now)) × (result ≤ length listing.now) }
{
    let rest = &listing[at..];
    at + rest.iter().position(|&b| b == b'\n').unwrap_or(rest.len())
}

fn is_text(s: &[u8], t: &[u8]) -> bool
    ensures { result ≡ same_text s.now t.now }
{
    // Not `s == t`: compiled, that is a call, and a listing is read by more instructions.
    if s.len() != t.len() {
        return false;
    }
    for (i, &b) in s.iter().enumerate() {
        if b != t[i] {
            return false;
        }
    }
    true
}

// The line at the cursor does not fit.
fn refused(c: Cursor) -> Cursor
    ensures { result ≡ refused_at c }
{
    Cursor {
        at: c.at,
        line: c.line,
        fits: false,
    }
}

// Behind the line that ends there.
fn past(c: Cursor, end: usize) -> Cursor
    requires { (end < 18446744073709551615) × (c.line < 4294967295) }
    ensures { result ≡ past_end c end }
{
    Cursor {
        at: end + 1,
        line: c.line + 1,
        fits: true,
    }
}

// The value of the line at the cursor, where it has that name and an end.
fn value_of(listing: &[u8], c: Cursor, name: &[u8]) -> Option<Span>
    requires { c.at ≤ length listing.now }
    ensures { ValueIs listing.now c name.now result }
{
    if !c.fits {
        return None;
    }
    let at = c.at;
    let end = line_end(listing, at);
    if end == listing.len() {
        return None;
    }
    if end - at < name.len() {
        return None;
    }
    let from = at + name.len();
    if !is_text(&listing[at..from], name) {
        return None;
    }
    Some(Span { from, end })
}

// ---- Values

// The number that digits stand for: ten at the most, so that no sum wraps.
fn sum_of(value: &[u8]) -> Option<usize>
    requires { length value.now ≤ 10 }
    ensures { number_said result ≡ fitting (are_decimal value.now) (value_of value.now 0) }
{
    let mut sum = 0;
    for &c in value {
        if c < 48 {
            return None;
        }
        if c > 57 {
            return None;
        }
        sum = sum * 10 + (c - 48) as usize;
    }
    Some(sum)
}

// There is a digit, and no zero stands before others.
fn has_no_lead(value: &[u8]) -> bool
    ensures { result ≡ has_no_lead value.now }
{
    if value.len() == 0 {
        return false;
    }
    if value.len() == 1 {
        return true;
    }
    value[0] != 48
}

// A number up to a highest one, without leading zeros.
fn number_in(value: &[u8], most: usize) -> Option<usize>
    requires { most ≤ 4294967295 }
    ensures { number_said result ≡ number_in (λ n. leb n most) value.now }
{
    if value.len() > 10 {
        return None;
    }
    if !has_no_lead(value) {
        return None;
    }
    let n = sum_of(value)?;
    if n > most {
        return None;
    }
    Some(n)
}

// A count of records in four digits, within the limit.
fn count_in(value: &[u8], limit: usize) -> Option<usize>
    ensures { number_said result ≡ count_in count_widths limit value.now }
{
    if value.len() != COUNT_DIGITS {
        return None;
    }
    let n = sum_of(value)?;
    if n > RECORD_LIMIT {
        return None;
    }
    if n > limit {
        return None;
    }
    Some(n)
}

fn is_hex(c: u8) -> bool
    ensures { result ≡ is_hex c }
{
    if c < 48 {
        return false;
    }
    if c <= 57 {
        return true;
    }
    if c < 97 {
        return false;
    }
    c <= 102
}

fn are_hex(value: &[u8]) -> bool
    ensures { result ≡ are_hex value.now }
{
    value.iter().all(|&c| is_hex(c))
}

fn hex_digit(c: u8) -> u32
    requires { is_hex c ≡ true }
    ensures { (result ≡ hex_digit c) × (result < 16) }
{
    if c < 97 {
        return (c - 48) as u32;
    }
    (c - 87) as u32
}

// The number that the eight digits from a place on stand for.
fn word_at(value: &[u8], at: usize) -> u32
    requires { (at + 8 ≤ length value.now) × (are_hex value.now ≡ true) }
    ensures { result ≡ word_at value.now at }
{
    let digits = &value[at..at + 8];
    let mut word = 0;
    for &c in digits {
        word = word * 16 + hex_digit(c);
    }
    word
}

// An address: 8 digits in family 4, else 32.
fn address_in(value: &[u8], family: usize) -> Option<Words>
    ensures { address_said result ≡ address_in family value.now }
{
    if family == 4 {
        if value.len() != 8 {
            return None;
        }
        if !are_hex(value) {
            return None;
        }
        return Some(Words {
            w0: word_at(value, 0),
            w1: 0,
            w2: 0,
            w3: 0,
        });
    }
    if value.len() != 32 {
        return None;
    }
    if !are_hex(value) {
        return None;
    }
    Some(Words {
        w0: word_at(value, 0),
        w1: word_at(value, 8),
        w2: word_at(value, 16),
        w3: word_at(value, 24),
    })
}

// ---- One line

// The number of a line that ends there, and the cursor behind it; or the line does not fit.
fn took(c: Cursor, end: usize, number: Option<usize>) -> NumberRead
    requires { (end < 18446744073709551615) × (c.line < 4294967295) }
    ensures { result ≡ number_took c end number }
{
    match number {
        Some(value) => NumberRead {
            value,
            next: past(c, end),
        },
        None => NumberRead {
            value: 0,
            next: refused(c),
        },
    }
}

// A number's line.
fn number_line(listing: &[u8], c: Cursor, name: &[u8], most: usize) -> NumberRead
    requires { (c.at ≤ length listing.now) × ((c.line < 4294967295) × (most ≤ 4294967295)) }
    ensures { NumberTook (named name.now (number_in (λ n. leb n most))) listing.now c most result }
{
    match value_of(listing, c, name) {
        Some(span) => took(c, span.end, number_in(&listing[span.from..span.end], most)),
        None => took(c, 0, None),
    }
}

// The count's line.
fn count_line(listing: &[u8], c: Cursor, limit: usize) -> NumberRead
    requires { (c.at ≤ length listing.now) × (c.line < 4294967295) }
    ensures { NumberTook (named (text "count=") (count_in count_widths limit)) listing.now c limit result }
{
    match value_of(listing, c, b"count=") {
        Some(span) => took(c, span.end, count_in(&listing[span.from..span.end], limit)),
        None => took(c, 0, None),
    }
}

// An address's line.
fn address_line(listing: &[u8], c: Cursor, family: usize) -> WordsRead
    requires { (c.at ≤ length listing.now) × (c.line < 4294967295) }
    ensures { WordsTook (named (text "address=") (address_in family)) listing.now c result }
{
    let Some(span) = value_of(listing, c, b"address=") else {
        return no_words(c);
    };
    let Some(words) = address_in(&listing[span.from..span.end], family) else {
        return no_words(c);
    };
    WordsRead {
        words,
        next: past(c, span.end),
    }
}

fn no_words(c: Cursor) -> WordsRead
    ensures { result.next ≡ refused_at c }
{
    WordsRead {
        words: Words {
            w0: 0,
            w1: 0,
            w2: 0,
            w3: 0,
        },
        next: refused(c),
    }
}

// The line that stands for no table, or that this is another line.
fn none_line(listing: &[u8], c: Cursor) -> Cursor
    requires { (c.at ≤ length listing.now) × (c.line < 4294967295) }
    ensures { NoneTook listing.now c result }
{
    match value_of(listing, c, b"count=none") {
        Some(span) if span.from == span.end => past(c, span.end),
        _ => refused(c),
    }
}

// A number that has to pass another test too.
fn narrow(c: Cursor, read: NumberRead, ok: bool) -> NumberRead
    ensures { result ≡ narrowed c read ok }
{
    if ok {
        return read;
    }
    NumberRead {
        value: read.value,
        next: refused(c),
    }
}

// ---- The head

// No stop, or a stop's number.
fn may_stop(n: usize) -> bool
    ensures { result ≡ may_stop n }
{
    if n == 0 {
        return true;
    }
    if n < 2 {
        return false;
    }
    if n <= 8 {
        return true;
    }
    if n < 12 {
        return false;
    }
    n <= 19
}

fn stop_line(listing: &[u8], c: Cursor) -> NumberRead
    requires { (c.at ≤ length listing.now) × (c.line < 4294967295) }
    ensures { NumberTook (named (text "stopped=") (number_in may_stop)) listing.now c 19 result }
{
    let read = number_line(listing, c, b"stopped=", 19);
    narrow(c, read, may_stop(read.value))
}

// The table's five numbers.
fn read_table(listing: &[u8], c: Cursor) -> TableRead
    requires { (c.at ≤ length listing.now) × (c.line < 4294967000) }
    ensures { TableTook listing.now c result }
{
    let session = number_line(listing, c, b"session=", 65535);
    let at_serial = session.next;
    let serial = number_line(listing, at_serial, b"serial=", WORD);
    let at_refresh = serial.next;
    let refresh = number_line(listing, at_refresh, b"refresh=", WORD);
    let at_retry = refresh.next;
    let retry = number_line(listing, at_retry, b"retry=", WORD);
    let at_expire = retry.next;
    let expire = number_line(listing, at_expire, b"expire=", WORD);
    let next = expire.next;
    TableRead {
        table: Table {
            session: session.value as u16,
            serial: serial.value as u32,
            refresh: refresh.value as u32,
            retry: retry.value as u32,
            expire: expire.value as u32,
        },
        next,
    }
}

// The lines before the records.
fn read_head(listing: &[u8], limit: usize) -> HeadRead
    ensures { HeadTook limit listing.now result }
{
    let stop = stop_line(
        listing,
        Cursor {
            at: 0,
            line: 1,
            fits: true,
        },
    );
    let second = stop.next;
    let none = none_line(listing, second);
    if none.fits {
        return HeadRead {
            head: Head {
                stopped: stop.value,
                table: None,
                count: 0,
            },
            next: none,
        };
    }
    let read = read_table(listing, second);
    let at_count = read.next;
    let count = count_line(listing, at_count, limit);
    let table = read.table;
    let next = count.next;
    HeadRead {
        head: Head {
            stopped: stop.value,
            table: Some(table),
            count: count.value,
        },
        next,
    }
}

// ---- Records

fn is_family(n: usize) -> bool
    ensures { result ≡ (eqb n 4 || eqb n 6) }
{
    if n == 4 {
        return true;
    }
    n == 6
}

fn family_line(listing: &[u8], c: Cursor) -> NumberRead
    requires { (c.at ≤ length listing.now) × (c.line < 4294967295) }
    ensures { NumberTook (named (text "family=") (number_in (λ n. eqb n 4 || eqb n 6))) listing.now c 6 result }
{
    let read = number_line(listing, c, b"family=", 6);
    narrow(c, read, is_family(read.value))
}

// Lengths in rule: the prefix length, the max and the family's bits ascend.
fn are_lengths(family: usize, shortest: usize, longest: usize) -> bool
    ensures { result ≡ (leb shortest longest && leb longest (widest family)) }
{
    if shortest > longest {
        return false;
    }
    if family == 4 {
        return longest <= 32;
    }
    longest <= 128
}

fn max_line(listing: &[u8], c: Cursor, family: usize, shortest: usize) -> NumberRead
    requires { (c.at ≤ length listing.now) × (c.line < 4294967295) }
    ensures { NumberTook (named (text "max=") (number_in (λ n. leb n 255 && (leb shortest n && leb n (widest family))))) listing.now c 255 result }
{
    let read = number_line(listing, c, b"max=", 255);
    narrow(c, read, are_lengths(family, shortest, read.value))
}

// The record is above all in the room.
fn is_above(room: &[u32], count: usize, r: Record) -> bool
    requires { is_room (limit_of room.now) count room.now ≡ true }
    ensures { result ≡ ordered (records count room.now ++ r ∷ []) }
{
    match look_up(room, count, r) {
        Ok(Position::Missing(at)) => at == count,
        Ok(Position::At(_)) => false,
        Err(_) => false,
    }
}

fn record_of(family: usize, words: Words, shortest: usize, longest: usize, asn: usize) -> Record
    requires { (family ≤ 6) × ((shortest ≤ 255) × ((longest ≤ 255) × (asn ≤ 4294967295))) }
    ensures { result ≡ record_of family words shortest longest asn }
{
    Record {
        kind: (family * 65536 + shortest * 256 + longest) as u32,
        w0: words.w0,
        w1: words.w1,
        w2: words.w2,
        w3: words.w3,
        asn: asn as u32,
    }
}

// The five lines of a record that is above all in the room.
fn read_record(listing: &[u8], c: Cursor, room: &[u32], count: usize) -> RecordRead
    requires { ((c.at ≤ length listing.now) × (c.line < 4294967000)) × (is_room (limit_of room.now) count room.now ≡ true) }
    ensures { RecordTook listing.now c (records count room.now) result }
{
    let family = family_line(listing, c);
    let at_address = family.next;
    let address = address_line(listing, at_address, family.value);
    let at_length = address.next;
    let shortest = number_line(listing, at_length, b"length=", 255);
    let at_max = shortest.next;
    let longest = max_line(listing, at_max, family.value, shortest.value);
    let at_asn = longest.next;
    let asn = number_line(listing, at_asn, b"asn=", WORD);
    let words = address.words;
    let entry = record_of(
        family.value,
        words,
        shortest.value,
        longest.value,
        asn.value,
    );
    let last = narrow(at_asn, asn, is_above(room, count, entry));
    let next = last.next;
    RecordRead { entry, next }
}

// So many records, into a room of zeros.
fn read_records(listing: &[u8], c: Cursor, count: usize, room: &mut [u32]) -> Cursor
    requires { ((c.at ≤ length listing.now) × (c.line ≤ 8)) × ((count ≤ record_limit) × ((length room.old ≡ 6 * record_limit) × (room.old ≡ replicate (length room.old) 0))) }
    ensures { RecordsTook record_limit listing.now c count room.new result }
{
    let mut next = c;
    for i in 0..count {
        let read = read_record(listing, next, room, i);
        next = read.next;
        if !next.fits {
            return next;
        }
        let entry = read.entry;
        let _ = enter(room, i, entry);
    }
    next
}

// ---- The listing

// All lines fitted, and none is left.
fn is_done(c: Cursor, end: usize) -> bool
    ensures { result ≡ (c.fits && eqb c.at end) }
{
    if !c.fits {
        return false;
    }
    c.at == end
}

// A whole listing: its records stand in the room, or the room is all zeros.
pub fn read_listing(listing: &[u8], room: &mut [u32]) -> Result<Head, ListedError>
    ensures { record { answer = listed_said result; room = room.new } ≡ listed_says record_limit listing.now room.old }
{
    if room.len() != 6 * RECORD_LIMIT {
        return Err(ListedError::NotARoom);
    }
    empty(room);
    let read = read_head(listing, RECORD_LIMIT);
    let head = read.head;
    let first = read.next;
    let end = read_records(listing, first, head.count, room);
    if is_done(end, listing.len()) {
        return Ok(head);
    }
    empty(room);
    Err(ListedError::Line(end.line))
}
