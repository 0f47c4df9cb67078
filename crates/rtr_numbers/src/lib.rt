// Session records as plain numbers, both ways, for a host that has no Rattle types: 24 numbers are a session, five are what a table says. What is
// read back is written again and compared, so numbers that are nobody's are told from every other. PDUs: rtr_pdu_numbers.
#![tactic(auto)]

ghost use Rattle.std.specs.Prelude.{ℕ, cond, ◌≡◌, ◌%◌, ◌≤◌, eqb, length, get_or};
ghost use Rattle.rtr_codec.specs.Answers.{refusal};
ghost use Rattle.rtr_stream.specs.Search.{stream_refusal};
ghost use Rattle.rtr_receiver.specs.Promises.{stop_said, stopped_by, stage_of};
ghost use Rattle.rtr_numbers.specs.Numbers.{table_or, table_number, table_numbers_of, note_number, note_session, note_serial, session_size, session_numbers, value_of};
ghost use Rattle.rtr_numbers.specs.Back.{alike, low8, low16, low32, loose_version, loose_code, loose_error, loose_stop, loose_phase, low_table, loose_table, loose_note, loose_session, session_of, table_found};
ghost use Rattle.rtr_numbers.specs.Private.{phase_numbers};

use rtr_codec::RtrError;
use rtr_models::*;
use rtr_receiver::{Counts, Life, LoadKind, Phase, Session, Stop, Table};
use rtr_stream::StreamError;

// How many numbers a session is.
pub const SESSION_NUMBERS: usize = 24;

// ---- Numbers, narrow and wide

// What the low bits of a number are, of a type that is narrower.
pub trait Low {
    ghost low: { ℕ → Self };

    fn low(n: u64) -> Self
        ensures { result ≡ low n };
}

impl Low for u8 {
    ghost low = { low8 };

    fn low(n: u64) -> u8 {
        (n % 256) as u8
    }
}

impl Low for u16 {
    ghost low = { low16 };

    fn low(n: u64) -> u16 {
        (n % 65536) as u16
    }
}

impl Low for u32 {
    ghost low = { low32 };

    fn low(n: u64) -> u32 {
        (n % 4294967296) as u32
    }
}

// The number at a place, 0 where there is none.
pub fn at(numbers: &[u64], i: usize) -> u64
    ensures { result ≡ get_or numbers.now i 0 }
{
    if i < numbers.len() {
        return numbers[i];
    }
    0
}

// ---- Lists of numbers

// Sets the numbers lent to those said where there are as many; else nothing is set. Not by `copy_from_slice`: it calls C's memmove, and the library for hosts is to
// need memset alone.
pub fn put_numbers(numbers: &mut [u64], said: &[u64]) -> bool
    ensures { (result ≡ eqb (length numbers.old) (length said.now)) × (numbers.new ≡ cond (eqb (length numbers.old) (length said.now)) said.now numbers.old) }
{
    if numbers.len() != said.len() {
        return false;
    }
    for (i, n) in said.iter().enumerate() {
        numbers[i] = *n;
    }
    true
}

// Whether two lists of numbers are the same.
pub fn is_alike(a: &[u64], b: &[u64]) -> bool
    ensures { result ≡ alike a.now b.now }
{
    a == b
}

// ---- A session's numbers

// A phase: its number, its load's session or its stop's number, and its stop's values.
#[derive(Clone, Copy)]
pub struct PhaseNumbers {
    pub phase: u64,
    pub detail: u64,
    pub first: u64,
    pub second: u64,
    pub third: u64,
}

fn stopped(number: u64, first: u64, second: u64, third: u64) -> PhaseNumbers
    ensures { result ≡ record { phase = 6; detail = number; first = first; second = second; third = third } }
{
    PhaseNumbers {
        phase: 6,
        detail: number,
        first,
        second,
        third,
    }
}

fn error_numbers(error: RtrError) -> PhaseNumbers
    ensures { result ≡ phase_numbers (stopped_by (refusal error)) }
{
    match error {
        RtrError::IncompletePdu { available, needed } => stopped(
            1,
            available as u64,
            needed as u64,
            0,
        ),
        RtrError::InvalidPduType(kind) => stopped(3, kind as u64, 0, 0),
        RtrError::InvalidProtocolVersion(version) => stopped(2, version as u64, 0, 0),
        RtrError::InvalidErrorCode(code) => stopped(7, code as u64, 0, 0),
        RtrError::InvalidLength {
            expected,
            actual,
            pdu_type,
        } => stopped(4, expected as u64, actual as u64, pdu_type as u64),
        RtrError::InvalidPrefixLength {
            prefix_len,
            max_len,
            max_allowed,
        } => stopped(6, prefix_len as u64, max_len as u64, max_allowed as u64),
        RtrError::InvalidUtf8 => stopped(8, 0, 0, 0),
        RtrError::RouterKeyInV0 => stopped(5, 0, 0, 0),
    }
}

fn stream_numbers(error: StreamError) -> PhaseNumbers
    ensures { result ≡ phase_numbers (stopped_by (stream_refusal error)) }
{
    match error {
        StreamError::Read(read) => error_numbers(read),
        StreamError::OverHold { length } => stopped(12, length as u64, 0, 0),
    }
}

fn stop_numbers(stop: Stop) -> PhaseNumbers
    ensures { result ≡ phase_numbers (stopped_by (stop_said stop)) }
{
    match stop {
        Stop::Stream(error) => stream_numbers(error),
        Stop::OutOfTurn => stopped(13, 0, 0, 0),
        Stop::OtherVersion => stopped(14, 0, 0, 0),
        Stop::OtherSession => stopped(15, 0, 0, 0),
        Stop::NotIn => stopped(16, 0, 0, 0),
        Stop::AlreadyIn => stopped(17, 0, 0, 0),
        Stop::RoomFull => stopped(18, 0, 0, 0),
        Stop::ErrorReport(code) => stopped(19, code.to_u16() as u64, 0, 0),
    }
}

// Value i of a refusal, 0 where it has none.
pub fn error_value(error: RtrError, i: usize) -> u64
    ensures { result ≡ value_of i (refusal error) }
{
    let p = error_numbers(error);
    match i {
        0 => p.first,
        1 => p.second,
        2 => p.third,
        _ => 0,
    }
}

// A phase that is no stop.
fn going(phase: u64, detail: u64) -> PhaseNumbers
    ensures { result ≡ record { phase = phase; detail = detail; first = 0; second = 0; third = 0 } }
{
    PhaseNumbers {
        phase,
        detail,
        first: 0,
        second: 0,
        third: 0,
    }
}

fn phase_numbers(phase: Phase) -> PhaseNumbers
    ensures { result ≡ phase_numbers (stage_of phase) }
{
    match phase {
        Phase::Idle => going(0, 0),
        Phase::MustReset => going(1, 0),
        Phase::AskedFull => going(2, 0),
        Phase::AskedChange => going(3, 0),
        Phase::Loading(kind, session) => match kind {
            LoadKind::Full => going(4, session as u64),
            LoadKind::Change => going(5, session as u64),
        },
        Phase::Stopped(stop) => stop_numbers(stop),
    }
}

// Whether there is a table.
pub fn table_number(table: Option<Table>) -> u64
    ensures { result ≡ table_number table }
{
    match table {
        None => 0,
        Some(_) => 1,
    }
}

// What a table says, or zeros.
pub fn table_or(table: Option<Table>) -> Table
    ensures { result ≡ table_or table }
{
    table.unwrap_or(Table {
        session: 0,
        serial: 0,
        refresh: 0,
        retry: 0,
        expire: 0,
    })
}

fn table_numbers(t: Table) -> [u64; 5]
    ensures { result ≡ table_numbers_of t }
{
    [
        t.session as u64,
        t.serial as u64,
        t.refresh as u64,
        t.retry as u64,
        t.expire as u64,
    ]
}

fn note_number(note: Option<(u16, u32)>) -> u64
    ensures { result ≡ note_number note }
{
    match note {
        None => 0,
        Some((_, _)) => 1,
    }
}

fn note_session(note: Option<(u16, u32)>) -> u64
    ensures { result ≡ note_session note }
{
    match note {
        None => 0,
        Some((session, _)) => session as u64,
    }
}

fn note_serial(note: Option<(u16, u32)>) -> u64
    ensures { result ≡ note_serial note }
{
    match note {
        None => 0,
        Some((_, serial)) => serial as u64,
    }
}

fn session_numbers(s: Session) -> [u64; SESSION_NUMBERS]
    ensures { result ≡ session_numbers s }
{
    let p = phase_numbers(s.phase);
    let t = table_or(s.table);
    [
        s.life.version.to_u8() as u64,
        p.phase,
        p.detail,
        p.first,
        p.second,
        p.third,
        table_number(s.table),
        t.session as u64,
        t.serial as u64,
        t.refresh as u64,
        t.retry as u64,
        t.expire as u64,
        note_number(s.note),
        note_session(s.note),
        note_serial(s.note),
        s.live.records as u64,
        s.working.records as u64,
        s.held as u64,
        s.life.limit as u64,
        0,
        0,
        0,
        0,
        0,
    ]
}

// Sets the numbers to the session's; where not as many are lent, nothing is set. What is set reads back as this session.
pub fn put_session(s: Session, numbers: &mut [u64]) -> bool
    ensures value { (result ≡ eqb (length numbers.old) session_size) × (numbers.new ≡ cond (eqb (length numbers.old) session_size) (session_numbers s) numbers.old) }
    ensures reads_back { length numbers.old ≡ session_size → session_of numbers.new ≡ Some s }
{
    let said = session_numbers(s);
    put_numbers(numbers, &said)
}

// ---- A session from numbers: a guess, then the comparison

// Version 0, or else version 1.
pub fn loose_version(n: u64) -> RtrProtocolVersion
    ensures { result ≡ loose_version n }
{
    if n == 0 {
        return RtrProtocolVersion::V0;
    }
    RtrProtocolVersion::V1
}

// The error code of a number, or else the first.
pub fn loose_code(n: u64) -> RtrErrorCode
    ensures { result ≡ loose_code n }
{
    RtrErrorCode::from_u16(u16::low(n)).unwrap_or(RtrErrorCode::CorruptData)
}

fn loose_error(number: u64, first: u64, second: u64, third: u64) -> RtrError
    ensures { result ≡ loose_error number first second third }
{
    match number {
        1 => RtrError::IncompletePdu {
            available: first as usize,
            needed: second as usize,
        },
        2 => RtrError::InvalidProtocolVersion(u8::low(first)),
        3 => RtrError::InvalidPduType(u8::low(first)),
        4 => RtrError::InvalidLength {
            expected: u32::low(first),
            actual: u32::low(second),
            pdu_type: u8::low(third),
        },
        5 => RtrError::RouterKeyInV0,
        6 => RtrError::InvalidPrefixLength {
            prefix_len: u8::low(first),
            max_len: u8::low(second),
            max_allowed: u8::low(third),
        },
        7 => RtrError::InvalidErrorCode(u16::low(first)),
        _ => RtrError::InvalidUtf8,
    }
}

fn loose_stop(number: u64, first: u64, second: u64, third: u64) -> Stop
    ensures { result ≡ loose_stop number first second third }
{
    match number {
        12 => Stop::Stream(StreamError::OverHold {
            length: u32::low(first),
        }),
        13 => Stop::OutOfTurn,
        14 => Stop::OtherVersion,
        15 => Stop::OtherSession,
        16 => Stop::NotIn,
        17 => Stop::AlreadyIn,
        18 => Stop::RoomFull,
        19 => Stop::ErrorReport(loose_code(first)),
        _ => Stop::Stream(StreamError::Read(loose_error(number, first, second, third))),
    }
}

fn loose_phase(n: &[u64]) -> Phase
    ensures { result ≡ loose_phase n.now }
{
    let phase = at(n, 1);
    let detail = at(n, 2);
    match phase {
        0 => Phase::Idle,
        1 => Phase::MustReset,
        2 => Phase::AskedFull,
        3 => Phase::AskedChange,
        4 => Phase::Loading(LoadKind::Full, u16::low(detail)),
        5 => Phase::Loading(LoadKind::Change, u16::low(detail)),
        _ => Phase::Stopped(loose_stop(detail, at(n, 3), at(n, 4), at(n, 5))),
    }
}

// The table of five numbers from a place on.
fn low_table(n: &[u64], from: usize) -> Table
    requires { from ≤ 7 }
    ensures { result ≡ low_table n.now from }
{
    Table {
        session: u16::low(at(n, from)),
        serial: u32::low(at(n, from + 1)),
        refresh: u32::low(at(n, from + 2)),
        retry: u32::low(at(n, from + 3)),
        expire: u32::low(at(n, from + 4)),
    }
}

fn loose_table(n: &[u64]) -> Option<Table>
    ensures { result ≡ loose_table n.now }
{
    if at(n, 6) == 0 {
        return None;
    }
    Some(low_table(n, 7))
}

fn loose_note(n: &[u64]) -> Option<(u16, u32)>
    ensures { result ≡ loose_note n.now }
{
    if at(n, 12) == 0 {
        return None;
    }
    Some((u16::low(at(n, 13)), u32::low(at(n, 14))))
}

fn loose_session(n: &[u64]) -> Session
    ensures { result ≡ loose_session n.now }
{
    Session {
        life: Life {
            version: loose_version(at(n, 0)),
            limit: at(n, 18) as usize,
        },
        phase: loose_phase(n),
        table: loose_table(n),
        note: loose_note(n),
        live: Counts {
            records: at(n, 15) as usize,
        },
        working: Counts {
            records: at(n, 16) as usize,
        },
        held: at(n, 17) as usize,
    }
}

// The session that has these numbers; None where none has them.
pub fn session_of(numbers: &[u64]) -> Option<Session>
    ensures { result ≡ session_of numbers.now }
{
    let s = loose_session(numbers);
    let said = session_numbers(s);
    is_alike(&said, numbers).then_some(s)
}

// The table that says these numbers; None where none does.
pub fn table_of(numbers: &[u64]) -> Option<Table>
    ensures { result ≡ table_found numbers.now }
{
    let t = low_table(numbers, 0);
    let said = table_numbers(t);
    is_alike(&said, numbers).then_some(t)
}
