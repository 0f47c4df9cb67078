// The receiver: it asks a cache for its table, listens to what comes, and keeps two rooms: the live one, which is whole or the one before, and the
// working one, which is made live by the End of Data. Every call takes every input and tests first that the memory lent is of receiver
// shape (22); a stop clears what is held and the working room, keeps the live room, and repeats until a reconnect.
#![tactic(auto)]

ghost use Rattle.std.specs.Prelude.{◌≡◌, ◌+◌, ◌<◌, ◌≤◌, true, cond, [], length, replicate, ◌==◌};
ghost use Rattle.rtr_models.specs.Codes.{version_number};
ghost use Rattle.rtr_codec.specs.Answers.{number_of};
ghost use Rattle.rtr_room.specs.Table.{enter, leave};
ghost use Rattle.rtr_room.specs.Room.{is_room, limit_of, records};
ghost use Rattle.rtr_receiver.specs.Receiver.{changed_to, finish, no_update, on_kind, on_pdu, listens, compared};
ghost use Rattle.rtr_receiver.specs.Promises.{NotifySays, stop_said, change_under_way, is_loading, stage_of, receiver_of, in_order, is_receiver, FedAs, start_says, start_said, full_ask_says, change_ask_says, ask_said, reconnect_says, reconnect_said, notify_says, notify_said, record_limit, is_limit, tabled, cleared};
ghost use Rattle.rtr_receiver.specs.Private.{AnnouncedAt, GatheredOne, GatheredTo, TakenTo, may_gather, BothRooms, Stands, Did, response_in, reset_in, end_in, carried_by, carried_out, Makes, Updates, Decides, DecidesOn, Filled, stopped_session, asked_for, after_pdu, feed_here, StepAsks, Stepped};

use rtr_codec::parse_rtr_pdu;
use rtr_encode::{EncodeError, encode_reset_query, encode_serial_query};
use rtr_models::*;
use rtr_room::{
    EnterError, LeaveError, Position, Record, copy, empty, enter, leave, look_up, merge, rules,
};
use rtr_stream::{SearchError, Stream, StreamError, is_stream, search};

// How many records a room has at the most.
pub const RECORD_LIMIT: usize = 1024;

// How many announcements gather before they are merged: the tail is a room of so many, 3 KiB of stack.
const RUN_LIMIT: usize = 128;

// ---- The session record

// What a load was asked as.
#[derive(Clone, Copy)]
pub enum LoadKind {
    Full,
    Change,
}

// Why a receiver stopped; `number` gives document 01's number of it.
#[derive(Clone, Copy)]
pub enum Stop {
    Stream(StreamError),
    OutOfTurn,
    OtherVersion,
    OtherSession,
    NotIn,
    AlreadyIn,
    RoomFull,
    ErrorReport(RtrErrorCode),
}

// A load holds its kind and its session, a stop its reason.
#[derive(Clone, Copy)]
pub enum Phase {
    Idle,
    MustReset,
    AskedFull,
    AskedChange,
    Loading(LoadKind, u16),
    Stopped(Stop),
}

// What the last End of Data said of the live table.
#[derive(Clone, Copy)]
pub struct Table {
    pub session: u16,
    pub serial: u32,
    pub refresh: u32,
    pub retry: u32,
    pub expire: u32,
}

// What is fixed for a receiver's life: its version, and how many records a room has at the most.
#[derive(Clone, Copy)]
pub struct Life {
    pub version: RtrProtocolVersion,
    pub limit: usize,
}

// How much of a room is in use.
#[derive(Clone, Copy)]
pub struct Counts {
    pub records: usize,
}

// A receiver between two calls: what is in use of the live and the working room, and how many bytes of the hold.
#[derive(Clone, Copy)]
pub struct Session {
    pub life: Life,
    pub phase: Phase,
    pub table: Option<Table>,
    pub note: Option<(u16, u32)>,
    pub live: Counts,
    pub working: Counts,
    pub held: usize,
}

// ---- Answers

// Refusal 22: memory that is not of receiver shape.
#[derive(Clone, Copy)]
pub struct NotAReceiver;

#[derive(Clone, Copy)]
pub enum AskError {
    NotAReceiver,
    WrongPhase,
    NoTable,
    Encoding(EncodeError),
}

#[derive(Clone, Copy)]
pub struct AskedSession {
    pub session: Session,
    pub answer: Result<usize, AskError>,
}

// Why a feed does not go on.
#[derive(Clone, Copy)]
pub enum FeedError {
    Stopped(Stop),
    NotAReceiver,
}

// What a feed did: bytes taken, updates finished, and whether it goes on.
#[derive(Clone, Copy)]
pub struct Done {
    pub taken: usize,
    pub updates: usize,
    pub answer: Result<(), FeedError>,
}

#[derive(Clone, Copy)]
pub struct Fed {
    pub session: Session,
    pub done: Done,
}

#[derive(Clone, Copy)]
pub struct Reconnected {
    pub session: Session,
    pub answer: Result<(), NotAReceiver>,
}

// A Serial Notify beside the table's serial.
#[derive(Clone, Copy)]
pub enum Comparison {
    None,
    OtherSession,
    Same,
    Newer,
    Older,
    Undefined,
}

impl Stop {
    // Document 01's number of it.
    pub fn number(self) -> u8
        ensures { result ≡ number_of (stop_said self) }
    {
        match self {
            Stop::Stream(error) => error.number(),
            Stop::OutOfTurn => 13,
            Stop::OtherVersion => 14,
            Stop::OtherSession => 15,
            Stop::NotIn => 16,
            Stop::AlreadyIn => 17,
            Stop::RoomFull => 18,
            Stop::ErrorReport(_) => 19,
        }
    }
}

// ---- Shape: 22

fn change_under_way(phase: Phase) -> bool
    ensures { result ≡ change_under_way phase }
{
    match phase {
        Phase::AskedChange => true,
        Phase::Loading(kind, _) => match kind {
            LoadKind::Full => false,
            LoadKind::Change => true,
        },
        _ => false,
    }
}

// A live record or a change has its table.
fn is_tabled(s: Session) -> bool
    ensures { result ≡ tabled s }
{
    let table = s.table;
    match table {
        Some(_) => true,
        None => {
            if s.live.records == 0 {
                return !change_under_way(s.phase);
            }
            false
        }
    }
}

// The working room is empty outside Loading, nothing is held in Stopped.
fn is_cleared(s: Session) -> bool
    ensures { result ≡ cleared s }
{
    let phase = s.phase;
    let working = s.working;
    match phase {
        Phase::Loading(_, _) => true,
        Phase::Stopped(_) => working.records == 0 && s.held == 0,
        _ => working.records == 0,
    }
}

fn in_order(s: Session) -> bool
    ensures { result ≡ in_order s }
{
    if !is_tabled(s) {
        return false;
    }
    is_cleared(s)
}

// A record limit that a receiver may have.
pub fn is_limit(limit: usize) -> bool
    ensures { result ≡ is_limit limit }
{
    limit == RECORD_LIMIT
}

// Receiver shape, each number of the rooms read once.
pub fn is_receiver(s: Session, live: &[u32], working: &[u32], hold: &[u8]) -> bool
    ensures { result ≡ is_receiver s.life.limit s live.now working.now hold.now }
{
    if !is_limit(s.life.limit) {
        return false;
    }
    if !in_order(s) {
        return false;
    }
    if !is_stream(hold, s.held) {
        return false;
    }
    if !rules(live, s.life.limit, s.live.records) {
        return false;
    }
    rules(working, s.life.limit, s.working.records)
}

// ---- Calls

// A fresh receiver: both rooms are zeroed, the hold is only measured.
pub fn start(
    version: RtrProtocolVersion,
    live: &mut [u32],
    working: &mut [u32],
    hold: &[u8],
) -> Result<Session, NotAReceiver>
    ensures { start_said result live.new working.new hold.now ≡ start_says record_limit version live.old working.old hold.now }
{
    if live.len() != 6 * RECORD_LIMIT {
        return Err(NotAReceiver);
    }
    if working.len() != 6 * RECORD_LIMIT {
        return Err(NotAReceiver);
    }
    if hold.len() < 8 {
        return Err(NotAReceiver);
    }
    empty(live);
    empty(working);
    Ok(Session {
        life: Life {
            version,
            limit: RECORD_LIMIT,
        },
        phase: Phase::Idle,
        table: None,
        note: None,
        live: Counts { records: 0 },
        working: Counts { records: 0 },
        held: 0,
    })
}

// The same session in another phase.
fn in_phase(s: Session, phase: Phase) -> Session
    ensures { result ≡ record { life = s.life; phase = phase; table = s.table; note = s.note; live = s.live; working = s.working; held = s.held } }
{
    Session { phase, ..s }
}

// What an ask that wrote its query, or could not, answers.
fn asked(s: Session, answer: Result<usize, EncodeError>, phase: Phase) -> AskedSession
    ensures { result ≡ asked_for s answer phase }
{
    match answer {
        Ok(n) => AskedSession {
            session: in_phase(s, phase),
            answer: Ok(n),
        },
        Err(error) => AskedSession {
            session: s,
            answer: Err(AskError::Encoding(error)),
        },
    }
}

fn ask_refused(s: Session, error: AskError) -> AskedSession
    ensures { result ≡ record { session = s; answer = Err error } }
{
    AskedSession {
        session: s,
        answer: Err(error),
    }
}

// Asks for the whole table: a Reset Query into the output.
pub fn full_ask(
    s: Session,
    live: &[u32],
    working: &[u32],
    hold: &[u8],
    out: &mut [u8],
) -> AskedSession
    ensures { ask_said result live.now working.now hold.now out.new ≡ full_ask_says s.life.limit s live.now working.now hold.now out.old }
{
    if !is_receiver(s, live, working, hold) {
        return ask_refused(s, AskError::NotAReceiver);
    }
    let version = s.life.version;
    let phase = s.phase;
    match phase {
        Phase::Idle | Phase::MustReset => {
            let answer = encode_reset_query(RtrResetQuery { version }, out);
            asked(s, answer, Phase::AskedFull)
        }
        _ => ask_refused(s, AskError::WrongPhase),
    }
}

// Asks for what changed since the table's serial: a Serial Query into the output.
pub fn change_ask(
    s: Session,
    live: &[u32],
    working: &[u32],
    hold: &[u8],
    out: &mut [u8],
) -> AskedSession
    ensures { ask_said result live.now working.now hold.now out.new ≡ change_ask_says s.life.limit s live.now working.now hold.now out.old }
{
    if !is_receiver(s, live, working, hold) {
        return ask_refused(s, AskError::NotAReceiver);
    }
    let phase = s.phase;
    match phase {
        Phase::Idle => {
            let table = s.table;
            match table {
                None => ask_refused(s, AskError::NoTable),
                Some(t) => {
                    let answer = encode_serial_query(
                        RtrSerialQuery {
                            version: s.life.version,
                            session_id: t.session,
                            serial_number: t.serial,
                        },
                        out,
                    );
                    asked(s, answer, Phase::AskedChange)
                }
            }
        }
        _ => ask_refused(s, AskError::WrongPhase),
    }
}

// A new connection: Idle, with the table kept; what was held, noted or half loaded is gone.
pub fn reconnect(s: Session, live: &[u32], working: &mut [u32], hold: &[u8]) -> Reconnected
    ensures { reconnect_said result live.now working.new hold.now ≡ reconnect_says s.life.limit s live.now working.old hold.now }
{
    if !is_receiver(s, live, working, hold) {
        return Reconnected {
            session: s,
            answer: Err(NotAReceiver),
        };
    }
    empty(working);
    Reconnected {
        session: Session {
            phase: Phase::Idle,
            note: None,
            working: Counts { records: 0 },
            held: 0,
            ..s
        },
        answer: Ok(()),
    }
}

// A serial beside the table's, by RFC 1982 over 32 bits that wrap: how far it is ahead decides.
fn compare(serial: u32, table: u32) -> Result<Comparison, NotAReceiver>
    ensures { notify_said result ≡ NotifySays.compares (compared serial table) }
{
    let ahead = std::num::wrapping_sub_u32(serial, table);
    if ahead == 0 {
        return Ok(Comparison::Same);
    }
    if ahead < 2147483648 {
        return Ok(Comparison::Newer);
    }
    if ahead == 2147483648 {
        return Ok(Comparison::Undefined);
    }
    Ok(Comparison::Older)
}

// Whether the last Serial Notify tells of something newer than the table.
pub fn notify(
    s: Session,
    live: &[u32],
    working: &[u32],
    hold: &[u8],
) -> Result<Comparison, NotAReceiver>
    ensures { notify_said result ≡ notify_says s.life.limit s live.now working.now hold.now }
{
    if !is_receiver(s, live, working, hold) {
        return Err(NotAReceiver);
    }
    let table = s.table;
    let note = s.note;
    match table {
        None => Ok(Comparison::None),
        Some(t) => match note {
            None => Ok(Comparison::None),
            Some((session, serial)) => {
                if session != t.session {
                    return Ok(Comparison::OtherSession);
                }
                compare(serial, t.serial)
            }
        },
    }
}

// ---- One PDU

// A session and how many updates finished.
#[derive(Clone, Copy)]
struct DeedDone {
    session: Session,
    updates: usize,
}

// A stop clears the working room and what is held; it keeps the live room and the note.
fn stop_with(s: Session, working: &mut [u32], stop: Stop) -> Session
    ensures { (result ≡ stopped_session s stop) × (working.new ≡ replicate (length working.old) 0) }
{
    empty(working);
    Session {
        phase: Phase::Stopped(stop),
        working: Counts { records: 0 },
        held: 0,
        ..s
    }
}

fn on_serial_notify(s: Session, session_id: u16, serial_number: u32) -> Session
    ensures { result ≡ record { life = s.life; phase = s.phase; table = s.table; note = Some (session_id, serial_number); live = s.live; working = s.working; held = s.held } }
{
    Session {
        note: Some((session_id, serial_number)),
        ..s
    }
}

// The session with a load begun and so much in the working room.
fn loading(s: Session, kind: LoadKind, session_id: u16, working: Counts) -> Session
    ensures { result ≡ record { life = s.life; phase = Phase.Loading kind session_id; table = s.table; note = s.note; live = s.live; working = working; held = s.held } }
{
    Session {
        phase: Phase::Loading(kind, session_id),
        working,
        ..s
    }
}

// The session with so many records in the working room.
fn with_working(s: Session, count: usize) -> Session
    ensures { result ≡ record { life = s.life; phase = s.phase; table = s.table; note = s.note; live = s.live; working = record { records = count }; held = s.held } }
{
    Session {
        working: Counts { records: count },
        ..s
    }
}

// An announcement enters: 17 where it is in, then 18 where the room is full.
fn on_announcement(s: Session, live: &[u32], working: &mut [u32], r: Record) -> Session
    requires { BothRooms s.life.limit s live.now working.old }
    ensures { Stands s.life.limit result live.now working.new (changed_to (enter s.life.limit r (records s.working.records working.old)) (receiver_of s live.now working.old [])) }
{
    match enter(working, s.working.records, r) {
        Ok(count) => with_working(s, count),
        Err(EnterError::AlreadyIn) => stop_with(s, working, Stop::AlreadyIn),
        Err(EnterError::Full) => stop_with(s, working, Stop::RoomFull),
        Err(EnterError::NotARoom) => stop_with(s, working, Stop::RoomFull),
    }
}

// A withdrawal leaves: 16 where it is not in.
fn on_withdrawal(s: Session, live: &[u32], working: &mut [u32], r: Record) -> Session
    requires { BothRooms s.life.limit s live.now working.old }
    ensures { Stands s.life.limit result live.now working.new (changed_to (leave r (records s.working.records working.old)) (receiver_of s live.now working.old [])) }
{
    match leave(working, s.working.records, r) {
        Ok(count) => with_working(s, count),
        Err(LeaveError::NotIn) => stop_with(s, working, Stop::NotIn),
        Err(LeaveError::NotARoom) => stop_with(s, working, Stop::NotIn),
    }
}

// The working room becomes the live one, whole, and is emptied: the one place where the live room is written after the start.
fn finish(s: Session, live: &mut [u32], working: &mut [u32], p: RtrEndOfData) -> Session
    requires { BothRooms s.life.limit s live.old working.old }
    ensures { Stands s.life.limit result live.new working.new (finish p (receiver_of s live.old working.old [])) }
{
    let _ = copy(working, live);
    empty(working);
    Session {
        phase: Phase::Idle,
        table: Some(Table {
            session: p.session_id,
            serial: p.serial_number,
            refresh: p.refresh_interval_or_default(),
            retry: p.retry_interval_or_default(),
            expire: p.expire_interval_or_default(),
        }),
        live: s.working,
        working: Counts { records: 0 },
        ..s
    }
}

fn is_version(a: RtrProtocolVersion, b: RtrProtocolVersion) -> bool
    ensures { result ≡ (version_number a == version_number b) }
{
    a == b
}

fn carried_by(pdu: RtrPdu) -> Option<(bool, Record)>
    ensures { result ≡ carried_by pdu }
{
    match pdu {
        RtrPdu::IPv4Prefix(p) => {
            let record = Record::ipv4(p.prefix_length, p.max_length, p.prefix, p.asn);
            Some((p.is_announcement(), record))
        }
        RtrPdu::IPv6Prefix(p) => {
            let prefix = p.prefix;
            let record = Record::ipv6(
                p.prefix_length,
                p.max_length,
                prefix.w0,
                prefix.w1,
                prefix.w2,
                prefix.w3,
                p.asn,
            );
            Some((p.is_announcement(), record))
        }
        _ => None,
    }
}

// What a PDU asks for, decided without the rooms: nothing; a note; a reset; a stop; a load, from the empty table or the live one; a record,
// announced or withdrawn; the end of a load.
#[derive(Clone, Copy)]
enum Doing {
    Passes,
    Notes(u16, u32),
    Resets,
    Stops(Stop),
    Begins(LoadKind, u16),
    Takes(bool, Record),
    Finishes(RtrEndOfData),
}

// In a load this, else 13.
fn in_load(phase: Phase, doing: Doing) -> Doing
    ensures { result ≡ cond (is_loading phase) doing (Doing.Stops Stop.OutOfTurn) }
{
    match phase {
        Phase::Loading(_, _) => doing,
        _ => Doing::Stops(Stop::OutOfTurn),
    }
}

// A change's response must be of the table's session.
fn at_response(phase: Phase, table: Option<Table>, session_id: u16) -> Doing
    ensures { Decides phase table result (λ limit r. no_update (response_in (stage_of phase) session_id r)) }
{
    match phase {
        Phase::AskedFull => Doing::Begins(LoadKind::Full, session_id),
        Phase::AskedChange => match table {
            None => Doing::Stops(Stop::OtherSession),
            Some(t) => {
                if session_id != t.session {
                    return Doing::Stops(Stop::OtherSession);
                }
                Doing::Begins(LoadKind::Change, session_id)
            }
        },
        _ => Doing::Stops(Stop::OutOfTurn),
    }
}

fn at_cache_reset(phase: Phase) -> Doing
    ensures { Makes result (λ limit r. no_update (reset_in (stage_of phase) r)) }
{
    match phase {
        Phase::AskedChange => Doing::Resets,
        _ => Doing::Stops(Stop::OutOfTurn),
    }
}

// An End of Data must be of the load's session.
fn at_end_of_data(phase: Phase, p: RtrEndOfData) -> Doing
    ensures { Makes result (λ limit r. end_in (stage_of phase) p r) }
{
    match phase {
        Phase::Loading(_, session) => {
            if p.session_id == session {
                return Doing::Finishes(p);
            }
            Doing::Stops(Stop::OtherSession)
        }
        _ => Doing::Stops(Stop::OutOfTurn),
    }
}

// A PDU that carries no record: by what it is.
fn decide_other(phase: Phase, table: Option<Table>, pdu: RtrPdu) -> Doing
    requires { (listens (stage_of phase) ≡ true) × (carried_by pdu ≡ None) }
    ensures { Decides phase table result (λ limit r. on_kind limit pdu r) }
{
    match pdu {
        RtrPdu::SerialNotify(p) => Doing::Notes(p.session_id, p.serial_number),
        RtrPdu::CacheResponse(p) => at_response(phase, table, p.session_id),
        RtrPdu::EndOfData(p) => at_end_of_data(phase, p),
        RtrPdu::CacheReset(_) => at_cache_reset(phase),
        RtrPdu::RouterKey(_) => in_load(phase, Doing::Passes),
        _ => Doing::Stops(Stop::OutOfTurn),
    }
}

// A PDU of the receiver's version that is no Error Report: a record of either family in one place, any other by what it is.
fn decide_kind(phase: Phase, table: Option<Table>, pdu: RtrPdu) -> Doing
    requires { listens (stage_of phase) ≡ true }
    ensures { Decides phase table result (λ limit r. on_kind limit pdu r) }
{
    let carried = carried_by(pdu);
    match carried {
        Some((announced, record)) => in_load(phase, Doing::Takes(announced, record)),
        None => decide_other(phase, table, pdu),
    }
}

// An Error Report of either version stops first (19), then another version (14), then what it is decides.
fn decide_pdu(s: Session, pdu: RtrPdu) -> Doing
    requires { listens (stage_of s.phase) ≡ true }
    ensures { DecidesOn s pdu result }
{
    match pdu {
        RtrPdu::ErrorReport(p) => {
            let code = p.error_code;
            Doing::Stops(Stop::ErrorReport(code))
        }
        _ => {
            if !is_version(pdu.version(), s.life.version) {
                return Doing::Stops(Stop::OtherVersion);
            }
            decide_kind(s.phase, s.table, pdu)
        }
    }
}

// What a load starts from is put into the working room: nothing, or the live one.
fn fill(live: &[u32], working: &mut [u32], kind: LoadKind, in_live: Counts) -> Counts
    ensures { Filled kind in_live live.now working.old result working.new }
{
    match kind {
        LoadKind::Full => {
            empty(working);
            Counts { records: 0 }
        }
        LoadKind::Change => {
            let _ = copy(live, working);
            in_live
        }
    }
}

// What was decided is done: for a PDU the one place where the rooms are written.
fn carry_out(s: Session, live: &mut [u32], working: &mut [u32], doing: Doing) -> Session
    requires { BothRooms s.life.limit s live.old working.old }
    ensures { Stands s.life.limit result live.new working.new (carried_out s.life.limit doing (receiver_of s live.old working.old [])).then }
{
    match doing {
        Doing::Passes => s,
        Doing::Notes(session_id, serial_number) => on_serial_notify(s, session_id, serial_number),
        Doing::Resets => in_phase(s, Phase::MustReset),
        Doing::Stops(stop) => stop_with(s, working, stop),
        Doing::Begins(kind, session_id) => {
            let in_live = s.live;
            let in_working = fill(live, working, kind, in_live);
            loading(s, kind, session_id, in_working)
        }
        Doing::Takes(announced, record) => {
            if announced {
                return on_announcement(s, live, working, record);
            }
            on_withdrawal(s, live, working, record)
        }
        Doing::Finishes(p) => finish(s, live, working, p),
    }
}

// How many updates are finished by it.
fn finished_by(doing: Doing) -> usize
    ensures { Updates doing result }
{
    match doing {
        Doing::Finishes(_) => 1,
        _ => 0,
    }
}

// One PDU: it is decided on the session alone and then carried out.
fn on_pdu(s: Session, live: &mut [u32], working: &mut [u32], pdu: RtrPdu) -> DeedDone
    requires { BothRooms s.life.limit s live.old working.old }
    ensures { Did s.life.limit result live.new working.new (on_pdu s.life.limit pdu (receiver_of s live.old working.old [])) }
{
    let doing = decide_pdu(s, pdu);
    let updates = finished_by(doing);
    DeedDone {
        session: carry_out(s, live, working, doing),
        updates,
    }
}

// ---- Feed

#[derive(Clone, Copy)]
struct Step {
    session: Session,
    next: usize,
    updates: usize,
    then: Option<Result<(), FeedError>>,
}

// The session with another count in the hold.
fn with_held(s: Session, held: usize) -> Session
    ensures { result ≡ record { life = s.life; phase = s.phase; table = s.table; note = s.note; live = s.live; working = s.working; held = held } }
{
    Session { held, ..s }
}

// After a PDU the feed goes on, unless it stopped.
fn after_pdu(d: DeedDone, next: usize, updates: usize) -> Step
    requires { updates + d.updates < 18446744073709551616 }
    ensures { result ≡ after_pdu d next updates }
{
    let session = d.session;
    let phase = session.phase;
    match phase {
        Phase::Stopped(stop) => Step {
            session,
            next,
            updates: updates + d.updates,
            then: Some(Err(FeedError::Stopped(stop))),
        },
        _ => Step {
            session,
            next,
            updates: updates + d.updates,
            then: None,
        },
    }
}

// One step: the stream's next PDU, its refusal, or its wish for more.
fn one_step(
    s: Session,
    live: &mut [u32],
    working: &mut [u32],
    hold: &mut [u8],
    piece: &[u8],
    at: usize,
    updates: usize,
) -> Step
    requires { StepAsks s.life.limit s live.old working.old hold.old piece.now at updates }
    ensures { Stepped s.life.limit (feed_here s.life.limit s live.old working.old hold.old piece.now at updates) piece.now at result live.new working.new hold.new }
{
    let searched = search(hold, Stream { held: s.held }, piece, at);
    let next = searched.next;
    let stream = searched.stream;
    match searched.answer {
        Ok(found) => match found {
            Some((pdu, _)) => {
                let d = on_pdu(with_held(s, 0), live, working, pdu);
                after_pdu(d, next, updates)
            }
            None => Step {
                session: with_held(s, stream.held),
                next,
                updates,
                then: Some(Ok(())),
            },
        },
        Err(error) => match error {
            SearchError::Refused(error) => Step {
                session: stop_with(s, working, Stop::Stream(error)),
                next,
                updates,
                then: Some(Err(FeedError::Stopped(Stop::Stream(error)))),
            },
            SearchError::NotAStream => Step {
                session: s,
                next,
                updates,
                then: Some(Err(FeedError::NotAReceiver)),
            },
        },
    }
}

// ---- The run step: announcements that stand one after another in a piece gather in a sorted tail and are merged into the working room together.
// At anything else it breaks off before that PDU, and `one_step` decides it.

// A prefix has 32 bytes at the most: a longer PDU is left alone, and with a hold of 32 bytes no prefix is too long (12).
fn announced_at(version: RtrProtocolVersion, piece: &[u8], at: usize) -> Option<(Record, usize)>
    requires { at ≤ length piece.now }
    ensures { AnnouncedAt version piece.now at result }
{
    let answer = parse_rtr_pdu(&piece[at..]);
    match answer {
        Err(_) => None,
        Ok((pdu, consumed)) => {
            if consumed > 32 {
                return None;
            }
            let spoken = pdu.version();
            if !is_version(spoken, version) {
                return None;
            }
            let carried = carried_by(pdu);
            match carried {
                None => None,
                Some((is_announced, record)) => {
                    if is_announced {
                        return Some((record, at + consumed));
                    }
                    None
                }
            }
        }
    }
}

// A run of announcements is looked for in a load with nothing held, and with a hold that no prefix is too long for.
fn may_gather(s: Session, hold_len: usize) -> bool
    ensures { result ≡ may_gather s hold_len }
{
    if s.held != 0 {
        return false;
    }
    if hold_len < 32 {
        return false;
    }
    let phase = s.phase;
    match phase {
        Phase::Loading(_, _) => true,
        _ => false,
    }
}

// The next announcement goes into the tail, where neither the working room nor the tail has it; the place behind it, or the same place where nothing was taken.
fn gather_one(
    version: RtrProtocolVersion,
    working: &[u32],
    count: usize,
    tail: &mut [u32],
    n: usize,
    piece: &[u8],
    at: usize,
) -> usize
    requires { (is_room (limit_of working.now) count working.now ≡ true) × (is_room (limit_of tail.old) n tail.old ≡ true) × (at ≤ length piece.now) }
    ensures { GatheredOne version working.now count piece.now at n tail.old tail.new result }
{
    let found = announced_at(version, piece, at);
    match found {
        None => at,
        Some((record, next)) => match look_up(working, count, record) {
            Ok(Position::Missing(_)) => match enter(tail, n, record) {
                Ok(_) => next,
                Err(_) => at,
            },
            _ => at,
        },
    }
}

// How many records were taken, or are there now, and where the next PDU begins.
#[derive(Clone, Copy)]
struct Taken {
    count: usize,
    next: usize,
}

fn least(a: usize, b: usize) -> usize
    ensures { (result ≤ a) × (result ≤ b) }
{
    if a < b {
        return a;
    }
    b
}

// Announcements gather in the tail until something else comes, the tail is full or the working room has no space for more.
fn gather(
    version: RtrProtocolVersion,
    working: &[u32],
    count: usize,
    tail: &mut [u32],
    piece: &[u8],
    at: usize,
) -> Taken
    requires { (is_room (limit_of working.now) count working.now ≡ true) × (is_room (limit_of tail.old) 0 tail.old ≡ true) × (at ≤ length piece.now) }
    ensures { GatheredTo (limit_of working.now) (limit_of tail.old) version piece.now at (records count working.now) tail.new result.count result.next }
{
    let most = least(tail.len() / 6, working.len() / 6 - count);
    let mut next = at;
    for n in 0..most {
        let after = gather_one(version, working, count, tail, n, piece, next);
        if after == next {
            return Taken { count: n, next };
        }
        next = after;
    }
    Taken { count: most, next }
}

// A run of announcements enters the working room: gathered first, then merged. Where the next PDU is none the tail is not even set up.
fn take_run(
    version: RtrProtocolVersion,
    working: &mut [u32],
    count: usize,
    piece: &[u8],
    at: usize,
) -> Taken
    requires { (is_room (limit_of working.old) count working.old ≡ true) × (at ≤ length piece.now) }
    ensures { TakenTo (limit_of working.old) version piece.now at count working.old result.count result.next working.new }
{
    let first = announced_at(version, piece, at);
    if let None = first {
        return Taken { count, next: at };
    }
    let mut tail = [0u32; 6 * RUN_LIMIT];
    let run = gather(version, working, count, &mut tail, piece, at);
    let next = run.next;
    match merge(working, count, &tail, run.count) {
        Ok(merged) => Taken {
            count: merged,
            next,
        },
        Err(_) => Taken { count, next: at },
    }
}

// What a feed does next: in a load with nothing held a run of announcements, else one PDU. The promise is that of one PDU.
fn next_step(
    s: Session,
    live: &mut [u32],
    working: &mut [u32],
    hold: &mut [u8],
    piece: &[u8],
    at: usize,
    updates: usize,
) -> Step
    requires { StepAsks s.life.limit s live.old working.old hold.old piece.now at updates }
    ensures { Stepped s.life.limit (feed_here s.life.limit s live.old working.old hold.old piece.now at updates) piece.now at result live.new working.new hold.new }
{
    if !may_gather(s, hold.len()) {
        return one_step(s, live, working, hold, piece, at, updates);
    }
    let run = take_run(s.life.version, working, s.working.records, piece, at);
    if run.next > at {
        return Step {
            session: with_working(s, run.count),
            next: run.next,
            updates,
            then: None,
        };
    }
    one_step(s, live, working, hold, piece, at, updates)
}

// A piece of any length: it is searched PDU by PDU until it is taken or a stop; in Stopped none is taken and the stop is given again.
pub fn feed(s: Session, live: &mut [u32], working: &mut [u32], hold: &mut [u8], piece: &[u8]) -> Fed
    ensures { FedAs s.life.limit s live.old working.old hold.old piece.now result live.new working.new hold.new }
{
    if !is_receiver(s, live, working, hold) {
        return Fed {
            session: s,
            done: Done {
                taken: 0,
                updates: 0,
                answer: Err(FeedError::NotAReceiver),
            },
        };
    }
    let phase = s.phase;
    if let Phase::Stopped(stop) = phase {
        return Fed {
            session: s,
            done: Done {
                taken: 0,
                updates: 0,
                answer: Err(FeedError::Stopped(stop)),
            },
        };
    }
    let mut session = s;
    let mut at = 0;
    let mut updates = 0;
    let answer = loop {
        let step = next_step(session, live, working, hold, piece, at, updates);
        session = step.session;
        at = step.next;
        updates = step.updates;
        let then = step.then;
        if let Some(done) = then {
            break done;
        }
    };
    Fed {
        session,
        done: Done {
            taken: at,
            updates,
            answer,
        },
    }
}
