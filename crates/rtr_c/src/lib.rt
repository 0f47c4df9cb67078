// The static library for hosts: numbers and slices only, C ABI (include/hingemoss.h). A slice is a pointer and a length. Each call is a
// thin one over the crates below; every input has its answer, and a refused call changes nothing but the numbers that it answers with.
#![tactic(auto)]

ghost use Rattle.std.specs.Prelude.{ℕ, true, ◌≡◌};
ghost use Rattle.rtr_codec.specs.Read.{read};
ghost use Rattle.rtr_codec.specs.Reading.{in_use};
ghost use Rattle.rtr_encode.specs.Answers.{encode_refusal, number_of};
ghost use Rattle.rtr_listing.specs.Promises.{list_refusal};
ghost use Rattle.rtr_listed.specs.Promises.{line_in};
ghost use Rattle.rtr_cache.specs.Cache.{run_refusal};
ghost use Rattle.rtr_cache.specs.Serves.{RoomFits};
ghost use Rattle.rtr_receiver.specs.Promises.{ask_error};
ghost use Rattle.rtr_receiver.specs.Runs.{Call};
ghost use Rattle.rtr_receiver.specs.declared.LoadKind.{LoadKind};
ghost use Rattle.rtr_numbers.specs.Numbers.{value_of};
ghost use Rattle.rtr_origin.specs.Promises.{route_refusal};
ghost use Rattle.rtr_origin.specs.Peer.{peer_refusal};
ghost use Rattle.rtr_walk.specs.Walk.{end_said};
ghost use Rattle.rtr_c.specs.Calls.{is_session, amount_of, end_number, end_value, read_gives, read_c, encode_gives, encode_c, walk_gives, walk_c, start_gives, start_c, ask_gives, full_ask_c, change_ask_c, feed_gives, feed_c, reconnect_gives, reconnect_c, notify_gives, notify_c, listing_c, diff_gives, diff_c, validate_gives, validate_c, validate_all_c};
ghost use Rattle.rtr_c.specs.Calls.{head_numbers, read_listing_gives, read_listing_c, full_run_c, change_run_c};
ghost use Rattle.rtr_c.specs.Private.{answer_number, answer_amount, feed_refusal, notify_compared, validate_state, asked_route};
ghost use Rattle.rtr_c.specs.Runs.{memory, LeadsOn, Begins};

use rtr_cache::RunError;
use rtr_encode::EncodeError;
use rtr_listed::ListedError;
use rtr_listing::{Head, ListError};
use rtr_models::*;
use rtr_origin::{PeerError, Route, RoutePrefix, RouteState, ValidateError};
use rtr_receiver::{AskError, Comparison, FeedError, NotAReceiver};
use rtr_walk::WalkEnd;

// How many numbers a listing's head is.
const HEAD_NUMBERS: usize = 8;

// ---- Numbers of answers

// A call's error, and its number.
trait Refusal {
    ghost refusal: { Self → ℕ };

    fn number(self) -> u8
        ensures { result ≡ refusal self };
}

// An error of a call that counts what it wrote: what is needed where the output is too short, else 0.
trait Needs {
    ghost needs: { Self → ℕ };

    fn needed(self) -> u64
        ensures { result ≡ needs self };
}

// A call's number: 0, or its error's.
fn number<T: Copy, E: Refusal>(answer: Result<T, E>) -> u8
    ensures { result ≡ answer_number E.refusal answer }
{
    match answer {
        Ok(_) => 0,
        Err(error) => error.number(),
    }
}

// What is written, or needed.
fn amount<E: Needs>(answer: Result<usize, E>) -> u64
    ensures { result ≡ answer_amount E.needs answer }
{
    match answer {
        Ok(n) => n as u64,
        Err(error) => error.needed(),
    }
}

impl Refusal for EncodeError {
    ghost refusal = { λ e. number_of (encode_refusal e) };

    fn number(self) -> u8 {
        self.number()
    }
}

impl Needs for EncodeError {
    ghost needs = { λ e. amount_of (encode_refusal e) };

    fn needed(self) -> u64 {
        match self {
            EncodeError::OutputShort { needed } => needed as u64,
            _ => 0,
        }
    }
}

impl Refusal for ListError {
    ghost refusal = { λ e. number_of (list_refusal e) };

    fn number(self) -> u8 {
        self.number()
    }
}

impl Needs for ListError {
    ghost needs = { λ e. amount_of (list_refusal e) };

    fn needed(self) -> u64 {
        match self {
            ListError::NotAReceiver => 0,
            ListError::OutputShort { needed } => needed as u64,
        }
    }
}

impl Refusal for RunError {
    ghost refusal = { λ e. number_of (run_refusal e) };

    fn number(self) -> u8 {
        self.number()
    }
}

impl Needs for RunError {
    ghost needs = { λ e. amount_of (run_refusal e) };

    fn needed(self) -> u64 {
        match self {
            RunError::NotARoom => 0,
            RunError::OutputShort { needed } => needed as u64,
        }
    }
}

impl Refusal for PeerError {
    ghost refusal = { λ e. number_of (peer_refusal e) };

    fn number(self) -> u8 {
        self.number()
    }
}

// Of a list of states.
impl Needs for PeerError {
    ghost needs = { λ e. amount_of (peer_refusal e) };

    fn needed(self) -> u64 {
        match self {
            PeerError::OutOfShape => 0,
            PeerError::NoTable => 0,
            PeerError::StatesShort { needed } => needed as u64,
        }
    }
}

impl Refusal for ValidateError {
    ghost refusal = { route_refusal };

    fn number(self) -> u8 {
        self.number()
    }
}

impl Refusal for AskError {
    ghost refusal = { λ e. number_of (ask_error e) };

    fn number(self) -> u8 {
        match self {
            AskError::NotAReceiver => 22,
            AskError::WrongPhase => 20,
            AskError::NoTable => 21,
            AskError::Encoding(encoding) => encoding.number(),
        }
    }
}

impl Refusal for FeedError {
    ghost refusal = { feed_refusal };

    fn number(self) -> u8 {
        match self {
            FeedError::Stopped(stop) => stop.number(),
            FeedError::NotAReceiver => 22,
        }
    }
}

impl Refusal for NotAReceiver {
    ghost refusal = { λ _. 22 };

    fn number(self) -> u8 {
        22
    }
}

// The line that does not fit or is missing; a room of another size is no line's.
fn line_number(error: ListedError) -> u64
    ensures { result ≡ line_in error }
{
    match error {
        ListedError::NotARoom => 0,
        ListedError::Line(n) => n as u64,
    }
}

// What a listing says before its records.
fn head_numbers(head: Head) -> [u64; HEAD_NUMBERS]
    ensures { result ≡ head_numbers head }
{
    let table = head.table;
    let t = rtr_numbers::table_or(table);
    [
        head.stopped as u64,
        rtr_numbers::table_number(table),
        t.session as u64,
        t.serial as u64,
        t.refresh as u64,
        t.retry as u64,
        t.expire as u64,
        head.count as u64,
    ]
}

fn end_number(end: WalkEnd) -> u64
    ensures { result ≡ end_number (end_said end) }
{
    match end {
        WalkEnd::Plain(_) => 0,
        WalkEnd::Empty => 1,
        WalkEnd::Refused(_) => 2,
        WalkEnd::TooDeep => 3,
    }
}

fn end_value(end: WalkEnd) -> u64
    ensures { result ≡ end_value (end_said end) }
{
    match end {
        WalkEnd::Plain(kind) => kind.to_u8() as u64,
        WalkEnd::Empty => 0,
        WalkEnd::Refused(number) => number as u64,
        WalkEnd::TooDeep => 0,
    }
}

fn notify_compared(answer: Result<Comparison, NotAReceiver>) -> u64
    ensures { result ≡ notify_compared answer }
{
    match answer {
        Ok(Comparison::None) => 0,
        Ok(Comparison::OtherSession) => 1,
        Ok(Comparison::Same) => 2,
        Ok(Comparison::Newer) => 3,
        Ok(Comparison::Older) => 4,
        Ok(Comparison::Undefined) => 5,
        Err(_) => 0,
    }
}

fn validate_state(answer: Result<RouteState, ValidateError>) -> u64
    ensures { result ≡ validate_state answer }
{
    match answer {
        Ok(state) => state.number() as u64,
        Err(_) => 0,
    }
}

// Where numbers are no route's, one that is too long stands for them: it is refused by 23 in its turn.
fn asked_route(found: Option<Route>) -> Route
    ensures { result ≡ asked_route found }
{
    found.unwrap_or(Route {
        prefix: RoutePrefix::IPv4(0),
        length: 255,
        origin: 0,
    })
}

// What follows is C's: an answer is a number, and what it brings is written where the host says. So each call tells its own Result and Option by numbers.

// ---- Codec

// Reads one PDU: 0 and its 12 numbers, or the refusal.
#[unsafe(no_mangle)]
pub extern "C" fn hingemoss_read(bytes: &[u8], pdu: &mut [u64]) -> u8
    ensures { read_gives result pdu.new ≡ read_c bytes.now pdu.old }
{
    if pdu.len() != rtr_pdu_numbers::PDU_NUMBERS {
        return 9;
    }
    match rtr_codec::parse_rtr_pdu(bytes) {
        Ok((value, consumed)) => {
            rtr_pdu_numbers::put_pdu(value, consumed, pdu);
            0
        }
        Err(error) => error.number(),
    }
}

// Value i of that refusal.
#[unsafe(no_mangle)]
pub extern "C" fn hingemoss_read_value(bytes: &[u8], i: usize) -> u64
    ensures { result ≡ value_of i (read in_use bytes.now) }
{
    match rtr_codec::parse_rtr_pdu(bytes) {
        Ok((_, _)) => 0,
        Err(error) => rtr_numbers::error_value(error, i),
    }
}

// Encodes one PDU from its numbers: 0 and the bytes written, or the refusal.
#[unsafe(no_mangle)]
pub extern "C" fn hingemoss_encode(
    pdu: &[u64],
    payload: &[u8],
    out: &mut [u8],
    written: &mut u64,
) -> u8
    ensures { encode_gives result written.new out.new ≡ encode_c pdu.now payload.now out.old }
{
    *written = 0;
    let Some((value, _)) = rtr_pdu_numbers::pdu_of(pdu) else {
        return 22;
    };
    let answer = rtr_encode::encode(value, payload, out);
    *written = amount(answer);
    number(answer)
}

// Walks an Error Report's copies: 0, the level, the end and its value, or the refusal.
#[unsafe(no_mangle)]
pub extern "C" fn hingemoss_walk(
    bytes: &[u8],
    level: &mut u64,
    end: &mut u64,
    value: &mut u64,
) -> u8
    ensures { walk_gives result level.new end.new value.new ≡ walk_c bytes.now }
{
    match rtr_walk::walk(bytes) {
        Ok((depth, last)) => {
            *level = depth as u64;
            *end = end_number(last);
            *value = end_value(last);
            0
        }
        Err(error) => {
            *level = 0;
            *end = 0;
            *value = 0;
            error.number()
        }
    }
}

// ---- Receiver. By its first promise a call's answer and all that it leaves are known. Those that write a session have two more: by the second the session's numbers are a session's after the call exactly where
// they were before it (a start that answers 0 leaves a session's); by the third it is the receiver's own call between the two memories (specs/Runs.antt).

// A fresh receiver.
#[unsafe(no_mangle)]
pub extern "C" fn hingemoss_start(
    version: u8,
    session: &mut [u64],
    live: &mut [u32],
    working: &mut [u32],
    hold: &[u8],
) -> u8
    ensures says { start_gives result session.new live.new working.new ≡ start_c version session.old live.old working.old hold.now }
    ensures makes_session { result ≡ 0 → is_session session.new ≡ true }
    ensures begins { result ≡ 0 → Begins version (memory session.new live.new working.new hold.now) }
{
    if session.len() != rtr_numbers::SESSION_NUMBERS {
        return 22;
    }
    let Some(v) = RtrProtocolVersion::from_u8(version) else {
        return 22;
    };
    match rtr_receiver::start(v, live, working, hold) {
        Ok(s) => {
            rtr_numbers::put_session(s, session);
            0
        }
        Err(_) => 22,
    }
}

// Asks for the whole table: 0 and a Reset Query of 8 bytes, or the refusal.
#[unsafe(no_mangle)]
pub extern "C" fn hingemoss_full_ask(
    session: &mut [u64],
    live: &[u32],
    working: &[u32],
    hold: &[u8],
    out: &mut [u8],
) -> u8
    ensures says { ask_gives result session.new out.new ≡ full_ask_c session.old live.now working.now hold.now out.old }
    ensures stays_session { is_session session.new ≡ is_session session.old }
    ensures leads_on { LeadsOn (memory session.old live.now working.now hold.now) (Call.ask LoadKind.Full out.old) (memory session.new live.now working.now hold.now) }
{
    let Some(s) = rtr_numbers::session_of(session) else {
        return 22;
    };
    let asked = rtr_receiver::full_ask(s, live, working, hold, out);
    rtr_numbers::put_session(asked.session, session);
    number(asked.answer)
}

// Asks for what changed: 0 and a Serial Query of 12 bytes, or the refusal.
#[unsafe(no_mangle)]
pub extern "C" fn hingemoss_change_ask(
    session: &mut [u64],
    live: &[u32],
    working: &[u32],
    hold: &[u8],
    out: &mut [u8],
) -> u8
    ensures says { ask_gives result session.new out.new ≡ change_ask_c session.old live.now working.now hold.now out.old }
    ensures stays_session { is_session session.new ≡ is_session session.old }
    ensures leads_on { LeadsOn (memory session.old live.now working.now hold.now) (Call.ask LoadKind.Change out.old) (memory session.new live.now working.now hold.now) }
{
    let Some(s) = rtr_numbers::session_of(session) else {
        return 22;
    };
    let asked = rtr_receiver::change_ask(s, live, working, hold, out);
    rtr_numbers::put_session(asked.session, session);
    number(asked.answer)
}

// Feeds a piece of any length: 0 or the stop, the bytes taken and the updates finished.
#[unsafe(no_mangle)]
pub extern "C" fn hingemoss_feed(
    session: &mut [u64],
    live: &mut [u32],
    working: &mut [u32],
    hold: &mut [u8],
    piece: &[u8],
    taken: &mut u64,
    updates: &mut u64,
) -> u8
    ensures says { feed_gives result session.new live.new working.new hold.new taken.new updates.new ≡ feed_c session.old live.old working.old hold.old piece.now }
    ensures stays_session { is_session session.new ≡ is_session session.old }
    ensures leads_on { LeadsOn (memory session.old live.old working.old hold.old) (Call.feed piece.now) (memory session.new live.new working.new hold.new) }
{
    *taken = 0;
    *updates = 0;
    let Some(s) = rtr_numbers::session_of(session) else {
        return 22;
    };
    let fed = rtr_receiver::feed(s, live, working, hold, piece);
    let done = fed.done;
    rtr_numbers::put_session(fed.session, session);
    *taken = done.taken as u64;
    *updates = done.updates as u64;
    number(done.answer)
}

// A new connection.
#[unsafe(no_mangle)]
pub extern "C" fn hingemoss_reconnect(
    session: &mut [u64],
    live: &[u32],
    working: &mut [u32],
    hold: &[u8],
) -> u8
    ensures says { reconnect_gives result session.new working.new ≡ reconnect_c session.old live.now working.old hold.now }
    ensures stays_session { is_session session.new ≡ is_session session.old }
    ensures leads_on { LeadsOn (memory session.old live.now working.old hold.now) Call.reconnect (memory session.new live.now working.new hold.now) }
{
    let Some(s) = rtr_numbers::session_of(session) else {
        return 22;
    };
    let reconnected = rtr_receiver::reconnect(s, live, working, hold);
    rtr_numbers::put_session(reconnected.session, session);
    number(reconnected.answer)
}

// The last Serial Notify beside the table.
#[unsafe(no_mangle)]
pub extern "C" fn hingemoss_notify(
    session: &[u64],
    live: &[u32],
    working: &[u32],
    hold: &[u8],
    answer: &mut u64,
) -> u8
    ensures { notify_gives result answer.new ≡ notify_c session.now live.now working.now hold.now }
{
    *answer = 0;
    let Some(s) = rtr_numbers::session_of(session) else {
        return 22;
    };
    let compared = rtr_receiver::notify(s, live, working, hold);
    *answer = notify_compared(compared);
    number(compared)
}

// The table as document 01's lines of text: 0 and the bytes written, or the refusal.
#[unsafe(no_mangle)]
pub extern "C" fn hingemoss_listing(
    session: &[u64],
    live: &[u32],
    out: &mut [u8],
    written: &mut u64,
) -> u8
    ensures { encode_gives result written.new out.new ≡ listing_c session.now live.now out.old }
{
    *written = 0;
    let Some(s) = rtr_numbers::session_of(session) else {
        return 22;
    };
    let answer = rtr_listing::listing(s, live, out);
    *written = amount(answer);
    number(answer)
}

// A listing read back: 0, its table in the room and what it says before its records; 22; or 24 and the line that does not fit or is missing.
#[unsafe(no_mangle)]
pub extern "C" fn hingemoss_read_listing(
    text: &[u8],
    room: &mut [u32],
    head: &mut [u64],
    line: &mut u64,
) -> u8
    ensures { read_listing_gives result room.new head.new line.new ≡ read_listing_c text.now room.old head.old }
{
    *line = 0;
    if head.len() != HEAD_NUMBERS {
        return 22;
    }
    match rtr_listed::read_listing(text, room) {
        Ok(said) => {
            let numbers = head_numbers(said);
            rtr_numbers::put_numbers(head, &numbers);
            0
        }
        Err(error) => {
            *line = line_number(error);
            error.number()
        }
    }
}

// What changed from one listing to another, as rtr-diff prints it: 0 and the text, which tells a refused file too; or 22 or 9.
#[unsafe(no_mangle)]
pub extern "C" fn hingemoss_diff(
    old_text: &[u8],
    new_text: &[u8],
    old_room: &mut [u32],
    new_room: &mut [u32],
    out: &mut [u8],
    written: &mut u64,
) -> u8
    ensures { diff_gives result written.new old_room.new new_room.new out.new ≡ diff_c old_text.now new_text.now old_room.old new_room.old out.old }
{
    let answer = rtr_diffs::diff(old_text, new_text, old_room, new_room, out);
    *written = amount(answer);
    number(answer)
}

// Whether a route is good (RFC 6811) by the live table: 0 and its state, or the refusal.
#[unsafe(no_mangle)]
pub extern "C" fn hingemoss_validate(
    session: &[u64],
    live: &[u32],
    working: &[u32],
    hold: &[u8],
    route: &[u32],
    state: &mut u64,
) -> u8
    ensures { validate_gives result state.new ≡ validate_c session.now live.now working.now hold.now route.now }
{
    *state = 0;
    if route.len() != 6 {
        return 22;
    }
    let Some(s) = rtr_numbers::session_of(session) else {
        return 22;
    };
    let asked = asked_route(rtr_origin::route_of(route));
    let answer = rtr_origin::validate(s, live, working, hold, asked);
    *state = validate_state(answer);
    number(answer)
}

// The states of a list of routes, each as for the route alone: 0 and how many routes there were, or the refusal.
#[unsafe(no_mangle)]
pub extern "C" fn hingemoss_validate_all(
    session: &[u64],
    live: &[u32],
    working: &[u32],
    hold: &[u8],
    routes: &[u32],
    states: &mut [u8],
    written: &mut u64,
) -> u8
    ensures { encode_gives result written.new states.new ≡ validate_all_c session.now live.now working.now hold.now routes.now states.old }
{
    *written = 0;
    let Some(s) = rtr_numbers::session_of(session) else {
        return 22;
    };
    let answer = rtr_origin::validate_all(s, live, working, hold, routes, states);
    *written = amount(answer);
    number(answer)
}

// ---- Cache. By its second promise a call was lent numbers of 32 bits, as every host's are: what a receiver makes of the run rests on it (rtr_cache, specs/Serves.antt).

// All of a table, as a cache answers a Reset Query: 0 and the bytes written, or the refusal.
#[unsafe(no_mangle)]
pub extern "C" fn hingemoss_full_run(
    version: u8,
    end: &[u64],
    table: &[u32],
    count: u64,
    out: &mut [u8],
    written: &mut u64,
) -> u8
    ensures says { encode_gives result written.new out.new ≡ full_run_c version end.now table.now count out.old }
    ensures room_fits { RoomFits table.now }
{
    *written = 0;
    let Some(v) = RtrProtocolVersion::from_u8(version) else {
        return 22;
    };
    let Some(t) = rtr_numbers::table_of(end) else {
        return 22;
    };
    let answer = rtr_cache::full_run(v, t, table, count as usize, out);
    *written = amount(answer);
    number(answer)
}

// What changed from the first table to the second, as a cache answers a Serial Query: 0 and the bytes written, or the refusal.
#[unsafe(no_mangle)]
pub extern "C" fn hingemoss_change_run(
    version: u8,
    end: &[u64],
    first: &[u32],
    first_count: u64,
    second: &[u32],
    second_count: u64,
    out: &mut [u8],
    written: &mut u64,
) -> u8
    ensures says { encode_gives result written.new out.new
        ≡ change_run_c version end.now first.now first_count second.now second_count out.old }
    ensures room_fits { RoomFits first.now × RoomFits second.now }
{
    *written = 0;
    let Some(v) = RtrProtocolVersion::from_u8(version) else {
        return 22;
    };
    let Some(t) = rtr_numbers::table_of(end) else {
        return 22;
    };
    let answer = rtr_cache::change_run(
        v,
        t,
        first,
        first_count as usize,
        second,
        second_count as usize,
        out,
    );
    *written = amount(answer);
    number(answer)
}
