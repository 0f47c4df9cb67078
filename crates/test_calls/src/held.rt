// A record that is lent: the calls of rtr_held. Numbers that are no session's are taken as a stopped receiver's, which no test lends.
use rtr_encode::EncodeError;
use rtr_models::RtrProtocolVersion;
use rtr_numbers::{put_session, session_of};
use rtr_receiver::*;

fn session_in(numbers: &[u64]) -> Session {
    session_of(numbers).unwrap_or(Session {
        life: Life {
            version: RtrProtocolVersion::V0,
            limit: RECORD_LIMIT,
        },
        phase: Phase::Stopped(Stop::OutOfTurn),
        table: None,
        note: None,
        live: Counts { records: 0 },
        working: Counts { records: 0 },
        held: 0,
    })
}

fn feed_number(answer: Result<(), FeedError>) -> u8 {
    match answer {
        Ok(()) => 0,
        Err(FeedError::Stopped(stop)) => stop.number(),
        Err(FeedError::NotAReceiver) => 22,
    }
}

// The answer's number, 256 times the updates finished, and 65,536 times the bytes taken.
fn feed_said(done: Done) -> u64 {
    let number = feed_number(done.answer) as u64;
    done.taken as u64 % 4294967296 * 65536 + done.updates as u64 % 256 * 256 + number
}

#[unsafe(no_mangle)]
pub extern "C" fn test_held_feed(
    session: &mut [u64],
    live: &mut [u32],
    working: &mut [u32],
    hold: &mut [u8],
    piece: &[u8],
) -> u64 {
    let fed = rtr_held::feed_through(session_in(session), live, working, hold, piece);
    let _ = put_session(fed.session, session);
    feed_said(fed.done)
}

// The same piece so many times, over a record that is lent once for all of them.
#[unsafe(no_mangle)]
pub extern "C" fn test_held_times(
    session: &mut [u64],
    live: &mut [u32],
    working: &mut [u32],
    hold: &mut [u8],
    piece: &[u8],
    count: u32,
) {
    let s = session_in(session);
    let left = rtr_held::feed_times_through(s, live, working, hold, piece, count);
    let _ = put_session(left, session);
}

fn asked(
    full: bool,
    s: Session,
    live: &[u32],
    working: &[u32],
    hold: &[u8],
    out: &mut [u8],
) -> AskedSession {
    if full {
        return rtr_held::full_ask_through(s, live, working, hold, out);
    }
    rtr_held::change_ask_through(s, live, working, hold, out)
}

// A number, and 256 times the bytes written, or needed where the output is too short.
fn ask_number(answer: Result<usize, AskError>) -> u64 {
    match answer {
        Ok(n) => n as u64 % 65536 * 256,
        Err(AskError::NotAReceiver) => 22,
        Err(AskError::WrongPhase) => 20,
        Err(AskError::NoTable) => 21,
        Err(AskError::Encoding(EncodeError::OutputShort { needed })) => {
            needed as u64 % 65536 * 256 + 9
        }
        Err(AskError::Encoding(error)) => error.number() as u64,
    }
}

#[unsafe(no_mangle)]
pub extern "C" fn test_held_ask(
    full: bool,
    session: &mut [u64],
    live: &[u32],
    working: &[u32],
    hold: &[u8],
    out: &mut [u8],
) -> u64 {
    let said = asked(full, session_in(session), live, working, hold, out);
    let _ = put_session(said.session, session);
    ask_number(said.answer)
}

fn reconnect_number(answer: Result<(), NotAReceiver>) -> u8 {
    match answer {
        Ok(()) => 0,
        Err(_) => 22,
    }
}

#[unsafe(no_mangle)]
pub extern "C" fn test_held_reconnect(
    session: &mut [u64],
    live: &[u32],
    working: &mut [u32],
    hold: &[u8],
) -> u8 {
    let connected = rtr_held::reconnect_through(session_in(session), live, working, hold);
    let _ = put_session(connected.session, session);
    reconnect_number(connected.answer)
}

// The comparison's number, or 22.
#[unsafe(no_mangle)]
pub extern "C" fn test_held_notify(
    session: &[u64],
    live: &[u32],
    working: &[u32],
    hold: &[u8],
) -> u8 {
    match rtr_held::notify_through(session_in(session), live, working, hold) {
        Ok(Comparison::None) => 0,
        Ok(Comparison::OtherSession) => 1,
        Ok(Comparison::Same) => 2,
        Ok(Comparison::Newer) => 3,
        Ok(Comparison::Older) => 4,
        Ok(Comparison::Undefined) => 5,
        Err(_) => 22,
    }
}
