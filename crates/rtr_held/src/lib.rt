// A session record that is lent: a long-running host keeps one, lends it to each call, and finds it updated in place. Each call takes the record apart,
// makes the receiver's by-value call and puts the record that comes back in its place, so it promises what that call promises, of the record at exit.
// `feed_times` is such a host's loop: one record, lent once for all its feeds.
// The calls ending in `_through` take the record by value and lend it. The run reader keeps captured bytes together with a place in them; `read_run`,
// `rest_at` and `done_at` are the same over plain parameters, as `rtr_codec::read_at` is.
#![tactic(auto)]

ghost use Rattle.std.specs.Prelude.{◌≡◌, ◌-◌, leb, length};
ghost use Rattle.rtr_codec.specs.Reading.{in_use};
ghost use Rattle.rtr_codec.specs.Run.{read_at, run_said};
ghost use Rattle.rtr_held.specs.Times.{FedTimes};
ghost use Rattle.rtr_receiver.specs.Promises.{FedAs, full_ask_says, change_ask_says, ask_said, reconnect_says, reconnect_said, notify_says, notify_said};

use rtr_codec::{RtrError, RunRead, read_at};
use rtr_models::RtrPdu;
use rtr_receiver::{
    AskError, AskedSession, Comparison, Done, Fed, NotAReceiver, Reconnected, Session, change_ask,
    feed, full_ask, notify, reconnect,
};

// ---- In place

// Feeds a piece to the receiver whose record is lent.
pub fn feed_in_place(
    session: &mut Session,
    live: &mut [u32],
    working: &mut [u32],
    hold: &mut [u8],
    piece: &[u8],
) -> Done
    ensures { FedAs session.old.life.limit session.old live.old working.old hold.old piece.now (record { session = session.new; done = result }) live.new working.new hold.new }
{
    let fed = feed(*session, live, working, hold, piece);
    *session = fed.session;
    fed.done
}

// Feeds the same piece so many times to the receiver whose record is lent: the record is lent once, for the whole loop, and lent on to each feed.
pub fn feed_times(
    session: &mut Session,
    live: &mut [u32],
    working: &mut [u32],
    hold: &mut [u8],
    piece: &[u8],
    count: u32,
)
    ensures { FedTimes piece.now (record { session = session.old; live = live.old; working = working.old; hold = hold.old }) count (record { session = session.new; live = live.new; working = working.new; hold = hold.new }) }
{
    for _i in 0..count {
        let _done = feed_in_place(session, live, working, hold, piece);
    }
}

// Asks for the whole table.
pub fn full_ask_in_place(
    session: &mut Session,
    live: &[u32],
    working: &[u32],
    hold: &[u8],
    out: &mut [u8],
) -> Result<usize, AskError>
    ensures { ask_said (record { session = session.new; answer = result }) live.now working.now hold.now out.new ≡ full_ask_says session.old.life.limit session.old live.now working.now hold.now out.old }
{
    let asked = full_ask(*session, live, working, hold, out);
    *session = asked.session;
    asked.answer
}

// Asks for what changed.
pub fn change_ask_in_place(
    session: &mut Session,
    live: &[u32],
    working: &[u32],
    hold: &[u8],
    out: &mut [u8],
) -> Result<usize, AskError>
    ensures { ask_said (record { session = session.new; answer = result }) live.now working.now hold.now out.new ≡ change_ask_says session.old.life.limit session.old live.now working.now hold.now out.old }
{
    let asked = change_ask(*session, live, working, hold, out);
    *session = asked.session;
    asked.answer
}

// A new connection.
pub fn reconnect_in_place(
    session: &mut Session,
    live: &[u32],
    working: &mut [u32],
    hold: &[u8],
) -> Result<(), NotAReceiver>
    ensures { reconnect_said (record { session = session.new; answer = result }) live.now working.new hold.now ≡ reconnect_says session.old.life.limit session.old live.now working.old hold.now }
{
    let connected = reconnect(*session, live, working, hold);
    *session = connected.session;
    connected.answer
}

// Whether the last Serial Notify tells of something newer: the record is only read.
pub fn notify_of(
    session: &Session,
    live: &[u32],
    working: &[u32],
    hold: &[u8],
) -> Result<Comparison, NotAReceiver>
    ensures { notify_said result ≡ notify_says session.now.life.limit session.now live.now working.now hold.now }
{
    notify(*session, live, working, hold)
}

// ---- By value again, through the reference

pub fn feed_through(
    session: Session,
    live: &mut [u32],
    working: &mut [u32],
    hold: &mut [u8],
    piece: &[u8],
) -> Fed
    ensures { FedAs session.life.limit session live.old working.old hold.old piece.now result live.new working.new hold.new }
{
    let mut lent = session;
    let done = feed_in_place(&mut lent, live, working, hold, piece);
    Fed {
        session: lent,
        done,
    }
}

// The record is lent once, for all the feeds.
pub fn feed_times_through(
    session: Session,
    live: &mut [u32],
    working: &mut [u32],
    hold: &mut [u8],
    piece: &[u8],
    count: u32,
) -> Session
    ensures { FedTimes piece.now (record { session = session; live = live.old; working = working.old; hold = hold.old }) count (record { session = result; live = live.new; working = working.new; hold = hold.new }) }
{
    let mut lent = session;
    feed_times(&mut lent, live, working, hold, piece, count);
    lent
}

pub fn full_ask_through(
    session: Session,
    live: &[u32],
    working: &[u32],
    hold: &[u8],
    out: &mut [u8],
) -> AskedSession
    ensures { ask_said result live.now working.now hold.now out.new ≡ full_ask_says session.life.limit session live.now working.now hold.now out.old }
{
    let mut lent = session;
    let answer = full_ask_in_place(&mut lent, live, working, hold, out);
    AskedSession {
        session: lent,
        answer,
    }
}

pub fn change_ask_through(
    session: Session,
    live: &[u32],
    working: &[u32],
    hold: &[u8],
    out: &mut [u8],
) -> AskedSession
    ensures { ask_said result live.now working.now hold.now out.new ≡ change_ask_says session.life.limit session live.now working.now hold.now out.old }
{
    let mut lent = session;
    let answer = change_ask_in_place(&mut lent, live, working, hold, out);
    AskedSession {
        session: lent,
        answer,
    }
}

pub fn reconnect_through(
    session: Session,
    live: &[u32],
    working: &mut [u32],
    hold: &[u8],
) -> Reconnected
    ensures { reconnect_said result live.now working.new hold.now ≡ reconnect_says session.life.limit session live.now working.old hold.now }
{
    let mut lent = session;
    let answer = reconnect_in_place(&mut lent, live, working, hold);
    Reconnected {
        session: lent,
        answer,
    }
}

pub fn notify_through(
    session: Session,
    live: &[u32],
    working: &[u32],
    hold: &[u8],
) -> Result<Comparison, NotAReceiver>
    ensures { notify_said result ≡ notify_says session.life.limit session live.now working.now hold.now }
{
    notify_of(&session, live, working, hold)
}

// ---- The run reader

// Captured bytes and the place to read on from.
#[derive(Clone, Copy)]
pub struct RtrRun<'a> {
    pub bytes: &'a [u8],
    pub at: usize,
}

// From the first byte on.
pub fn run_of<'a>(bytes: &'a [u8]) -> RtrRun<'a>
    ensures { (result.bytes ≡ bytes.entry) × (result.at ≡ 0) }
{
    RtrRun { bytes, at: 0 }
}

// The place that is read next.
pub fn place_of<'a>(run: RtrRun<'a>) -> usize
    ensures { result ≡ run.entry.at }
{
    run.at
}

// How many bytes stand from a place on: 0 at or past the end.
pub fn rest_at(bytes: &[u8], at: usize) -> usize
    ensures { result ≡ length bytes.now - at }
{
    if at < bytes.len() {
        bytes.len() - at
    } else {
        0
    }
}

// Whether a place is at or past the end.
pub fn done_at(bytes: &[u8], at: usize) -> bool
    ensures { result ≡ leb (length bytes.now) at }
{
    bytes.len() <= at
}

// How many bytes a run has left.
pub fn rest_of<'a>(run: RtrRun<'a>) -> usize
    ensures { result ≡ length run.entry.bytes.now - run.entry.at }
{
    rest_at(run.bytes, run.at)
}

// Whether a run has nothing left.
pub fn is_done<'a>(run: RtrRun<'a>) -> bool
    ensures { result ≡ leb (length run.entry.bytes.now) run.entry.at }
{
    done_at(run.bytes, run.at)
}

// The next PDU, and the place behind it; or the refusal, with the place unmoved: at or past the end 1 (0, 8).
// The PDU's own places count from its first byte, which is the place before this call: ask its parts of the bytes from there on.
pub fn next_pdu<'s, 'a>(run: &'s mut RtrRun<'a>) -> Result<(RtrPdu, usize), RtrError>
    ensures { (run_said (record { answer = result; next = run.new.at }) ≡ read_at in_use run.old.bytes.now run.old.at)
        × (run.new.bytes ≡ run.old.bytes) }
{
    let read = read_at(run.bytes, run.at);
    run.at = read.next;
    read.answer
}

// The same from a place, with no run to keep: makes one, lends it, and gives back the answer and its place.
// The PDU's own places count from `at`.
pub fn read_run(bytes: &[u8], at: usize) -> RunRead
    ensures { run_said result ≡ read_at in_use bytes.now at }
{
    let mut run = RtrRun { bytes, at };
    let answer = next_pdu(&mut run);
    RunRead {
        answer,
        next: run.at,
    }
}
