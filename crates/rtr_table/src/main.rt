// The program of document 01, "The listing": version 1, a hold of 8,192 bytes, one full ask (its query goes nowhere), standard input, and then the
// table on standard output. `list_all` promises what lies between: pieces are fed to one run of the receiver, one after another, up to a turn that has
// nothing to feed or a stop, and what it hands back is the listing of what is then in memory. Outside stand the input and the output, of which no
// contract can speak: that `read_piece` hands on what the system read, that `feed_all` reads once for each turn, and that `main` writes what it got.
#![tactic(auto)]

ghost use Rattle.std.specs.Prelude.{suc, ◌*◌, ◌≤◌, ◌++◌, ◌≡◌, length};
ghost use Rattle.rtr_room.specs.Room.{record_found};
ghost use Rattle.rtr_listing.specs.Listing.{head_lines, head_of, record_lines};
ghost use Rattle.rtr_table.specs.Feeding.{memory, goes_on, Turn, HeardAll, Ends};
ghost use Rattle.rtr_table.specs.Printing.{Shows, lines_of, lines_up_to, Sized, Listed};

use rtr_listing::{head_lines, record_lines};
use rtr_models::RtrProtocolVersion;
use rtr_receiver::{FeedError, NotAReceiver, RECORD_LIMIT, Session, feed, full_ask, start};
use rtr_room::{Record, get};
use std::io;
use std::io::Read;

// The session after a turn, and whether there is to be another.
#[derive(Clone, Copy)]
struct Heard {
    session: Session,
    is_open: bool,
}

// The session where the input is left, and how many bytes the last read gave.
#[derive(Clone, Copy)]
struct Ended {
    session: Session,
    last: usize,
}

fn goes_on(answer: Result<(), FeedError>) -> bool
    ensures { result ≡ goes_on answer }
{
    match answer {
        Ok(()) => true,
        Err(FeedError::Stopped(_)) => false,
        Err(FeedError::NotAReceiver) => false,
    }
}

// A turn with the n bytes that were read. What is there is fed, be it less than a piece holds.
fn hear_piece(
    s: Session,
    live: &mut [u32],
    working: &mut [u32],
    hold: &mut [u8],
    piece: &[u8],
    n: usize,
) -> Heard
    requires { n ≤ length piece.now }
    ensures { Turn (memory s live.old working.old hold.old) piece.now n (memory result.session live.new working.new hold.new) result.is_open }
{
    if n == 0 {
        return Heard {
            session: s,
            is_open: false,
        };
    }
    let fed = feed(s, live, working, hold, &piece[..n]);
    let session = fed.session;
    let done = fed.done;
    let answer = done.answer;
    Heard {
        session,
        is_open: goes_on(answer),
    }
}

// All that is read is read here. A read that fails counts as one of nothing, and so ends the input.
fn read_piece(input: &mut impl Read, piece: &mut [u8]) -> usize
    ensures { result ≤ length piece.new }
{
    match input.read(piece) {
        Ok(n) => n,
        Err(_) => 0,
    }
}

// The input to its end, or to a stop: nothing is read behind one, so that it is told at once on a connection that stays open. The loop has a
// last turn, since nothing says that the input ends.
fn feed_all(
    input: &mut impl Read,
    s: Session,
    live: &mut [u32],
    working: &mut [u32],
    hold: &mut [u8],
) -> Ended
    ensures { HeardAll (memory s live.old working.old hold.old) result.last (memory result.session live.new working.new hold.new) }
{
    let mut piece = [0u8; 65536];
    let mut session = s;
    let mut last = 0;
    for _turn in 0..u64::MAX {
        last = read_piece(input, &mut piece);
        let heard = hear_piece(session, live, working, hold, &piece, last);
        session = heard.session;
        if !heard.is_open {
            return Ended { session, last };
        }
    }
    Ended { session, last }
}

// One full ask and the whole input: what is lent is at the end of a run of the receiver.
fn hear_all(
    input: &mut impl Read,
    live: &mut [u32],
    working: &mut [u32],
    hold: &mut [u8],
    query: &mut [u8],
) -> Result<Ended, NotAReceiver>
    ensures { Ends result query.old live.new working.new hold.new }
{
    let started = start(RtrProtocolVersion::V1, live, working, hold);
    match started {
        Ok(s) => {
            let asked = full_ask(s, live, working, hold, query);
            let session = asked.session;
            Ok(feed_all(input, session, live, working, hold))
        }
        Err(_) => Err(NotAReceiver),
    }
}

// The head's lines. None is longer than 128 bytes (rtr_listing's laws), so 9 never arises.
fn head_text(s: Session, lines: &mut [u8]) -> usize
    requires { 128 ≤ length lines.old }
    ensures { Shows (head_lines (head_of s)) result lines.new }
{
    let answer = head_lines(s, lines);
    match answer {
        Ok(n) => n,
        Err(_) => 0,
    }
}

// A record's lines, likewise.
fn record_text(r: Record, lines: &mut [u8]) -> usize
    requires { 128 ≤ length lines.old }
    ensures { Shows (record_lines r) result lines.new }
{
    let answer = record_lines(r, lines);
    match answer {
        Ok(n) => n,
        Err(_) => 0,
    }
}

// The lines of the record at a place; there is one up to the count.
fn text_at(live: &[u32], i: usize, lines: &mut [u8]) -> usize
    requires { 128 ≤ length lines.old }
    ensures { Shows (lines_of (record_found live.now i)) result lines.new }
{
    let found = get(live, i);
    match found {
        Some(r) => record_text(r, lines),
        None => 0,
    }
}

// The listing, one part behind another: the head, and then record by record.
fn table_text(s: Session, live: &[u32], lines: &mut [u8]) -> usize
    requires { 128 * suc s.live.records ≤ length lines.old }
    ensures { Shows (head_lines (head_of s) ++ lines_up_to live.now s.live.records) result lines.new }
{
    let in_live = s.live;
    let count = in_live.records;
    let mut n = head_text(s, lines);
    for i in 0..count {
        let more = text_at(live, i, &mut lines[n..]);
        n += more;
    }
    n
}

// All that is done between the input and the output.
fn list_all(
    input: &mut impl Read,
    live: &mut [u32],
    working: &mut [u32],
    hold: &mut [u8],
    query: &mut [u8],
    lines: &mut [u8],
) -> usize
    requires { Sized live.old working.old hold.old lines.old }
    ensures { Listed query.old live.new working.new hold.new result lines.new }
{
    let heard = hear_all(input, live, working, hold, query);
    match heard {
        Ok(ended) => {
            let session = ended.session;
            table_text(session, live, lines)
        }
        Err(_) => 0,
    }
}

fn main(rt: HostRuntime) -> io::Result<()> {
    let mut live = [0u32; 6 * RECORD_LIMIT];
    let mut working = [0u32; 6 * RECORD_LIMIT];
    let mut hold = [0u8; 8192];
    let mut query = [0u8; 8];
    let mut lines = [0u8; 128 * (1 + RECORD_LIMIT)];
    let mut input = rt.stdin();
    let n = list_all(
        &mut input,
        &mut live,
        &mut working,
        &mut hold,
        &mut query,
        &mut lines,
    );
    rt.write_all(&lines[0..n])
}
