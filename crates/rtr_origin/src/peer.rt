// A whole peer at once: the state of every route of a lent list, each what the single question gives for it.
ghost use Rattle.std.specs.Prelude.{◌*◌, ◌/◌, ◌<◌, ◌≤◌, true, ◌≡◌, length};
ghost use Rattle.rtr_base.specs.Over.{over};
ghost use Rattle.rtr_encode.specs.Answers.{number_of};
ghost use Rattle.rtr_room.specs.Room.{records, is_room, limit_of};
ghost use Rattle.rtr_origin.specs.Numbers.{route_of};
ghost use Rattle.rtr_origin.specs.Private.{plain};
ghost use Rattle.rtr_origin.specs.Peer.{place_of, states_of, route_count, peer_refusal, peer_gives, peer_leaves};
ghost use Rattle.rtr_origin.specs.Survey.{lower_of, bounds_with, survey_of, bounds_for, state_by};

use crate::{Route, RoutePrefix, by_order, common, probe, record_of, route_of};
use rtr_receiver::{Session, is_receiver};
use rtr_room::Record;

// Why no route was answered.
#[derive(Clone, Copy)]
pub enum PeerError {
    // Memory is not of receiver shape, or the routes are not in sixes.
    OutOfShape,
    NoTable,
    StatesShort { needed: usize },
}

impl PeerError {
    // Document 02's number of it.
    pub fn number(self) -> u8
        ensures { result ≡ number_of (peer_refusal self) }
    {
        match self {
            PeerError::OutOfShape => 22,
            PeerError::NoTable => 21,
            PeerError::StatesShort { needed: _ } => 9,
        }
    }
}

// ---- One look at the table

// The shortest length of a family's plain records, and of those with host bits; 255 where there is none.
#[derive(Clone, Copy)]
struct Bounds {
    least: u32,
    loose: u32,
}

#[derive(Clone, Copy)]
struct Families {
    four: Bounds,
    six: Bounds,
}

fn lower(x: u32, y: u32) -> u32
    ensures { result ≡ lower_of x y }
{
    if y < x {
        return y;
    }
    x
}

// No bit is set behind the length.
fn is_plain(x: Record) -> bool
    ensures { result ≡ plain x }
{
    common(x, probe(x, x.prefix_length(), 0, 0)) >= 128
}

// One record more is looked at.
fn with_record(b: Bounds, family: u32, x: Record) -> Bounds
    ensures { result ≡ bounds_with family b x }
{
    if x.family() != family {
        return b;
    }
    let length = x.prefix_length();
    if is_plain(x) {
        return Bounds {
            least: lower(b.least, length),
            loose: b.loose,
        };
    }
    Bounds {
        least: b.least,
        loose: lower(b.loose, length),
    }
}

fn survey(live: &[u32], count: usize) -> Families
    requires { 6 * count ≤ length live.now }
    ensures { result ≡ survey_of count live.now }
{
    let mut four = Bounds {
        least: 255,
        loose: 255,
    };
    let mut six = Bounds {
        least: 255,
        loose: 255,
    };
    for i in 0..count {
        let x = record_of(live, i);
        four = with_record(four, 4, x);
        six = with_record(six, 6, x);
    }
    Families { four, six }
}

fn bounds_for(v: Families, q: Route) -> Bounds
    ensures { result ≡ bounds_for v q.prefix }
{
    match q.prefix {
        RoutePrefix::IPv4(_) => v.four,
        RoutePrefix::IPv6(_) => v.six,
    }
}

// ---- The list

// The number of a route's state, or 23 where the numbers are no route's.
fn place_of(live: &[u32], count: usize, v: Families, numbers: &[u32]) -> u8
    requires { (is_room (limit_of live.now) count live.now ≡ true) × (v ≡ survey_of count live.now) }
    ensures { result ≡ place_of (state_by (records count live.now)) (route_of numbers.now) }
{
    let Some(q) = route_of(numbers) else {
        return 23;
    };
    let b = bounds_for(v, q);
    by_order(live, count, b.least, b.loose, q).number()
}

// Every route's place is filled, and none behind them.
fn fill_states(live: &[u32], count: usize, routes: &[u32], states: &mut [u8])
    requires { (is_room (limit_of live.now) count live.now ≡ true) × (route_count routes.now ≤ length states.old) }
    ensures { states.new ≡ over states.old 0 (states_of (state_by (records count live.now)) routes.now) }
{
    let v = survey(live, count);
    for (i, numbers) in routes.chunks_exact(6).enumerate() {
        states[i] = place_of(live, count, v, numbers);
    }
}

// The state of every route of a list, six numbers each, by the live table. The memory is tested and the table looked at once for all.
pub fn validate_all(
    s: Session,
    live: &[u32],
    working: &[u32],
    hold: &[u8],
    routes: &[u32],
    states: &mut [u8],
) -> Result<usize, PeerError>
    ensures { peer_gives result states.new ≡ peer_leaves s.life.limit s live.now working.now hold.now routes.now states.old }
{
    if !is_receiver(s, live, working, hold) {
        return Err(PeerError::OutOfShape);
    }
    if routes.len() % 6 != 0 {
        return Err(PeerError::OutOfShape);
    }
    if s.table.is_none() {
        return Err(PeerError::NoTable);
    }
    let needed = routes.len() / 6;
    if states.len() < needed {
        return Err(PeerError::StatesShort { needed });
    }
    fill_states(live, s.live.records, routes, states);
    Ok(needed)
}
