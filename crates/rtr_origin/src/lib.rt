// Whether a route is good: its RFC 6811 state by the live table. Two calls with one promise: a scan, and one that uses the table's order; a third, for a list of routes, is in peer.rt.
#![tactic(auto)]

use rtr_models::Ipv6Addr;
use rtr_receiver::{Session, is_receiver};
use rtr_room::{Position, Record, look_up};

mod peer;

ghost use Rattle.std.specs.Prelude.{ℕ, ◌+◌, ◌-◌, ◌*◌, ◌/◌, ◌%◌, ◌<◌, ◌≤◌, true, not, ◌≡◌, leb, length};
ghost use Rattle.rtr_room.specs.Table.{family_of, rank};
ghost use Rattle.rtr_room.specs.Room.{records, record_at, is_room, limit_of};
ghost use Rattle.rtr_origin.specs.Origin.{longest_in, state_of, state_number, words};
ghost use Rattle.rtr_origin.specs.Numbers.{is_ipv4, is_ipv6, route_of};
ghost use Rattle.rtr_origin.specs.Promises.{validate_says, route_refusal, route_said};
ghost use Rattle.rtr_origin.specs.Private.{Under};
ghost use Rattle.rtr_origin.specs.Judged.{Common, LeadingAlike, Jumps, Walked, Ran, bar_says, bar_said, target_of, covers_by, strength, strongest, cut_word, probe_of, named};

pub use peer::{PeerError, validate_all};

// A route's address; its family is its shape.
#[derive(Clone, Copy)]
pub enum RoutePrefix {
    IPv4(u32),
    IPv6(Ipv6Addr),
}

// A route as an operator asks of it. An origin of 0 is no AS's: it stands for a path that ends in an AS_SET.
#[derive(Clone, Copy)]
pub struct Route {
    pub prefix: RoutePrefix,
    pub length: u8,
    pub origin: u32,
}

#[derive(Clone, Copy)]
pub enum RouteState {
    NotFound,
    Valid,
    Invalid,
}

// Why there is no state.
#[derive(Clone, Copy)]
pub enum ValidateError {
    NotAReceiver,
    NoTable,
    TooLong,
}

impl RouteState {
    // Document 02's number of it.
    pub fn number(self) -> u8
        ensures { result ≡ state_number self }
    {
        match self {
            RouteState::NotFound => 0,
            RouteState::Valid => 1,
            RouteState::Invalid => 2,
        }
    }
}

impl ValidateError {
    // Document 02's number of it.
    pub fn number(self) -> u8
        ensures { result ≡ route_refusal self }
    {
        match self {
            ValidateError::NotAReceiver => 22,
            ValidateError::NoTable => 21,
            ValidateError::TooLong => 23,
        }
    }
}

// ---- One record

fn wide(b: u8) -> u32
    ensures { (result ≡ b) × (result < 256) }
{
    b as u32
}

// A route as a record, so that tests and probes compare two records. No max is above 255.
fn as_record(q: Route) -> Record
    ensures { (result ≡ target_of q) × (q.length < 256) }
{
    let low = wide(q.length) * 256 + 255;
    match q.prefix {
        RoutePrefix::IPv4(address) => Record {
            kind: 262144 + low,
            w0: address,
            w1: 0,
            w2: 0,
            w3: 0,
            asn: q.origin,
        },
        RoutePrefix::IPv6(address) => Record {
            kind: 393216 + low,
            w0: address.w0,
            w1: address.w1,
            w2: address.w2,
            w3: address.w3,
            asn: q.origin,
        },
    }
}

// How many of their first bits two words have in common.
fn leading_alike(x: u32, y: u32) -> u32
    ensures { LeadingAlike x y result }
{
    u32::leading_zeros(x ^ y)
}

// How many two addresses have in common, or 255 where they are one.
fn common(x: Record, y: Record) -> u32
    ensures { Common (words x) (words y) result }
{
    if x.w0 != y.w0 {
        return leading_alike(x.w0, y.w0);
    }
    if x.w1 != y.w1 {
        return 32 + leading_alike(x.w1, y.w1);
    }
    if x.w2 != y.w2 {
        return 64 + leading_alike(x.w2, y.w2);
    }
    if x.w3 != y.w3 {
        return 96 + leading_alike(x.w3, y.w3);
    }
    255
}

// The record is of the route's family, no longer, and agrees with it as far as it is long.
fn covers(a: Record, x: Record) -> bool
    ensures { result ≡ covers_by a x }
{
    if a.family() != x.family() {
        return false;
    }
    let length = x.prefix_length();
    if length > a.prefix_length() {
        return false;
    }
    length <= common(x, a)
}

// Of a record that covers: 2 where it matches, else 1.
fn judge_covering(a: Record, x: Record) -> u32
    requires { covers_by a x ≡ true }
    ensures { result ≡ strength a x }
{
    if a.prefix_length() > x.max_length() {
        return 1;
    }
    if x.asn != a.asn {
        return 1;
    }
    if x.asn == 0 {
        return 1;
    }
    2
}

// 2 where the record matches, 1 where it only covers, else 0.
fn judge(a: Record, x: Record) -> u32
    ensures { result ≡ strength a x }
{
    if !covers(a, x) {
        return 0;
    }
    judge_covering(a, x)
}

// The same of a record of the route's family, where it is known how many first bits the two have in common.
fn judge_alike(a: Record, x: Record, bits: u32) -> u32
    requires { (family_of x ≡ family_of a) × Common (words x) (words a) bits }
    ensures { result ≡ strength a x }
{
    let own = x.prefix_length();
    if own > bits {
        return 0;
    }
    if own > a.prefix_length() {
        return 0;
    }
    judge_covering(a, x)
}

fn higher(x: u32, y: u32) -> u32
    ensures { (x ≤ result) × (y ≤ result) × ((n : ℕ) → x ≤ n → y ≤ n → result ≤ n) }
{
    if x < y {
        return y;
    }
    x
}

// The state that a strength stands for.
fn name(n: u32) -> RouteState
    ensures { result ≡ named n }
{
    match n {
        2 => RouteState::Valid,
        1 => RouteState::Invalid,
        _ => RouteState::NotFound,
    }
}

// ---- The scan

// Record i of a room that has it.
fn record_of(live: &[u32], i: usize) -> Record
    requires { 6 * i + 6 ≤ length live.now }
    ensures { result ≡ record_at live.now i }
{
    let at = 6 * i;
    Record {
        kind: live[at],
        w0: live[at + 1],
        w1: live[at + 2],
        w2: live[at + 3],
        w3: live[at + 4],
        asn: live[at + 5],
    }
}

// Every record is judged, up to one that matches.
fn scan(live: &[u32], count: usize, a: Record) -> u32
    requires { 6 * count ≤ length live.now }
    ensures { result ≡ strongest a (records count live.now) }
{
    let mut best = 0;
    for i in 0..count {
        let next = judge(a, record_of(live, i));
        if next == 2 {
            return 2;
        }
        best = higher(best, next);
    }
    best
}

// ---- By the order

// One word fewer of bits.
fn after_word(bits: u32) -> u32
    ensures { result ≡ bits - 32 }
{
    if bits < 32 {
        return 0;
    }
    bits - 32
}

// The first bits of a word, and zeros behind. A shift by 32 is an error, so no bits are a case of their own.
fn cut_word(x: u32, bits: u32) -> u32
    ensures { result ≡ cut_word bits x }
{
    if bits == 0 {
        return 0;
    }
    if bits >= 32 {
        return x;
    }
    let spare = 32 - bits;
    x >> spare << spare
}

// What is looked up: the route's family, the first bits of its address, and the rest of a record as given.
fn probe(a: Record, bits: u32, low: u32, asn: u32) -> Record
    requires { low < 65536 }
    ensures { result ≡ probe_of a bits low asn }
{
    let second = after_word(bits);
    let third = after_word(second);
    let fourth = after_word(third);
    Record {
        kind: a.kind / 65536 * 65536 + low,
        w0: cut_word(a.w0, bits),
        w1: cut_word(a.w1, second),
        w2: cut_word(a.w2, third),
        w3: cut_word(a.w3, fourth),
        asn,
    }
}

// The walk's: of so many bits, with a max that no record in rule has, so all records of those bits come before it.
fn high_probe(a: Record, bits: u32) -> Record
    requires { bits ≤ 255 }
    ensures { result ≡ probe_of a bits (bits * 256 + 255) 4294967295 }
{
    probe(a, bits, bits * 256 + 255, 4294967295)
}

// How many records of a table come before one.
fn rank_of(live: &[u32], count: usize, r: Record) -> usize
    requires { is_room (limit_of live.now) count live.now ≡ true }
    ensures { (result ≡ rank r (records count live.now)) × (result ≤ count) }
{
    match look_up(live, count, r) {
        Ok(Position::At(at)) => at,
        Ok(Position::Missing(at)) => at,
        Err(_) => 0,
    }
}

// Where the walk goes from a record that does not cover, the one before place p: before the probe of the bits that it has in common with the route. Where the next one down has fewer in common, that
// is the next place, and needs no search.
fn jump(live: &[u32], count: usize, least: u32, a: Record, bits: u32, p: usize) -> usize
    requires { (is_room (limit_of live.now) count live.now ≡ true) × (p ≤ count) × (bits ≤ 255) }
    ensures { Jumps least a bits live.now count p result }
{
    if bits < least {
        return 0;
    }
    if p > 1 {
        if common(record_of(live, p - 2), a) < bits {
            return p - 1;
        }
    }
    rank_of(live, count, high_probe(a, bits))
}

// Down from the route's own probe: records that cover are judged, others are jumped from. Where a jump does not go down, all are scanned.
fn walk(live: &[u32], count: usize, least: u32, a: Record) -> u32
    requires { is_room (limit_of live.now) count live.now ≡ true }
    ensures { Walked least a live.now count result }
{
    let mut best = 0;
    let mut p = rank_of(live, count, high_probe(a, a.prefix_length()));
    // No count: the next place is where a jump comes down, if not the one below.
    while p > 0 {
        let x = record_of(live, p - 1);
        if x.family() != a.family() {
            return best;
        }
        let bits = common(x, a);
        let next = judge_alike(a, x, bits);
        if next == 2 {
            return 2;
        }
        if next == 1 {
            best = 1;
            p -= 1;
        } else {
            let at = jump(live, count, least, a, bits, p);
            if at >= p {
                return scan(live, count, a);
            }
            p = at;
        }
    }
    best
}

// Records with host bits: those that cover stand in the unbroken run of records that share so many first bits with the route.
fn run(live: &[u32], count: usize, loose: u32, a: Record) -> u32
    requires { (is_room (limit_of live.now) count live.now ≡ true) × (loose ≤ 255) }
    ensures { Ran loose a live.now count result }
{
    let mut best = 0;
    for i in rank_of(live, count, probe(a, loose, 0, 0))..count {
        let x = record_of(live, i);
        if x.family() != a.family() {
            return best;
        }
        let bits = common(x, a);
        if bits < loose {
            return best;
        }
        // most records in the run are longer than the bits in common, and need no more tests
        if x.prefix_length() > bits {
            continue;
        }
        let more = judge_alike(a, x, bits);
        if more == 2 {
            return 2;
        }
        best = higher(best, more);
    }
    best
}

// The walk finds what has no host bits, the run what has some. The two numbers need only be low enough.
fn by_order(live: &[u32], count: usize, least: u32, loose: u32, q: Route) -> RouteState
    requires { (is_room (limit_of live.now) count live.now ≡ true) × Under least loose q (records count live.now) }
    ensures { result ≡ state_of q (records count live.now) }
{
    let a = as_record(q);
    let first = walk(live, count, least, a);
    if first == 2 {
        return RouteState::Valid;
    }
    if loose > a.prefix_length() {
        return name(first);
    }
    let second = run(live, count, loose, a);
    name(higher(first, second))
}

// ---- Calls

fn is_too_long(q: Route) -> bool
    ensures { result ≡ not (leb q.length (longest_in q.prefix)) }
{
    match q.prefix {
        RoutePrefix::IPv4(_) => q.length > 32,
        RoutePrefix::IPv6(_) => q.length > 128,
    }
}

// 22, then 21, then 23.
fn barred(
    s: Session,
    live: &[u32],
    working: &[u32],
    hold: &[u8],
    q: Route,
) -> Result<(), ValidateError>
    ensures { bar_said result ≡ bar_says s.life.limit s live.now working.now hold.now q }
{
    if !is_receiver(s, live, working, hold) {
        return Err(ValidateError::NotAReceiver);
    }
    if s.table.is_none() {
        return Err(ValidateError::NoTable);
    }
    if is_too_long(q) {
        return Err(ValidateError::TooLong);
    }
    Ok(())
}

// A route's state, by looking at every record of the live table.
pub fn validate_by_scan(
    s: Session,
    live: &[u32],
    working: &[u32],
    hold: &[u8],
    q: Route,
) -> Result<RouteState, ValidateError>
    ensures { route_said result ≡ validate_says s.life.limit s live.now working.now hold.now q }
{
    barred(s, live, working, hold, q)?;
    Ok(name(scan(live, s.live.records, as_record(q))))
}

// A route's state, by the order of the live table.
pub fn validate(
    s: Session,
    live: &[u32],
    working: &[u32],
    hold: &[u8],
    q: Route,
) -> Result<RouteState, ValidateError>
    ensures { route_said result ≡ validate_says s.life.limit s live.now working.now hold.now q }
{
    barred(s, live, working, hold, q)?;
    Ok(by_order(live, s.live.records, 0, 0, q))
}

// ---- A route from numbers

// What is below 256 stays.
fn narrow(n: u32) -> u8
    ensures { result ≡ n % 256 }
{
    (n % 256) as u8
}

// Family 4, no longer than 32, and the three numbers behind the address 0.
fn is_ipv4(first: u32, w1: u32, w2: u32, w3: u32) -> bool
    ensures { result ≡ is_ipv4 first w1 w2 w3 }
{
    first / 65536 == 4 && first % 65536 <= 32 && w1 == 0 && w2 == 0 && w3 == 0
}

// Family 6, and no longer than 128.
fn is_ipv6(first: u32) -> bool
    ensures { result ≡ is_ipv6 first }
{
    first / 65536 == 6 && first % 65536 <= 128
}

// The route that six numbers are; None where there are not six, of another family, too long, or with a spare number that is not 0.
pub fn route_of(numbers: &[u32]) -> Option<Route>
    ensures { result ≡ route_of numbers.now }
{
    let &[first, w0, w1, w2, w3, origin] = numbers else {
        return None;
    };
    let length = narrow(first % 65536);
    if is_ipv4(first, w1, w2, w3) {
        return Some(Route {
            prefix: RoutePrefix::IPv4(w0),
            length,
            origin,
        });
    }
    if is_ipv6(first) {
        return Some(Route {
            prefix: RoutePrefix::IPv6(Ipv6Addr { w0, w1, w2, w3 }),
            length,
            origin,
        });
    }
    None
}
