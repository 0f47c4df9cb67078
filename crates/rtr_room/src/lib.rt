// Rooms: a table of records kept sorted in lent numbers, six for a record. Every call takes any numbers and any count; on the room of a
// table it does what `enter`, `leave` and `join` of specs/Table.antt do (proofs/Laws.antt). Nothing here knows of a PDU, nor of a limit of 1,024.
#![tactic(auto)]

ghost use Rattle.std.specs.Prelude.{◌≡◌, ◌+◌, ◌-◌, ◌*◌, ◌≤◌, ◌<◌, ◌++◌, length, take, drop, replicate};
ghost use Rattle.rtr_room.specs.Table.{packed, ipv4_record, ipv6_record, family_of, prefix_of, max_of, before, same, in_rule, is_table};
ghost use Rattle.rtr_room.specs.Room.{numbers, record_at, record_found, records, all_zero, is_room, bisect, place, look_up, found, entered, enter_said, gone, leave_said, merged, merge_said, copied, copy_says, copy_said};

// Which network may announce which prefix, as a room's six numbers: the first is family x 65,536 + prefix length x 256 + max.
#[derive(Clone, Copy, PartialEq, Eq)]
pub struct Record {
    pub kind: u32,
    pub w0: u32,
    pub w1: u32,
    pub w2: u32,
    pub w3: u32,
    pub asn: u32,
}

// Refusal 22: memory that is no room's, or a count over its limit.
#[derive(Clone, Copy)]
pub struct NotARoom;

// Where a record stands, or would stand.
#[derive(Clone, Copy)]
pub enum Position {
    At(usize),
    Missing(usize),
}

// Why a record does not enter.
#[derive(Clone, Copy)]
pub enum EnterError {
    AlreadyIn,
    Full,
    NotARoom,
}

impl From<NotARoom> for EnterError {
    ghost use Rattle.rtr_room.specs.declared.EnterError.{EnterError};

    ghost from_gives = { λ _ e. e ≡ EnterError.NotARoom };

    fn from(_refusal: NotARoom) -> EnterError {
        EnterError::NotARoom
    }
}

// Why a record does not leave.
#[derive(Clone, Copy)]
pub enum LeaveError {
    NotIn,
    NotARoom,
}

impl From<NotARoom> for LeaveError {
    ghost use Rattle.rtr_room.specs.declared.LeaveError.{LeaveError};

    ghost from_gives = { λ _ e. e ≡ LeaveError.NotARoom };

    fn from(_refusal: NotARoom) -> LeaveError {
        LeaveError::NotARoom
    }
}

impl Record {
    // An IPv4 prefix with its origin; the other address numbers are 0.
    pub fn ipv4(prefix_length: u8, max_length: u8, address: u32, asn: u32) -> Record
        ensures { result ≡ ipv4_record prefix_length max_length address asn }
    {
        Record {
            kind: pack(4, prefix_length, max_length),
            w0: address,
            w1: 0,
            w2: 0,
            w3: 0,
            asn,
        }
    }

    // An IPv6 prefix with its origin.
    pub fn ipv6(
        prefix_length: u8,
        max_length: u8,
        w0: u32,
        w1: u32,
        w2: u32,
        w3: u32,
        asn: u32,
    ) -> Record
        ensures { result ≡ ipv6_record prefix_length max_length w0 w1 w2 w3 asn }
    {
        Record {
            kind: pack(6, prefix_length, max_length),
            w0,
            w1,
            w2,
            w3,
            asn,
        }
    }

    pub fn family(self) -> u32
        ensures { result ≡ family_of self }
    {
        self.kind / 65536
    }

    pub fn prefix_length(self) -> u32
        ensures { result ≡ prefix_of self }
    {
        self.kind / 256 % 256
    }

    pub fn max_length(self) -> u32
        ensures { result ≡ max_of self }
    {
        self.kind % 256
    }
}

fn wide(b: u8) -> u32
    ensures { (result ≡ b) × (result < 256) }
{
    b as u32
}

// A record's first number, of its three parts.
fn pack(family: u32, prefix_length: u8, max_length: u8) -> u32
    requires { family ≤ 6 }
    ensures { result ≡ packed family prefix_length max_length }
{
    family * 65536 + wide(prefix_length) * 256 + wide(max_length)
}

// ---- Order

// Family first, then the address; where both are equal the first number's rest is length and max, so it is compared whole.
// Number by number: as a comparison of two tuples it takes 14 to 18 % more instructions in a search by halving.
#[tactic(auto, using(crate::proofs::Order::order_tests), unfolding(crate::specs::Table::before))]
fn is_before(a: Record, b: Record) -> bool
    ensures { result ≡ before a b }
{
    let family_a = a.kind / 65536;
    let family_b = b.kind / 65536;
    if family_a != family_b {
        return family_a < family_b;
    }
    if a.w0 != b.w0 {
        return a.w0 < b.w0;
    }
    if a.w1 != b.w1 {
        return a.w1 < b.w1;
    }
    if a.w2 != b.w2 {
        return a.w2 < b.w2;
    }
    if a.w3 != b.w3 {
        return a.w3 < b.w3;
    }
    if a.kind != b.kind {
        return a.kind < b.kind;
    }
    a.asn < b.asn
}

#[tactic(auto, using(crate::proofs::Order::rule_tests))]
fn is_in_rule(r: Record) -> bool
    ensures { result ≡ in_rule r }
{
    let family = r.kind / 65536;
    let length = r.kind / 256 % 256;
    let max = r.kind % 256;
    if length > max {
        return false;
    }
    if family == 6 {
        return max <= 128;
    }
    if family != 4 {
        return false;
    }
    if r.w1 != 0 {
        return false;
    }
    if r.w2 != 0 {
        return false;
    }
    if r.w3 != 0 {
        return false;
    }
    max <= 32
}

// ---- Rooms

// Record i of a room.
#[tactic(auto, unfolding(crate::specs::Room::record_at))]
fn record_at(room: &[u32], i: usize) -> Record
    requires { 6 * i + 6 ≤ length room.now }
    ensures { result ≡ record_at room.now i }
{
    let at = 6 * i;
    Record {
        kind: room[at],
        w0: room[at + 1],
        w1: room[at + 2],
        w2: room[at + 3],
        w3: room[at + 4],
        asn: room[at + 5],
    }
}

// Record i of any numbers, or None where its six are not all there.
pub fn get(room: &[u32], i: usize) -> Option<Record>
    ensures { result ≡ record_found room.now i }
{
    if i >= room.len() / 6 {
        return None;
    }
    Some(record_at(room, i))
}

// The six numbers of a record, from a place on.
#[tactic(auto, using(crate::proofs::Lists::stored_6))]
fn put(room: &mut [u32], at: usize, r: Record)
    requires { at + 6 ≤ length room.old }
    ensures { room.new ≡ take at room.old ++ (numbers r ++ drop (at + 6) room.old) }
{
    room[at] = r.kind;
    room[at + 1] = r.w0;
    room[at + 2] = r.w1;
    room[at + 3] = r.w2;
    room[at + 4] = r.w3;
    room[at + 5] = r.asn;
}

// The numbers from a place to an end stand six further; the six at the place stay, to be written over.
fn shift_up(room: &mut [u32], from: usize, end: usize)
    requires { (from ≤ end) × (end + 6 ≤ length room.old) }
    ensures { room.new ≡ take (from + 6) room.old ++ (take (end - from) (drop from room.old) ++ drop (end + 6) room.old) }
{
    room.copy_within(from..end, from + 6);
}

// The numbers from a place to an end stand six nearer; the six before the end stay, to be written over.
fn shift_down(room: &mut [u32], to: usize, end: usize)
    requires { (to + 6 ≤ end) × (end ≤ length room.old) }
    ensures { room.new ≡ take to room.old ++ (take (end - 6 - to) (drop (to + 6) room.old) ++ drop (end - 6) room.old) }
{
    room.copy_within(to + 6..end, to);
}

// The first so many records are a table: each is read once, and compared with the one before it.
#[tactic(auto, using(crate::proofs::Tables::record_turns))]
fn is_table(room: &[u32], count: usize) -> bool
    requires { 6 * count ≤ length room.now }
    ensures { result ≡ is_table (records count room.now) }
{
    if count == 0 {
        return true;
    }
    let mut last = record_at(room, 0);
    if !is_in_rule(last) {
        return false;
    }
    for i in 1..count {
        let next = record_at(room, i);
        if !is_in_rule(next) {
            return false;
        }
        if !is_before(last, next) {
            return false;
        }
        last = next;
    }
    true
}

// The numbers from a place on are 0: their bits together are none. No number is a reason to stop, so the compiler takes eight at a time.
#[tactic(auto, using(crate::proofs::Tables::zero_turns))]
fn is_zero_from(room: &[u32], at: usize) -> bool
    ensures { result ≡ all_zero (drop at room.now) }
{
    // By places, of which there may be none: `iter().skip(at)` takes ten times the instructions, and `room[at..]` wants the place inside.
    let mut bits = 0;
    for i in at..room.len() {
        bits |= room[i];
    }
    bits == 0
}

// The room rules, each number read once.
#[tactic(auto, unfolding(crate::specs::Room::is_room))]
pub fn rules(room: &[u32], limit: usize, count: usize) -> bool
    ensures { result ≡ is_room limit count room.now }
{
    if room.len() % 6 != 0 {
        return false;
    }
    if room.len() / 6 != limit {
        return false;
    }
    if count > limit {
        return false;
    }
    if !is_table(room, count) {
        return false;
    }
    is_zero_from(room, 6 * count)
}

// Where a record stands or would stand among the first so many, by halving.
#[tactic(auto, using(crate::proofs::Halving::halving_turns))]
fn place_among(room: &[u32], end: usize, r: Record) -> usize
    requires { 6 * end ≤ length room.now }
    ensures { (result ≡ bisect end room.now r 0 end) × (result ≤ end) }
{
    // No place is counted: two ends close in. `partition_point` promises nothing of numbers that are in no order.
    let mut lo = 0;
    let mut hi = end;
    while lo < hi {
        let mid = lo + (hi - lo) / 2;
        if is_before(record_at(room, mid), r) {
            lo = mid + 1;
        } else {
            hi = mid;
        }
    }
    lo
}

// The last record is compared first: a record behind it, or equal to it, needs no search. Any other place is found by halving.
#[tactic(auto, using(crate::proofs::Rooms::look_up_tests), unfolding(crate::specs::Table::same))]
pub fn look_up(room: &[u32], count: usize, r: Record) -> Result<Position, NotARoom>
    ensures { found result ≡ look_up room.now count r }
{
    if count > room.len() / 6 {
        return Err(NotARoom);
    }
    if count == 0 {
        return Ok(Position::Missing(0));
    }
    let end = count - 1;
    let last = record_at(room, end);
    if is_before(last, r) {
        return Ok(Position::Missing(count));
    }
    if last == r {
        return Ok(Position::At(end));
    }
    let at = place_among(room, end, r);
    if record_at(room, at) == r {
        return Ok(Position::At(at));
    }
    Ok(Position::Missing(at))
}

// A record enters at its place: one that sorts last without a shift, any other with one.
#[tactic(auto, using(crate::proofs::Rooms::look_up_tells))]
pub fn enter(room: &mut [u32], count: usize, r: Record) -> Result<usize, EnterError>
    ensures { record { says = enter_said result; left = room.new } ≡ entered room.old count r }
{
    match look_up(room, count, r)? {
        Position::At(_) => Err(EnterError::AlreadyIn),
        Position::Missing(at) => {
            if count == room.len() / 6 {
                return Err(EnterError::Full);
            }
            shift_up(room, 6 * at, 6 * count);
            put(room, 6 * at, r);
            Ok(count + 1)
        }
    }
}

// A record leaves its place; the last one without a shift.
#[tactic(auto, using(crate::proofs::Rooms::look_up_tells))]
pub fn leave(room: &mut [u32], count: usize, r: Record) -> Result<usize, LeaveError>
    ensures { record { says = leave_said result; left = room.new } ≡ gone room.old count r }
{
    match look_up(room, count, r)? {
        Position::Missing(_) => Err(LeaveError::NotIn),
        Position::At(at) => {
            shift_down(room, 6 * at, 6 * count);
            put(
                room,
                6 * count - 6,
                Record {
                    kind: 0,
                    w0: 0,
                    w1: 0,
                    w2: 0,
                    w3: 0,
                    asn: 0,
                },
            );
            Ok(count - 1)
        }
    }
}

// Where a record stands or would stand among the first so many: the last is compared first, as a look-up does.
#[tactic(auto, using(crate::proofs::Places::place_tests), unfolding(crate::specs::Table::same))]
fn place_in(room: &[u32], end: usize, r: Record) -> usize
    requires { 6 * end ≤ length room.now }
    ensures { (result ≡ place room.now end r) × (result ≤ end) }
{
    if end == 0 {
        return 0;
    }
    let before = end - 1;
    let last = record_at(room, before);
    if is_before(last, r) {
        return end;
    }
    if last == r {
        return before;
    }
    place_among(room, before, r)
}

// The records from one to an end stand so many records further, the last one moved first.
fn shift_records(room: &mut [u32], from: usize, end: usize, by: usize)
    requires { (from ≤ end) × (6 * (end + by) ≤ length room.old) }
    ensures { room.new ≡ take (6 * (from + by)) room.old ++ (take (6 * end - 6 * from) (drop (6 * from) room.old) ++ drop (6 * (end + by)) room.old) }
{
    // Record by record: as one `copy_within` a load takes 10 to 20 % more instructions.
    for i in (from..end).rev() {
        let r = record_at(room, i);
        put(room, 6 * (i + by), r);
    }
}

// A sorted run goes into a room, from the back: each of its records moves, once and to their last place, all those of the room that stand behind it.
#[tactic(auto, using(crate::proofs::Merges::merge_refusals))]
pub fn merge(room: &mut [u32], count: usize, run: &[u32], n: usize) -> Result<usize, NotARoom>
    ensures { record { says = merge_said result; left = room.new } ≡ merged room.old count run.now n }
{
    if count > room.len() / 6 {
        return Err(NotARoom);
    }
    if n > run.len() / 6 {
        return Err(NotARoom);
    }
    if n > room.len() / 6 - count {
        return Err(NotARoom);
    }
    let mut end = count;
    for j in (0..n).rev() {
        let r = record_at(run, j);
        let at = place_in(room, end, r);
        shift_records(room, at, end, j + 1);
        put(room, 6 * (at + j), r);
        end = at;
    }
    Ok(count + n)
}

// Every number is 0.
pub fn empty(room: &mut [u32])
    ensures { room.new ≡ replicate (length room.old) 0 }
{
    room.fill(0);
}

// A room over one of its size, whole or not at all.
#[tactic(auto, unfolding(crate::specs::Room::copied))]
pub fn copy(from: &[u32], room: &mut [u32]) -> Result<(), NotARoom>
    ensures { (copy_said result ≡ copy_says from.now room.old) × (room.new ≡ copied from.now room.old) }
{
    if from.len() != room.len() {
        return Err(NotARoom);
    }
    // No `copy_from_slice`: it calls memmove, and what C links needs memset alone.
    for (i, &n) in from.iter().enumerate() {
        room[i] = n;
    }
    Ok(())
}
