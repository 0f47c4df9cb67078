// What changed between two tables, each in its room: place after place, the records of one that do not stand in the other. Any numbers and counts are taken.
#![tactic(auto)]

ghost use Rattle.std.specs.Prelude.{◌+◌, ◌*◌, ◌≤◌, ◌≡◌, length};
ghost use Rattle.rtr_room.specs.Room.{record_at, stands, limit_of};
ghost use Rattle.rtr_changes.specs.Changes.{next_only, only_said, only_number};

use rtr_room::{NotARoom, Position, Record, get, look_up};

// Document 01's number of what `next_only` answers, or 0 where it is no refusal.
pub fn only_number(answer: Result<Option<usize>, NotARoom>) -> u8
    ensures { result ≡ only_number (only_said answer) }
{
    match answer {
        Ok(_) => 0,
        Err(_) => 22,
    }
}

// Record i of a room that has it.
fn record_of(room: &[u32], i: usize) -> Record
    requires { 6 * i + 6 ≤ length room.now }
    ensures { result ≡ record_at room.now i }
{
    match get(room, i) {
        Some(r) => r,
        None => Record::ipv4(0, 0, 0, 0),
    }
}

// A record stands in a room.
fn is_there(room: &[u32], count: usize, r: Record) -> bool
    requires { count ≤ limit_of room.now }
    ensures { result ≡ stands room.now count r }
{
    match look_up(room, count, r) {
        Ok(Position::At(_)) => true,
        Ok(Position::Missing(_)) => false,
        Err(_) => false,
    }
}

// The first place of a, from one on, whose record does not stand in b. In line: as a call of its own it doubles the time of a run from or to an empty table.
#[inline(always)]
pub fn next_only(
    a: &[u32],
    a_count: usize,
    b: &[u32],
    b_count: usize,
    from: usize,
) -> Result<Option<usize>, NotARoom>
    ensures { only_said result ≡ next_only a.now a_count b.now b_count from }
{
    if a_count > a.len() / 6 {
        return Err(NotARoom);
    }
    if b_count > b.len() / 6 {
        return Err(NotARoom);
    }
    for i in from..a_count {
        if !is_there(b, b_count, record_of(a, i)) {
            return Ok(Some(i));
        }
    }
    Ok(None)
}
