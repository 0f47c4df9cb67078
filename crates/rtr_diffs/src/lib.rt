// What changed between two listings, as a text. The call takes every two texts; a refused file is told in the text.
#![tactic(auto)]

ghost use Rattle.std.specs.Prelude.{◌++◌, ◌≡◌, ◌+◌, ◌*◌, ◌≤◌, ◌<◌, length};
ghost use Rattle.rtr_receiver.specs.Promises.{record_limit};
ghost use Rattle.rtr_room.specs.Room.{records};
ghost use Rattle.rtr_listing.specs.Listing.{text, decimal, line_of, record_lines};
ghost use Rattle.rtr_listing.specs.Private.{Fits, Put};
ghost use Rattle.rtr_listing.specs.Promises.{leaves, puts};
ghost use Rattle.rtr_listed.specs.Promises.{line_in};
ghost use Rattle.rtr_changes.specs.Changes.{changes};
ghost use Rattle.rtr_diffs.specs.Diffs.{change_word, change_lines, changes_lines, refusal_lines, diff_says, diff_left};
ghost use Rattle.rtr_diffs.specs.Private.{side_lines, IsRoom, behind_of, NewRead};

use rtr_changes::next_only;
use rtr_listed::{ListedError, read_listing};
use rtr_listing::{ListError, number_line, record_lines, text_line};
use rtr_receiver::RECORD_LIMIT;
use rtr_room::{Record, empty, get};

// No change has more bytes: 16 for its first line, 128 for the record's.
const CHANGE: usize = 144;

// ---- Lines: each writes from a place on and gives the next place

// Behind what was written.
fn behind(at: usize, answer: Result<usize, ListError>) -> usize
    requires { behind_of at answer < 18446744073709551616 }
    ensures { result ≡ behind_of at answer }
{
    match answer {
        Ok(n) => at + n,
        Err(_) => at,
    }
}

fn put_line(out: &mut [u8], at: usize, name: &[u8], value: &[u8]) -> usize
    requires { Fits out.old at (line_of name.now value.now) }
    ensures { Put out.old at (line_of name.now value.now) result out.new }
{
    let answer = text_line(name, value, &mut out[at..]);
    behind(at, answer)
}

fn put_number(out: &mut [u8], at: usize, name: &[u8], n: usize) -> usize
    requires { Fits out.old at (line_of name.now (decimal n)) }
    ensures { Put out.old at (line_of name.now (decimal n)) result out.new }
{
    let answer = number_line(name, n, &mut out[at..]);
    behind(at, answer)
}

fn put_record(out: &mut [u8], at: usize, r: Record) -> usize
    requires { Fits out.old at (record_lines r) }
    ensures { Put out.old at (record_lines r) result out.new }
{
    let answer = record_lines(r, &mut out[at..]);
    behind(at, answer)
}

// The first line of a change.
fn put_word(out: &mut [u8], at: usize, announced: bool) -> usize
    requires { Fits out.old at (line_of (text "change=") (change_word announced)) }
    ensures { Put out.old at (line_of (text "change=") (change_word announced)) result out.new }
{
    if announced {
        return put_line(out, at, b"change=", b"announce");
    }
    put_line(out, at, b"change=", b"withdraw")
}

// The six lines of a change.
fn put_change(out: &mut [u8], at: usize, announced: bool, r: Record) -> usize
    requires { Fits out.old at (change_lines announced r) }
    ensures { Put out.old at (change_lines announced r) result out.new }
{
    let next = put_word(out, at, announced);
    put_record(out, next, r)
}

fn change_length(announced: bool, r: Record) -> usize
    ensures { (result ≡ length (change_lines announced r)) × (result ≤ 144) }
{
    let mut lines = [0u8; CHANGE];
    put_change(&mut lines, 0, announced, r)
}

// ---- One side: the records of a that b has not

fn side_length(announced: bool, a: &[u32], a_count: usize, b: &[u32], b_count: usize) -> usize
    requires { IsRoom a.now a_count × IsRoom b.now b_count }
    ensures { (result ≡ length (side_lines announced (records a_count a.now) (records b_count b.now))) × (result ≤ 144 * a_count) }
{
    let mut sum = 0;
    let mut i = 0;
    // No hand count: the next place is behind the one that was found.
    while let Ok(Some(p)) = next_only(a, a_count, b, b_count, i)
        && let Some(r) = get(a, p)
    {
        sum += change_length(announced, r);
        i = p + 1;
    }
    sum
}

fn put_side(
    out: &mut [u8],
    at: usize,
    announced: bool,
    a: &[u32],
    a_count: usize,
    b: &[u32],
    b_count: usize,
) -> usize
    requires { (IsRoom a.now a_count × IsRoom b.now b_count) × (Fits out.old at (side_lines announced (records a_count a.now) (records b_count b.now))) }
    ensures { Put out.old at (side_lines announced (records a_count a.now) (records b_count b.now)) result out.new }
{
    let mut next = at;
    let mut i = 0;
    // No hand count: the next place is behind the one that was found.
    while let Ok(Some(p)) = next_only(a, a_count, b, b_count, i)
        && let Some(r) = get(a, p)
    {
        next = put_change(out, next, announced, r);
        i = p + 1;
    }
    next
}

// ---- The text

// Refusal 9.
fn short(needed: usize) -> Result<usize, ListError>
    ensures { result ≡ Err (ListError.OutputShort needed) }
{
    Err(ListError::OutputShort { needed })
}

// Withdrawals, then announcements: lengths first, so that nothing is written where it does not fit.
fn write_changes(
    old: &[u32],
    old_count: usize,
    new: &[u32],
    new_count: usize,
    out: &mut [u8],
) -> Result<usize, ListError>
    requires { (IsRoom old.now old_count × IsRoom new.now new_count) × ((old_count ≤ record_limit) × (new_count ≤ record_limit)) }
    ensures { leaves result out.new ≡ puts (changes_lines (changes (records old_count old.now) (records new_count new.now))) out.old }
{
    let withdrawn = side_length(false, old, old_count, new, new_count);
    let announced = side_length(true, new, new_count, old, old_count);
    let needed = withdrawn + announced;
    if out.len() < needed {
        return short(needed);
    }
    let next = put_side(out, 0, false, old, old_count, new, new_count);
    put_side(out, next, true, new, new_count, old, old_count);
    Ok(needed)
}

// The three lines of a refused file.
fn put_refusal(out: &mut [u8], file: &[u8], line: usize) -> usize
    requires { Fits out.old 0 (refusal_lines file.now line) }
    ensures { Put out.old 0 (refusal_lines file.now line) result out.new }
{
    let at_file = put_number(out, 0, b"refused=", 24);
    let at_line = put_line(out, at_file, b"file=", file);
    put_number(out, at_line, b"line=", line)
}

fn write_refusal(file: &[u8], line: usize, out: &mut [u8]) -> Result<usize, ListError>
    requires { length file.now ≡ 3 }
    ensures { leaves result out.new ≡ puts (refusal_lines file.now line) out.old }
{
    let mut lines = [0u8; 64];
    let needed = put_refusal(&mut lines, file, line);
    if out.len() < needed {
        return short(needed);
    }
    put_refusal(out, file, line);
    Ok(needed)
}

// The room's size was tested before, so the other refusal does not come.
fn line_of(error: ListedError) -> usize
    ensures { result ≡ line_in error }
{
    match error {
        ListedError::Line(n) => n,
        ListedError::NotARoom => 0,
    }
}

// The old file was read: the new one is looked at.
fn diff_new(
    new: &[u8],
    old_room: &[u32],
    old_count: usize,
    new_room: &mut [u32],
    out: &mut [u8],
) -> Result<usize, ListError>
    requires { IsRoom old_room.now old_count × ((old_count ≤ record_limit) × (length new_room.old ≡ 6 * record_limit)) }
    ensures { NewRead record_limit (records old_count old_room.now) new.now out.old out.new new_room.new result }
{
    match read_listing(new, new_room) {
        Ok(head) => write_changes(old_room, old_count, new_room, head.count, out),
        Err(error) => write_refusal(b"new", line_of(error), out),
    }
}

// What changed from the old listing to the new one, or which file is refused at which line.
pub fn diff(
    old: &[u8],
    new: &[u8],
    old_room: &mut [u32],
    new_room: &mut [u32],
    out: &mut [u8],
) -> Result<usize, ListError>
    ensures { diff_left result old_room.new new_room.new out.new ≡ diff_says record_limit old.now new.now old_room.old new_room.old out.old }
{
    if old_room.len() != 6 * RECORD_LIMIT {
        return Err(ListError::NotAReceiver);
    }
    if new_room.len() != 6 * RECORD_LIMIT {
        return Err(ListError::NotAReceiver);
    }
    match read_listing(old, old_room) {
        Ok(head) => diff_new(new, old_room, head.count, new_room, out),
        Err(error) => {
            empty(new_room);
            write_refusal(b"old", line_of(error), out)
        }
    }
}
