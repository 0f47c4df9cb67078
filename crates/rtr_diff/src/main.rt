// The program of document 02, request Four: what changed from old.txt to new.txt, both listings in the current folder. `diff_text` promises what lies between:
// it hands back `diff_text` of what was read. Outside stand the input and the output, of which no contract can speak: that `read_file` hands on what the system read
// of the file of that name (one that cannot be opened is no bytes, one that cannot be read on ends there), which file is the old one, and that `main` writes what it
// got. Of each file as much is read as can decide: what stands behind it changes no text (`front-decides-text` of rtr_diffs), so a file of any size, or without an
// end, is answered in constant memory.
#![tactic(auto)]

ghost use Rattle.std.specs.Prelude.{◌<◌, ◌≤◌, length};
ghost use Rattle.rtr_receiver.specs.Promises.{record_limit};
ghost use Rattle.rtr_diff.specs.Printing.{IsPrefixLen, Shows, Sized};
ghost use Rattle.rtr_diffs.specs.Diffs.{diff_text};

use rtr_diffs::diff;
use rtr_receiver::RECORD_LIMIT;
use std::io::Read;
use std::rt::Files;
use std::{fs, io};

// More than any listing has: 128 bytes for the head, for each record and once more.
const FRONT: usize = 128 * (2 + RECORD_LIMIT);

// More than any text has: 144 bytes for each change of either table, or 64 for a refusal.
const TEXT: usize = 64 + 288 * RECORD_LIMIT;

// What a read puts at the front of a place; one that fails counts as one of nothing.
fn read_some(file: &mut impl Read, place: &mut [u8]) -> usize
    ensures { result ≤ length place.new }
{
    match file.read(place) {
        Ok(n) => n,
        Err(_) => 0,
    }
}

// Reads until the front is full, the file ends or a read fails.
fn read_front(file: &mut impl Read, front: &mut [u8]) -> usize
    ensures { IsPrefixLen result front.new }
{
    let mut done = 0;
    // No hand count: each read says how far it went.
    while done < front.len() {
        let n = read_some(file, &mut front[done..]);
        if n == 0 {
            return done;
        }
        done += n;
    }
    done
}

// The front of a file; one that cannot be opened counts as empty.
fn read_file(rt: &impl Files, name: &str, front: &mut [u8]) -> usize
    requires { 131200 < length front.old }
    ensures { IsPrefixLen result front.new }
{
    match fs::open(rt, name) {
        Ok(mut file) => read_front(&mut file, front),
        Err(_) => 0,
    }
}

// All that is done between the input and the output.
fn diff_text(
    old: &[u8],
    new: &[u8],
    old_room: &mut [u32],
    new_room: &mut [u32],
    out: &mut [u8],
) -> usize
    requires { Sized old_room.old new_room.old out.old }
    ensures { Shows (diff_text record_limit old.now new.now) result out.new }
{
    let answer = diff(old, new, old_room, new_room, out);
    match answer {
        Ok(n) => n,
        Err(_) => 0,
    }
}

fn main(rt: HostRuntime) -> io::Result<()> {
    let mut old = [0u8; FRONT];
    let mut new = [0u8; FRONT];
    let mut old_room = [0u32; 6 * RECORD_LIMIT];
    let mut new_room = [0u32; 6 * RECORD_LIMIT];
    let mut out = [0u8; TEXT];
    let m = read_file(&rt, "old.txt", &mut old);
    let n = read_file(&rt, "new.txt", &mut new);
    let k = diff_text(
        &old[0..m],
        &new[0..n],
        &mut old_room,
        &mut new_room,
        &mut out,
    );
    rt.write_all(&out[0..k])
}
