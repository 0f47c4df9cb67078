// Well-formed UTF-8, in place of the standard library's test: how far a text is well formed, and whether that is all of it.
// Empty text and NUL pass. No public call has a condition; nothing is written. The rows of Unicode's table are nine functions in rows.rt.
#![tactic(auto)]

mod rows;
mod run;

ghost use Rattle.std.specs.Prelude.{◌≡◌, ◌≤◌, length, drop};
ghost use Rattle.rtr_text.specs.Utf8.{rows, character, well_formed_up_to, well_formed};

use rows::{row_1, row_2, row_3, row_4, row_5, row_6, row_7, row_8, row_9};
use run::row_1_run;

// The length of the character at `at`: the rows in the table's order. 0 where none fits.
fn character_at(text: &[u8], at: usize) -> usize
    requires { at ≤ length text.now }
    ensures { result ≡ character rows (drop at text.now) }
{
    if row_1(text, at) {
        return 1;
    }
    if row_2(text, at) {
        return 2;
    }
    if row_3(text, at) {
        return 3;
    }
    if row_4(text, at) {
        return 3;
    }
    if row_5(text, at) {
        return 3;
    }
    if row_6(text, at) {
        return 3;
    }
    if row_7(text, at) {
        return 4;
    }
    if row_8(text, at) {
        return 4;
    }
    if row_9(text, at) {
        return 4;
    }
    0
}

// A run of row 1, then characters by the rows, one by one; after a character of row 1 another run. It ends where no row fits, and at the text's end none does.
pub fn well_formed_up_to(text: &[u8]) -> usize
    ensures { result ≡ well_formed_up_to text.now }
{
    let mut at = row_1_run(text, 0);
    // A hand count: each turn goes on by what it read, so there is nothing for a `for` to go over.
    loop {
        let n = character_at(text, at);
        if n == 0 {
            return at;
        }
        at += n;
        if n == 1 {
            at = row_1_run(text, at);
        }
    }
}

pub fn is_well_formed(text: &[u8]) -> bool
    ensures { result ≡ well_formed text.now }
{
    well_formed_up_to(text) == text.len()
}
