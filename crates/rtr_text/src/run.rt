// Row 1 repeated: ASCII is passed many bytes at a time. No other function of the crate but `within` of rows.rt looks at a byte's value.
ghost use Rattle.std.specs.Prelude.{◌≡◌, true, [], ◌∷◌, ℕ, ◌+◌, ◌*◌, ◌/◌, ◌%◌, ◌^◌, ◌≤◌, ◌<◌, length, drop, get_or};
ghost use Rattle.rtr_text.specs.Utf8.{◌to◌, begins};

// Two bytes as one number, little-endian.
fn pair(first: u8, second: u8) -> u64
    ensures value { result ≡ second * 2 ^ 8 + first }
    ensures first_bound { (first < 2 ^ 8) × (second < 2 ^ 8) }
{
    (first as u64) | ((second as u64) << 8)
}

// The next two bytes of the text.
fn two_bytes(text: &[u8], at: usize) -> u64
    requires { at + 2 ≤ length text.now }
    ensures upper_bound { result < 2 ^ 16 }
    ensures by_index { (i : ℕ) → i < 2 → result / 2 ^ (8 * i) % 0x100 ≡ get_or text.now (at + i) 0 }
{
    pair(text[at], text[at + 1])
}

// The top bit of each of the next eight bytes, as one word. A byte whose part of the word is 0 is ASCII; no caller needs more.
// Put together in halves, the bytes become one load.
fn high_bits(text: &[u8], at: usize) -> u64
    requires { at + 8 ≤ length text.now }
    ensures { (i : ℕ) → i < 8 → result / 2 ^ (8 * i) % 0x100 ≡ 0 → get_or text.now (at + i) 0 < 0x80 }
{
    let low = two_bytes(text, at) | (two_bytes(text, at + 2) << 16);
    let high = two_bytes(text, at + 4) | (two_bytes(text, at + 6) << 16);
    (low | (high << 32)) & 0x8080808080808080
}

// Where a run of row 1 ends: each byte from `at` up to there is a character by row 1. Sixteen at a time, then up to eight more;
// fewer than eight at the end are tested as part of the text's last eight. It may end early: the rows go on from there.
pub(crate) fn row_1_run(text: &[u8], at: usize) -> usize
    requires { at ≤ length text.now }
    ensures lower_bound { (at ≤ result) × (result ≤ length text.now) }
    ensures by_index { (i : ℕ) → at ≤ i → i < result → begins (0x00 to 0x7f ∷ []) (drop i text.now) ≡ true }
{
    let n = text.len();
    let mut end = at;
    // A hand count: the run goes on from where this stops, so a `for` by steps would need `end` and a `break` besides.
    while 16 <= n - end && (high_bits(text, end) | high_bits(text, end + 8)) == 0 {
        end += 16;
    }
    let rest = n - end;
    if 8 <= rest {
        // A byte is ASCII for each eight zeros, from the first byte on.
        let zeros = u64::trailing_zeros(high_bits(text, end));
        end += (zeros / 8) as usize;
    } else if 8 <= n {
        // And so from the text's last byte back.
        let zeros = u64::leading_zeros(high_bits(text, n - 8));
        if rest <= (zeros / 8) as usize {
            end = n;
        }
    }
    end
}
