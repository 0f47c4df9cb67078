// Table 3-7 of the Unicode Standard, "Well-Formed UTF-8 Byte Sequences": nine functions, one for each row, in the table's order.
// Above each function is its row as it is printed: the code points, then the range of each byte. docs/UTF8.md sets each row beside its function.
ghost use Rattle.std.specs.Prelude.{[], ◌∷◌, ◌≡◌, ◌+◌, ◌≤◌, ◌<◌, length, drop};
ghost use Rattle.rtr_text.specs.Utf8.{◌to◌, begins};

// Whether the text has a byte at `at + i`, and it lies from `low` to `high`. With i below 4 the sum fits.
fn within(text: &[u8], at: usize, i: usize, low: u8, high: u8) -> bool
    requires at_in_bounds { at ≤ length text.now }
    requires i_bound { i < 4 }
    ensures { result ≡ begins (low to high ∷ []) (drop (at + i) text.now) }
{
    if text.len() <= at + i {
        return false;
    }
    let b = text[at + i];
    low <= b && b <= high
}

// U+0000..U+007F       00..7F
pub(crate) fn row_1(text: &[u8], at: usize) -> bool
    requires { at ≤ length text.now }
    ensures { result ≡ begins (0x00 to 0x7f ∷ []) (drop at text.now) }
{
    within(text, at, 0, 0x00, 0x7f)
}

// U+0080..U+07FF       C2..DF  80..BF
pub(crate) fn row_2(text: &[u8], at: usize) -> bool
    requires { at ≤ length text.now }
    ensures { result ≡ begins (0xc2 to 0xdf ∷ 0x80 to 0xbf ∷ []) (drop at text.now) }
{
    within(text, at, 0, 0xc2, 0xdf) && within(text, at, 1, 0x80, 0xbf)
}

// U+0800..U+0FFF       E0      A0..BF  80..BF
pub(crate) fn row_3(text: &[u8], at: usize) -> bool
    requires { at ≤ length text.now }
    ensures { result ≡ begins (0xe0 to 0xe0 ∷ 0xa0 to 0xbf ∷ 0x80 to 0xbf ∷ []) (drop at text.now) }
{
    within(text, at, 0, 0xe0, 0xe0)
        && within(text, at, 1, 0xa0, 0xbf)
        && within(text, at, 2, 0x80, 0xbf)
}

// U+1000..U+CFFF       E1..EC  80..BF  80..BF
pub(crate) fn row_4(text: &[u8], at: usize) -> bool
    requires { at ≤ length text.now }
    ensures { result ≡ begins (0xe1 to 0xec ∷ 0x80 to 0xbf ∷ 0x80 to 0xbf ∷ []) (drop at text.now) }
{
    within(text, at, 0, 0xe1, 0xec)
        && within(text, at, 1, 0x80, 0xbf)
        && within(text, at, 2, 0x80, 0xbf)
}

// U+D000..U+D7FF       ED      80..9F  80..BF
pub(crate) fn row_5(text: &[u8], at: usize) -> bool
    requires { at ≤ length text.now }
    ensures { result ≡ begins (0xed to 0xed ∷ 0x80 to 0x9f ∷ 0x80 to 0xbf ∷ []) (drop at text.now) }
{
    within(text, at, 0, 0xed, 0xed)
        && within(text, at, 1, 0x80, 0x9f)
        && within(text, at, 2, 0x80, 0xbf)
}

// U+E000..U+FFFF       EE..EF  80..BF  80..BF
pub(crate) fn row_6(text: &[u8], at: usize) -> bool
    requires { at ≤ length text.now }
    ensures { result ≡ begins (0xee to 0xef ∷ 0x80 to 0xbf ∷ 0x80 to 0xbf ∷ []) (drop at text.now) }
{
    within(text, at, 0, 0xee, 0xef)
        && within(text, at, 1, 0x80, 0xbf)
        && within(text, at, 2, 0x80, 0xbf)
}

// U+10000..U+3FFFF     F0      90..BF  80..BF  80..BF
pub(crate) fn row_7(text: &[u8], at: usize) -> bool
    requires { at ≤ length text.now }
    ensures { result ≡ begins (0xf0 to 0xf0 ∷ 0x90 to 0xbf ∷ 0x80 to 0xbf ∷ 0x80 to 0xbf ∷ []) (drop at text.now) }
{
    within(text, at, 0, 0xf0, 0xf0)
        && within(text, at, 1, 0x90, 0xbf)
        && within(text, at, 2, 0x80, 0xbf)
        && within(text, at, 3, 0x80, 0xbf)
}

// U+40000..U+FFFFF     F1..F3  80..BF  80..BF  80..BF
pub(crate) fn row_8(text: &[u8], at: usize) -> bool
    requires { at ≤ length text.now }
    ensures { result ≡ begins (0xf1 to 0xf3 ∷ 0x80 to 0xbf ∷ 0x80 to 0xbf ∷ 0x80 to 0xbf ∷ []) (drop at text.now) }
{
    within(text, at, 0, 0xf1, 0xf3)
        && within(text, at, 1, 0x80, 0xbf)
        && within(text, at, 2, 0x80, 0xbf)
        && within(text, at, 3, 0x80, 0xbf)
}

// U+100000..U+10FFFF   F4      80..8F  80..BF  80..BF
pub(crate) fn row_9(text: &[u8], at: usize) -> bool
    requires { at ≤ length text.now }
    ensures { result ≡ begins (0xf4 to 0xf4 ∷ 0x80 to 0x8f ∷ 0x80 to 0xbf ∷ 0x80 to 0xbf ∷ []) (drop at text.now) }
{
    within(text, at, 0, 0xf4, 0xf4)
        && within(text, at, 1, 0x80, 0x8f)
        && within(text, at, 2, 0x80, 0xbf)
        && within(text, at, 3, 0x80, 0xbf)
}
