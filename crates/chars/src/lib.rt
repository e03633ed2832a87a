#![tactic(auto)]
// Characters: UTF-8 and white space.
ghost use Rattle.std.specs.Prelude.{◌≡◌, ◌==◌, false, cond, [], ◌∷◌, ◌-◌, ◌≤◌, ◌<◌, length, drop};
ghost use Rattle.chars.specs.Range.{◌to◌, within};
ghost use Rattle.chars.specs.Utf8.{seq_len, point, first_char, is_utf8 as is_utf8_of, is_boundary};
ghost use Rattle.chars.specs.Pass.{any_high, PassTo};
ghost use Rattle.chars.specs.Space.{is_white, is_ascii_white, searched};

use parts::{any_byte, blocks_without, byte_at, from};

// A character: its code point, and how many bytes it takes.
#[derive(Clone, Copy)]
pub struct Char {
    pub code: u32,
    pub width: usize,
}

// The 25 code points that Unicode marks White_Space, in order.
const WHITE: [u32; 25] = [
    0x09, 0x0A, 0x0B, 0x0C, 0x0D, 0x20, 0x85, 0xA0, 0x1680, 0x2000, 0x2001, 0x2002, 0x2003, 0x2004,
    0x2005, 0x2006, 0x2007, 0x2008, 0x2009, 0x200A, 0x2028, 0x2029, 0x202F, 0x205F, 0x3000,
];

// Whether a byte continues a sequence.
#[tactic(auto, unfolding(crate::specs::Range::within))]
fn is_tail(x: u8) -> bool
    ensures { result ≡ within (128 to 191) x }
{
    matches!(x, 0x80..=0xBF)
}

// The rows of two bytes, of a first byte in 80..DF.
fn two(x: u8, y: u8) -> usize
    ensures { 128 ≤ x → x ≤ 223 → result ≡ seq_len (x ∷ y ∷ []) }
{
    if 0xC2 <= x && is_tail(y) { 2 } else { 0 }
}

// Whether a byte may stand second behind a first one in E0..EF.
#[tactic(auto, unfolding(crate::specs::Range::within))]
fn second_of_three(x: u8, y: u8) -> bool
    ensures { result ≡ cond (x == 224) (within (160 to 191) y) (cond (x == 237) (within (128 to 159) y) (within (128 to 191) y)) }
{
    match x {
        0xE0 => matches!(y, 0xA0..=0xBF),
        0xED => matches!(y, 0x80..=0x9F),
        _ => is_tail(y),
    }
}

// The rows of three bytes, of a first byte in E0..EF.
fn three(x: u8, y: u8, z: u8) -> usize
    ensures { 224 ≤ x → x ≤ 239 → result ≡ seq_len (x ∷ y ∷ z ∷ []) }
{
    if second_of_three(x, y) && is_tail(z) {
        3
    } else {
        0
    }
}

// Whether a byte may stand second behind a first one in F0..F4.
#[tactic(auto, unfolding(crate::specs::Range::within))]
fn second_of_four(x: u8, y: u8) -> bool
    ensures { result ≡ cond (x == 240) (within (144 to 191) y) (cond (x == 244) (within (128 to 143) y) (within (128 to 191) y)) }
{
    match x {
        0xF0 => matches!(y, 0x90..=0xBF),
        0xF4 => matches!(y, 0x80..=0x8F),
        _ => is_tail(y),
    }
}

// The rows of four bytes, of a first byte from F0 on.
fn four(x: u8, y: u8, z: u8, w: u8) -> usize
    ensures { 240 ≤ x → result ≡ seq_len (x ∷ y ∷ z ∷ w ∷ []) }
{
    if x <= 0xF4 && second_of_four(x, y) && is_tail(z) && is_tail(w) {
        4
    } else {
        0
    }
}

// The length of the well-formed sequence that s begins with, and 0 where it begins with none.
pub fn seq_len(s: &[u8]) -> usize
    ensures { result ≡ seq_len s.now }
{
    if s.len() == 0 {
        return 0;
    }
    let x = s[0];
    if x < 0x80 {
        return 1;
    }
    // Past the end byte_at gives 0, which lies in no later range.
    if x < 0xE0 {
        return two(x, byte_at(s, 1));
    }
    if x < 0xF0 {
        return three(x, byte_at(s, 1), byte_at(s, 2));
    }
    four(x, byte_at(s, 1), byte_at(s, 2), byte_at(s, 3))
}

// The length of the well-formed sequence at a place, ASCII first.
fn len_at(s: &[u8], i: usize) -> usize
    ensures { result ≡ seq_len (drop i s.now) }
{
    if i < s.len() && s[i] < 0x80 {
        return 1;
    }
    seq_len(from(s, i))
}

fn any_high(s: &[u8]) -> bool
    ensures { result ≡ any_high s.now }
{
    any_byte(s, |x| 0x80 <= x)
}

// Where the whole blocks of ASCII end: long ones, and short ones behind them.
fn ascii_len(s: &[u8]) -> usize
    ensures { PassTo s.now result }
{
    let n = blocks_without(s, 64, 64, any_high);
    n + blocks_without(&s[n..], 16, 16, any_high)
}

// Where the sequences end that begin in the first `span` bytes, or the first place that begins none.
fn sequences(s: &[u8], span: usize) -> usize
    ensures pass_to { PassTo s.now result }
    ensures s_value { result ≡ 0 → 0 < span → 0 < length s.now → is_utf8_of s.now ≡ false }
{
    let end = s.len().min(span);
    let mut i = 0;
    // A `while`: each turn passes as many bytes as the sequence takes.
    while i < end {
        let n = len_at(s, i);
        if n == 0 {
            return i;
        }
        i += n;
    }
    i
}

// How many bytes are walked by sequences: few behind blocks of ASCII, and where there were none twice as many as the last time.
fn next_span(blocks: usize, span: usize) -> usize
    ensures { 0 < span → 0 < result }
{
    if 0 < blocks {
        16
    } else if span < 4096 {
        span * 2
    } else {
        span
    }
}

// Whether s is UTF-8, in one pass: by blocks of ASCII, and by sequences where they end.
pub fn is_utf8(s: &[u8]) -> bool
    ensures { result ≡ is_utf8_of s.now }
{
    let mut span: usize = 16;
    let mut i = 0;
    // A `while`: each turn passes as many bytes as are walked.
    while i < s.len() {
        let n = ascii_len(&s[i..]);
        span = next_span(n, span);
        i += n;
        let m = sequences(&s[i..], span);
        if m == 0 {
            return i == s.len();
        }
        i += m;
    }
    true
}

// How far a byte lies above a limit.
fn above(x: u8, limit: u8) -> u32
    ensures { result ≡ x - limit }
{
    u32::from(x.saturating_sub(limit))
}

// The code points of table 3-6, by the number of bytes.
fn point_two(x: u8, y: u8) -> u32
    ensures { result ≡ point (x ∷ y ∷ []) }
{
    above(x, 0xC0) * 64 + above(y, 0x80)
}

fn point_three(x: u8, y: u8, z: u8) -> u32
    ensures { result ≡ point (x ∷ y ∷ z ∷ []) }
{
    above(x, 0xE0) * 4096 + above(y, 0x80) * 64 + above(z, 0x80)
}

fn point_four(x: u8, y: u8, z: u8, w: u8) -> u32
    ensures { result ≡ point (x ∷ y ∷ z ∷ w ∷ []) }
{
    above(x, 0xF0) * 262144 + above(y, 0x80) * 4096 + above(z, 0x80) * 64 + above(w, 0x80)
}

// The first character of s; at the end of the text one of no bytes.
pub fn first_char(s: &[u8]) -> Char
    ensures { result ≡ first_char s.now }
{
    if s.len() == 0 {
        return Char { code: 0, width: 0 };
    }
    let x = s[0];
    match seq_len(s) {
        0 => Char {
            code: 0xFFFD,
            width: 1,
        },
        1 => Char {
            code: u32::from(x),
            width: 1,
        },
        2 => Char {
            code: point_two(x, byte_at(s, 1)),
            width: 2,
        },
        3 => Char {
            code: point_three(x, byte_at(s, 1), byte_at(s, 2)),
            width: 3,
        },
        _ => Char {
            code: point_four(x, byte_at(s, 1), byte_at(s, 2), byte_at(s, 3)),
            width: 4,
        },
    }
}

// Whether a place of a UTF-8 text lies between characters.
pub fn is_boundary(s: &[u8], at: usize) -> bool
    ensures { result ≡ is_boundary s.now at }
{
    if at < s.len() {
        !is_tail(s[at])
    } else {
        at == s.len()
    }
}

// Whether a rising table holds a number.
fn listed(table: &[u32], code: u32) -> bool
    ensures { result ≡ searched code table.now }
{
    for w in table {
        if code <= *w {
            return *w == code;
        }
    }
    false
}

// Whether a code point is Unicode white space. The table is copied once, where an index into a constant would copy it each time.
pub fn is_white(code: u32) -> bool
    ensures { result ≡ is_white code }
{
    // Most characters are asked for nothing more.
    if 0x20 < code && code < 0x85 {
        return false;
    }
    let table = WHITE;
    listed(&table, code)
}

// Whether a byte is ASCII white space.
#[tactic(auto, unfolding(crate::specs::Space::is_ascii_white, crate::specs::Range::in_any, crate::specs::Range::within))]
pub fn is_ascii_white(x: u8) -> bool
    ensures { result ≡ is_ascii_white x }
{
    x.is_ascii_whitespace()
}
