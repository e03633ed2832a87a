#![tactic(auto)]
// Places of a text that pass a test, asked through tables: whatever the text, an answer costs at most a block of 64 bytes.
ghost use Rattle.std.specs.Prelude.{◌≡◌, false, ◌+◌, ◌≤◌, ◌<◌, ◌^◌, length, drop, ltb};
ghost use Rattle.chars.specs.Utf8.{characters};
ghost use Rattle.tape.specs.Name.{name_len};
ghost use Rattle.source_index.specs.Seek.{ends_at, solid_at, gap_at, solid_byte, passes_at, next_from, edge_of, Right, Sought, to_word, Dull};

use tape::long;

// What is looked for: a character that ends a name, white space that a word follows at once, or a byte that is no ASCII white space.
#[derive(Clone, Copy)]
pub enum Test {
    Ender,
    Gap,
    Solid,
}

// Whether white space or a character that ends a name can begin with a byte.
fn opens(x: u8) -> bool
    ensures { result ≡ false → Dull x }
{
    matches!(x, 0x00..=0x20 | b'*' | b'\\' | b'|' | 0xC2 | 0xE1..=0xE3)
}

fn ends_at(s: &[u8], i: usize) -> bool
    ensures { result ≡ ends_at (drop i s.now) }
{
    i < s.len() && opens(s[i]) && tape::ends_name(chars::first_char(parts::from(s, i)).code)
}

fn solid_at(s: &[u8], i: usize) -> bool
    ensures { result ≡ solid_at (drop i s.now) }
{
    i < s.len() && !chars::is_white(chars::first_char(parts::from(s, i)).code)
}

fn gap_at(s: &[u8], i: usize) -> bool
    ensures { result ≡ gap_at (drop i s.now) }
{
    if i < s.len() && opens(s[i]) {
        let c = chars::first_char(parts::from(s, i));
        chars::is_white(c.code) && solid_at(s, i + c.width)
    } else {
        false
    }
}

fn solid_byte(s: &[u8], i: usize) -> bool
    ensures { result ≡ solid_byte (drop i s.now) }
{
    i < s.len() && !chars::is_ascii_white(s[i])
}

#[tactic(auto, unfolding(crate::specs::Seek::passes_at))]
fn passes(s: &[u8], i: usize, test: Test) -> bool
    ensures { result ≡ passes_at test (drop i s.now) }
{
    match test {
        Test::Ender => ends_at(s, i),
        Test::Gap => gap_at(s, i),
        Test::Solid => solid_byte(s, i),
    }
}

// The first place from i on that passes, looked for up to a place.
fn look(s: &[u8], test: Test, i: usize, end: usize) -> usize
    ensures { Sought test s.now i end result }
{
    for at in i..end {
        if passes(s, at, test) {
            return at;
        }
    }
    i.max(end)
}

// Where a block starts, as far as the text reaches.
fn edge(s: &[u8], b: usize) -> usize
    ensures { result ≡ edge_of s.now b }
{
    if b <= s.len() / 64 { 64 * b } else { s.len() }
}

// A place as a number of 32 bits, where it is one.
fn short(x: usize) -> u32
    ensures { x < 2 ^ 32 → result ≡ x }
{
    u32::try_from(x).unwrap_or(0)
}

// Fills a table of a text, from the last block to the first.
pub fn fill(table: &mut [u32], s: &[u8], test: Test)
    ensures { length s.now < 2 ^ 32 → Right test s.now table.new }
{
    let mut next = look(s, test, edge(s, table.len()), s.len());
    for b in (0..table.len()).rev() {
        let end = edge(s, b + 1);
        let p = look(s, test, edge(s, b), end);
        if p < end {
            next = p;
        }
        table[b] = short(next);
    }
}

// The first place at or behind i that passes: looked for in i's block, and then in the table.
fn next_near(table: &[u32], s: &[u8], test: Test, i: usize) -> usize
    ensures { Right test s.now table.now → i ≤ length s.now → result ≡ next_from test s.now i }
{
    let b = i / 64 + 1;
    let end = edge(s, b);
    let p = look(s, test, i, end);
    if p < end {
        return p;
    }
    if end < s.len() && b < table.len() {
        return long(table[b]);
    }
    look(s, test, end, s.len())
}

// The first place at or behind i that passes; the text's length where there is none. What stands behind the start of i's block
// serves where it stands behind i.
pub fn next(table: &[u32], s: &[u8], test: Test, i: usize) -> usize
    ensures { Right test s.now table.now → i ≤ length s.now → result ≡ next_from test s.now i }
{
    let own = i / 64;
    if own < table.len() {
        let p = long(table[own]);
        if i <= p {
            return p;
        }
    }
    next_near(table, s, test, i)
}

// Whether the name at a place is longer than so many bytes.
pub fn name_passes(enders: &[u32], s: &[u8], at: usize, base: usize) -> bool
    ensures { Right Test.Ender s.now enders.now → at ≤ length s.now → result ≡ ltb base (name_len (drop at s.now)) }
{
    let p = next(enders, s, Test::Ender, at);
    at < p && base < p - at
}

// Whether a word that white space precedes starts behind a place and before another.
pub fn word_follows(gaps: &[u32], s: &[u8], at: usize, end: usize) -> bool
    ensures { Right Test.Gap s.now gaps.now → at ≤ length s.now → result ≡ ltb (at + to_word false (characters (drop at s.now))) end }
{
    let p = next(gaps, s, Test::Gap, at);
    p + chars::first_char(parts::from(s, p)).width < end
}
