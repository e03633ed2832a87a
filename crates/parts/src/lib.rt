#![tactic(auto)]
// Parts of a lent slice, and what stands in one.
ghost use Rattle.std.specs.Prelude.{◌≡◌, [], ◌∷◌, ◌-◌, ◌<◌, ◌≤◌, false, length, get_or, drop};
ghost use Rattle.std.specs.List.{list_any};
ghost use Rattle.std.specs.Fn.{FnReturnsAt};
ghost use Rattle.parts.specs.Bytes.{part as part_of, same as is_same, begins, find};
ghost use Rattle.parts.specs.Place.{VeryPart};
ghost use Rattle.parts.specs.Pair.{IsTest, IsPairTest, any_pair, is_both, ClearTo};

// The byte at a place, and 0 past the end.
pub fn byte_at(s: &[u8], i: usize) -> u8
    ensures { result ≡ get_or s.now i 0 }
{
    s.get(i).copied().unwrap_or(0)
}

// What stands from a place on.
pub fn from(s: &[u8], at: usize) -> &[u8]
    ensures bytes { result.now ≡ drop at s.now }
    ensures place { VeryPart s.entry result at (length s.now - at) }
{
    &s[at.min(s.len())..]
}

// The part that starts at a place and is so long, as far as the slice reaches.
pub fn part(s: &[u8], start: usize, len: usize) -> &[u8]
    ensures bytes { result.now ≡ part_of s.now start len }
    ensures place { VeryPart s.entry result start len }
{
    let r = from(s, start);
    &r[..len.min(r.len())]
}

pub fn begins_with(s: &[u8], word: &[u8]) -> bool
    ensures { result ≡ begins word.now s.now }
{
    // Not `starts_with`: a word is mostly a constant of few bytes, and most texts differ in the first one.
    word.len() <= s.len() && word.iter().zip(s).all(|(x, y)| x == y)
}

// Whether two slices hold the same bytes.
pub fn same(a: &[u8], z: &[u8]) -> bool
    ensures { result ≡ is_same a.now z.now }
{
    a == z
}

// Where a byte first stands, or the length where it does not.
pub fn find_byte(s: &[u8], x: u8) -> usize
    ensures { result ≡ find (x ∷ []) s.now }
{
    s.iter().position(|y| *y == x).unwrap_or(s.len())
}

// Whether one of a text's bytes passes a test; with no early exit, so that the bytes of a block are tested at once.
pub fn any_byte<F: Fn(u8) -> bool>(s: &[u8], test: F) -> bool
    requires { F.IsAlwaysCallable test }
    ensures { (p : _) → IsTest (F.post test) p → result ≡ list_any p s.now }
{
    let mut found = false;
    for x in s {
        found |= test(*x);
    }
    found
}

// Whether one of a text's bytes, but for the last, and the byte behind it pass a test; with no early exit, as above.
pub fn any_pair<F: Fn(u8, u8) -> bool>(s: &[u8], test: F) -> bool
    requires { F.IsAlwaysCallable test }
    ensures { (p : _) → IsPairTest (F.post test) p → result ≡ any_pair p s.now }
{
    let mut found = false;
    for i in 1..s.len() {
        found |= test(s[i - 1], s[i]);
    }
    found
}

// Where the blocks end in which nothing is found: each of `size` bytes, one begun every `step` bytes.
pub fn blocks_without<F: Fn(&[u8]) -> bool>(s: &[u8], size: usize, step: usize, found: F) -> usize
    requires on { 0 < step }
    requires touching { step ≤ size }
    requires callable { F.IsAlwaysCallable found }
    ensures { ClearTo (λ b. FnReturnsAt F.Fn found b false) s.now size step result }
{
    let mut i = 0;
    // A `while`: it ends where no whole block is left.
    while size <= s.len() - i {
        if found(&s[i..i + size]) {
            return i;
        }
        i += step;
    }
    i
}

fn has_pair(s: &[u8], x: u8) -> bool
    ensures { result ≡ any_pair (is_both x) s.now }
{
    any_pair(s, |y, z| (x == y) & (x == z))
}

// Where a byte first stands twice in a row, one by one.
fn pair_each(s: &[u8], x: u8) -> usize
    ensures { result ≡ find (x ∷ x ∷ []) s.now }
{
    for i in 1..s.len() {
        if s[i - 1] == x && s[i] == x {
            return i - 1;
        }
    }
    s.len()
}

// Where a byte first stands twice in a row, as in `//`, or the length where it does not.
pub fn find_pair(s: &[u8], x: u8) -> usize
    ensures { result ≡ find (x ∷ x ∷ []) s.now }
{
    let i = blocks_without(s, 17, 16, |b| has_pair(b, x));
    i + pair_each(&s[i..], x)
}
