// The rule of marker names.
ghost use Rattle.std.specs.Prelude.{◌≡◌, true, false, ◌-◌, ◌<◌, length};
ghost use Rattle.parts.specs.Place.{VeryPart};
ghost use Rattle.tape.specs.Name.{strip as stripped, bare as bare_of_of, ends_name_of, name_len, name_in_of, name_start};

// A text without a byte that it may begin with.
fn strip(s: &[u8], x: u8) -> &[u8]
    ensures bytes { result.now ≡ stripped x s.now }
    ensures place { VeryPart s.entry result (length s.now - length (stripped x s.now)) (length (stripped x s.now)) }
{
    if parts::begins_with(s, &[x]) {
        parts::from(s, 1)
    } else {
        s
    }
}

// A text behind an optional `\` and an optional `+`.
pub fn bare(s: &[u8]) -> &[u8]
    ensures bytes { result.now ≡ bare_of_of s.now }
    ensures place { VeryPart s.entry result (name_start s.now) (length (bare_of_of s.now)) }
{
    strip(strip(s, b'\\'), b'+')
}

// Whether a code point ends a name.
#[tactic(auto, unfolding(crate::specs::Name::ends_name_of))]
pub fn ends_name(code: u32) -> bool
    ensures { result ≡ ends_name_of code }
{
    chars::is_white(code) || code == 0x2A || code == 0x7C || code == 0x5C
}

// Whether a byte is an ASCII character that ends no name: 30..7A but for `\`.
fn is_name_byte(x: u8) -> bool
    ensures { result ≡ true → (x < 128) × (ends_name_of x ≡ false) }
{
    if x < 0x30 {
        return false;
    }
    if 0x7A < x {
        return false;
    }
    x != 0x5C
}

// How long the name at the front of a text is.
fn name_len(s: &[u8]) -> usize
    ensures { result ≡ name_len s.now }
{
    let mut i = 0;
    // A `while`: each turn passes as many bytes as the character takes.
    while i < s.len() {
        if is_name_byte(s[i]) {
            i += 1;
        } else {
            let c = chars::first_char(parts::from(s, i));
            if ends_name(c.code) {
                return i;
            }
            i += c.width;
        }
    }
    i
}

// The name in a text, as the very part of it.
pub fn name_in(s: &[u8]) -> &[u8]
    ensures bytes { result.now ≡ name_in_of s.now }
    ensures place { VeryPart s.entry result (name_start s.now) (name_len (bare_of_of s.now)) }
{
    let t = bare(s);
    parts::part(t, 0, name_len(t))
}
