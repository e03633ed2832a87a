#![tactic(auto)]
// Words and trims of a text, by ASCII or by Unicode white space.
ghost use Rattle.std.specs.Prelude.{◌≡◌, [], zero, length, get_or, drop};
ghost use Rattle.words.specs.Words.{words, trim_start, trim_end, trim as trim_of, is_blank_of, white_len, word_len, after_word, last_of, next_word, nth_word};
ghost use Rattle.words.specs.First.{front_of_of, run_of, visible, ends_visible};

// Which white space: the 5 bytes of ASCII, or Unicode's 25 code points.
#[derive(Clone, Copy, PartialEq, Eq)]
pub enum Set {
    Ascii,
    Unicode,
}

// A part of a text.
#[derive(Clone, Copy)]
pub struct Part {
    pub start: usize,
    pub len: usize,
}

// The first character of a text: how many bytes it takes, and whether it is white space.
#[derive(Clone, Copy)]
struct FirstChar {
    width: usize,
    white: bool,
}

fn front(s: &[u8], set: Set) -> FirstChar
    ensures { result ≡ front_of_of set s.now }
{
    match set {
        Set::Ascii => match s.first() {
            Some(x) => FirstChar {
                width: 1,
                white: chars::is_ascii_white(*x),
            },
            None => FirstChar {
                width: 0,
                white: false,
            },
        },
        Set::Unicode => {
            let c = chars::first_char(s);
            FirstChar {
                width: c.width,
                white: chars::is_white(c.code),
            }
        }
    }
}

// Whether a byte is visible ASCII, 21..7E.
#[tactic(auto, unfolding(crate::specs::First::visible, chars::specs::Range::within))]
fn is_visible(x: u8) -> bool
    ensures { result ≡ visible x }
{
    x.is_ascii_graphic()
}

// The character at a place: most are visible ASCII, which no set has as white space, or a space, which each has.
fn front_at(s: &[u8], at: usize, set: Set) -> FirstChar
    ensures { result ≡ front_of_of set (drop at s.now) }
{
    match s.get(at) {
        Some(x) if is_visible(*x) => FirstChar {
            width: 1,
            white: false,
        },
        Some(b' ') => FirstChar {
            width: 1,
            white: true,
        },
        _ => front(parts::from(s, at), set),
    }
}

// The bytes of the characters at the front that are white space, or that are not; visible ASCII by its byte alone.
fn run_len(s: &[u8], set: Set, white: bool) -> usize
    ensures { result ≡ run_of set white s.now }
{
    let mut at = 0;
    // A `while`: each turn passes as many bytes as the character takes.
    while at < s.len() {
        if is_visible(s[at]) {
            if white {
                return at;
            }
            at += 1;
        } else {
            let c = front_at(s, at, set);
            if c.white != white {
                return at;
            }
            at += c.width;
        }
    }
    at
}

// The bytes of white space that a text begins with.
pub fn white_len(s: &[u8], set: Set) -> usize
    ensures { result ≡ white_len set s.now }
{
    match set {
        Set::Ascii => s
            .iter()
            .position(|x| !chars::is_ascii_white(*x))
            .unwrap_or(s.len()),
        Set::Unicode => run_len(s, Set::Unicode, true),
    }
}

// The bytes before its first white space.
pub fn word_len(s: &[u8], set: Set) -> usize
    ensures { result ≡ word_len set s.now }
{
    run_len(s, set, false)
}

// Whether a text ends with a visible byte of ASCII.
fn ends_visible(s: &[u8]) -> bool
    ensures { result ≡ ends_visible s.now }
{
    match s.last() {
        Some(x) => is_visible(*x),
        None => false,
    }
}

// Where the last character that is not white space ends, one by one from the front.
fn solid_chars(s: &[u8]) -> usize
    ensures { result ≡ length (trim_end Set.Unicode s.now) }
{
    // Most texts: no character reaches into the last byte, and it is not white space.
    if ends_visible(s) {
        return s.len();
    }
    let mut at = 0;
    let mut end = 0;
    // A `while`: each turn passes as many bytes as the character takes.
    while at < s.len() {
        let c = front_at(s, at, Set::Unicode);
        let next = at + c.width;
        if !c.white {
            end = next;
        }
        at = next;
    }
    end
}

// Where the last character that is not white space ends.
pub fn solid_len(s: &[u8], set: Set) -> usize
    ensures { result ≡ length (trim_end set s.now) }
{
    match set {
        Set::Ascii => {
            let white = s.iter().rev().position(|x| !chars::is_ascii_white(*x));
            s.len() - white.unwrap_or(s.len())
        }
        Set::Unicode => solid_chars(s),
    }
}

pub fn trim_start(s: &[u8], set: Set) -> &[u8]
    ensures { result.now ≡ trim_start set s.now }
{
    parts::from(s, white_len(s, set))
}

pub fn trim_end(s: &[u8], set: Set) -> &[u8]
    ensures { result.now ≡ trim_end set s.now }
{
    parts::part(s, 0, solid_len(s, set))
}

pub fn trim(s: &[u8], set: Set) -> &[u8]
    ensures { result.now ≡ trim_of set s.now }
{
    trim_end(trim_start(s, set), set)
}

// Whether a text is white space alone, or empty.
pub fn is_blank(s: &[u8], set: Set) -> bool
    ensures { result ≡ is_blank_of set s.now }
{
    trim_start(s, set).is_empty()
}

// The first word at or after a place; of length 0 where there is none.
pub fn next_word(s: &[u8], set: Set, at: usize) -> Part
    ensures { result ≡ next_word set s.now at }
{
    let start = at + white_len(parts::from(s, at), set);
    Part {
        start,
        len: word_len(parts::from(s, start), set),
    }
}

// The word that n others precede; of length 0 where there is none.
pub fn nth_word(s: &[u8], set: Set, n: usize) -> Part
    ensures { result ≡ nth_word set s.now zero n }
{
    let mut word = next_word(s, set, 0);
    for _passed in 0..n {
        if word.len == 0 {
            return word;
        }
        word = next_word(s, set, word.start + word.len);
    }
    word
}

// The first word, or nothing.
pub fn first_word(s: &[u8], set: Set) -> &[u8]
    ensures { result.now ≡ get_or (words set s.now) zero [] }
{
    let word = next_word(s, set, 0);
    parts::part(s, word.start, word.len)
}

// What follows the first word.
pub fn after_word(s: &[u8], set: Set) -> &[u8]
    ensures { result.now ≡ after_word set s.now }
{
    let word = next_word(s, set, 0);
    parts::from(s, word.start + word.len)
}

// The last word, or nothing.
pub fn last_word(s: &[u8], set: Set) -> &[u8]
    ensures { result.now ≡ last_of (words set s.now) }
{
    let mut last = next_word(s, set, 0);
    let mut next = last;
    // A `while`: each turn passes as many bytes as the word takes.
    while 0 < next.len {
        last = next;
        next = next_word(s, set, next.start + next.len);
    }
    parts::part(s, last.start, last.len)
}
