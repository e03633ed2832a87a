#![tactic(auto)]
// Normalized text written through the window, without a copy of it.
ghost use Rattle.std.specs.Prelude.{◌≡◌, false, min, length, get_or, take, drop};
ghost use Rattle.parts.specs.Pair.{any_pair};
ghost use Rattle.chars.specs.Escape.{escape};
ghost use Rattle.words.specs.Words.{words, joined, trim};
ghost use Rattle.texts.specs.Text.{body_of, spaced, written, space_if};
ghost use Rattle.window.specs.Page.{page_of, paint};
ghost use Rattle.put_body.specs.Body.{rest_of, plain, starts_solid, differs, shared_len, odd, any_odd, SharedTo, marked, gap_white_of, gap_of};
ghost use Rattle.put_body.specs.Edge.{soft_len, core_end_of, core_of, front_of_of};
ghost use Rattle.put_body.specs.Easy.{hard, any_hard, easy, tight, hard_front, hard_as_of, EasyTo, inner_of, edged};

mod frame;

pub use frame::{framed_text, is_framed, put_framed, white_back, white_front};
use texts::Normalized;
use window::Window;
use words::Set;

// What is written for white space or `~`.
#[derive(Clone, Copy)]
enum Mark {
    Nothing,
    Space,
    Hard,
}

// A mark, and how many bytes of the text it stands for.
#[derive(Clone, Copy)]
struct Gap {
    mark: Mark,
    len: usize,
}

// A character: how many bytes it takes, and whether it is white space in a body.
#[derive(Clone, Copy)]
struct Front {
    width: usize,
    soft: bool,
}

// Whether a body holds a byte as it is.
fn is_plain(x: u8) -> bool
    ensures { result ≡ plain x }
{
    x != b'~' && !chars::is_ascii_white(x)
}

fn starts_solid(s: &[u8]) -> bool
    ensures { result ≡ starts_solid s.now }
{
    !s.is_empty() && !chars::is_ascii_white(s[0])
}

// Whether a body differs from its text here, behind a solid byte.
fn differs_here(s: &[u8]) -> bool
    ensures { result ≡ differs s.now }
{
    match s.split_first() {
        None => true,
        Some((b' ', rest)) => !starts_solid(rest),
        Some((x, _)) => !is_plain(*x),
    }
}

// Whether a byte before another may be where they part; with no branch, so that the bytes of a block are tested at once.
fn is_odd(x: u8, y: u8) -> bool
    ensures { result ≡ odd x y }
{
    (x < 32) | (x == b'~') | ((x == b' ') & (y < 33))
}

// Whether one of a text's bytes may, but for the last.
fn any_odd(s: &[u8]) -> bool
    ensures { result ≡ any_odd s.now }
{
    parts::any_pair(s, is_odd)
}

// Where the whole blocks end that a body shares with its text.
fn shared_blocks(s: &[u8]) -> usize
    ensures { SharedTo s.now result }
{
    parts::blocks_without(s, 17, 16, any_odd)
}

// How many bytes a body shares with its text, behind a solid byte, one by one.
fn shared_each(s: &[u8]) -> usize
    ensures { result ≡ shared_len s.now }
{
    for i in 0..s.len() {
        if differs_here(&s[i..]) {
            return i;
        }
    }
    s.len()
}

// The same by blocks, and the last ones singly.
fn shared_len(s: &[u8]) -> usize
    ensures { result ≡ shared_len s.now }
{
    let i = shared_blocks(s);
    i + shared_each(&s[i..])
}

// White space: one space, and at the end nothing.
fn white_gap(s: &[u8]) -> Gap
    ensures { result ≡ gap_white_of s.now }
{
    let len = words::white_len(s, Set::Ascii);
    let mark = if len == s.len() {
        Mark::Nothing
    } else {
        Mark::Space
    };
    Gap { mark, len }
}

// What is written for the first bytes of a text, behind a solid byte.
fn first_gap(s: &[u8]) -> Gap
    ensures { result ≡ gap_of s.now }
{
    match s.split_first() {
        Some((b'~', _)) => Gap {
            mark: Mark::Hard,
            len: 1,
        },
        Some((x, _)) if chars::is_ascii_white(*x) => white_gap(s),
        _ => Gap {
            mark: Mark::Nothing,
            len: 0,
        },
    }
}

fn put_mark(w: &mut Window, out: &mut [u8], mark: Mark)
    ensures { page_of w.new out.new ≡ paint (page_of w.old out.old) (marked mark) }
{
    match mark {
        Mark::Nothing => {}
        Mark::Space => w.put_run(out, b" "),
        Mark::Hard => w.put_run(out, b"\xC2\xA0"),
    }
}

// What a body goes on with behind a solid byte: a run, and the gap behind it.
fn put_rest(w: &mut Window, out: &mut [u8], s: &[u8])
    ensures { page_of w.new out.new ≡ paint (page_of w.old out.old) (escape false (rest_of s.now)) }
{
    let mut rest = s;
    // A `while`: each turn passes a run and the gap behind it.
    while !rest.is_empty() {
        let (run, behind) = rest.split_at(shared_len(rest));
        w.escape_xml(out, run);
        let gap = first_gap(behind);
        put_mark(w, out, gap.mark);
        rest = &behind[gap.len..];
    }
}

// The body of a text.
pub fn put_body(w: &mut Window, out: &mut [u8], s: &[u8])
    ensures { page_of w.new out.new ≡ paint (page_of w.old out.old) (escape false (body_of s.now)) }
{
    put_rest(w, out, words::trim_start(s, Set::Ascii));
}

// The first character of a text.
fn first_front(s: &[u8]) -> Front
    ensures { result ≡ front_of_of s.now }
{
    let c = chars::first_char(s);
    Front {
        width: c.width,
        soft: parts::byte_at(s, 0) == b'~' || chars::is_white(c.code),
    }
}

// The bytes of soft characters that a text begins with.
fn soft_len(s: &[u8]) -> usize
    ensures { result ≡ soft_len s.now }
{
    let mut at = 0;
    // A `while`: each turn passes as many bytes as the character takes.
    while at < s.len() {
        let c = first_front(parts::from(s, at));
        if !c.soft {
            return at;
        }
        at += c.width;
    }
    at
}

// Where the last character that is not soft ends.
fn core_len(s: &[u8]) -> usize
    ensures { result ≡ length (core_end_of s.now) }
{
    let mut at = 0;
    let mut end = 0;
    // A `while`: each turn passes as many bytes as the character takes.
    while at < s.len() {
        let c = first_front(parts::from(s, at));
        let next = at + c.width;
        if !c.soft {
            end = next;
        }
        at = next;
    }
    end
}

// A text without soft characters at its edges.
fn core(s: &[u8]) -> &[u8]
    ensures { result.now ≡ core_of s.now }
{
    let t = parts::from(s, soft_len(s));
    parts::part(t, 0, core_len(t))
}

// A piece of a text between two `//`: its body, trimmed.
pub fn put_segment(w: &mut Window, out: &mut [u8], s: &[u8])
    ensures { page_of w.new out.new ≡ paint (page_of w.old out.old) (escape false (trim Set.Unicode (body_of s.now))) }
{
    put_body(w, out, core(s));
}

fn put_space(w: &mut Window, out: &mut [u8], t: bool)
    ensures { page_of w.new out.new ≡ paint (page_of w.old out.old) (space_if t) }
{
    if t {
        w.put_run(out, b" ");
    }
}

// A normalized text: its lead, its body and its trail.
pub fn put_written(w: &mut Window, out: &mut [u8], s: &[u8], n: Normalized)
    ensures { page_of w.new out.new ≡ paint (page_of w.old out.old) (escape false (written s.now n)) }
{
    put_space(w, out, n.lead);
    put_body(w, out, s);
    put_space(w, out, n.trail);
}

// Whether a byte before another may be written otherwise, or begin a `//`; with no branch, so that the bytes of a block are tested at once.
fn is_hard(x: u8, y: u8) -> bool
    ensures { result ≡ hard x y }
{
    is_odd(x, y) | (x == b'/') | (x == b'<') | (x == b'>') | (x == b'&')
}

// Whether one of a text's bytes may, but for the last.
fn any_hard(s: &[u8]) -> bool
    ensures { result ≡ any_pair hard s.now }
{
    parts::any_pair(s, is_hard)
}

// Where the whole blocks end in which no byte is hard.
fn easy_blocks(s: &[u8]) -> usize
    ensures { EasyTo s.now result }
{
    parts::blocks_without(s, 17, 16, any_hard)
}

// Whether the first byte of a text is hard; with branches: letters fall out by the first two.
fn starts_hard(s: &[u8]) -> bool
    ensures { result ≡ hard (get_or s.now 0 0) (get_or s.now 1 0) }
{
    let x = parts::byte_at(s, 0);
    if b'>' < x {
        return x == b'~';
    }
    is_hard(x, parts::byte_at(s, 1))
}

// Whether one of a text's bytes is hard, one by one.
fn hard_each(s: &[u8]) -> bool
    ensures { result ≡ any_hard s.now }
{
    for i in 0..s.len() {
        if starts_hard(&s[i..]) {
            return true;
        }
    }
    false
}

// Whether a text is its own body and is written as it stands: by blocks, and the last bytes singly.
pub fn is_easy(s: &[u8]) -> bool
    ensures { result ≡ easy s.now }
{
    parts::byte_at(s, 0) != b' ' && !hard_each(&s[easy_blocks(s)..])
}

// Whether a byte before another is hard as number j of n bytes; with no branch, so that the bytes of a block are tested at once.
fn is_hard_as(x: u8, y: u8, j: u8, n: u8) -> bool
    ensures { result ≡ hard_as_of j n x y }
{
    (j <= n) & (is_hard(x, y) | ((x == b' ') & (j == n)))
}

// Whether one of the first 16 of a text's first bytes is hard: all at once, and singly where the text ends sooner.
fn hard_block(s: &[u8], n: usize) -> bool
    ensures { result ≡ hard_front 16 (take n s.now) }
{
    if s.len() < 17 {
        return hard_each(parts::part(s, 0, n));
    }
    let m = n.min(17) as u8;
    let mut found = false;
    let mut k: u8 = 1;
    let mut i = 1;
    // A `while` with two counters: a loop with one takes a fourth more time.
    while i < 17 {
        found |= is_hard_as(s[i - 1], s[i], k, m);
        k += 1;
        i += 1;
    }
    found
}

// Whether one of a text's first bytes is hard, by blocks that may reach behind them.
fn hard_front(s: &[u8], n: usize) -> bool
    ensures { result ≡ any_hard (take n s.now) }
{
    for i in (0..n).step_by(16) {
        if hard_block(parts::from(s, i), n - i) {
            return true;
        }
    }
    false
}

// Whether the first bytes of a text are tight: by blocks of 16 that may reach behind them, and singly where the text ends sooner.
pub fn is_tight(s: &[u8], n: usize) -> bool
    ensures { result ≡ tight (take n s.now) }
{
    match s.split_first() {
        Some((x, _)) if *x != b' ' => 0 < n && !hard_front(s, n),
        _ => false,
    }
}

// A text without white space at its edges: its body is the same.
pub fn inner(s: &[u8]) -> &[u8]
    ensures { result.now ≡ inner_of s.now }
{
    words::trim(s, Set::Ascii)
}

// The words from a place on, a space before each.
fn put_spaced(w: &mut Window, out: &mut [u8], s: &[u8], start: usize, attr: bool)
    ensures { page_of w.new out.new ≡ paint (page_of w.old out.old) (escape attr (spaced (words Set.Unicode (drop start s.now)))) }
{
    let mut at = start;
    // A `while`: each turn passes a word.
    while at < s.len() {
        let word = words::next_word(s, Set::Unicode, at);
        if word.len == 0 {
            return;
        }
        w.put_run(out, b" ");
        w.escape_xml_with(out, parts::part(s, word.start, word.len), attr);
        at = word.start + word.len;
    }
}

// The words of a text, joined by one space.
pub fn put_words(w: &mut Window, out: &mut [u8], s: &[u8], attr: bool)
    ensures { page_of w.new out.new ≡ paint (page_of w.old out.old) (escape attr (joined (words Set.Unicode s.now))) }
{
    let word = words::next_word(s, Set::Unicode, 0);
    w.escape_xml_with(out, parts::part(s, word.start, word.len), attr);
    put_spaced(w, out, s, word.start + word.len, attr);
}
