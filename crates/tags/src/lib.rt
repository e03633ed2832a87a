#![tactic(auto)]
// The tag form: what stands at the front of a text, by lengths, where no byte is copied.
mod elements;

ghost use Rattle.std.specs.Prelude.{◌≡◌, drop};
ghost use Rattle.tags.specs.Names.{element_at};
ghost use Rattle.tags.specs.Form.{plain, key_byte_of, escape_at, ok, run, pair_at, close_head, open_head_of, head_at_of, tail_at};

pub use elements::Element;
use parts::{begins_with, byte_at, from};

// What a run of bytes may hold.
#[derive(Clone, Copy)]
pub enum Class {
    Text,
    Value,
    Key,
}

// An element: its number, and the length of its name; no Option, since the public definitions `which` and `element_at` of specs/ are of this type.
#[derive(Clone, Copy)]
pub enum Named {
    Name(u8, usize),
    Unnamed,
}

// What a token begins with: a text of so many bytes, a whole closing tag, `<` and a name; with the length.
#[derive(Clone, Copy)]
pub enum Head {
    Bad,
    Words(usize),
    Closing(u8, usize),
    Opening(u8, usize),
}

// How a tag ends behind its attributes.
#[derive(Clone, Copy)]
pub enum Tail {
    Open,
    Empty,
    Neither,
}

// ---- bytes that may stand

#[tactic(auto, unfolding(crate::specs::Form::plain))]
fn is_plain(c: u8) -> bool
    ensures { result ≡ plain c }
{
    c != b'<' && c != b'>' && c != b'&'
}

#[tactic(auto, unfolding(crate::specs::Form::key_byte_of))]
fn is_key_byte(c: u8) -> bool
    ensures { result ≡ key_byte_of c }
{
    c != b' ' && c != b'=' && c != b'"'
}

#[tactic(auto, unfolding(crate::specs::Form::escape_at))]
fn is_escape(s: &[u8]) -> bool
    ensures { result ≡ escape_at s.now }
{
    begins_with(s, b"&lt;") || begins_with(s, b"&gt;") || begins_with(s, b"&amp;")
}

// Whether the first byte of s may stand in a run of the class.
#[tactic(auto, unfolding(crate::specs::Form::ok))]
fn stands(s: &[u8], class: Class) -> bool
    ensures { result ≡ ok class s.now }
{
    let c = byte_at(s, 0);
    match class {
        Class::Text => is_plain(c) || is_escape(s),
        Class::Value => {
            if is_plain(c) {
                c != b'"'
            } else {
                is_escape(s) || begins_with(s, b"&quot;")
            }
        }
        Class::Key => is_plain(c) && is_key_byte(c),
    }
}

// How many bytes from the front may stand in a run of the class.
#[tactic(auto, using(crate::proofs::Laws::run_turn, crate::proofs::Laws::run_stop, crate::proofs::Laws::run_end))]
fn run_of(s: &[u8], class: Class) -> usize
    ensures { result ≡ run (ok class) s.now }
{
    for i in 0..s.len() {
        if !stands(&s[i..], class) {
            return i;
        }
    }
    s.len()
}

// ---- names

// The element whose name stands at the front; no name begins another.
#[tactic(auto, unfolding(crate::specs::Names::element_at, crate::specs::Names::which))]
fn element(s: &[u8]) -> Named
    ensures { result ≡ element_at s.now }
{
    if begins_with(s, b"usx") {
        Named::Name(Element::USX, 3)
    } else if begins_with(s, b"book") {
        Named::Name(Element::BOOK, 4)
    } else if begins_with(s, b"chapter") {
        Named::Name(Element::CHAPTER, 7)
    } else if begins_with(s, b"verse") {
        Named::Name(Element::VERSE, 5)
    } else if begins_with(s, b"para") {
        Named::Name(Element::PARA, 4)
    } else if begins_with(s, b"char") {
        Named::Name(Element::CHAR, 4)
    } else if begins_with(s, b"note") {
        Named::Name(Element::NOTE, 4)
    } else if begins_with(s, b"ms") {
        Named::Name(Element::MS, 2)
    } else if begins_with(s, b"figure") {
        Named::Name(Element::FIGURE, 6)
    } else if begins_with(s, b"table") {
        Named::Name(Element::TABLE, 5)
    } else if begins_with(s, b"row") {
        Named::Name(Element::ROW, 3)
    } else if begins_with(s, b"cell") {
        Named::Name(Element::CELL, 4)
    } else if begins_with(s, b"sidebar") {
        Named::Name(Element::SIDEBAR, 7)
    } else if begins_with(s, b"periph") {
        Named::Name(Element::PERIPH, 6)
    } else if begins_with(s, b"optbreak") {
        Named::Name(Element::OPTBREAK, 8)
    } else if begins_with(s, b"ref") {
        Named::Name(Element::REF, 3)
    } else {
        Named::Unnamed
    }
}

// ---- the parts of a token, each at the front

// ` key="value"`: the lengths of the key and of the value.
#[tactic(auto, unfolding(crate::specs::Form::pair_at))]
pub fn pair_at(s: &[u8]) -> Option<(usize, usize)>
    ensures { result ≡ pair_at s.now }
{
    if !begins_with(s, b" ") {
        return None;
    }
    let key = from(s, 1);
    let k = run_of(key, Class::Key);
    let equals = from(key, k);
    if k == 0 || !begins_with(equals, b"=\"") {
        return None;
    }
    let value = from(equals, 2);
    let v = run_of(value, Class::Value);
    if begins_with(from(value, v), b"\"") {
        Some((k, v))
    } else {
        None
    }
}

// `>` or ` />`.
#[tactic(auto, unfolding(crate::specs::Form::tail_at))]
pub fn tail_at(s: &[u8]) -> Tail
    ensures { result ≡ tail_at s.now }
{
    if begins_with(s, b">") {
        Tail::Open
    } else if begins_with(s, b" />") {
        Tail::Empty
    } else {
        Tail::Neither
    }
}

// Behind `</`.
#[tactic(auto, unfolding(crate::specs::Form::close_head))]
fn close_head(s: &[u8]) -> Head
    ensures { result ≡ close_head s.now (element_at (drop 2 s.now)) }
{
    match element(from(s, 2)) {
        Named::Name(n, l) if begins_with(from(s, l + 2), b">") => Head::Closing(n, l + 3),
        _ => Head::Bad,
    }
}

// Behind `<`.
#[tactic(auto, unfolding(crate::specs::Form::open_head_of))]
fn open_head(s: &[u8]) -> Head
    ensures { result ≡ open_head_of (element_at (drop 1 s.now)) }
{
    match element(from(s, 1)) {
        Named::Unnamed => Head::Bad,
        Named::Name(n, l) => Head::Opening(n, l + 1),
    }
}

// A text, `</name>`, or `<name`.
#[tactic(auto, unfolding(crate::specs::Form::head_at_of, crate::specs::Form::text_head))]
pub fn head_at(s: &[u8]) -> Head
    ensures { result ≡ head_at_of s.now }
{
    if begins_with(s, b"</") {
        close_head(s)
    } else if begins_with(s, b"<") {
        open_head(s)
    } else {
        let k = run_of(s, Class::Text);
        if 0 < k { Head::Words(k) } else { Head::Bad }
    }
}
