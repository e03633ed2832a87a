#![tactic(auto)]
// The attributes of a node.
mod barred;

ghost use Rattle.std.specs.Prelude.{◌≡◌, map, ◌+◌, ◌≤◌, ◌<◌, min, length, drop};
ghost use Rattle.tape.specs.Name.{strip};
ghost use Rattle.parts.specs.Bytes.{Bytes, same};
ghost use Rattle.words.specs.Words.{words as words_of, last_of, bytes_of};
ghost use Rattle.words.specs.declared.Set.TheVariants.{Unicode};
ghost use Rattle.tape.specs.File.{contents, text_at_of};
ghost use Rattle.attrs.specs.Attr.{closes_at, quoted_len, piece_len, value_at, pairs_in, is_word_marker, default_key, key_for, keyed_for, attribute_body, body_pairs, pairs_at, pairs_along, attributes_of};
ghost use Rattle.attrs.specs.Walk.{fixed_keys, Spot, key_of, FirstOf, item_list, got_list, remaining, attrs_start, next_list, first_of, sought_of, KeyPart};
ghost use Rattle.tape.specs.Tree.{walk_from};

pub use barred::is_barred;
use tape::{Cursor, Kind, TapeFile, long};
use words::{Part, Set};

// The keys that stand in no source, one behind the other.
pub const FIXED_KEYS: [u8; 42] = *b"lemmaglosshrefloclink-hrefidwhodefaultfile";

// A value at the front of a text: its part, whether it is quoted, and where what follows it starts.
#[derive(Clone, Copy)]
struct Taken {
    start: usize,
    len: usize,
    quoted: bool,
    past: usize,
}

// A raw value, as a part of the source; where it is quoted, `\"` in it stands for `"`.
#[derive(Clone, Copy)]
pub struct Value {
    pub start: usize,
    pub len: usize,
    pub quoted: bool,
}

// A part of the source, or of the text of fixed keys.
#[derive(Clone, Copy)]
pub enum Key {
    Own(Part),
    Fixed(Part),
}

// The pair at the front of a text, by parts of it.
#[derive(Clone, Copy)]
struct First {
    key: Part,
    value: Taken,
}

// A pair of the source, its key as it stands there or as its marker has it, and what follows it.
#[derive(Clone, Copy)]
struct Item<K> {
    key: K,
    value: Value,
    rest: Part,
}

// A walk over the attributes of a node: the rest of a body, and the next child to look at.
#[derive(Clone, Copy)]
pub struct Attrs {
    pub rest: Part,
    pub next: Option<Cursor>,
}

// An attribute, and those behind it.
#[derive(Clone, Copy)]
pub struct Attribute {
    pub key: Key,
    pub value: Value,
    pub left: Attrs,
}

impl Item<Key> {
    // The attribute that a pair is, where this child is looked at next.
    fn before(self, next: Option<Cursor>) -> Attribute
        ensures { result ≡ record { key = self.key; value = self.value; left = record { rest = self.rest; next = next } } }
    {
        Attribute {
            key: self.key,
            value: self.value,
            left: Attrs {
                rest: self.rest,
                next,
            },
        }
    }
}

// ---- values

// How many bytes stand before the first `\"`.
pub fn piece_len(s: &[u8]) -> usize
    ensures { result ≡ piece_len s.now }
{
    for i in 0..s.len() {
        if parts::begins_with(&s[i..], b"\\\"") {
            return i;
        }
    }
    s.len()
}

// Whether a byte behind another ends a quoted value.
#[tactic(auto, unfolding(crate::specs::Attr::closes_at))]
fn closes(last: u8, x: u8) -> bool
    ensures { result ≡ closes_at last x }
{
    x == b'"' && last != b'\\'
}

// How many bytes stand before the `"` that ends a quoted value.
fn quoted_len(s: &[u8]) -> usize
    ensures { result ≡ quoted_len s.now }
{
    let mut last = 0;
    for (i, &x) in s.iter().enumerate() {
        if closes(last, x) {
            return i;
        }
        last = x;
    }
    s.len()
}

// The value at or after a place.
fn value_at(s: &[u8], from: usize) -> Taken
    ensures { result ≡ value_at s.now from }
{
    let at = from + words::white_len(parts::from(s, from), Set::Unicode);
    let v = parts::from(s, at);
    if parts::begins_with(v, b"\"") {
        let start = at + 1;
        let len = quoted_len(parts::from(s, start));
        Taken {
            start,
            len,
            quoted: true,
            past: (start + len + 1).min(s.len()),
        }
    } else {
        let len = words::word_len(v, Set::Unicode);
        Taken {
            start: at,
            len,
            quoted: false,
            past: at + len,
        }
    }
}

// ---- pairs

// The last word of a text, as a part of it.
fn last_word(s: &[u8]) -> Part
    ensures { Spot s.now result (last_of (words_of Unicode s.now)) }
{
    let mut last = words::next_word(s, Set::Unicode, 0);
    let mut next = last;
    // A `while`: each turn passes a word, as long as it is.
    while 0 < next.len {
        last = next;
        next = words::next_word(s, Set::Unicode, next.start + next.len);
    }
    last
}

// The pair at the front of a text.
fn first_pair(s: &[u8]) -> Option<First>
    ensures { FirstOf s.now result }
{
    let eq = parts::find_byte(s, b'=');
    if s.len() <= eq {
        return None;
    }
    Some(First {
        key: last_word(parts::part(s, 0, eq)),
        value: value_at(s, eq + 1),
    })
}

// The first pair with a key in a part of the source.
fn next_pair(source: &[u8], part: Part) -> Option<Item<Part>>
    ensures { pairs_in (bytes_of source.now part) ≡ item_list source.now result }
{
    let mut start = part.start;
    let mut len = part.len;
    while let Some(first) = first_pair(parts::part(source, start, len)) {
        let at = start;
        start = at + first.value.past;
        len = len - first.value.past;
        if 0 < first.key.len {
            return Some(Item {
                key: Part {
                    start: at + first.key.start,
                    len: first.key.len,
                },
                value: Value {
                    start: at + first.value.start,
                    len: first.value.len,
                    quoted: first.value.quoted,
                },
                rest: Part { start, len },
            });
        }
    }
    None
}

// ---- keys

// Whether a marker is one of the word list's.
#[tactic(auto, unfolding(crate::specs::Attr::is_word_marker))]
fn is_word(marker: &[u8]) -> bool
    ensures { result ≡ is_word_marker marker.now }
{
    parts::same(marker, b"w")
        || parts::same(marker, b"wa")
        || parts::same(marker, b"wg")
        || parts::same(marker, b"wh")
}

// The default key of a marker, as a part of the fixed keys.
fn default_key(marker: &[u8]) -> Part
    ensures { bytes_of fixed_keys result ≡ default_key marker.now }
{
    if is_word(marker) {
        Part { start: 0, len: 5 }
    } else if parts::same(marker, b"rb") {
        Part { start: 5, len: 5 }
    } else if parts::same(marker, b"xt") {
        Part { start: 10, len: 4 }
    } else if parts::same(marker, b"ref") {
        Part { start: 14, len: 3 }
    } else if parts::same(marker, b"jmp") {
        Part { start: 17, len: 9 }
    } else if parts::same(marker, b"periph") {
        Part { start: 26, len: 2 }
    } else if parts::begins_with(marker, b"qt") {
        Part { start: 28, len: 3 }
    } else {
        Part { start: 31, len: 7 }
    }
}

// The key of a pair in the source, as its marker has it.
#[tactic(auto, unfolding(crate::specs::Attr::key_for, crate::specs::Walk::key_of))]
fn key_for(source: &[u8], marker: &[u8], key: Part) -> Key
    ensures { key_of source.now fixed_keys result ≡ key_for marker.now (bytes_of source.now key) }
{
    if parts::same(marker, b"fig") && parts::same(parts::part(source, key.start, key.len), b"src") {
        return Key::Fixed(Part { start: 38, len: 4 });
    }
    Key::Own(key)
}

// The bytes of a key: a part of the source or of the fixed keys.
pub fn key_of<'a>(source: &'a [u8], fixed: &'a [u8], k: Key) -> &'a [u8]
    ensures bytes { result.now ≡ key_of source.now fixed.now k }
    ensures place { KeyPart source.entry fixed.entry k result }
{
    match k {
        Key::Own(p) => parts::part(source, p.start, p.len),
        Key::Fixed(p) => parts::part(fixed, p.start, p.len),
    }
}

// Whether a key is this one.
fn is_key(source: &[u8], k: Key, key: &[u8]) -> bool
    ensures { result ≡ same (key_of source.now fixed_keys k) key.now }
{
    let fixed = FIXED_KEYS;
    parts::same(key_of(source, &fixed, k), key)
}

// ---- attributes

// The first pair of a part of the source, its key as the marker has it.
fn pair_in(source: &[u8], marker: &[u8], part: Part) -> Option<Item<Key>>
    ensures { map (keyed_for marker.now) (pairs_in (bytes_of source.now part)) ≡ got_list source.now marker.now result }
{
    let item = next_pair(source, part)?;
    Some(Item {
        key: key_for(source, marker, item.key),
        value: item.value,
        rest: item.rest,
    })
}

// The first pair of a body.
fn pair_of(source: &[u8], marker: &[u8], body: Part) -> Option<Item<Key>>
    ensures { body_pairs marker.now (bytes_of source.now body) ≡ got_list source.now marker.now result }
{
    let s = parts::part(source, body.start, body.len);
    if s.len() == 0 {
        return None;
    }
    if parts::find_byte(s, b'=') < s.len() {
        return pair_in(source, marker, body);
    }
    Some(Item {
        key: Key::Fixed(default_key(marker)),
        value: Value {
            start: body.start,
            len: body.len,
            quoted: false,
        },
        rest: Part {
            start: body.start,
            len: 0,
        },
    })
}

// A `|` in front of a text, 1 or 0.
fn bar_len(s: &[u8]) -> usize
    ensures { (result ≤ length s.now) × (drop result s.now ≡ strip 124 s.now) }
{
    if parts::begins_with(s, b"|") { 1 } else { 0 }
}

// The body of an Attribute, as a part of its text.
fn body_in(s: &[u8]) -> Part
    ensures { Spot s.now result (attribute_body s.now) }
{
    let bar = bar_len(s);
    let start = bar + words::white_len(parts::from(s, bar), Set::Unicode);
    Part {
        start,
        len: words::solid_len(parts::from(s, start), Set::Unicode),
    }
}

// The body of an Attribute, as a part of the source.
fn body_at(tape: &TapeFile<'_>, c: Cursor) -> Part
    ensures { bytes_of (contents tape.now).source result ≡ attribute_body (text_at_of (contents tape.now) c.at) }
{
    let n = c.node(tape);
    let body = body_in(c.text(tape));
    Part {
        start: long(n.start) + body.start,
        len: body.len,
    }
}

// The first pair of a node.
fn pair_at(tape: &TapeFile<'_>, marker: &[u8], c: Cursor) -> Option<Item<Key>>
    ensures { pairs_at (contents tape.now) marker.now c.at ≡ got_list (contents tape.now).source marker.now result }
{
    if c.kind(tape).code != Kind::ATTRIBUTE {
        return None;
    }
    pair_of(tape.source(), marker, body_at(tape, c))
}

// The first attribute of the nodes from a step on.
fn along(tape: &TapeFile<'_>, marker: &[u8], from: Option<Cursor>) -> Option<Attribute>
    ensures { pairs_along (contents tape.now) marker.now (walk_from (contents tape.now) from) ≡ next_list (contents tape.now) marker.now result }
{
    let mut step = from;
    while let Some(c) = step {
        step = c.next_sibling(tape);
        if let Some(pair) = pair_at(tape, marker, c) {
            return Some(pair.before(step));
        }
    }
    None
}

impl Attrs {
    // The attributes of a node, from the first on.
    pub fn of(tape: &TapeFile<'_>, c: Cursor) -> Self
        ensures result_value { (m : Bytes) → remaining (contents tape.now) m result ≡ attributes_of (contents tape.now) c.at m }
        ensures value { result ≡ attrs_start (contents tape.now) c.at }
    {
        Attrs {
            rest: Part { start: 0, len: 0 },
            next: c.first_child(tape),
        }
    }

    // The next attribute, and those behind it.
    pub fn next(self, tape: &TapeFile<'_>, marker: &[u8]) -> Option<Attribute>
        ensures { remaining (contents tape.now) marker.now self ≡ next_list (contents tape.now) marker.now result }
    {
        match pair_in(tape.source(), marker, self.rest) {
            Some(pair) => Some(pair.before(self.next)),
            None => along(tape, marker, self.next),
        }
    }
}

// The value of the first attribute with a key.
pub fn first_with(tape: &TapeFile<'_>, c: Cursor, marker: &[u8], key: &[u8]) -> Option<Value>
    ensures { sought_of (contents tape.now).source result ≡ first_of key.now (attributes_of (contents tape.now) c.at marker.now) }
{
    let mut attrs = Attrs::of(tape, c);
    while let Some(attribute) = attrs.next(tape, marker) {
        if is_key(tape.source(), attribute.key, key) {
            return Some(attribute.value);
        }
        attrs = attribute.left;
    }
    None
}
