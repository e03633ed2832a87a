#![tactic(auto)]
// The first name of a tape that breaks the proviso: a book code, a label, a marker name or a key that holds & < > or a double quote.
ghost use Rattle.std.specs.Prelude.{◌≡◌, true, ◌++◌};
ghost use Rattle.parts.specs.Bytes.{Bytes};
ghost use Rattle.words.specs.Words.{bytes_of};
ghost use Rattle.chars.specs.Escape.{special};
ghost use Rattle.tape.specs.File.{contents, kind_at, bears_marker};
ghost use Rattle.tape.specs.Name.{marker_name};
ghost use Rattle.render.specs.Shape.{is_verse_of};
ghost use Rattle.render.specs.Label.{label_of};
ghost use Rattle.render.specs.Note.{book_code_of};
ghost use Rattle.attrs.specs.Attr.{attributes_of};
ghost use Rattle.attrs.specs.Walk.{fixed_keys, key_of};
ghost use Rattle.roles.specs.Roles.{role_in};
ghost use Rattle.accepts.specs.Proviso.{has_special, code, label, marker, name_where, is_id, has_code, collects_as, keys_of, names_of};
ghost use Rattle.names.specs.declared.What.TheVariants.{Key};
ghost use Rattle.names.specs.Finding.{marker_part, FindsIn, Finds};
ghost use Rattle.names.specs.Hits.{Tested, Starts, Hits};

use attrs::Attrs;
use roles::Role;
use tape::{Cursor, Kind, TapeFile, long};
use words::Part;

// What a name is.
#[derive(Clone, Copy)]
pub enum What {
    Code,
    Label,
    Marker,
    Key,
}

// Refused by document 01's number; every name kept; or the first broken one: its node, what it is, and the part of the source that it is.
// Three outcomes, not a `Result`: a broken name is an answer about an admitted tape, and `Finds`, `FindsIn` and `told::find_names`, whose number C reads, are over them.
#[derive(Clone, Copy)]
pub enum Found {
    Refused(u8),
    Kept,
    Broken { node: u32, what: What, place: Part },
}

// A broken name of a node.
#[derive(Clone, Copy)]
struct Hit {
    what: What,
    place: Part,
}

// ---- the four bytes

#[tactic(auto, unfolding(chars::specs::Escape::special))]
fn is_special(x: u8) -> bool
    ensures { result ≡ special true x }
{
    matches!(x, b'<' | b'>' | b'&' | b'"')
}

// Whether a text holds one of the four.
#[tactic(auto, using(crate::proofs::Specials::special_any))]
pub fn has_special(s: &[u8]) -> bool
    ensures { result ≡ has_special s.now }
{
    s.iter().any(|&x| is_special(x))
}

// ---- one name

// A name that is a part of the source.
fn test(source: &[u8], what: What, p: Part) -> Option<Hit>
    ensures tested { Tested source.now what (bytes_of source.now p) result }
    ensures starts { Starts p result }
{
    let s = parts::part(source, p.start, p.len);
    if !has_special(s) {
        return None;
    }
    Some(Hit {
        what,
        place: Part {
            start: p.start,
            len: s.len(),
        },
    })
}

// A key: those that stand in no source hold none of the four.
fn test_key(source: &[u8], k: attrs::Key) -> Option<Hit>
    ensures { Tested source.now Key (key_of source.now fixed_keys k) result }
{
    match k {
        attrs::Key::Own(p) => test(source, What::Key, p),
        attrs::Key::Fixed(_) => None,
    }
}

// ---- the names of a node

fn is_id(role: Role) -> bool
    ensures { result ≡ is_id (role_in role) }
{
    role == Role::Id
}

// Whether a node has a book code.
#[tactic(auto, unfolding(accepts::specs::Proviso::has_code))]
fn has_code(tape: &TapeFile<'_>, c: Cursor) -> bool
    ensures { result ≡ has_code (contents tape.now) c.at }
{
    c.kind(tape).code == Kind::MARKER_OPEN && is_id(roles::role_of(tape, c))
}

fn code_hit(tape: &TapeFile<'_>, c: Cursor) -> Option<Hit>
    ensures { Hits (contents tape.now) c.at (name_where (has_code (contents tape.now) c.at) code (book_code_of (contents tape.now) c.at)) result }
{
    if !has_code(tape, c) {
        return None;
    }
    let p = render::book_code(tape, c);
    test(tape.source(), What::Code, p)
}

fn label_hit(tape: &TapeFile<'_>, c: Cursor) -> Option<Hit>
    ensures { Hits (contents tape.now) c.at (name_where (is_verse_of (contents tape.now) c.at) label (label_of (contents tape.now) c.at)) result }
{
    let kind = c.kind(tape);
    if kind.code != Kind::VERSE {
        return None;
    }
    let p = render::verse_label(tape, c);
    test(tape.source(), What::Label, p)
}

// The marker name as a part of the source.
fn marker_part(tape: &TapeFile<'_>, c: Cursor) -> Part
    ensures { result ≡ marker_part (contents tape.now) c.at }
{
    let text = c.text(tape);
    let bare = tape::bare(text);
    let name = c.marker_name(tape);
    Part {
        start: long(c.start(tape)) + (text.len() - bare.len()),
        len: name.len(),
    }
}

fn marker_hit(tape: &TapeFile<'_>, c: Cursor) -> Option<Hit>
    ensures { Hits (contents tape.now) c.at (name_where (bears_marker (kind_at (contents tape.now) c.at)) marker (marker_name (contents tape.now) c.at)) result }
{
    let kind = c.kind(tape);
    if !kind.bears_marker() {
        return None;
    }
    let p = marker_part(tape, c);
    test(tape.source(), What::Marker, p)
}

// The keys that a node collects by a marker.
fn keys_hit(tape: &TapeFile<'_>, c: Cursor, marker: &[u8]) -> Option<Hit>
    ensures { Hits (contents tape.now) c.at (keys_of (attributes_of (contents tape.now) c.at marker.now)) result }
{
    let mut attrs = Attrs::of(tape, c);
    while let Some(attribute) = attrs.next(tape, marker) {
        if let Some(hit) = test_key(tape.source(), attribute.key) {
            return Some(hit);
        }
        attrs = attribute.left;
    }
    None
}

// The keys of a node: no marker changes one that is broken, so they are collected by none.
fn key_hit(tape: &TapeFile<'_>, c: Cursor) -> Option<Hit>
    ensures { (m : Bytes) → Hits (contents tape.now) c.at (keys_of (attributes_of (contents tape.now) c.at m)) result }
{
    keys_hit(tape, c, b"")
}

// The marker name and the keys.
fn sign_hit(tape: &TapeFile<'_>, c: Cursor) -> Option<Hit>
    ensures { Hits (contents tape.now) c.at (name_where (bears_marker (kind_at (contents tape.now) c.at)) marker (marker_name (contents tape.now) c.at) ++ keys_of (attributes_of (contents tape.now) c.at (collects_as (contents tape.now) c.at))) result }
{
    if let Some(hit) = marker_hit(tape, c) {
        return Some(hit);
    }
    key_hit(tape, c)
}

// The first broken name of a node.
fn name_hit(tape: &TapeFile<'_>, c: Cursor) -> Option<Hit>
    ensures { Hits (contents tape.now) c.at (names_of (contents tape.now) c.at) result }
{
    if let Some(hit) = code_hit(tape, c) {
        return Some(hit);
    }
    if let Some(hit) = label_hit(tape, c) {
        return Some(hit);
    }
    sign_hit(tape, c)
}

// ---- every node

// The first broken name of a tape.
fn find_in(tape: &TapeFile<'_>) -> Found
    ensures { FindsIn (contents tape.now) result }
{
    for i in 0..tape.sections.nodes {
        if let Some(hit) = name_hit(tape, Cursor::new(i)) {
            return Found::Broken {
                node: i,
                what: hit.what,
                place: hit.place,
            };
        }
    }
    Found::Kept
}

// The first name of a file that breaks the proviso.
pub fn find_names(file: &[u8]) -> Found
    ensures { Finds file.now result }
{
    match admit::admit(file) {
        Err(reason) => Found::Refused(reason.number()),
        Ok(tape) => find_in(&tape),
    }
}
