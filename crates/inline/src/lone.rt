// Chars that hold one text alone: they are told by a look and written whole, and no list is walked.
ghost use Rattle.std.specs.Prelude.{◌≡◌, Bool, true, false, List, [], ◌∷◌, ◌++◌, ℕ, take};
ghost use Rattle.parts.specs.Bytes.{Bytes, b};
ghost use Rattle.chars.specs.Escape.{escape};
ghost use Rattle.tape.specs.File.{contents};
ghost use Rattle.tape.specs.Tree.{children};
ghost use Rattle.tags.specs.Items.{Attr, attrs_bytes, text};
ghost use Rattle.events.specs.Event.{Event, item};
ghost use Rattle.events.specs.Walk.{inline_all, node_in_of, inside as inside_of};
ghost use Rattle.desk.specs.Stroke.{ends, words, closes, Drew};
ghost use Rattle.inline.specs.Lone.{LastAttribute, OnlyText, OnlyAt, lone_char, char_around, PutAs, KeepsBehind};

use desk::Desk;
use put_body::{is_framed, white_back, white_front};
use tape::{Cursor, Kind, TapeFile};
use texts::Normalized;

// Whether a node is an Attribute that no sibling follows.
fn is_last_attribute(tape: &TapeFile<'_>, a: Cursor) -> bool
    ensures { result ≡ true → LastAttribute (contents tape.now) a }
{
    a.kind(tape).code == Kind::ATTRIBUTE && a.next_sibling(tape).is_none()
}

// The text that a marker holds alone, but for an Attribute behind it.
#[tactic(auto, using(crate::proofs::Alone::only_end, crate::proofs::Alone::only_attribute))]
fn only_text(tape: &TapeFile<'_>, c: Cursor) -> Option<Cursor>
    ensures { OnlyAt (contents tape.now) c.at result }
{
    let k = c.first_child(tape)?;
    if k.kind(tape).code != Kind::TEXT {
        return None;
    }
    let Some(a) = k.next_sibling(tape) else {
        return Some(k);
    };
    if is_last_attribute(tape, a) {
        Some(k)
    } else {
        None
    }
}

// The end of a char's opening tag, the first bytes of a text, which are written as they stand, and the char's end.
#[tactic(auto, using(crate::proofs::Alone::held_drawn))]
fn put_held(s: &[u8], len: usize, desk: &mut Desk, out: &mut [u8])
    ensures { (t : Bytes) → escape false t ≡ take len s.now → Drew desk.old out.old (ends ∷ words t ∷ closes 6 ∷ []) desk.new out.new }
{
    let sole = Normalized {
        lead: false,
        trail: false,
        shows: true,
    };
    desk.end_tag(out);
    desk.text_body(out, s, len, sole);
    desk.close_char(out)
}

// A char of this name around them.
#[tactic(auto, using(crate::proofs::Alone::bare_drawn))]
fn put_bare(name: &[u8], s: &[u8], len: usize, desk: &mut Desk, out: &mut [u8])
    ensures { (t : Bytes) → escape false t ≡ take len s.now → Drew desk.old out.old (lone_char name.now [] t) desk.new out.new }
{
    desk.open_char(out, name);
    put_held(s, len, desk, out)
}

// The same with attributes, which are written as they stand behind a space.
fn put_given(name: &[u8], given: &[u8], s: &[u8], len: usize, desk: &mut Desk, out: &mut [u8])
    ensures { (qs : List Attr) → b " " ++ given.now ≡ attrs_bytes qs → (t : Bytes) → escape false t ≡ take len s.now → Drew desk.old out.old (lone_char name.now qs t) desk.new out.new }
{
    desk.open_char(out, name);
    desk.attr_as_it_stands(out, given);
    put_held(s, len, desk, out)
}

// A char of this name around the first bytes of a text, if no Attribute follows the text or one that is written as it stands.
fn put_around(
    tape: &TapeFile<'_>,
    k: Cursor,
    name: &[u8],
    s: &[u8],
    len: usize,
    desk: &mut Desk,
    out: &mut [u8],
) -> bool
    ensures { (n : ℕ) → OnlyText (contents tape.now) n k → (t : Bytes) → escape false t ≡ take len s.now → PutAs (contents tape.now).source desk.old out.old (char_around (contents tape.now) n name.now (item (text t) ∷ [])) desk.new out.new result }
{
    let Some(a) = k.next_sibling(tape) else {
        put_bare(name, s, len, desk, out);
        return true;
    };
    if parts::same(name, b"fig") {
        return false;
    }
    let given = a.text(tape);
    if !attrs::is_barred(given) {
        return false;
    }
    put_given(name, parts::from(given, 1), s, len, desk, out);
    true
}

// The same around a whole text, if its frame tells it and it does not end with white space.
fn put_lone(tape: &TapeFile<'_>, k: Cursor, name: &[u8], desk: &mut Desk, out: &mut [u8]) -> bool
    ensures { (n : ℕ) → OnlyText (contents tape.now) n k → (node : ℕ → Bool → List Event) (behind : Bool) → PutAs (contents tape.now).source desk.old out.old (char_around (contents tape.now) n name.now (inline_all node (contents tape.now) behind true (children (contents tape.now) n))) desk.new out.new result }
{
    let tail = k.tail(tape);
    let size = k.size(tape);
    let front = white_front(tail, size);
    if size <= front {
        return false;
    }
    if 0 < white_back(tail, front, size) {
        return false;
    }
    let len = size - front;
    if !is_framed(tail, size, front, len) {
        return false;
    }
    put_around(tape, k, name, parts::from(tail, front), len, desk, out)
}

// A node, if a look tells that it is a char around one text alone; what follows its parent does not matter then.
pub fn lone(tape: &TapeFile<'_>, c: Cursor, depth: usize, desk: &mut Desk, out: &mut [u8]) -> bool
    ensures put_as { (outer : Bool) → PutAs (contents tape.now).source desk.old out.old (node_in_of (inside_of (contents tape.now) depth) (contents tape.now) c.at outer) desk.new out.new result }
    ensures keeps_behind { KeepsBehind (contents tape.now) c.at result }
{
    if depth == 0 || c.kind(tape).code != Kind::MARKER_OPEN || !put_markers::is_flat(tape, c) {
        return false;
    }
    let Some(k) = only_text(tape, c) else {
        return false;
    };
    let name = tape::name_in(c.text(tape));
    if !roles::is_char(tape, c, name) {
        return false;
    }
    put_lone(tape, k, name, desk, out)
}
