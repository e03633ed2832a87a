#![tactic(auto)]
// Attributes written by strokes, without a copy.
ghost use Rattle.std.specs.Prelude.{◌≡◌, false, List, [], ◌∷◌, ◌++◌, drop};
ghost use Rattle.parts.specs.Bytes.{Bytes, b};
ghost use Rattle.tape.specs.File.{contents};
ghost use Rattle.tape.specs.Tree.{walk_from};
ghost use Rattle.render.specs.Note.{written_category};
ghost use Rattle.attrs.specs.Attr.{unquoted, pairs_along, attributes_of};
ghost use Rattle.attrs.specs.Walk.{fixed_keys, value_of, key_of, sought_of};
ghost use Rattle.fold.specs.Fold.{number_in, folded_number};
ghost use Rattle.fold.specs.Number.{gap_space};
ghost use Rattle.figure.specs.Figure.{field_at, valued, legacy_pairs};
ghost use Rattle.events.specs.Event.{escaped, perhaps, collected};
ghost use Rattle.tags.specs.Items.{Attr, attrs_bytes};
ghost use Rattle.desk.specs.Stroke.{piece as piece_stroke, strokes_of_attr, strokes_of_attrs, Drew};
ghost use Rattle.put_attrs.specs.Parts.{about_pairs, place_pairs};

use attrs::{Attrs, Key, Value};
use desk::Desk;
use fold::Number;
use tape::{Cursor, Kind, TapeFile};
use words::Part;

// ---- values

// A piece of a quoted value, and the `"` that stood escaped behind it.
#[tactic(auto, using(desk::proofs::Strokes::drew_pieces))]
fn put_piece(desk: &mut Desk, out: &mut [u8], s: &[u8])
    ensures { Drew desk.old out.old (piece_stroke false (s.now ++ (34 ∷ [])) ∷ []) desk.new out.new }
{
    desk.piece(out, s, false);
    desk.piece(out, b"\"", false)
}

// A quoted value: each `\"` is written as `"`.
fn put_unquoted(desk: &mut Desk, out: &mut [u8], s: &[u8])
    ensures { Drew desk.old out.old (piece_stroke false (unquoted s.now) ∷ []) desk.new out.new }
{
    let mut past = 0;
    // A `loop`: each turn passes a piece and the two bytes behind it, and the last one ends it.
    loop {
        let rest = parts::from(s, past);
        let n = attrs::piece_len(rest);
        if rest.len() <= n {
            return desk.piece(out, rest, false);
        }
        put_piece(desk, out, parts::part(rest, 0, n));
        past = past + n + 2;
    }
}

// What a raw value stands for.
#[tactic(auto, using(crate::proofs::Written::value_quoted, crate::proofs::Written::value_bare))]
pub fn put_value(desk: &mut Desk, out: &mut [u8], source: &[u8], v: Value)
    ensures { Drew desk.old out.old (piece_stroke false (value_of source.now v) ∷ []) desk.new out.new }
{
    let s = parts::part(source, v.start, v.len);
    if v.quoted {
        return put_unquoted(desk, out, s);
    }
    desk.piece(out, s, false)
}

// ---- attributes

// An attribute whose value is at hand.
#[tactic(auto, using(crate::proofs::Written::attr_written))]
pub fn put_attr(desk: &mut Desk, out: &mut [u8], key: &[u8], value: &[u8])
    ensures { Drew desk.old out.old (strokes_of_attr (escaped key.now value.now)) desk.new out.new }
{
    desk.attr(out, key, value, false)
}

// An attribute whose value is raw in the source.
fn put_pair(desk: &mut Desk, out: &mut [u8], key: &[u8], source: &[u8], v: Value)
    ensures { Drew desk.old out.old (strokes_of_attr (escaped key.now (value_of source.now v))) desk.new out.new }
{
    desk.key(out, key);
    put_value(desk, out, source, v);
    desk.end_value(out)
}

// An attribute of a walk: its key is a part of the source or of the fixed keys.
fn put_next(desk: &mut Desk, out: &mut [u8], source: &[u8], k: Key, v: Value)
    ensures { Drew desk.old out.old (strokes_of_attr (escaped (key_of source.now fixed_keys k) (value_of source.now v))) desk.new out.new }
{
    let fixed = attrs::FIXED_KEYS;
    let key = attrs::key_of(source, &fixed, k);
    put_pair(desk, out, key, source, v)
}

// The attributes of the nodes from a step on, pair by pair.
fn put_pairs(
    desk: &mut Desk,
    out: &mut [u8],
    tape: &TapeFile<'_>,
    from: Option<Cursor>,
    marker: &[u8],
)
    ensures { Drew desk.old out.old (strokes_of_attrs (collected (pairs_along (contents tape.now) marker.now (walk_from (contents tape.now) from)))) desk.new out.new }
{
    let mut left = Attrs {
        rest: Part { start: 0, len: 0 },
        next: from,
    };
    while let Some(a) = left.next(tape, marker) {
        put_next(desk, out, tape.source(), a.key, a.value);
        left = a.left;
    }
}

// What stands behind the `|` of an attribute, as the strokes that look so.
#[tactic(auto, using(crate::proofs::Along::barred_put))]
fn put_barred(desk: &mut Desk, out: &mut [u8], s: &[u8])
    ensures { (qs : List Attr) → b " " ++ drop 1 s.now ≡ attrs_bytes qs → Drew desk.old out.old (strokes_of_attrs qs) desk.new out.new }
{
    desk.attr_as_it_stands(out, parts::from(s, 1))
}

// The attributes of the nodes from a step on: each is written as it stands, up to the first that cannot be.
fn put_from(
    desk: &mut Desk,
    out: &mut [u8],
    tape: &TapeFile<'_>,
    from: Option<Cursor>,
    marker: &[u8],
)
    ensures { Drew desk.old out.old (strokes_of_attrs (collected (pairs_along (contents tape.now) marker.now (walk_from (contents tape.now) from)))) desk.new out.new }
{
    if parts::same(marker, b"fig") {
        return put_pairs(desk, out, tape, from, marker);
    }
    let mut step = from;
    while let Some(d) = step {
        step = d.next_sibling(tape);
        if d.kind(tape).code == Kind::ATTRIBUTE {
            let s = d.text(tape);
            if !attrs::is_barred(s) {
                return put_pairs(desk, out, tape, Some(d), marker);
            }
            put_barred(desk, out, s);
        }
    }
}

// The first Attribute among the children of a node.
fn first_attribute(tape: &TapeFile<'_>, c: Cursor) -> Option<Cursor>
    ensures { (marker : Bytes) → pairs_along (contents tape.now) marker (walk_from (contents tape.now) result) ≡ attributes_of (contents tape.now) c.at marker }
{
    let mut step = c.first_child(tape);
    while let Some(d) = step {
        if d.kind(tape).code == Kind::ATTRIBUTE {
            return Some(d);
        }
        step = d.next_sibling(tape);
    }
    None
}

// The attributes of a node, whose marker goes by this name.
pub fn put_collected(desk: &mut Desk, out: &mut [u8], tape: &TapeFile<'_>, c: Cursor, marker: &[u8])
    ensures { Drew desk.old out.old (strokes_of_attrs (collected (attributes_of (contents tape.now) c.at marker.now))) desk.new out.new }
{
    if let Some(d) = first_attribute(tape, c) {
        put_from(desk, out, tape, Some(d), marker)
    }
}

// An attribute whose value was sought in the source and may be missing.
#[tactic(auto, using(crate::proofs::Listed::sought_missing, crate::proofs::Listed::sought_written))]
pub fn put_sought(
    desk: &mut Desk,
    out: &mut [u8],
    tape: &TapeFile<'_>,
    key: &[u8],
    v: Option<Value>,
)
    ensures { Drew desk.old out.old (strokes_of_attrs (perhaps key.now (sought_of (contents tape.now).source v))) desk.new out.new }
{
    if let Some(value) = v {
        put_pair(desk, out, key, tape.source(), value)
    }
}

// ---- folded numbers

// A piece of a number, with or without a space in front.
fn put_word(desk: &mut Desk, out: &mut [u8], s: &[u8], space: bool)
    ensures { Drew desk.old out.old (piece_stroke false (gap_space space ++ s.now) ∷ []) desk.new out.new }
{
    if space {
        desk.piece(out, b" ", false);
    }
    desk.piece(out, s, false)
}

// The number of a marker that folds.
fn put_number(desk: &mut Desk, out: &mut [u8], tape: &TapeFile<'_>, c: Cursor)
    ensures { Drew desk.old out.old (piece_stroke false (number_in (contents tape.now) c.at) ∷ []) desk.new out.new }
{
    let mut left = Number::of(tape, c);
    while let Some(p) = left.next(tape) {
        let s = parts::part(tape.source(), p.part.start, p.part.len);
        put_word(desk, out, s, p.space);
        left = p.left;
    }
}

// An attribute whose value is the number of a marker.
fn put_folded(desk: &mut Desk, out: &mut [u8], tape: &TapeFile<'_>, key: &[u8], c: Cursor)
    ensures { Drew desk.old out.old (strokes_of_attr (escaped key.now (number_in (contents tape.now) c.at))) desk.new out.new }
{
    desk.key(out, key);
    put_number(desk, out, tape, c);
    desk.end_value(out)
}

// An alternate or published number, where an anchor has one.
pub fn put_numbered(
    desk: &mut Desk,
    out: &mut [u8],
    tape: &TapeFile<'_>,
    key: &[u8],
    s: Option<Cursor>,
)
    ensures { Drew desk.old out.old (strokes_of_attrs (perhaps key.now (folded_number (contents tape.now) s))) desk.new out.new }
{
    if let Some(c) = s {
        put_folded(desk, out, tape, key, c)
    }
}

// ---- categories

// The category of a note or sidebar, where it has one.
pub fn put_category(desk: &mut Desk, out: &mut [u8], tape: &TapeFile<'_>, c: Cursor)
    ensures { Drew desk.old out.old (strokes_of_attrs (perhaps (b "category") (written_category (contents tape.now) c.at))) desk.new out.new }
{
    if let Some(d) = render::category_text(tape, c) {
        put_attr(desk, out, b"category", render::trimmed(tape, d))
    }
}

// ---- figures of old

// An attribute unless its value is empty.
fn put_valued(desk: &mut Desk, out: &mut [u8], key: &[u8], value: &[u8])
    ensures { Drew desk.old out.old (strokes_of_attrs (collected (valued key.now value.now))) desk.new out.new }
{
    if !value.is_empty() {
        put_attr(desk, out, key, value)
    }
}

// A field of an Attribute, unless it is empty.
#[tactic(auto, using(crate::proofs::Listed::field_written))]
fn put_field(desk: &mut Desk, out: &mut [u8], tape: &TapeFile<'_>, a: Cursor, key: &[u8], n: usize)
    ensures { Drew desk.old out.old (strokes_of_attrs (collected (valued key.now (field_at (contents tape.now) a.at n)))) desk.new out.new }
{
    put_valued(desk, out, key, figure::field(tape, a, n))
}

// What a figure of old shows: its description, file and size.
#[tactic(auto, using(crate::proofs::Listed::about_written))]
fn put_about(desk: &mut Desk, out: &mut [u8], tape: &TapeFile<'_>, c: Cursor, a: Cursor)
    ensures { Drew desk.old out.old (strokes_of_attrs (collected (about_pairs (contents tape.now) c.at a.at))) desk.new out.new }
{
    put_valued(desk, out, b"alt", figure::description(tape, c));
    put_field(desk, out, tape, a, b"file", 0);
    put_field(desk, out, tape, a, b"size", 1)
}

// Where it belongs: its location, copyright and reference.
#[tactic(auto, using(crate::proofs::Listed::place_written))]
fn put_place(desk: &mut Desk, out: &mut [u8], tape: &TapeFile<'_>, a: Cursor)
    ensures { Drew desk.old out.old (strokes_of_attrs (collected (place_pairs (contents tape.now) a.at))) desk.new out.new }
{
    put_field(desk, out, tape, a, b"loc", 2);
    put_field(desk, out, tape, a, b"copy", 3);
    put_field(desk, out, tape, a, b"ref", 5)
}

// The attributes of a figure of old, whose fields stand in its Attribute a.
#[tactic(auto, using(crate::proofs::Listed::legacy_written))]
pub fn put_legacy(desk: &mut Desk, out: &mut [u8], tape: &TapeFile<'_>, c: Cursor, a: Cursor)
    ensures { Drew desk.old out.old (strokes_of_attrs (collected (legacy_pairs (contents tape.now) c.at a.at))) desk.new out.new }
{
    put_about(desk, out, tape, c, a);
    put_place(desk, out, tape, a)
}
