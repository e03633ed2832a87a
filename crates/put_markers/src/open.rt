// The tags that open a marker.
ghost use Rattle.std.specs.Prelude.{◌≡◌, true, [], ◌∷◌, ◌++◌};
ghost use Rattle.std.proofs.Math.Option.{none};
ghost use Rattle.parts.specs.Bytes.{Bytes, b};
ghost use Rattle.tape.specs.File.{contents, node_at, is_synthetic};
ghost use Rattle.tape.specs.Name.{marker_name};
ghost use Rattle.render.specs.Note.{note_caller_of, written_category};
ghost use Rattle.attrs.specs.Attr.{attributes_of};
ghost use Rattle.attrs.specs.Walk.{sought_of};
ghost use Rattle.tags.specs.Items.{start};
ghost use Rattle.events.specs.Event.{rawly, escaped, perhaps, collected};
ghost use Rattle.events.specs.Walk.{style, styled, unclosed, link_of, char};
ghost use Rattle.events.specs.Emit.{emit_all};
ghost use Rattle.desk.specs.Desk.{desk_of};
ghost use Rattle.desk.specs.Named.{number_of};
ghost use Rattle.desk.specs.Stroke.{opens, strokes_of_attrs, strokes_of, Drew};
ghost use Rattle.roles.specs.Roles.{role_in};
ghost use Rattle.put_markers.specs.Marker.{marker_opens, link_opens};

use attrs::Value;
use desk::{Desk, Element};
use leading_white::Book;
use put_attrs::{put_category, put_collected, put_sought};
use roles::{Role, link_of};
use tape::{Cursor, Kind, TapeFile};

// The front of a tag whose style is the marker's name.
#[tactic(auto, using(crate::proofs::Opens::named_front))]
pub fn open_named(desk: &mut Desk, out: &mut [u8], tape: &TapeFile<'_>, c: Cursor, e: Element)
    ensures { Drew desk.old out.old (opens (number_of e) ∷ strokes_of_attrs (style (contents tape.now) c.at ∷ [])) desk.new out.new }
{
    desk.open_styled(out, e, c.marker_name(tape))
}

// A paragraph's tag.
#[tactic(auto, using(crate::proofs::Opens::para_drawn))]
fn put_para(desk: &mut Desk, out: &mut [u8], tape: &TapeFile<'_>, c: Cursor)
    ensures { Drew desk.old out.old (strokes_of (start 5 (style (contents tape.now) c.at ∷ []))) desk.new out.new }
{
    desk.open_para(out, c.marker_name(tape));
    desk.end_tag(out)
}

// The tag of a marker without an entry.
#[tactic(auto, using(crate::proofs::Opens::unknown_drawn))]
fn put_unknown(desk: &mut Desk, out: &mut [u8], tape: &TapeFile<'_>, c: Cursor, e: Element)
    ensures { Drew desk.old out.old (strokes_of (start (number_of e) (style (contents tape.now) c.at ∷ escaped (b "status") (b "unknown") ∷ []))) desk.new out.new }
{
    open_named(desk, out, tape, c, e);
    desk.attr(out, b"status", b"unknown", false);
    desk.end_tag(out)
}

// Whether the matching close of a marker is synthetic; a leaf's is itself.
fn ends_synthetic(tape: &TapeFile<'_>, c: Cursor) -> bool
    ensures { result ≡ is_synthetic (contents tape.now) (node_at (contents tape.now) c.at).link }
{
    Cursor::new(c.link(tape)).is_synthetic(tape)
}

// Whether a look tells that a marker is closed in the source and links nothing.
#[tactic(auto, using(crate::proofs::Opens::flat_closed, crate::proofs::Opens::links_none))]
pub fn is_flat(tape: &TapeFile<'_>, c: Cursor) -> bool
    ensures at_value { result ≡ true → unclosed (contents tape.now) c.at ≡ [] }
    ensures at_value_2 { result ≡ true → link_of (contents tape.now) c.at ≡ none }
{
    !c.is_nested(tape) && !ends_synthetic(tape, c)
}

// `closed="false"` where a marker is not closed in the source.
pub fn put_unclosed(desk: &mut Desk, out: &mut [u8], tape: &TapeFile<'_>, c: Cursor)
    ensures { Drew desk.old out.old (strokes_of_attrs (unclosed (contents tape.now) c.at)) desk.new out.new }
{
    if ends_synthetic(tape, c) {
        desk.attr(out, b"closed", b"false", false)
    }
}

// Whether a marker holds nothing, or one text alone: it has no attribute.
fn is_bare(tape: &TapeFile<'_>, c: Cursor) -> bool
    ensures { result ≡ true → (marker : Bytes) → attributes_of (contents tape.now) c.at marker ≡ [] }
{
    match c.first_child(tape) {
        Some(k) => k.kind(tape).code == Kind::TEXT && k.next_sibling(tape).is_none(),
        None => true,
    }
}

// A char's tag: style, closed, its attributes.
fn put_char(desk: &mut Desk, out: &mut [u8], tape: &TapeFile<'_>, c: Cursor)
    ensures { Drew desk.old out.old (strokes_of (start 6 (style (contents tape.now) c.at ∷ (unclosed (contents tape.now) c.at ++ collected (attributes_of (contents tape.now) c.at (marker_name (contents tape.now) c.at)))))) desk.new out.new }
{
    let name = c.marker_name(tape);
    desk.open_char(out, name);
    put_unclosed(desk, out, tape, c);
    if !is_bare(tape, c) {
        put_collected(desk, out, tape, c, name);
    }
    desk.end_tag(out)
}

// A ref's tag with what it links.
#[tactic(auto, using(crate::proofs::Opens::ref_drawn))]
fn put_ref(desk: &mut Desk, out: &mut [u8], tape: &TapeFile<'_>, loc: Option<Value>)
    ensures { Drew desk.old out.old (strokes_of (start 16 (perhaps (b "loc") (sought_of (contents tape.now).source loc)))) desk.new out.new }
{
    desk.open_tag(out, Element::Ref);
    put_sought(desk, out, tape, b"loc", loc);
    desk.end_tag(out)
}

// The `ref` around what a marker links.
#[tactic(auto, using(crate::proofs::Opens::link_shut, crate::proofs::Opens::link_opened))]
fn open_link(tape: &TapeFile<'_>, link: Option<Value>, desk: &mut Desk, out: &mut [u8])
    ensures { desk_of (contents tape.now).source desk.new out.new ≡ emit_all (desk_of (contents tape.now).source desk.old out.old) (link_opens (sought_of (contents tape.now).source link)) }
{
    if link.is_some() {
        put_ref(desk, out, tape, link)
    }
}

// A char, and the `ref` around what it links.
pub fn open_char(book: &Book<'_, '_>, c: Cursor, desk: &mut Desk, out: &mut [u8])
    ensures { desk_of (contents book.now.tape).source desk.new out.new ≡ emit_all (desk_of (contents book.now.tape).source desk.old out.old) (marker_opens (contents book.now.tape) c.at char) }
{
    put_char(desk, out, &book.tape, c);
    if c.is_nested(&book.tape) {
        open_link(&book.tape, link_of(book, c), desk, out)
    }
}

// A figure's tag with its attributes.
#[tactic(auto, using(crate::proofs::Opens::figure_drawn))]
fn put_figure(desk: &mut Desk, out: &mut [u8], tape: &TapeFile<'_>, c: Cursor)
    ensures { Drew desk.old out.old (strokes_of (start 9 (styled (b "fig") ++ collected (attributes_of (contents tape.now) c.at (b "fig"))))) desk.new out.new }
{
    desk.open_styled(out, Element::Figure, b"fig");
    put_collected(desk, out, tape, c, b"fig");
    desk.end_tag(out)
}

// A note's tag up to its style.
#[tactic(auto, using(crate::proofs::Opens::note_front))]
fn put_note_head(desk: &mut Desk, out: &mut [u8], caller: &[u8], name: &[u8])
    ensures { Drew desk.old out.old (opens 7 ∷ strokes_of_attrs (escaped (b "caller") caller.now ∷ rawly (b "style") name.now ∷ [])) desk.new out.new }
{
    desk.open_tag(out, Element::Note);
    desk.attr(out, b"caller", caller, false);
    desk.attr(out, b"style", name, true)
}

// A note's tag: caller, style, category.
#[tactic(auto, using(crate::proofs::Opens::note_drawn))]
fn put_note<'a>(desk: &mut Desk, out: &mut [u8], tape: &TapeFile<'a>, c: Cursor)
    ensures { Drew desk.old out.old (strokes_of (start 7 (escaped (b "caller") (note_caller_of (contents tape.now) c.at) ∷ style (contents tape.now) c.at ∷ perhaps (b "category") (written_category (contents tape.now) c.at)))) desk.new out.new }
{
    let plus: &'a [u8] = b"+";
    let caller = render::note_caller(plus, tape, c);
    put_note_head(desk, out, caller, c.marker_name(tape));
    put_category(desk, out, tape, c);
    desk.end_tag(out)
}

// What opens a marker.
pub fn open_marker(book: &Book<'_, '_>, c: Cursor, role: Role, desk: &mut Desk, out: &mut [u8])
    ensures { desk_of (contents book.now.tape).source desk.new out.new ≡ emit_all (desk_of (contents book.now.tape).source desk.old out.old) (marker_opens (contents book.now.tape) c.at (role_in role)) }
{
    // A match on the roles: each writes its own strokes, and the compiler asks for a role left out.
    match role {
        Role::UnknownBlock => put_unknown(desk, out, &book.tape, c, Element::Para),
        Role::UnknownInline => put_unknown(desk, out, &book.tape, c, Element::Char),
        Role::Unwritten => {}
        Role::Figure => put_figure(desk, out, &book.tape, c),
        Role::Ref => {
            let loc = attrs::first_with(&book.tape, c, b"ref", b"loc");
            put_ref(desk, out, &book.tape, loc)
        }
        Role::Id => {}
        Role::Note => put_note(desk, out, &book.tape, c),
        Role::Ms => {}
        Role::Char => open_char(book, c, desk, out),
        Role::Para => put_para(desk, out, &book.tape, c),
    }
}
