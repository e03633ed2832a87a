// Markers with nothing written inside: books, milestones, figures of old, paragraphs with no child.
ghost use Rattle.std.specs.Prelude.{◌≡◌, [], ◌∷◌, ◌++◌};
ghost use Rattle.parts.specs.Bytes.{b};
ghost use Rattle.tape.specs.File.{contents};
ghost use Rattle.tape.specs.Name.{marker_name};
ghost use Rattle.attrs.specs.Attr.{attributes_of};
ghost use Rattle.figure.specs.Figure.{legacy_pairs, caption_of};
ghost use Rattle.tags.specs.Items.{start, empty, close, text};
ghost use Rattle.events.specs.Event.{collected};
ghost use Rattle.events.specs.Walk.{style, styled, figure};
ghost use Rattle.events.specs.Emit.{emit_all};
ghost use Rattle.desk.specs.Desk.{desk_of};
ghost use Rattle.desk.specs.Stroke.{strokes_of, strokes_of_all, Drew};
ghost use Rattle.roles.specs.Roles.{role_in};
ghost use Rattle.put_markers.specs.Marker.{leaf_of};

use crate::open::open_named;
use desk::{Desk, Element};
use put_attrs::{put_collected, put_legacy};
use roles::Role;
use tape::{Cursor, TapeFile};

// A milestone with its attributes.
#[tactic(auto, using(crate::proofs::Leaves::ms_drawn))]
fn put_ms(desk: &mut Desk, out: &mut [u8], tape: &TapeFile<'_>, c: Cursor)
    ensures { Drew desk.old out.old (strokes_of (empty 8 (style (contents tape.now) c.at ∷ collected (attributes_of (contents tape.now) c.at (marker_name (contents tape.now) c.at))))) desk.new out.new }
{
    open_named(desk, out, tape, c, Element::Ms);
    put_collected(desk, out, tape, c, c.marker_name(tape));
    desk.shut_tag(out)
}

// A paragraph with no child.
#[tactic(auto, using(crate::proofs::Written::drew_empty))]
fn put_empty(desk: &mut Desk, out: &mut [u8], tape: &TapeFile<'_>, c: Cursor)
    ensures { Drew desk.old out.old (strokes_of (empty 5 (style (contents tape.now) c.at ∷ []))) desk.new out.new }
{
    open_named(desk, out, tape, c, Element::Para);
    desk.shut_tag(out)
}

// A figure of old: its fields as attributes.
#[tactic(auto, using(crate::proofs::Leaves::fields_drawn))]
fn put_fields(desk: &mut Desk, out: &mut [u8], tape: &TapeFile<'_>, c: Cursor, a: Cursor)
    ensures { Drew desk.old out.old (strokes_of (start 9 (styled (b "fig") ++ collected (legacy_pairs (contents tape.now) c.at a.at)))) desk.new out.new }
{
    desk.open_styled(out, Element::Figure, b"fig");
    put_legacy(desk, out, tape, c, a);
    desk.end_tag(out)
}

// Its caption and its end.
#[tactic(auto, using(crate::proofs::Leaves::caption_drawn))]
fn put_caption(desk: &mut Desk, out: &mut [u8], tape: &TapeFile<'_>, a: Cursor)
    ensures { Drew desk.old out.old (strokes_of_all (text (caption_of (contents tape.now) a.at) ∷ close 9 ∷ [])) desk.new out.new }
{
    desk.text_escaped(out, figure::field(tape, a, 4));
    desk.close_tag(out, Element::Figure)
}

// A figure of old, whole.
#[tactic(auto, using(crate::proofs::Leaves::items_drawn))]
fn put_old(desk: &mut Desk, out: &mut [u8], tape: &TapeFile<'_>, c: Cursor, a: Cursor)
    ensures { Drew desk.old out.old (strokes_of_all (start 9 (styled (b "fig") ++ collected (legacy_pairs (contents tape.now) c.at a.at)) ∷ text (caption_of (contents tape.now) a.at) ∷ close 9 ∷ [])) desk.new out.new }
{
    put_fields(desk, out, tape, c, a);
    put_caption(desk, out, tape, a)
}

// A figure, if it is one of old.
#[tactic(auto, using(crate::proofs::Leaves::old_none, crate::proofs::Leaves::old_written))]
fn old_figure(tape: &TapeFile<'_>, c: Cursor, desk: &mut Desk, out: &mut [u8])
    ensures { desk_of (contents tape.now).source desk.new out.new ≡ emit_all (desk_of (contents tape.now).source desk.old out.old) (leaf_of (contents tape.now) c.at figure) }
{
    if let Some(a) = figure::legacy(tape, c) {
        put_old(desk, out, tape, c, a)
    }
}

// A marker with nothing inside.
pub fn write_leaf(tape: &TapeFile<'_>, c: Cursor, role: Role, desk: &mut Desk, out: &mut [u8])
    ensures { desk_of (contents tape.now).source desk.new out.new ≡ emit_all (desk_of (contents tape.now).source desk.old out.old) (leaf_of (contents tape.now) c.at (role_in role)) }
{
    // A match on the roles: each writes its own strokes, and the compiler asks for a role left out.
    match role {
        Role::UnknownBlock => {}
        Role::UnknownInline => {}
        Role::Unwritten => {}
        Role::Figure => old_figure(tape, c, desk, out),
        Role::Ref => {}
        Role::Id => put_chapters::book(tape, c, desk, out),
        Role::Note => {}
        Role::Ms => put_ms(desk, out, tape, c),
        Role::Char => {}
        Role::Para => put_empty(desk, out, tape, c),
    }
}
