#![tactic(auto)]
// The tags of what holds others: the whole text, tables with rows and cells, sidebars and periphs; whether the last two have blocks to hold.
mod cells;
mod whole;

ghost use Rattle.std.specs.Prelude.{◌≡◌, true, false, [], ◌∷◌};
ghost use Rattle.parts.specs.Bytes.{Bytes, b};
ghost use Rattle.tape.specs.File.{contents};
ghost use Rattle.render.specs.First.{any};
ghost use Rattle.render.specs.Note.{periph_alt};
ghost use Rattle.tags.specs.Items.{line as line_item, close, start, empty};
ghost use Rattle.events.specs.Event.{item, perhaps};
ghost use Rattle.events.specs.Emit.{emit, emit_all};
ghost use Rattle.desk.specs.Desk.{desk_of};
ghost use Rattle.desk.specs.Stroke.{opens, strokes_of_attrs, Drew};
ghost use Rattle.lists.specs.Span.{nodes_in};
ghost use Rattle.holders.specs.Holders.{is_block_or_row, sidebar_attrs, periph_attrs, attrs_of, element_no};

pub use cells::{close_row, close_table, empty_cell, is_cell, open_cell, open_row, open_table};
use desk::{Desk, Element};
use lists::{Member, Span, member_of};
use put_attrs::{put_category, put_collected};
use put_markers::put_unclosed;
use tape::{Cursor, TapeFile};
pub use whole::{close_usx, open_usx};
use words::Set;

// Whether a node is a block or a row.
#[tactic(auto, unfolding(crate::specs::Holders::is_block_or_row))]
fn is_block(tape: &TapeFile<'_>, c: Cursor) -> bool
    ensures { result ≡ is_block_or_row (contents tape.now) c.at }
{
    render::is_top_level_block(tape, c) || render::is_row(tape, c)
}

// Whether a list has a block or a row.
pub fn has_block(tape: &TapeFile<'_>, span: Span, first: Option<Cursor>) -> bool
    ensures { result ≡ any (is_block_or_row (contents tape.now)) (nodes_in (contents tape.now) span first) }
{
    let mut step = first;
    while let Some(c) = step {
        match member_of(tape, span, c) {
            Member::End => return false,
            Member::Skipped => {
                step = c.next_sibling(tape);
            }
            Member::Listed => {
                if is_block(tape, c) {
                    return true;
                }
                step = c.next_sibling(tape);
            }
        }
    }
    false
}

// A sidebar's tag up to its end: style, category, closed.
#[tactic(auto, using(crate::proofs::Tags::sidebar_put))]
fn put_sidebar(desk: &mut Desk, out: &mut [u8], tape: &TapeFile<'_>, c: Cursor)
    ensures { Drew desk.old out.old (opens (element_no true) ∷ strokes_of_attrs (sidebar_attrs (contents tape.now) c.at)) desk.new out.new }
{
    desk.open_styled(out, Element::Sidebar, c.marker_name(tape));
    put_category(desk, out, tape, c);
    put_unclosed(desk, out, tape, c)
}

// A periph's alt: the words of its first text.
#[tactic(auto, using(crate::proofs::Tags::alt_none, crate::proofs::Tags::alt_some))]
fn put_alt(desk: &mut Desk, out: &mut [u8], tape: &TapeFile<'_>, c: Cursor)
    ensures { Drew desk.old out.old (strokes_of_attrs (perhaps (b "alt") (periph_alt (contents tape.now) c.at))) desk.new out.new }
{
    let text = render::leading_text(tape, c);
    if !words::is_blank(text, Set::Unicode) {
        desk.key(out, b"alt");
        desk.piece_joined(out, text);
        desk.end_value(out)
    }
}

// A periph's tag up to its end: alt and its attributes.
#[tactic(auto, using(crate::proofs::Tags::periph_put))]
fn put_periph(desk: &mut Desk, out: &mut [u8], tape: &TapeFile<'_>, c: Cursor)
    ensures { Drew desk.old out.old (opens (element_no false) ∷ strokes_of_attrs (periph_attrs (contents tape.now) c.at)) desk.new out.new }
{
    desk.open_tag(out, Element::Periph);
    put_alt(desk, out, tape, c);
    put_collected(desk, out, tape, c, b"periph")
}

// A holder's tag up to its end.
#[tactic(auto, using(crate::proofs::Tags::put_side, crate::proofs::Tags::put_peri))]
fn put_holder(desk: &mut Desk, out: &mut [u8], tape: &TapeFile<'_>, c: Cursor, sidebar: bool)
    ensures { Drew desk.old out.old (opens (element_no sidebar) ∷ strokes_of_attrs (attrs_of (contents tape.now) c.at sidebar)) desk.new out.new }
{
    if sidebar {
        put_sidebar(desk, out, tape, c)
    } else {
        put_periph(desk, out, tape, c)
    }
}

// A holder's tag with blocks behind it.
#[tactic(auto, using(crate::proofs::Tags::tag_started))]
pub fn open_holder(tape: &TapeFile<'_>, c: Cursor, sidebar: bool, desk: &mut Desk, out: &mut [u8])
    ensures { desk_of (contents tape.now).source desk.new out.new ≡ emit (desk_of (contents tape.now).source desk.old out.old) (item (start (element_no sidebar) (attrs_of (contents tape.now) c.at sidebar))) }
{
    put_holder(desk, out, tape, c, sidebar);
    desk.end_tag(out)
}

// A holder with nothing inside.
#[tactic(auto, using(crate::proofs::Tags::tag_emptied))]
pub fn empty_holder(tape: &TapeFile<'_>, c: Cursor, sidebar: bool, desk: &mut Desk, out: &mut [u8])
    ensures { desk_of (contents tape.now).source desk.new out.new ≡ emit (desk_of (contents tape.now).source desk.old out.old) (item (empty (element_no sidebar) (attrs_of (contents tape.now) c.at sidebar))) }
{
    put_holder(desk, out, tape, c, sidebar);
    desk.shut_tag(out)
}

// A holder's end on its line.
pub fn close_holder(level: usize, sidebar: bool, desk: &mut Desk, out: &mut [u8])
    ensures { (source : Bytes) → desk_of source desk.new out.new ≡ emit_all (desk_of source desk.old out.old) (item (line_item level) ∷ item (close (element_no sidebar)) ∷ []) }
{
    desk.line(out, level);
    if sidebar {
        desk.close_tag(out, Element::Sidebar)
    } else {
        desk.close_tag(out, Element::Periph)
    }
}
