// The tags of cells, rows and tables, and which children are cells.
ghost use Rattle.std.specs.Prelude.{◌≡◌, [], ◌∷◌};
ghost use Rattle.parts.specs.Bytes.{Bytes, b};
ghost use Rattle.tape.specs.File.{contents};
ghost use Rattle.render.specs.Note.{cell_align_of, align_word};
ghost use Rattle.tags.specs.Element.{cell};
ghost use Rattle.tags.specs.Items.{start, empty};
ghost use Rattle.events.specs.Event.{item, rawly, escaped};
ghost use Rattle.events.specs.Walk.{is_known, is_cell_of};
ghost use Rattle.events.specs.Emit.{emit, emit_all};
ghost use Rattle.desk.specs.Desk.{desk_of};
ghost use Rattle.desk.specs.Stroke.{opens, strokes_of_attr, strokes_of_attrs, Drew};
ghost use Rattle.holders.specs.Rows.{cell_attrs, row_opens, row_closes, table_opens, table_closes};

use desk::{Desk, Element};
use render::Align;
use tape::{Cursor, Kind, TapeFile};

// Cells are known markers.
pub fn is_cell(tape: &TapeFile<'_>, c: Cursor) -> bool
    ensures { result ≡ is_cell_of (contents tape.now) c.at }
{
    c.kind(tape).code == Kind::MARKER_OPEN && c.marker_info(tape).is_some()
}

// The alignment of a cell.
#[tactic(auto, using(crate::proofs::TableTags::align_start, crate::proofs::TableTags::align_center, crate::proofs::TableTags::align_end))]
fn put_align(desk: &mut Desk, out: &mut [u8], align: Align)
    ensures { Drew desk.old out.old (strokes_of_attr (escaped (b "align") (align_word align))) desk.new out.new }
{
    match align {
        Align::Start => desk.attr(out, b"align", b"start", false),
        Align::Center => desk.attr(out, b"align", b"center", false),
        Align::End => desk.attr(out, b"align", b"end", false),
    }
}

// A cell's tag up to its end: style and alignment.
#[tactic(auto, using(crate::proofs::TableTags::cell_front))]
fn put_cell(desk: &mut Desk, out: &mut [u8], name: &[u8])
    ensures { Drew desk.old out.old (opens cell ∷ strokes_of_attrs (rawly (b "style") name.now ∷ escaped (b "align") (align_word (cell_align_of name.now)) ∷ [])) desk.new out.new }
{
    desk.open_styled(out, Element::Cell, name);
    put_align(desk, out, render::cell_align(name))
}

// A cell's tag, where something stands in it.
#[tactic(auto, using(crate::proofs::TableTags::cell_opened))]
pub fn open_cell(tape: &TapeFile<'_>, c: Cursor, desk: &mut Desk, out: &mut [u8])
    ensures { desk_of (contents tape.now).source desk.new out.new ≡ emit (desk_of (contents tape.now).source desk.old out.old) (item (start cell (cell_attrs (contents tape.now) c.at))) }
{
    put_cell(desk, out, c.marker_name(tape));
    desk.end_tag(out)
}

// A cell with nothing in it.
#[tactic(auto, using(crate::proofs::TableTags::cell_emptied))]
pub fn empty_cell(tape: &TapeFile<'_>, c: Cursor, desk: &mut Desk, out: &mut [u8])
    ensures { desk_of (contents tape.now).source desk.new out.new ≡ emit (desk_of (contents tape.now).source desk.old out.old) (item (empty cell (cell_attrs (contents tape.now) c.at))) }
{
    put_cell(desk, out, c.marker_name(tape));
    desk.shut_tag(out)
}

// The start of a row on its line.
pub fn open_row(level: usize, desk: &mut Desk, out: &mut [u8])
    ensures { (source : Bytes) → desk_of source desk.new out.new ≡ emit_all (desk_of source desk.old out.old) (row_opens level) }
{
    desk.line(out, level);
    desk.open_styled(out, Element::Row, b"tr");
    desk.end_tag(out)
}

// The end of a row on its line.
pub fn close_row(level: usize, desk: &mut Desk, out: &mut [u8])
    ensures { (source : Bytes) → desk_of source desk.new out.new ≡ emit_all (desk_of source desk.old out.old) (row_closes level) }
{
    desk.line(out, level);
    desk.close_tag(out, Element::Row)
}

// The start of a table on its line.
pub fn open_table(level: usize, desk: &mut Desk, out: &mut [u8])
    ensures { (source : Bytes) → desk_of source desk.new out.new ≡ emit_all (desk_of source desk.old out.old) (table_opens level) }
{
    desk.line(out, level);
    desk.open_tag(out, Element::Table);
    desk.end_tag(out)
}

// The end of a table on its line.
pub fn close_table(level: usize, desk: &mut Desk, out: &mut [u8])
    ensures { (source : Bytes) → desk_of source desk.new out.new ≡ emit_all (desk_of source desk.old out.old) (table_closes level) }
{
    desk.line(out, level);
    desk.close_tag(out, Element::Table)
}
