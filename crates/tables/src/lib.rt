#![tactic(auto)]
// Tables of rows of cells: cells with what stands in them, rows of cells, tables of rows.
ghost use Rattle.std.specs.Prelude.{◌≡◌, false};
ghost use Rattle.tape.specs.File.{contents};
ghost use Rattle.tape.specs.Tree.{up_to, walk_from};
ghost use Rattle.tags.specs.Element.{cell};
ghost use Rattle.events.specs.Event.{element};
ghost use Rattle.events.specs.Walk.{as_inline, inside as inside_of, cell_in, cells_along, cells as cells_of, row_e, rows_e, table_e};
ghost use Rattle.events.specs.Emit.{emit_all};
ghost use Rattle.desk.specs.Desk.{desk_of};
ghost use Rattle.lists.specs.Span.{nodes_in};
ghost use Rattle.holders.specs.Rows.{cell_attrs};
ghost use Rattle.tables.specs.Rows.{depth_at, is_no_row};

use desk::{Desk, Element};
use holders::{close_row, close_table, empty_cell, is_cell, open_cell, open_row, open_table};
use leading_white::Book;
use lists::{Member, Span, member_of};
use tape::Cursor;

// The level at which no container may be entered any more: 64 may be entered in each other, and the blocks of Root stand at level 1.
const DEEPEST: u8 = 65;

// How many containers may still be entered at a level.
pub fn depth_at(level: u8) -> usize
    ensures { result ≡ depth_at level }
{
    if level < DEEPEST {
        (DEEPEST - level) as usize
    } else {
        0
    }
}

// A cell with what stands in it.
fn full_cell(book: &Book<'_, '_>, c: Cursor, depth: usize, desk: &mut Desk, out: &mut [u8])
    ensures { desk_of (contents book.now.tape).source desk.new out.new ≡ emit_all (desk_of (contents book.now.tape).source desk.old out.old) (element cell (cell_attrs (contents book.now.tape) c.at) (inside_of (contents book.now.tape) depth as_inline c.at false)) }
{
    open_cell(&book.tape, c, desk, out);
    inline::inside(book, c, depth, false, false, desk, out);
    desk.close_tag(out, Element::Cell)
}

// A cell on its line.
fn cell(book: &Book<'_, '_>, c: Cursor, level: usize, depth: usize, desk: &mut Desk, out: &mut [u8])
    ensures { desk_of (contents book.now.tape).source desk.new out.new ≡ emit_all (desk_of (contents book.now.tape).source desk.old out.old) (cell_in (inside_of (contents book.now.tape) depth) (contents book.now.tape) level c.at) }
{
    desk.line(out, level);
    if render::has_content(book, c) {
        full_cell(book, c, depth, desk, out)
    } else {
        empty_cell(&book.tape, c, desk, out)
    }
}

// The cells among a row's children.
fn cells_along(
    book: &Book<'_, '_>,
    first: Option<Cursor>,
    level: usize,
    depth: usize,
    desk: &mut Desk,
    out: &mut [u8],
)
    ensures { desk_of (contents book.now.tape).source desk.new out.new ≡ emit_all (desk_of (contents book.now.tape).source desk.old out.old) (cells_along (inside_of (contents book.now.tape) depth) (contents book.now.tape) level (walk_from (contents book.now.tape) first)) }
{
    let mut step = first;
    while let Some(c) = step {
        step = c.next_sibling(&book.tape);
        if is_cell(&book.tape, c) {
            cell(book, c, level, depth, desk, out);
        }
    }
}

fn cells(
    book: &Book<'_, '_>,
    row: Cursor,
    level: usize,
    depth: usize,
    desk: &mut Desk,
    out: &mut [u8],
)
    ensures { desk_of (contents book.now.tape).source desk.new out.new ≡ emit_all (desk_of (contents book.now.tape).source desk.old out.old) (cells_of (contents book.now.tape) depth level row.at) }
{
    if depth == 0 {
        return;
    }
    cells_along(
        book,
        row.first_child(&book.tape),
        level,
        depth - 1,
        desk,
        out,
    )
}

fn row(book: &Book<'_, '_>, c: Cursor, level: u8, desk: &mut Desk, out: &mut [u8])
    ensures { desk_of (contents book.now.tape).source desk.new out.new ≡ emit_all (desk_of (contents book.now.tape).source desk.old out.old) (row_e (contents book.now.tape) (depth_at level) level c.at) }
{
    let wide = level as usize;
    open_row(wide + 1, desk, out);
    cells(book, c, wide + 2, depth_at(level), desk, out);
    close_row(wide + 1, desk, out)
}

// The rows that stand together from a step on.
fn rows(
    book: &Book<'_, '_>,
    span: Span,
    first: Option<Cursor>,
    level: u8,
    desk: &mut Desk,
    out: &mut [u8],
)
    ensures { desk_of (contents book.now.tape).source desk.new out.new ≡ emit_all (desk_of (contents book.now.tape).source desk.old out.old) (rows_e (contents book.now.tape) (depth_at level) level (up_to (is_no_row (contents book.now.tape)) (nodes_in (contents book.now.tape) span first))) }
{
    let mut step = first;
    while let Some(c) = step {
        match member_of(&book.tape, span, c) {
            Member::End => return,
            Member::Skipped => {
                step = c.next_sibling(&book.tape);
            }
            Member::Listed => {
                if !render::is_row(&book.tape, c) {
                    return;
                }
                row(book, c, level, desk, out);
                step = c.next_sibling(&book.tape);
            }
        }
    }
}

// A table of the rows that stand together from a step on.
pub fn table(
    book: &Book<'_, '_>,
    span: Span,
    first: Option<Cursor>,
    level: u8,
    desk: &mut Desk,
    out: &mut [u8],
)
    ensures { desk_of (contents book.now.tape).source desk.new out.new ≡ emit_all (desk_of (contents book.now.tape).source desk.old out.old) (table_e (contents book.now.tape) (depth_at level) level (up_to (is_no_row (contents book.now.tape)) (nodes_in (contents book.now.tape) span first))) }
{
    let wide = level as usize;
    open_table(wide, desk, out);
    rows(book, span, first, level, desk, out);
    close_table(wide, desk, out)
}
