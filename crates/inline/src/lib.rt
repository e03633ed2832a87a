#![tactic(auto)]
// Inline content: single nodes, what stands inside them, and lists of children call each other, and the remaining depth falls.
ghost use Rattle.std.specs.Prelude.{◌≡◌, true, ◌+◌};
ghost use Rattle.tape.specs.File.{contents};
ghost use Rattle.tape.specs.Tree.{walk_from};
ghost use Rattle.events.specs.Walk.{role_of, marker_as, node_in_of, inside as inside_of, inline_all, note_all};
ghost use Rattle.events.specs.Emit.{emit_all};
ghost use Rattle.desk.specs.Desk.{desk_of};
ghost use Rattle.lists.specs.Span.{nodes_in};
ghost use Rattle.roles.specs.Roles.{manner_by};
ghost use Rattle.inline_turns.specs.Turn.{behind_of};
ghost use Rattle.inline_turns.specs.declared.Behind.TheVariants.{Unasked};

mod lone;

use crate::lone::lone;
use desk::Desk;
use inline_turns::{Behind, Sort, follows, note_sort, note_turn, plain_turn, sort_in};
use leading_white::Book;
use lists::Span;
use tape::{Cursor, Kind};

// A marker: its opening tags, what stands inside, its closing tags; or a leaf.
#[cycle(inline_inside_marker_node_note_inline)]
fn marker(
    book: &Book<'_, '_>,
    c: Cursor,
    depth: usize,
    outer: bool,
    desk: &mut Desk,
    out: &mut [u8],
)
    ensures { desk_of (contents book.now.tape).source desk.new out.new ≡ emit_all (desk_of (contents book.now.tape).source desk.old out.old) (marker_as (inside_of (contents book.now.tape) depth) (contents book.now.tape) c.at outer (role_of (contents book.now.tape) c.at)) }
{
    let role = roles::role_of(&book.tape, c);
    if roles::is_whole(&book.tape, c, role) {
        put_markers::open_marker(book, c, role, desk, out);
        inside(book, c, depth, outer, roles::is_note(role), desk, out);
        put_markers::close_marker(book, c, role, desk, out)
    } else {
        put_markers::write_leaf(&book.tape, c, role, desk, out)
    }
}

// One node that is no text; `outer` says whether inline content follows its parent.
#[cycle(inline_inside_marker_node_note_inline)]
pub fn node(
    book: &Book<'_, '_>,
    c: Cursor,
    depth: usize,
    outer: bool,
    desk: &mut Desk,
    out: &mut [u8],
)
    ensures { desk_of (contents book.now.tape).source desk.new out.new ≡ emit_all (desk_of (contents book.now.tape).source desk.old out.old) (node_in_of (inside_of (contents book.now.tape) depth) (contents book.now.tape) c.at outer) }
{
    let kind = c.kind(&book.tape);
    if kind.code == Kind::CHAPTER {
        put_chapters::chapter(&book.tape, c.number(&book.tape), None, None, desk, out)
    } else if kind.code == Kind::VERSE {
        put_chapters::verse(&book.tape, c, None, None, desk, out)
    } else if kind.code == Kind::MARKER_OPEN {
        marker(book, c, depth, outer, desk, out)
    }
}

// What stands inside a container.
#[cycle(inline_inside_marker_node_note_inline)]
pub fn inside(
    book: &Book<'_, '_>,
    c: Cursor,
    depth: usize,
    outer: bool,
    note: bool,
    desk: &mut Desk,
    out: &mut [u8],
)
    ensures { desk_of (contents book.now.tape).source desk.new out.new ≡ emit_all (desk_of (contents book.now.tape).source desk.old out.old) (inside_of (contents book.now.tape) depth (manner_by note) c.at outer) }
{
    if depth == 0 {
        return;
    }
    let first = c.first_child(&book.tape);
    if note {
        note_inline(book, c, first, depth - 1, outer, desk, out)
    } else {
        let span = Span {
            cut: false,
            sifted: false,
        };
        inline(
            book,
            span,
            c,
            first,
            depth - 1,
            outer,
            Behind::Unasked,
            desk,
            out,
        )
    }
}

// A list of inline children; `behind` is what is known of whether inline content follows their parent, `outer` whether it follows the parent's own.
#[cycle(inline_inside_marker_node_note_inline)]
pub fn inline(
    book: &Book<'_, '_>,
    span: Span,
    parent: Cursor,
    first: Option<Cursor>,
    depth: usize,
    outer: bool,
    behind: Behind,
    desk: &mut Desk,
    out: &mut [u8],
)
    ensures { desk_of (contents book.now.tape).source desk.new out.new ≡ emit_all (desk_of (contents book.now.tape).source desk.old out.old) (inline_all (node_in_of (inside_of (contents book.now.tape) depth) (contents book.now.tape)) (contents book.now.tape) (behind_of (contents book.now.tape) parent outer behind) true (nodes_in (contents book.now.tape) span first)) }
{
    let mut step = first;
    let mut kept = first;
    let mut trim = true;
    let mut known = behind;
    while let Some(c) = step {
        match sort_in(&book.tape, span, c) {
            Sort::End => return,
            Sort::Enter => {
                if lone(&book.tape, c, depth, desk, out) {
                    trim = false;
                    step = c.next_sibling(&book.tape);
                    kept = step;
                } else {
                    known = inline_turns::ask(book, parent, outer, known);
                    node(book, c, depth, follows(known), desk, out);
                    trim = render::trims_after(&book.tape, c);
                    step = c.next_sibling(&book.tape);
                    kept = step;
                }
            }
            Sort::Plain(child) => {
                let g = plain_turn(
                    book, span, parent, outer, c, child, trim, known, kept, desk, out,
                );
                trim = g.trim;
                known = g.behind;
                kept = g.kept;
                step = g.next;
            }
        }
    }
}

// The children of a note.
#[cycle(inline_inside_marker_node_note_inline)]
fn note_inline(
    book: &Book<'_, '_>,
    parent: Cursor,
    first: Option<Cursor>,
    depth: usize,
    outer: bool,
    desk: &mut Desk,
    out: &mut [u8],
)
    ensures { desk_of (contents book.now.tape).source desk.new out.new ≡ emit_all (desk_of (contents book.now.tape).source desk.old out.old) (note_all (node_in_of (inside_of (contents book.now.tape) depth) (contents book.now.tape)) (contents book.now.tape) (parent.at + 1) (behind_of (contents book.now.tape) parent outer Unasked) true (walk_from (contents book.now.tape) first)) }
{
    let mut step = first;
    let mut kept = first;
    let mut trim = true;
    let mut known = Behind::Unasked;
    while let Some(c) = step {
        match note_sort(&book.tape, c) {
            Sort::End => return,
            Sort::Enter => {
                if lone(&book.tape, c, depth, desk, out) {
                    trim = false;
                    step = c.next_sibling(&book.tape);
                    kept = step;
                } else {
                    known = inline_turns::ask(book, parent, outer, known);
                    node(book, c, depth, follows(known), desk, out);
                    trim = render::trims_after(&book.tape, c);
                    step = c.next_sibling(&book.tape);
                    kept = step;
                }
            }
            Sort::Plain(child) => {
                let g = note_turn(book, parent, outer, c, child, trim, known, kept, desk, out);
                trim = g.trim;
                known = g.behind;
                kept = g.kept;
                step = g.next;
            }
        }
    }
}
