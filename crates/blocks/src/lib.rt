#![tactic(auto)]
// Lists of blocks, and the sidebars and periphs that hold them.
ghost use Rattle.std.specs.Prelude.{◌≡◌, false, List, [], ◌∷◌, ◌++◌, ℕ, ◌<◌, Some};
ghost use Rattle.parts.specs.Bytes.{Bytes};
ghost use Rattle.tape.specs.File.{contents};
ghost use Rattle.tape.specs.Tree.{left, next_sibling, first_child};
ghost use Rattle.render.specs.Shape.{is_top_level_block_of};
ghost use Rattle.tags.specs.Items.{line as line_item, close, start};
ghost use Rattle.events.specs.Event.{Event, item};
ghost use Rattle.events.specs.Walk.{a_chapter_of, a_block, a_verse_of, place_of, blocks_all_of, blocks_on, blocks_e};
ghost use Rattle.events.specs.Emit.{emit_all};
ghost use Rattle.desk.specs.Desk.{desk_of};
ghost use Rattle.lists.specs.Span.{nodes_in, member_of_of};
ghost use Rattle.lists.specs.declared.Member.TheVariants.{Listed};
ghost use Rattle.tables.specs.Rows.{depth_at};
ghost use Rattle.holders.specs.Holders.{attrs_of, element_no};
ghost use Rattle.blocks.specs.Blocks.{uncut, holder_of, below, holder_in, run_opens, run_in, step_behind};

use desk::Desk;
use holders::{close_holder, empty_holder, has_block, open_holder};
use inline_turns::Behind;
use leading_white::Book;
use lists::{Member, Span, Stop, fold_in, member_of, past_run};
use tables::depth_at;
use tape::{Cursor, Element, Kind, TapeFile};

// What a node holds blocks as.
#[derive(Clone, Copy, PartialEq, Eq)]
pub enum Holder {
    Sidebar,
    Periph,
    Neither,
}

#[tactic(auto, unfolding(crate::specs::Blocks::holder_of, render::specs::Shape::is_chapter_of))]
fn holder_of(tape: &TapeFile<'_>, c: Cursor) -> Holder
    ensures { result ≡ holder_of (contents tape.now) c.at }
{
    if render::is_row(tape, c) || c.kind(tape).code == Kind::CHAPTER {
        return Holder::Neither;
    }
    let info = c.marker_info(tape);
    if render::is_element(info, Element::SIDEBAR) {
        Holder::Sidebar
    } else if render::is_element(info, Element::PERIPH) {
        Holder::Periph
    } else {
        Holder::Neither
    }
}

// A chapter on its line, with the numbers behind it.
fn chapter(
    book: &Book<'_, '_>,
    span: Span,
    c: Cursor,
    level: u8,
    desk: &mut Desk,
    out: &mut [u8],
) -> Option<Cursor>
    ensures by_index { (B : List ℕ → List Event) → emit_all (desk_of (contents book.now.tape).source desk.new out.new) (blocks_all_of B (contents book.now.tape) (depth_at level) level (nodes_in (contents book.now.tape) span result)) ≡ emit_all (desk_of (contents book.now.tape).source desk.old out.old) (blocks_on B (contents book.now.tape) (depth_at level) level c.at (nodes_in (contents book.now.tape) span (next_sibling (contents book.now.tape) c.at)) a_chapter_of) }
    ensures next_bound { left (contents book.now.tape) result < left (contents book.now.tape) (Some c) }
    ensures next_value { result ≡ step_behind (contents book.now.tape) span c.at a_chapter_of }
{
    let f = fold_in(
        book,
        span,
        Kind::new(Kind::CHAPTER),
        c.next_sibling(&book.tape),
    );
    desk.line(out, level as usize);
    put_chapters::chapter(
        &book.tape,
        c.number(&book.tape),
        f.alt,
        f.published,
        desk,
        out,
    );
    f.rest
}

// The line and the tag of a paragraph around a verse.
#[tactic(auto, using(crate::proofs::Places::run_opened))]
fn open_run(level: usize, desk: &mut Desk, out: &mut [u8])
    ensures { (source : Bytes) → desk_of source desk.new out.new ≡ emit_all (desk_of source desk.old out.old) (run_opens level) }
{
    desk.line(out, level);
    desk.open_styled(out, desk::Element::Para, b"p");
    desk.end_tag(out)
}

// A verse and what follows it up to the next block, in a paragraph of its own.
#[tactic(auto, using(crate::proofs::Places::run_whole))]
fn verse_para(
    book: &Book<'_, '_>,
    sifted: bool,
    c: Cursor,
    level: u8,
    desk: &mut Desk,
    out: &mut [u8],
)
    ensures { member_of_of (contents book.now.tape) (uncut sifted) c.at ≡ Listed → is_top_level_block_of (contents book.now.tape) c.at ≡ false → desk_of (contents book.now.tape).source desk.new out.new ≡ emit_all (desk_of (contents book.now.tape).source desk.old out.old) (run_in (contents book.now.tape) (depth_at level) level c.at (nodes_in (contents book.now.tape) (uncut sifted) (next_sibling (contents book.now.tape) c.at))) }
{
    let run = Span { cut: true, sifted };
    open_run(level as usize, desk, out);
    let depth = depth_at(level);
    inline::inline(book, run, c, Some(c), depth, false, Behind::Ends, desk, out);
    desk.close_tag(out, desk::Element::Para)
}

// Such a paragraph, and the list behind it.
fn verse_run(
    book: &Book<'_, '_>,
    sifted: bool,
    c: Cursor,
    level: u8,
    desk: &mut Desk,
    out: &mut [u8],
) -> Option<Cursor>
    ensures next_after { member_of_of (contents book.now.tape) (uncut sifted) c.at ≡ Listed → is_top_level_block_of (contents book.now.tape) c.at ≡ false → (B : List ℕ → List Event) → emit_all (desk_of (contents book.now.tape).source desk.new out.new) (blocks_all_of B (contents book.now.tape) (depth_at level) level (nodes_in (contents book.now.tape) (uncut sifted) result)) ≡ emit_all (desk_of (contents book.now.tape).source desk.old out.old) (blocks_on B (contents book.now.tape) (depth_at level) level c.at (nodes_in (contents book.now.tape) (uncut sifted) (next_sibling (contents book.now.tape) c.at)) a_verse_of) }
    ensures next_bound { left (contents book.now.tape) result < left (contents book.now.tape) (Some c) }
    ensures next_value { result ≡ step_behind (contents book.now.tape) (uncut sifted) c.at a_verse_of }
{
    let span = Span { cut: false, sifted };
    verse_para(book, sifted, c, level, desk, out);
    past_run(&book.tape, span, Stop::Block, c.next_sibling(&book.tape))
}

// A block on its line.
fn block(
    book: &Book<'_, '_>,
    span: Span,
    c: Cursor,
    level: u8,
    desk: &mut Desk,
    out: &mut [u8],
) -> Option<Cursor>
    ensures by_index { (B : List ℕ → List Event) → emit_all (desk_of (contents book.now.tape).source desk.new out.new) (blocks_all_of B (contents book.now.tape) (depth_at level) level (nodes_in (contents book.now.tape) span result)) ≡ emit_all (desk_of (contents book.now.tape).source desk.old out.old) (blocks_on B (contents book.now.tape) (depth_at level) level c.at (nodes_in (contents book.now.tape) span (next_sibling (contents book.now.tape) c.at)) a_block) }
    ensures next_bound { left (contents book.now.tape) result < left (contents book.now.tape) (Some c) }
    ensures next_value { result ≡ step_behind (contents book.now.tape) span c.at a_block }
{
    desk.line(out, level as usize);
    inline::node(book, c, depth_at(level), false, desk, out);
    c.next_sibling(&book.tape)
}

// A turn along blocks that enters no sidebar and no periph.
fn block_turn(
    book: &Book<'_, '_>,
    sifted: bool,
    c: Cursor,
    level: u8,
    desk: &mut Desk,
    out: &mut [u8],
) -> Option<Cursor>
    ensures next_after { member_of_of (contents book.now.tape) (uncut sifted) c.at ≡ Listed → holder_of (contents book.now.tape) c.at ≡ Holder.Neither → (B : List ℕ → List Event) → emit_all (desk_of (contents book.now.tape).source desk.new out.new) (blocks_all_of B (contents book.now.tape) (depth_at level) level (nodes_in (contents book.now.tape) (uncut sifted) result)) ≡ emit_all (desk_of (contents book.now.tape).source desk.old out.old) (blocks_all_of B (contents book.now.tape) (depth_at level) level (nodes_in (contents book.now.tape) (uncut sifted) (Some c))) }
    ensures next_bound { left (contents book.now.tape) result < left (contents book.now.tape) (Some c) }
    ensures next_value { holder_of (contents book.now.tape) c.at ≡ Holder.Neither → result ≡ step_behind (contents book.now.tape) (uncut sifted) c.at (place_of (contents book.now.tape) c.at) }
{
    let span = Span { cut: false, sifted };
    if render::is_row(&book.tape, c) {
        tables::table(book, span, Some(c), level, desk, out);
        return past_run(&book.tape, span, Stop::NoRow, c.next_sibling(&book.tape));
    }
    let kind = c.kind(&book.tape);
    if kind.code == Kind::CHAPTER {
        return chapter(book, span, c, level, desk, out);
    }
    if render::is_top_level_block(&book.tape, c) {
        return block(book, span, c, level, desk, out);
    }
    if kind.code == Kind::VERSE {
        return verse_run(book, sifted, c, level, desk, out);
    }
    c.next_sibling(&book.tape)
}

// A holder with blocks inside.
#[cycle(blocks_full_holder_held_inner)]
fn full_holder(
    book: &Book<'_, '_>,
    c: Cursor,
    sidebar: bool,
    level: u8,
    desk: &mut Desk,
    out: &mut [u8],
)
    ensures { desk_of (contents book.now.tape).source desk.new out.new ≡ emit_all (desk_of (contents book.now.tape).source desk.old out.old) (item (start (element_no sidebar) (attrs_of (contents book.now.tape) c.at sidebar)) ∷ (below (contents book.now.tape) (depth_at level) level (nodes_in (contents book.now.tape) (uncut sidebar) (first_child (contents book.now.tape) c.at)) ++ (item (line_item level) ∷ item (close (element_no sidebar)) ∷ []))) }
{
    open_holder(&book.tape, c, sidebar, desk, out);
    inner(book, sidebar, c.first_child(&book.tape), level, desk, out);
    close_holder(level as usize, sidebar, desk, out)
}

// A sidebar or periph: blocks inside, or nothing.
#[cycle(blocks_full_holder_held_inner)]
fn held(book: &Book<'_, '_>, c: Cursor, sidebar: bool, level: u8, desk: &mut Desk, out: &mut [u8])
    ensures { desk_of (contents book.now.tape).source desk.new out.new ≡ emit_all (desk_of (contents book.now.tape).source desk.old out.old) (item (line_item level) ∷ holder_in (contents book.now.tape) (depth_at level) level sidebar c.at) }
{
    let span = Span {
        cut: false,
        sifted: sidebar,
    };
    desk.line(out, level as usize);
    if has_block(&book.tape, span, c.first_child(&book.tape)) {
        full_holder(book, c, sidebar, level, desk, out)
    } else {
        empty_holder(&book.tape, c, sidebar, desk, out)
    }
}

// The blocks inside a sidebar or periph.
#[cycle(blocks_full_holder_held_inner)]
fn inner(
    book: &Book<'_, '_>,
    sifted: bool,
    first: Option<Cursor>,
    level: u8,
    desk: &mut Desk,
    out: &mut [u8],
)
    ensures { desk_of (contents book.now.tape).source desk.new out.new ≡ emit_all (desk_of (contents book.now.tape).source desk.old out.old) (below (contents book.now.tape) (depth_at level) level (nodes_in (contents book.now.tape) (uncut sifted) first)) }
{
    if depth_at(level) == 0 {
        return;
    }
    blocks(book, sifted, first, level + 1, desk, out)
}

// A list of blocks.
#[cycle(blocks_full_holder_held_inner)]
pub fn blocks(
    book: &Book<'_, '_>,
    sifted: bool,
    first: Option<Cursor>,
    level: u8,
    desk: &mut Desk,
    out: &mut [u8],
)
    ensures { desk_of (contents book.now.tape).source desk.new out.new ≡ emit_all (desk_of (contents book.now.tape).source desk.old out.old) (blocks_e (contents book.now.tape) (depth_at level) level (nodes_in (contents book.now.tape) (uncut sifted) first)) }
{
    let span = Span { cut: false, sifted };
    let mut step = first;
    while let Some(c) = step {
        match member_of(&book.tape, span, c) {
            Member::End => return,
            Member::Skipped => {
                step = c.next_sibling(&book.tape);
            }
            Member::Listed => match holder_of(&book.tape, c) {
                Holder::Sidebar => {
                    held(book, c, true, level, desk, out);
                    step = c.next_sibling(&book.tape);
                }
                Holder::Periph => {
                    held(book, c, false, level, desk, out);
                    step = c.next_sibling(&book.tape);
                }
                Holder::Neither => {
                    step = block_turn(book, sifted, c, level, desk, out);
                }
            },
        }
    }
}
