// What a node is.
ghost use Rattle.std.specs.Prelude.{◌≡◌};
ghost use Rattle.tape.specs.File.{contents};
ghost use Rattle.render.specs.Shape.{closed_by, unknown_shape_of, is_inline_shape, is_block_shape, inline_category, is_inline_of, is_top_level_block_of, trims_after_of, is_element_of, is_row, is_category_marker_of, is_blank_text, is_content_of};

use leading_white::{Book, lean_text};
use tape::{Category, Cursor, Element, Entry, Kind, TapeFile};
use words::Set;

// How an unknown marker is closed; Other for what is no unknown marker.
#[derive(Clone, Copy, PartialEq, Eq)]
pub enum Shape {
    Block,
    Inline,
    Leaf,
    Other,
}

// The shape that a close of this kind gives.
#[tactic(auto, unfolding(crate::specs::Shape::closed_by))]
fn closed_by(kind: u8) -> Shape
    ensures { result ≡ closed_by kind }
{
    match kind {
        Kind::BLOCK_END => Shape::Block,
        Kind::MARKER_CLOSE => Shape::Inline,
        _ => Shape::Leaf,
    }
}

pub fn unknown_shape(tape: &TapeFile<'_>, c: Cursor) -> Shape
    ensures { result ≡ unknown_shape_of (contents tape.now) c.at }
{
    let n = c.node(tape);
    if n.kind.code != Kind::MARKER_OPEN {
        return Shape::Other;
    }
    match c.marker_info(tape) {
        Some(_) => Shape::Other,
        None => closed_by(Cursor::new(n.link).kind(tape).code),
    }
}

// Whether markers of this category run inside text.
#[tactic(auto, unfolding(crate::specs::Shape::inline_category))]
fn inline_category(code: u8) -> bool
    ensures { result ≡ inline_category code }
{
    matches!(
        code,
        Category::CHARACTER | Category::NOTE | Category::MILESTONE
    )
}

// Whether a node runs inside text.
#[tactic(auto, using(crate::proofs::Shapes::same_inline), unfolding(crate::specs::Shape::is_inline_of, crate::specs::Shape::inline_marker))]
pub fn is_inline(tape: &TapeFile<'_>, c: Cursor) -> bool
    ensures { result ≡ is_inline_of (contents tape.now) c.at }
{
    match c.kind(tape).code {
        Kind::TEXT | Kind::VERSE => true,
        Kind::MARKER_OPEN => match c.marker_info(tape) {
            Some(e) => inline_category(e.category.code),
            None => unknown_shape(tape, c) == Shape::Inline,
        },
        _ => false,
    }
}

#[tactic(auto, using(crate::proofs::Shapes::same_block), unfolding(crate::specs::Shape::is_top_level_block_of, crate::specs::Shape::block_marker))]
pub fn is_top_level_block(tape: &TapeFile<'_>, c: Cursor) -> bool
    ensures { result ≡ is_top_level_block_of (contents tape.now) c.at }
{
    match c.kind(tape).code {
        Kind::CHAPTER => true,
        Kind::MARKER_OPEN => match c.marker_info(tape) {
            Some(e) => !parts::same(tape.entry_name(e), b"usfm")
                && !inline_category(e.category.code),
            None => unknown_shape(tape, c) == Shape::Block,
        },
        _ => false,
    }
}

// Whether no space is kept at the start of a text behind this sibling.
#[tactic(auto, unfolding(crate::specs::Shape::trims_after_of))]
pub fn trims_after(tape: &TapeFile<'_>, c: Cursor) -> bool
    ensures { result ≡ trims_after_of (contents tape.now) c.at }
{
    match c.kind(tape).code {
        Kind::CHAPTER | Kind::VERSE => true,
        _ => !is_inline(tape, c),
    }
}

// Whether there is an entry with this element code.
#[tactic(auto, unfolding(crate::specs::Shape::is_element_of))]
pub fn is_element(known: Option<Entry>, code: u8) -> bool
    ensures { result ≡ is_element_of code known }
{
    known.is_some_and(|e| e.element.code == code)
}

#[tactic(auto, unfolding(crate::specs::Shape::is_row))]
pub fn is_row(tape: &TapeFile<'_>, c: Cursor) -> bool
    ensures { result ≡ is_row (contents tape.now) c.at }
{
    c.kind(tape).code == Kind::MARKER_OPEN && is_element(c.marker_info(tape), Element::ROW)
}

// Whether a node is a marker that the source names `cat`.
#[tactic(auto, unfolding(crate::specs::Shape::is_category_marker_of))]
pub fn is_category_marker(tape: &TapeFile<'_>, c: Cursor) -> bool
    ensures { result ≡ is_category_marker_of (contents tape.now) c.at }
{
    c.kind(tape).code == Kind::MARKER_OPEN && c.is_named(tape, b"cat")
}

// Whether a node is a Text of white space alone.
#[tactic(auto, using(leading_white::proofs::Leans::blank_lean), unfolding(crate::specs::Shape::is_blank_text))]
pub fn is_blank(book: &Book<'_, '_>, c: Cursor) -> bool
    ensures { result ≡ is_blank_text (contents book.now.tape) c.at }
{
    c.kind(&book.tape).code == Kind::TEXT && words::is_blank(lean_text(book, c), Set::Unicode)
}

// Whether a child counts as content.
#[tactic(auto, unfolding(crate::specs::Shape::is_content_of))]
pub fn is_content(book: &Book<'_, '_>, c: Cursor) -> bool
    ensures { result ≡ is_content_of (contents book.now.tape) c.at }
{
    let kind = c.kind(&book.tape);
    kind.code != Kind::ATTRIBUTE && !kind.is_close() && !is_blank(book, c)
}
