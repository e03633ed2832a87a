// What follows a node.
ghost use Rattle.std.specs.Prelude.{◌≡◌, true};
ghost use Rattle.tape.specs.File.{contents};
ghost use Rattle.render.specs.Follow.{is_solid, next_solid_of, inline_at_of, inline_follows_of, followed as is_followed, Kept};
ghost use Rattle.render.specs.Shape.{is_inline_of};

use crate::children::find;
use crate::shape::is_inline;
use leading_white::{Book, lean_text};
use tape::{Category, Cursor, Kind, TapeFile};
use words::Set;

// Whether a sibling is not passed over.
#[tactic(auto, using(leading_white::proofs::Leans::blank_lean), unfolding(crate::specs::Follow::is_solid))]
pub fn is_solid(book: &Book<'_, '_>, c: Cursor) -> bool
    ensures { result ≡ is_solid (contents book.now.tape) c.at }
{
    match c.kind(&book.tape).code {
        Kind::ATTRIBUTE | Kind::ERROR => false,
        Kind::TEXT => !words::is_blank(lean_text(book, c), Set::Ascii),
        _ => true,
    }
}

// Whether a look tells that a node is not passed over: by its kind, or by one of the first two bytes of its text.
#[tactic(auto, using(texts::proofs::Edges::soon_shows), unfolding(crate::specs::Follow::is_solid))]
fn is_clear(tape: &TapeFile<'_>, c: Cursor) -> bool
    ensures { result ≡ true → is_solid (contents tape.now) c.at ≡ true }
{
    match c.kind(tape).code {
        Kind::TEXT => {
            let s = c.text(tape);
            (0x20 < parts::byte_at(s, 0)) | (0x20 < parts::byte_at(s, 1))
        }
        Kind::ATTRIBUTE | Kind::ERROR => false,
        _ => true,
    }
}

// Whether a look tells that a node runs inside text and is not passed over: a marker whose entry is of characters.
pub fn runs_on(tape: &TapeFile<'_>, c: Cursor) -> bool
    ensures at_value { result ≡ true → is_solid (contents tape.now) c.at ≡ true }
    ensures at_value_2 { result ≡ true → is_inline_of (contents tape.now) c.at ≡ true }
{
    c.kind(tape).code == Kind::MARKER_OPEN
        && matches!(c.marker_info(tape), Some(e) if e.category.code == Category::CHARACTER)
}

// The first later sibling that is not passed over.
pub fn next_solid(book: &Book<'_, '_>, c: Cursor) -> Option<Cursor>
    ensures { result ≡ next_solid_of (contents book.now.tape) c.at }
{
    let next = c.next_sibling(&book.tape);
    match next {
        Some(d) if is_clear(&book.tape, d) => next,
        _ => find(&book.tape, next, |d| is_solid(book, d)),
    }
}

// The next solid sibling of a child, from the one that was kept at the child before it: a run of blanks is passed once.
pub fn solid_behind(book: &Book<'_, '_>, c: Cursor, kept: Option<Cursor>) -> Option<Cursor>
    ensures { Kept (contents book.now.tape) c kept → result ≡ next_solid_of (contents book.now.tape) c.at }
{
    match kept {
        Some(d) if d.at == c.at => next_solid(book, c),
        _ => kept,
    }
}

// Whether a step leads to an inline node.
#[tactic(auto, unfolding(crate::specs::Follow::inline_at_of))]
pub fn inline_at(tape: &TapeFile<'_>, s: Option<Cursor>) -> bool
    ensures { result ≡ inline_at_of (contents tape.now) s }
{
    matches!(s, Some(c) if is_inline(tape, c))
}

// Whether the first later sibling that is not passed over is inline.
pub fn inline_follows(book: &Book<'_, '_>, c: Cursor) -> bool
    ensures { result ≡ inline_follows_of (contents book.now.tape) c.at }
{
    inline_at(&book.tape, next_solid(book, c))
}

// Whether inline content follows a parent, or, where it is inline, its own parent.
#[tactic(auto, unfolding(crate::specs::Follow::followed))]
pub fn followed(book: &Book<'_, '_>, c: Cursor, outer: bool) -> bool
    ensures { result ≡ is_followed (contents book.now.tape) c.at outer }
{
    is_inline(&book.tape, c) && (outer || inline_follows(book, c))
}
