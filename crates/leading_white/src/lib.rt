#![tactic(auto)]
// A text without all but the last of the white bytes that it begins with, found through a table: however long that white space is.
mod book;

ghost use Rattle.std.specs.Prelude.{◌≡◌, ◌+◌, ◌-◌, ◌≤◌, ◌<◌, min, length};
ghost use Rattle.parts.specs.Bytes.{part};
ghost use Rattle.words.specs.Words.{white_len};
ghost use Rattle.tape.specs.File.{contents, text_at_of};
ghost use Rattle.source_index.specs.Seek.{Right};
ghost use Rattle.leading_white.specs.Lean.{is_wide, lean, Solids};

pub use book::Book;
use source_index::Test;
use tape::{Cursor, TapeFile, long};
use words::Set;

// Fills a table of the solid bytes of a tape's source.
pub fn fill(solids: &mut [u32], tape: &TapeFile<'_>)
    ensures { Solids (contents tape.now) solids.new }
{
    source_index::fill(solids, tape.source(), Test::Solid);
}

// How many bytes a part of a text has before a place.
fn before(p: usize, start: usize, len: usize) -> usize
    ensures { result ≡ min (p - start) len }
{
    if p <= start {
        return 0;
    }
    if p - start < len { p - start } else { len }
}

// The bytes of white space that a part of a text begins with.
fn white_ahead(solids: &[u32], s: &[u8], start: usize, len: usize) -> usize
    ensures { Right Test.Solid s.now solids.now → start + len ≤ length s.now → result ≡ white_len Set.Ascii (part s.now start len) }
{
    before(
        source_index::next(solids, s, Test::Solid, start),
        start,
        len,
    )
}

// The bytes of white space that the text of a node begins with, where it has so many bytes.
fn white_of(book: &Book<'_, '_>, c: Cursor, len: usize) -> usize
    ensures { 0 < len → len ≡ length (text_at_of (contents book.now.tape) c.at) → result ≡ white_len Set.Ascii (text_at_of (contents book.now.tape) c.at) }
{
    let start = long(c.start(&book.tape));
    white_ahead(book.solids, book.tape.source(), start, len)
}

// Whether a text begins with two white bytes.
fn is_wide(s: &[u8]) -> bool
    ensures { result ≡ is_wide s.now }
{
    if s.len() < 2 {
        return false;
    }
    if chars::is_ascii_white(s[0]) {
        return chars::is_ascii_white(s[1]);
    }
    false
}

// A text that begins with so many white bytes, made lean.
fn past_white(s: &[u8], white: usize) -> &[u8]
    ensures { white ≡ white_len Set.Ascii s.now → result.now ≡ lean s.now }
{
    if white == 0 {
        return s;
    }
    parts::from(s, white - 1)
}

// A text made lean, read from its front.
pub fn lean_of(s: &[u8]) -> &[u8]
    ensures { result.now ≡ lean s.now }
{
    past_white(s, words::white_len(s, Set::Ascii))
}

// The text of a node, made lean.
pub fn lean_text<'a>(book: &Book<'a, '_>, c: Cursor) -> &'a [u8]
    ensures { result.now ≡ lean (text_at_of (contents book.now.tape) c.at) }
{
    let s = c.text(&book.tape);
    if !is_wide(s) {
        return s;
    }
    past_white(s, white_of(book, c, s.len()))
}
