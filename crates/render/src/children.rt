// What is asked of a node's children.
ghost use Rattle.std.specs.Prelude.{◌≡◌, ℕ, Bool};
ghost use Rattle.tape.specs.File.{contents};
ghost use Rattle.tape.specs.Tree.{walk_from};
ghost use Rattle.render.specs.First.{first_with, IsNodeTest};
ghost use Rattle.render.specs.Children.{has_content_of, is_plain_text_of, first_text_of};

use crate::shape::is_content;
use leading_white::Book;
use tape::{Cursor, Kind, TapeFile};

// The first node that passes a test, on a walk along siblings.
pub fn find<F: Fn(Cursor) -> bool>(
    tape: &TapeFile<'_>,
    from: Option<Cursor>,
    passes: F,
) -> Option<Cursor>
    requires { F.IsAlwaysCallable passes }
    ensures { (test : ℕ → Bool) → IsNodeTest (F.post passes) test → result ≡ first_with test (walk_from (contents tape.now) from) }
{
    let mut step = from;
    while let Some(c) = step {
        if passes(c) {
            return Some(c);
        }
        step = c.next_sibling(tape);
    }
    None
}

// Whether a node has content besides its attributes and close.
pub fn has_content(book: &Book<'_, '_>, c: Cursor) -> bool
    ensures { result ≡ has_content_of (contents book.now.tape) c.at }
{
    find(
        &book.tape,
        c.first_child(&book.tape),
        |d| is_content(book, d),
    )
    .is_some()
}

// Whether a node holds no marker.
pub fn is_plain_text(tape: &TapeFile<'_>, c: Cursor) -> bool
    ensures { result ≡ is_plain_text_of (contents tape.now) c.at }
{
    find(
        tape,
        c.first_child(tape),
        |d| d.kind(tape).code == Kind::MARKER_OPEN,
    )
    .is_none()
}

// The first Text child.
pub fn first_text(tape: &TapeFile<'_>, c: Cursor) -> Option<Cursor>
    ensures { result ≡ first_text_of (contents tape.now) c.at }
{
    find(
        tape,
        c.first_child(tape),
        |d| d.kind(tape).code == Kind::TEXT,
    )
}
