// What a Chapter or Verse says: its label and its folded numbers.
use crate::say;
use fold::Number;
use leading_white::Book;
use lists::Span;
use std::io;
use tape::{Cursor, TapeFile};

fn label(rt: &impl Print, tape: &TapeFile<'_>, c: Cursor) -> io::Result<()> {
    let p = render::verse_label(tape, c);
    print!(rt; "{} label ", c.at)?;
    say::quoted(rt, parts::part(tape.source(), p.start, p.len))?;
    println!(rt; "")
}

fn pieces(rt: &impl Print, tape: &TapeFile<'_>, c: Cursor) -> io::Result<()> {
    let mut left = Number::of(tape, c);
    while let Some(piece) = left.next(tape) {
        let part = piece.part;
        say::space_if(rt, piece.space)?;
        say::escaped(rt, parts::part(tape.source(), part.start, part.len), true)?;
        left = piece.left;
    }
    Ok(())
}

// The number of a folded marker, between quotes.
fn number(rt: &impl Print, tape: &TapeFile<'_>, folded: Option<Cursor>) -> io::Result<()> {
    match folded {
        Some(c) => {
            print!(rt; "\"")?;
            pieces(rt, tape, c)?;
            print!(rt; "\" ")
        }
        None => print!(rt; "- "),
    }
}

pub fn fold(rt: &impl Print, book: &Book<'_, '_>, c: Cursor) -> io::Result<()> {
    let tape = &book.tape;
    let all = Span {
        cut: false,
        sifted: false,
    };
    let folds = lists::fold_in(book, all, c.kind(tape), c.next_sibling(tape));
    print!(rt; "{} fold ", c.at)?;
    number(rt, tape, folds.alt)?;
    number(rt, tape, folds.published)?;
    say::place(rt, folds.rest)
}

pub fn lines(rt: &impl Print, book: &Book<'_, '_>, c: Cursor) -> io::Result<()> {
    label(rt, &book.tape, c)?;
    fold(rt, book, c)
}
