// What elements say in attributes.
ghost use Rattle.std.specs.Prelude.{◌≡◌, []};
ghost use Rattle.words.specs.Words.{trim};
ghost use Rattle.words.specs.declared.Set.TheVariants.{Unicode};
ghost use Rattle.tape.specs.File.{contents, text_at_of};
ghost use Rattle.render.specs.Children.{first_text_of};
ghost use Rattle.render.specs.Note.{lead_text, caller_or, remainder as remainder_of_of, category_text_of, step_text, IsCode, cell_align_of};

use crate::children::{find, first_text};
use crate::label::word_part;
use crate::shape::is_category_marker;
use tape::{Cursor, Kind, TapeFile};
use words::{Part, Set};

// How a cell's content is aligned.
#[derive(Clone, Copy, PartialEq, Eq)]
pub enum Align {
    Start,
    Center,
    End,
}

// A text of no bytes.
fn nothing(file: &[u8]) -> &[u8]
    ensures { result.now ≡ [] }
{
    parts::part(file, 0, 0)
}

// The text that a step leads to, if it is a Text.
fn lead_text<'a>(tape: &TapeFile<'a>, s: Option<Cursor>) -> &'a [u8]
    ensures { result.now ≡ lead_text (contents tape.now) s }
{
    match s {
        Some(c) if c.kind(tape).code == Kind::TEXT => c.text(tape),
        _ => nothing(tape.file),
    }
}

// A note's caller: the first word of its first child, if that is Text, else the lent text, which is `+`.
pub fn note_caller<'a>(plus: &'a [u8], tape: &TapeFile<'a>, c: Cursor) -> &'a [u8]
    ensures { result.now ≡ caller_or plus.now (contents tape.now) c.at }
{
    let word = words::first_word(lead_text(tape, c.first_child(tape)), Set::Unicode);
    if word.len() == 0 {
        return plus;
    }
    word
}

// What follows the first word of a text.
pub fn remainder(s: &[u8]) -> &[u8]
    ensures { result.now ≡ remainder_of_of s.now }
{
    words::after_word(s, Set::Unicode)
}

// The Text whose trimmed text is the category of a note or sidebar.
pub fn category_text(tape: &TapeFile<'_>, c: Cursor) -> Option<Cursor>
    ensures { result ≡ category_text_of (contents tape.now) c.at }
{
    let d = find(tape, c.first_child(tape), |d| is_category_marker(tape, d))?;
    first_text(tape, d)
}

// A node's text, trimmed.
pub fn trimmed<'a>(tape: &TapeFile<'a>, c: Cursor) -> &'a [u8]
    ensures { result.now ≡ trim Unicode (text_at_of (contents tape.now) c.at) }
{
    words::trim(c.text(tape), Set::Unicode)
}

// The text that a step leads to.
pub fn text_of<'a>(tape: &TapeFile<'a>, s: Option<Cursor>) -> &'a [u8]
    ensures { result.now ≡ step_text (contents tape.now) s }
{
    match s {
        Some(c) => c.text(tape),
        None => nothing(tape.file),
    }
}

// The text of the first Text child: its words are the book's code and rest, and periph's alt.
pub fn leading_text<'a>(tape: &TapeFile<'a>, c: Cursor) -> &'a [u8]
    ensures { result.now ≡ step_text (contents tape.now) (first_text_of (contents tape.now) c.at) }
{
    text_of(tape, first_text(tape, c))
}

// The book's code.
pub fn book_code(tape: &TapeFile<'_>, c: Cursor) -> Part
    ensures { IsCode (contents tape.now) c.at result }
{
    match first_text(tape, c) {
        Some(d) => word_part(tape, d, 0),
        None => Part { start: 0, len: 0 },
    }
}

// The text whose words are the book's rest.
pub fn book_rest<'a>(tape: &TapeFile<'a>, c: Cursor) -> &'a [u8]
    ensures { result.now ≡ remainder_of_of (step_text (contents tape.now) (first_text_of (contents tape.now) c.at)) }
{
    remainder(leading_text(tape, c))
}

// A cell's alignment, by the marker name.
#[tactic(auto, unfolding(crate::specs::Note::cell_align_of))]
pub fn cell_align(name: &[u8]) -> Align
    ensures { result ≡ cell_align_of name.now }
{
    if parts::begins_with(name, b"thr") || parts::begins_with(name, b"tcr") {
        Align::End
    } else if parts::begins_with(name, b"thc") || parts::begins_with(name, b"tcc") {
        Align::Center
    } else {
        Align::Start
    }
}
