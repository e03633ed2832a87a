#![tactic(auto)]
// Identifiers of chapters and verses, and the ends of those that are open.
ghost use Rattle.std.specs.Prelude.{true, [], ◌∷◌};
ghost use Rattle.parts.specs.Bytes.{b};
ghost use Rattle.events.specs.Pairing.{chapter_id_of, verse_id_of, end_of};
ghost use Rattle.desk.specs.Desk.{chapter_in, verse_in};
ghost use Rattle.desk.specs.Stroke.{opens, key as key_stroke, piece as piece_stroke, strokes_of_all, Drew};

use desk::{Desk, Element};
use usx_state::{OpenChapter, OpenVerse};

// Book, space, number.
pub fn chapter_id(desk: &mut Desk, out: &mut [u8], code: &[u8], number: u32, raw: bool)
    ensures { Drew desk.old out.old (piece_stroke raw (chapter_id_of code.now number) ∷ []) desk.new out.new }
{
    desk.piece(out, code, raw);
    desk.plain_piece(out, b" ");
    desk.digits(out, number)
}

// Book, space, number, colon, label.
pub fn verse_id(desk: &mut Desk, out: &mut [u8], code: &[u8], number: u32, label: &[u8], raw: bool)
    ensures { Drew desk.old out.old (piece_stroke raw (verse_id_of code.now number label.now) ∷ []) desk.new out.new }
{
    chapter_id(desk, out, code, number, raw);
    desk.plain_piece(out, b":");
    desk.piece(out, label, raw)
}

// The front of a chapter's end, up to its `eid`.
#[tactic(auto, using(crate::proofs::Idents::end_opened))]
fn open_chapter_end(desk: &mut Desk, out: &mut [u8])
    ensures { Drew desk.old out.old (opens 3 ∷ key_stroke (b "eid") ∷ []) desk.new out.new }
{
    desk.open_tag(out, Element::Chapter);
    desk.key(out, b"eid")
}

// The end of the chapter that is open; its `eid` is raw.
pub fn end_chapter(desk: &mut Desk, out: &mut [u8], source: &[u8], held: Option<OpenChapter>)
    ensures { Drew desk.old out.old (strokes_of_all (end_of 3 (chapter_in source.now held))) desk.new out.new }
{
    if let Some(c) = held {
        let book = parts::part(source, c.book.start, c.book.len);
        open_chapter_end(desk, out);
        chapter_id(desk, out, book, c.number, true);
        desk.shut_value(out)
    }
}

// The end of the verse that is open; its `eid` is raw.
pub fn end_verse(desk: &mut Desk, out: &mut [u8], source: &[u8], held: Option<OpenVerse>)
    ensures { Drew desk.old out.old (strokes_of_all (end_of 4 (verse_in source.now held))) desk.new out.new }
{
    if let Some(v) = held {
        let book = parts::part(source, v.book.start, v.book.len);
        let name = parts::part(source, v.label.start, v.label.len);
        desk.open_verse_end(out);
        verse_id(desk, out, book, v.number, name, true);
        desk.shut_value(out)
    }
}
