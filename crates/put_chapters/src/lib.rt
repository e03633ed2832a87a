#![tactic(auto)]
// Chapters, verses and books: the marks go on with the text.
ghost use Rattle.std.specs.Prelude.{◌≡◌, true, false, [], ◌∷◌, ◌++◌};
ghost use Rattle.parts.specs.Bytes.{b};
ghost use Rattle.chars.specs.Decimal.{decimal};
ghost use Rattle.tape.specs.File.{contents};
ghost use Rattle.render.specs.Label.{label_of};
ghost use Rattle.render.specs.Note.{book_code_of, book_rest_of};
ghost use Rattle.fold.specs.Fold.{folded_number};
ghost use Rattle.tags.specs.Items.{empty};
ghost use Rattle.words.specs.Words.{words, joined, bytes_of};
ghost use Rattle.words.specs.declared.Set.TheVariants.{Unicode};
ghost use Rattle.events.specs.Event.{perhaps, chapter as chapter_event, verse as verse_event, book as book_event};
ghost use Rattle.events.specs.Pairing.{chapter_id_of, verse_id_of, chapter_attrs_of, verse_attrs_of, book_items, last_ends};
ghost use Rattle.events.specs.Emit.{emit};
ghost use Rattle.desk.specs.Desk.{state_in, desk_of, ended};
ghost use Rattle.desk.specs.Stroke.{opens, key as key_stroke, piece as piece_stroke, end_value_of, ends, shuts, closes, words as words_stroke, strokes_of_attrs, strokes_of, strokes_of_all, Drew};

use desk::{Desk, Element};
use put_attrs::put_numbered;
use put_ids::{chapter_id, end_chapter, end_verse, verse_id};
use tape::{Cursor, TapeFile};
use usx_state::Marks;
use words::{Part, Set};

// A number of a chapter as an attribute.
#[tactic(auto, using(desk::proofs::Strokes::drew_attr))]
fn put_number(desk: &mut Desk, out: &mut [u8], number: u32)
    ensures { Drew desk.old out.old (key_stroke (b "number") ∷ piece_stroke false (decimal number) ∷ end_value_of ∷ []) desk.new out.new }
{
    desk.key(out, b"number");
    desk.digits(out, number);
    desk.end_value(out)
}

// The front of a chapter's tag: its number and style.
#[tactic(auto, using(crate::proofs::Marked::tag_head))]
fn put_chapter_head(desk: &mut Desk, out: &mut [u8], number: u32)
    ensures { Drew desk.old out.old (opens 3 ∷ key_stroke (b "number") ∷ piece_stroke false (decimal number) ∷ end_value_of ∷ key_stroke (b "style") ∷ piece_stroke true (b "c") ∷ end_value_of ∷ []) desk.new out.new }
{
    desk.open_tag(out, Element::Chapter);
    put_number(desk, out, number);
    desk.attr(out, b"style", b"c", true)
}

// A chapter's identifier and the tag's end.
#[tactic(auto, using(crate::proofs::Marked::sid_shut))]
fn put_chapter_sid(desk: &mut Desk, out: &mut [u8], code: &[u8], number: u32)
    ensures { Drew desk.old out.old (key_stroke (b "sid") ∷ piece_stroke false (chapter_id_of code.now number) ∷ end_value_of ∷ shuts ∷ []) desk.new out.new }
{
    desk.open_sid(out);
    chapter_id(desk, out, code, number, false);
    desk.shut_value(out)
}

// The tag of a chapter: number, style, altnumber, pubnumber, sid.
#[tactic(auto, using(crate::proofs::Marked::chapter_tag))]
fn put_chapter(
    desk: &mut Desk,
    out: &mut [u8],
    tape: &TapeFile<'_>,
    code: Part,
    number: u32,
    alt: Option<Cursor>,
    published: Option<Cursor>,
)
    ensures { Drew desk.old out.old (strokes_of (empty 3 (chapter_attrs_of (bytes_of (contents tape.now).source code) number (folded_number (contents tape.now) alt) (folded_number (contents tape.now) published)))) desk.new out.new }
{
    let book = parts::part(tape.source(), code.start, code.len);
    put_chapter_head(desk, out, number);
    put_numbered(desk, out, tape, b"altnumber", alt);
    put_numbered(desk, out, tape, b"pubnumber", published);
    put_chapter_sid(desk, out, book, number)
}

// A verse's identifier.
#[tactic(auto, using(desk::proofs::Strokes::drew_attr))]
fn put_verse_sid(desk: &mut Desk, out: &mut [u8], code: &[u8], number: u32, label: &[u8])
    ensures { Drew desk.old out.old (key_stroke (b "sid") ∷ piece_stroke false (verse_id_of code.now number label.now) ∷ end_value_of ∷ []) desk.new out.new }
{
    desk.open_sid(out);
    verse_id(desk, out, code, number, label, false);
    desk.end_value(out)
}

// A verse's identifier and published number, and the tag's end.
#[tactic(auto, using(crate::proofs::Marked::sid_rest))]
fn put_verse_tail(
    desk: &mut Desk,
    out: &mut [u8],
    tape: &TapeFile<'_>,
    code: &[u8],
    number: u32,
    label: &[u8],
    published: Option<Cursor>,
)
    ensures { Drew desk.old out.old (key_stroke (b "sid") ∷ piece_stroke false (verse_id_of code.now number label.now) ∷ end_value_of ∷ (strokes_of_attrs (perhaps (b "pubnumber") (folded_number (contents tape.now) published)) ++ (shuts ∷ []))) desk.new out.new }
{
    put_verse_sid(desk, out, code, number, label);
    put_numbered(desk, out, tape, b"pubnumber", published);
    desk.shut_tag(out)
}

// The tag of a verse: number, style, altnumber, sid, pubnumber.
#[tactic(auto, using(crate::proofs::Marked::verse_tag))]
fn put_verse(
    desk: &mut Desk,
    out: &mut [u8],
    tape: &TapeFile<'_>,
    code: Part,
    number: u32,
    label: Part,
    alt: Option<Cursor>,
    published: Option<Cursor>,
)
    ensures { Drew desk.old out.old (strokes_of (empty 4 (verse_attrs_of (bytes_of (contents tape.now).source code) number (bytes_of (contents tape.now).source label) (folded_number (contents tape.now) alt) (folded_number (contents tape.now) published)))) desk.new out.new }
{
    let source = tape.source();
    let name = parts::part(source, label.start, label.len);
    let book = parts::part(source, code.start, code.len);
    desk.open_verse(out, name);
    put_numbered(desk, out, tape, b"altnumber", alt);
    put_verse_tail(desk, out, tape, book, number, name, published)
}

// The ends of what is open, the verse's first.
#[tactic(auto, using(crate::proofs::Marked::ends_put))]
fn put_ends(desk: &mut Desk, out: &mut [u8], source: &[u8], m: Marks)
    ensures { Drew desk.old out.old (strokes_of_all (last_ends (state_in source.now m))) desk.new out.new }
{
    end_verse(desk, out, source, m.verse);
    end_chapter(desk, out, source, m.chapter)
}

// A chapter ends what is open and opens itself.
pub fn chapter(
    tape: &TapeFile<'_>,
    number: u32,
    alt: Option<Cursor>,
    published: Option<Cursor>,
    desk: &mut Desk,
    out: &mut [u8],
)
    ensures { desk_of (contents tape.now).source desk.new out.new ≡ emit (desk_of (contents tape.now).source desk.old out.old) (chapter_event number (folded_number (contents tape.now) alt) (folded_number (contents tape.now) published)) }
{
    let m = desk.marks;
    put_ends(desk, out, tape.source(), m);
    put_chapter(desk, out, tape, m.book, number, alt, published);
    desk.marks.next_chapter(number);
}

// A verse ends the one that is open and opens itself.
pub fn verse(
    tape: &TapeFile<'_>,
    c: Cursor,
    alt: Option<Cursor>,
    published: Option<Cursor>,
    desk: &mut Desk,
    out: &mut [u8],
)
    ensures { desk_of (contents tape.now).source desk.new out.new ≡ emit (desk_of (contents tape.now).source desk.old out.old) (verse_event (label_of (contents tape.now) c.at) (folded_number (contents tape.now) alt) (folded_number (contents tape.now) published)) }
{
    let m = desk.marks;
    let label = render::verse_label(tape, c);
    let held = m.verse;
    end_verse(desk, out, tape.source(), held);
    put_verse(desk, out, tape, m.book, m.number, label, alt, published);
    desk.marks.next_verse(label);
}

// The front of a book's tag: its code, which is raw, and its style.
#[tactic(auto, using(crate::proofs::Marked::tag_head))]
fn put_book_head(desk: &mut Desk, out: &mut [u8], code: &[u8])
    ensures { Drew desk.old out.old (opens 2 ∷ key_stroke (b "code") ∷ piece_stroke true code.now ∷ end_value_of ∷ key_stroke (b "style") ∷ piece_stroke true (b "id") ∷ end_value_of ∷ []) desk.new out.new }
{
    desk.open_tag(out, Element::Book);
    desk.attr(out, b"code", code, true);
    desk.attr(out, b"style", b"id", true)
}

// What a book holds and its end.
#[tactic(auto, using(crate::proofs::Marked::book_held))]
fn put_book_rest(desk: &mut Desk, out: &mut [u8], rest: &[u8])
    ensures { Drew desk.old out.old (ends ∷ words_stroke (joined (words Unicode rest.now)) ∷ closes 2 ∷ []) desk.new out.new }
{
    desk.end_tag(out);
    desk.text_joined(out, rest);
    desk.close_tag(out, Element::Book)
}

// The tag of a book, and the text behind its code where there is one.
fn put_book(desk: &mut Desk, out: &mut [u8], code: &[u8], rest: &[u8])
    ensures { Drew desk.old out.old (strokes_of_all (book_items code.now (joined (words Unicode rest.now)))) desk.new out.new }
{
    put_book_head(desk, out, code);
    if words::is_blank(rest, Set::Unicode) {
        desk.shut_tag(out)
    } else {
        put_book_rest(desk, out, rest)
    }
}

// A book names what opens from here on.
pub fn book(tape: &TapeFile<'_>, c: Cursor, desk: &mut Desk, out: &mut [u8])
    ensures { desk_of (contents tape.now).source desk.new out.new ≡ emit (desk_of (contents tape.now).source desk.old out.old) (book_event (book_code_of (contents tape.now) c.at) (book_rest_of (contents tape.now) c.at)) }
{
    let p = render::book_code(tape, c);
    let code = parts::part(tape.source(), p.start, p.len);
    put_book(desk, out, code, render::book_rest(tape, c));
    desk.marks.name_book(p);
}

// The ends of what is still open, before the last new line.
pub fn last_ends(tape: &TapeFile<'_>, desk: &mut Desk, out: &mut [u8])
    ensures { desk_of (contents tape.now).source desk.new out.new ≡ ended (desk_of (contents tape.now).source desk.old out.old) }
{
    let m = desk.marks;
    put_ends(desk, out, tape.source(), m);
    desk.marks.close_all();
}
