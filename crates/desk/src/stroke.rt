// Strokes: what tags are made of. These functions and those of group.rt alone know how a tag looks.
ghost use Rattle.std.specs.Prelude.{Bool, true, false, [], ◌∷◌, ◌≡◌};
ghost use Rattle.parts.specs.Bytes.{b};
ghost use Rattle.chars.specs.Decimal.{decimal};
ghost use Rattle.chars.specs.Escape.{escape};
ghost use Rattle.window.specs.Page.{page_of, paint};
ghost use Rattle.tags.specs.Names.{name_of};
ghost use Rattle.events.specs.Profile.{rust};
ghost use Rattle.desk.specs.Named.{number_of};
ghost use Rattle.desk.specs.Stroke.{opens, key as key_stroke, piece as piece_stroke, end_value_of, ends, shuts, closes, ink, Drew};

use crate::Desk;
use window::Window;

// The sixteen elements.
#[derive(Clone, Copy, PartialEq, Eq)]
pub enum Element {
    Usx,
    Book,
    Chapter,
    Verse,
    Para,
    Char,
    Note,
    Ms,
    Figure,
    Table,
    Row,
    Cell,
    Sidebar,
    Periph,
    Optbreak,
    Ref,
}

impl Element {
    #[tactic(auto, unfolding(tags::specs::Names::name_of))]
    fn name(self) -> &'static [u8]
        ensures { result.now ≡ name_of (number_of self) }
    {
        match self {
            Element::Usx => b"usx",
            Element::Book => b"book",
            Element::Chapter => b"chapter",
            Element::Verse => b"verse",
            Element::Para => b"para",
            Element::Char => b"char",
            Element::Note => b"note",
            Element::Ms => b"ms",
            Element::Figure => b"figure",
            Element::Table => b"table",
            Element::Row => b"row",
            Element::Cell => b"cell",
            Element::Sidebar => b"sidebar",
            Element::Periph => b"periph",
            Element::Optbreak => b"optbreak",
            Element::Ref => b"ref",
        }
    }
}

// `<` and the name of an element.
fn put_open(w: &mut Window, out: &mut [u8], e: Element)
    ensures { page_of w.new out.new ≡ paint (page_of w.old out.old) (ink rust (opens (number_of e))) }
{
    w.put_run(out, b"<");
    w.put_run(out, e.name());
}

impl Desk {
    // ---- tags

    // The front of a tag.
    pub fn open_tag(&mut self, out: &mut [u8], e: Element)
        ensures { Drew self.old out.old (opens (number_of e) ∷ []) self.new out.new }
    {
        put_open(&mut self.window, out, e);
    }

    // The end of a tag that holds something.
    pub fn end_tag(&mut self, out: &mut [u8])
        ensures { Drew self.old out.old (ends ∷ []) self.new out.new }
    {
        self.window.put_run(out, b">");
    }

    // The end of a tag that holds nothing.
    pub fn shut_tag(&mut self, out: &mut [u8])
        ensures { Drew self.old out.old (shuts ∷ []) self.new out.new }
    {
        self.window.put_run(out, b" />");
    }

    // A closing tag.
    pub fn close_tag(&mut self, out: &mut [u8], e: Element)
        ensures { Drew self.old out.old (closes (number_of e) ∷ []) self.new out.new }
    {
        self.window.put_run(out, b"</");
        self.window.put_run(out, e.name());
        self.window.put_run(out, b">");
    }

    // ---- attributes

    // A key, and the front of its value.
    pub fn key(&mut self, out: &mut [u8], name: &[u8])
        ensures { Drew self.old out.old (key_stroke name.now ∷ []) self.new out.new }
    {
        self.window.put_run(out, b" ");
        self.window.put_run(out, name);
        self.window.put_run(out, b"=\"");
    }

    // A piece of a value: a name as it is, or with its escapes.
    pub fn piece(&mut self, out: &mut [u8], s: &[u8], raw: bool)
        ensures { Drew self.old out.old (piece_stroke raw s.now ∷ []) self.new out.new }
    {
        if raw {
            self.window.put_run(out, s);
        } else {
            self.window.escape_xml_attr(out, s);
        }
    }

    // A piece of a value that has nothing to escape, raw or not.
    pub fn plain_piece(&mut self, out: &mut [u8], s: &[u8])
        ensures { escape true s.now ≡ s.now → (raw : Bool) → Drew self.old out.old (piece_stroke raw s.now ∷ []) self.new out.new }
    {
        self.window.put_run(out, s);
    }

    // A number as a piece of a value.
    pub fn digits(&mut self, out: &mut [u8], n: u32)
        ensures drew { Drew self.old out.old (piece_stroke true (decimal n) ∷ []) self.new out.new }
        ensures drew_2 { Drew self.old out.old (piece_stroke false (decimal n) ∷ []) self.new out.new }
    {
        self.window.put_number(out, n);
    }

    // The end of a value.
    pub fn end_value(&mut self, out: &mut [u8])
        ensures { Drew self.old out.old (end_value_of ∷ []) self.new out.new }
    {
        self.window.put_run(out, b"\"");
    }

    // An attribute whose value is one piece.
    pub fn attr(&mut self, out: &mut [u8], name: &[u8], value: &[u8], raw: bool)
        ensures { Drew self.old out.old (key_stroke name.now ∷ piece_stroke raw value.now ∷ end_value_of ∷ []) self.new out.new }
    {
        self.key(out, name);
        self.piece(out, value, raw);
        self.end_value(out);
    }

    // The front of a tag with its style, which is a name.
    pub fn open_styled(&mut self, out: &mut [u8], e: Element, style: &[u8])
        ensures { Drew self.old out.old (opens (number_of e) ∷ key_stroke (b "style") ∷ piece_stroke true style.now ∷ end_value_of ∷ []) self.new out.new }
    {
        put_open(&mut self.window, out, e);
        self.window.put_run(out, b" style=\"");
        self.window.put_run(out, style);
        self.window.put_run(out, b"\"");
    }
}
