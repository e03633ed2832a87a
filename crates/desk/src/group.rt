// Rows of strokes that are frequent, each written by few runs.
ghost use Rattle.std.specs.Prelude.{◌≡◌, true, false, List, [], ◌∷◌, ◌++◌};
ghost use Rattle.parts.specs.Bytes.{b};
ghost use Rattle.desk.specs.Stroke.{opens, key, piece, end_value_of, shuts, closes, strokes_of_attrs, Drew};
ghost use Rattle.tags.specs.Items.{Attr, attrs_bytes};

use crate::Desk;

impl Desk {
    // The front of a char's tag with its style, which is a name.
    pub fn open_char(&mut self, out: &mut [u8], style: &[u8])
        ensures { Drew self.old out.old (opens 6 ∷ key (b "style") ∷ piece true style.now ∷ end_value_of ∷ []) self.new out.new }
    {
        self.window.put_run(out, b"<char style=\"");
        self.window.put_run(out, style);
        self.window.put_run(out, b"\"");
    }

    // The same of a paragraph.
    pub fn open_para(&mut self, out: &mut [u8], style: &[u8])
        ensures { Drew self.old out.old (opens 5 ∷ key (b "style") ∷ piece true style.now ∷ end_value_of ∷ []) self.new out.new }
    {
        self.window.put_run(out, b"<para style=\"");
        self.window.put_run(out, style);
        self.window.put_run(out, b"\"");
    }

    // The closing tag of a char.
    pub fn close_char(&mut self, out: &mut [u8])
        ensures { Drew self.old out.old (closes 6 ∷ []) self.new out.new }
    {
        self.window.put_run(out, b"</char>");
    }

    // The closing tag of a paragraph.
    pub fn close_para(&mut self, out: &mut [u8])
        ensures { Drew self.old out.old (closes 5 ∷ []) self.new out.new }
    {
        self.window.put_run(out, b"</para>");
    }

    // The front of a verse's tag: its number and style.
    pub fn open_verse(&mut self, out: &mut [u8], label: &[u8])
        ensures { Drew self.old out.old (opens 4 ∷ key (b "number") ∷ piece false label.now ∷ end_value_of ∷ key (b "style") ∷ piece true (b "v") ∷ end_value_of ∷ []) self.new out.new }
    {
        self.window.put_run(out, b"<verse number=\"");
        self.window.escape_xml_attr(out, label);
        self.window.put_run(out, b"\" style=\"v\"");
    }

    // The key of an identifier, and the front of its value.
    pub fn open_sid(&mut self, out: &mut [u8])
        ensures { Drew self.old out.old (key (b "sid") ∷ []) self.new out.new }
    {
        self.window.put_run(out, b" sid=\"");
    }

    // The front of a verse's end, up to its `eid`.
    pub fn open_verse_end(&mut self, out: &mut [u8])
        ensures { Drew self.old out.old (opens 4 ∷ key (b "eid") ∷ []) self.new out.new }
    {
        self.window.put_run(out, b"<verse eid=\"");
    }

    // The end of the last value of a tag that holds nothing, and the tag's end.
    pub fn shut_value(&mut self, out: &mut [u8])
        ensures { Drew self.old out.old (end_value_of ∷ shuts ∷ []) self.new out.new }
    {
        self.window.put_run(out, b"\" />");
    }

    // An attribute as it stands: a space and its run, which are the bytes of attributes.
    pub fn attr_as_it_stands(&mut self, out: &mut [u8], run: &[u8])
        ensures { (qs : List Attr) → b " " ++ run.now ≡ attrs_bytes qs → Drew self.old out.old (strokes_of_attrs qs) self.new out.new }
    {
        self.window.put_run(out, b" ");
        self.window.put_run(out, run);
    }
}
