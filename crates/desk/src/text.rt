// Text strokes: normalized text, written without a copy of it.
ghost use Rattle.std.specs.Prelude.{◌≡◌, false, [], ◌∷◌, take};
ghost use Rattle.parts.specs.Bytes.{Bytes};
ghost use Rattle.chars.specs.Escape.{escape};
ghost use Rattle.words.specs.Words.{words as words_of, joined, trim};
ghost use Rattle.texts.specs.Text.{body_of, written};
ghost use Rattle.put_body.specs.Easy.{edged};
ghost use Rattle.desk.specs.Stroke.{piece, words, Drew};

use crate::Desk;
use texts::Normalized;
use words::Set;

impl Desk {
    // The first bytes of a text, a body that is written as it stands, with its lead and trail.
    pub fn text_body(&mut self, out: &mut [u8], s: &[u8], len: usize, n: Normalized)
        ensures { (t : Bytes) → escape false t ≡ edged (take len s.now) n → Drew self.old out.old (words t ∷ []) self.new out.new }
    {
        put_body::put_framed(&mut self.window, out, s, len, n);
    }

    // A normalized text, word by word.
    pub fn text_words(&mut self, out: &mut [u8], s: &[u8], n: Normalized)
        ensures { Drew self.old out.old (words (written s.now n) ∷ []) self.new out.new }
    {
        put_body::put_written(&mut self.window, out, s, n);
    }

    // A piece of a text between two `//`: its body, trimmed.
    pub fn text_segment(&mut self, out: &mut [u8], s: &[u8])
        ensures { Drew self.old out.old (words (trim Set.Unicode (body_of s.now)) ∷ []) self.new out.new }
    {
        put_body::put_segment(&mut self.window, out, s);
    }

    // A text with its escapes.
    pub fn text_escaped(&mut self, out: &mut [u8], s: &[u8])
        ensures { Drew self.old out.old (words s.now ∷ []) self.new out.new }
    {
        self.window.escape_xml(out, s);
    }

    // The words of a text, a space between two.
    pub fn text_joined(&mut self, out: &mut [u8], s: &[u8])
        ensures { Drew self.old out.old (words (joined (words_of Set.Unicode s.now)) ∷ []) self.new out.new }
    {
        put_body::put_words(&mut self.window, out, s, false);
    }

    // The same as a piece of a value.
    pub fn piece_joined(&mut self, out: &mut [u8], s: &[u8])
        ensures { Drew self.old out.old (piece false (joined (words_of Set.Unicode s.now)) ∷ []) self.new out.new }
    {
        put_body::put_words(&mut self.window, out, s, true);
    }
}
