// The tag around the whole text.
ghost use Rattle.std.specs.Prelude.{◌≡◌, [], ◌∷◌};
ghost use Rattle.parts.specs.Bytes.{Bytes, b};
ghost use Rattle.tags.specs.Element.{usx};
ghost use Rattle.tags.specs.Items.{start, close, line as line_item};
ghost use Rattle.events.specs.Event.{escaped};
ghost use Rattle.events.specs.Emit.{lay};
ghost use Rattle.desk.specs.Desk.{desk_of};
ghost use Rattle.desk.specs.Stroke.{strokes_of, Drew};

use desk::{Desk, Element};

// Its start.
#[tactic(auto, using(crate::proofs::Frame::usx_opened))]
pub fn open_usx(desk: &mut Desk, out: &mut [u8])
    ensures { Drew desk.old out.old (strokes_of (start usx (escaped (b "version") (b "3.0") ∷ []))) desk.new out.new }
{
    desk.open_tag(out, Element::Usx);
    desk.attr(out, b"version", b"3.0", false);
    desk.end_tag(out)
}

// The last new line, and the end of the whole text.
pub fn close_usx(desk: &mut Desk, out: &mut [u8])
    ensures { (source : Bytes) → desk_of source desk.new out.new ≡ lay (desk_of source desk.old out.old) (line_item 0 ∷ close usx ∷ []) }
{
    desk.line(out, 0);
    desk.close_tag(out, Element::Usx)
}
