// New lines.
ghost use Rattle.std.specs.Prelude.{◌≡◌};
ghost use Rattle.parts.specs.Bytes.{Bytes};
ghost use Rattle.tags.specs.Items.{line as line_item};
ghost use Rattle.window.specs.Page.{page_of, paint};
ghost use Rattle.events.specs.Event.{item};
ghost use Rattle.events.specs.Emit.{emit};
ghost use Rattle.desk.specs.Desk.{desk_of, indent};

use crate::Desk;
use window::Window;

// Two spaces a level.
fn put_indent(w: &mut Window, out: &mut [u8], level: usize)
    ensures { page_of w.new out.new ≡ paint (page_of w.old out.old) (indent level) }
{
    for _ in 0..level {
        w.put_run(out, b"  ");
    }
}

impl Desk {
    // A new line and its indent.
    pub fn line(&mut self, out: &mut [u8], level: usize)
        ensures { (source : Bytes) → desk_of source self.new out.new ≡ emit (desk_of source self.old out.old) (item (line_item level)) }
    {
        self.window.put_run(out, b"\n");
        put_indent(&mut self.window, out, level);
    }
}
