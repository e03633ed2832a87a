// The tags that close a marker.
ghost use Rattle.std.specs.Prelude.{◌≡◌};
ghost use Rattle.tape.specs.File.{contents};
ghost use Rattle.events.specs.Walk.{char};
ghost use Rattle.events.specs.Emit.{emit_all};
ghost use Rattle.desk.specs.Desk.{desk_of};
ghost use Rattle.roles.specs.Roles.{role_in};
ghost use Rattle.put_markers.specs.Marker.{marker_closes};

use desk::{Desk, Element};
use leading_white::Book;
use roles::{Role, link_of};
use tape::Cursor;

// The end of a char, and of the `ref` around what it links.
#[tactic(auto, using(crate::proofs::Closes::flat_closed, crate::proofs::Closes::char_closed, crate::proofs::Closes::link_closed))]
pub fn close_char(book: &Book<'_, '_>, c: Cursor, desk: &mut Desk, out: &mut [u8])
    ensures { desk_of (contents book.now.tape).source desk.new out.new ≡ emit_all (desk_of (contents book.now.tape).source desk.old out.old) (marker_closes (contents book.now.tape) c.at char) }
{
    if c.is_nested(&book.tape) && link_of(book, c).is_some() {
        desk.close_tag(out, Element::Ref);
    }
    desk.close_char(out)
}

// What closes a marker.
pub fn close_marker(book: &Book<'_, '_>, c: Cursor, role: Role, desk: &mut Desk, out: &mut [u8])
    ensures { desk_of (contents book.now.tape).source desk.new out.new ≡ emit_all (desk_of (contents book.now.tape).source desk.old out.old) (marker_closes (contents book.now.tape) c.at (role_in role)) }
{
    // A match on the roles: each writes its own strokes, and the compiler asks for a role left out.
    match role {
        Role::UnknownBlock => desk.close_para(out),
        Role::UnknownInline => desk.close_char(out),
        Role::Unwritten => {}
        Role::Figure => desk.close_tag(out, Element::Figure),
        Role::Ref => desk.close_tag(out, Element::Ref),
        Role::Id => {}
        Role::Note => desk.close_tag(out, Element::Note),
        Role::Ms => {}
        Role::Char => close_char(book, c, desk, out),
        Role::Para => desk.close_para(out),
    }
}
