#![tactic(auto)]
// The roles of MarkerOpens, and what is linked.
ghost use Rattle.std.specs.Prelude.{◌≡◌, true, Some};
ghost use Rattle.parts.specs.Bytes.{b, same};
ghost use Rattle.tape.specs.File.{contents, entry_name};
ghost use Rattle.tape.specs.Name.{marker_name};
ghost use Rattle.tape.specs.Tree.{children};
ghost use Rattle.render.specs.First.{any};
ghost use Rattle.render.specs.Shape.{is_open, is_inline_of};
ghost use Rattle.attrs.specs.Walk.{sought_of};
ghost use Rattle.events.specs.Walk.{char, role_of, role_by, role_of_shape, role_of_category, is_ref, can_link, link_of};
ghost use Rattle.roles.specs.Roles.{role_in, role_of_entry, is_whole, manner_of, manner_by};

use attrs::Value;
use leading_white::Book;
use render::Shape;
use tape::{Category, Cursor, Entry, Kind, TapeFile, short};

// What a MarkerOpen is written as.
#[derive(Clone, Copy, PartialEq, Eq)]
pub enum Role {
    UnknownBlock,
    UnknownInline,
    Unwritten,
    Figure,
    Ref,
    Id,
    Note,
    Ms,
    Char,
    Para,
}

// A marker without an entry.
#[tactic(auto, unfolding(crate::specs::Roles::role_in, events::specs::Walk::role_of_shape))]
fn role_of_shape(shape: Shape) -> Role
    ensures { role_in result ≡ role_of_shape shape }
{
    match shape {
        Shape::Block => Role::UnknownBlock,
        Shape::Inline => Role::UnknownInline,
        Shape::Leaf | Shape::Other => Role::Unwritten,
    }
}

// What is left to the category.
#[tactic(auto, unfolding(crate::specs::Roles::role_in, events::specs::Walk::role_of_category))]
fn role_of_category(category: Category) -> Role
    ensures { role_in result ≡ role_of_category category.code }
{
    match category.code {
        Category::NOTE => Role::Note,
        Category::MILESTONE => Role::Ms,
        Category::CHARACTER => Role::Char,
        _ => Role::Para,
    }
}

// `id` by its entry's name and category, others by category.
fn role_past_ref(category: Category, name: &[u8]) -> Role
    ensures { role_in result ≡ role_of_entry category.code name.now }
{
    if category.code != Category::IDENTIFICATION {
        role_of_category(category)
    } else if parts::same(name, b"id") {
        Role::Id
    } else {
        Role::Para
    }
}

// Whether an entry has this name; one that is shorter has another.
fn is_entry(tape: &TapeFile<'_>, e: Entry, name: &[u8]) -> bool
    ensures { result ≡ same (entry_name (contents tape.now) e) name.now }
{
    name.len() <= short(e.len) && parts::same(tape.entry_name(e), name)
}

// Whether the marker name is `ref`; in a shorter text it is another.
fn is_ref_name(tape: &TapeFile<'_>, c: Cursor) -> bool
    ensures { result ≡ same (marker_name (contents tape.now) c.at) (b "ref") }
{
    let text = c.text(tape);
    3 <= text.len() && parts::same(tape::name_in(text), b"ref")
}

// A marker with an entry: by the entry's name, by its own, by category.
fn role_known(tape: &TapeFile<'_>, c: Cursor, e: Entry) -> Role
    ensures { role_in result ≡ role_by (contents tape.now) c.at (Some e) }
{
    if is_entry(tape, e, b"usfm") {
        Role::Unwritten
    } else if is_entry(tape, e, b"fig") {
        Role::Figure
    } else if is_ref_name(tape, c) {
        Role::Ref
    } else if e.category.code == Category::CHARACTER {
        // Most markers are of characters.
        Role::Char
    } else {
        role_past_ref(e.category, tape.entry_name(e))
    }
}

// By entry, name and category, or by shape.
pub fn role_of(tape: &TapeFile<'_>, c: Cursor) -> Role
    ensures { role_in result ≡ role_of (contents tape.now) c.at }
{
    match c.marker_info(tape) {
        Some(e) => role_known(tape, c, e),
        None => role_of_shape(render::unknown_shape(tape, c)),
    }
}

// Whether a look tells that a marker of this name is a char: its entry is of characters, and no name decides otherwise.
pub fn is_char(tape: &TapeFile<'_>, c: Cursor, name: &[u8]) -> bool
    ensures at_value { result ≡ true → name.now ≡ marker_name (contents tape.now) c.at → role_of (contents tape.now) c.at ≡ char }
    ensures at_value_2 { result ≡ true → is_open (contents tape.now) c.at ≡ true → is_inline_of (contents tape.now) c.at ≡ true }
{
    match c.marker_info(tape) {
        Some(e) => {
            e.category.code == Category::CHARACTER
                && !is_entry(tape, e, b"usfm")
                && !is_entry(tape, e, b"fig")
                && !parts::same(name, b"ref")
        }
        None => false,
    }
}

// Whether the events inside a marker are written.
#[tactic(auto, unfolding(crate::specs::Roles::role_in, crate::specs::Roles::is_whole))]
pub fn is_whole(tape: &TapeFile<'_>, c: Cursor, role: Role) -> bool
    ensures { result ≡ is_whole (contents tape.now) c.at (role_in role) }
{
    match role {
        Role::UnknownBlock | Role::UnknownInline | Role::Ref | Role::Note | Role::Char => true,
        Role::Unwritten | Role::Id | Role::Ms => false,
        Role::Figure => figure::legacy(tape, c).is_none(),
        Role::Para => c.first_child(tape).is_some(),
    }
}

// Whether what stands inside is written as in a note.
pub fn is_note(role: Role) -> bool
    ensures { manner_of (role_in role) ≡ manner_by result }
{
    role == Role::Note
}

// Whether a child is a marker that the source names `ref`.
#[tactic(auto, unfolding(events::specs::Walk::is_ref))]
fn is_ref(tape: &TapeFile<'_>, c: Cursor) -> bool
    ensures { result ≡ is_ref (contents tape.now) c.at }
{
    c.kind(tape).code == Kind::MARKER_OPEN && c.is_named(tape, b"ref")
}

// Whether a child is a `ref`.
fn has_ref(tape: &TapeFile<'_>, c: Cursor) -> bool
    ensures { result ≡ any (is_ref (contents tape.now)) (children (contents tape.now) c.at) }
{
    render::find(tape, c.first_child(tape), |d| is_ref(tape, d)).is_some()
}

// Whether what stands in a marker could be linked: `xt`, nested, with content and no `ref` inside; what is soonest told comes first.
#[tactic(auto, unfolding(events::specs::Walk::can_link))]
fn can_link(book: &Book<'_, '_>, c: Cursor) -> bool
    ensures { result ≡ can_link (contents book.now.tape) c.at }
{
    c.is_nested(&book.tape)
        && c.is_named(&book.tape, b"xt")
        && render::has_content(book, c)
        && !has_ref(&book.tape, c)
}

// The first `href` of what is linked.
fn link_nested(book: &Book<'_, '_>, c: Cursor) -> Option<Value>
    ensures { sought_of (contents book.now.tape).source result ≡ link_of (contents book.now.tape) c.at }
{
    if can_link(book, c) {
        attrs::first_with(&book.tape, c, c.marker_name(&book.tape), b"href")
    } else {
        None
    }
}

// The same; most markers are not nested, and are told at once.
pub fn link_of(book: &Book<'_, '_>, c: Cursor) -> Option<Value>
    ensures { sought_of (contents book.now.tape).source result ≡ link_of (contents book.now.tape) c.at }
{
    if !c.is_nested(&book.tape) {
        return None;
    }
    link_nested(book, c)
}
