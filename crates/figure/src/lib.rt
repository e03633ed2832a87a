#![tactic(auto)]
// Figures of old, whose attributes stand in a row of fields.
ghost use Rattle.std.specs.Prelude.{◌≡◌, [], get_or};
ghost use Rattle.tape.specs.File.{contents};
ghost use Rattle.tape.specs.Name.{strip};
ghost use Rattle.figure.specs.Figure.{legacy_at, split, field_at, described_by};

use tape::{Cursor, Kind, TapeFile};
use words::Set;

// A text without one `|` in front.
fn without_bar(s: &[u8]) -> &[u8]
    ensures { result.now ≡ strip 124 s.now }
{
    if parts::begins_with(s, b"|") {
        parts::from(s, 1)
    } else {
        s
    }
}

// The Attribute that holds the fields of a figure of old; none where the figure is of today.
pub fn legacy(tape: &TapeFile<'_>, c: Cursor) -> Option<Cursor>
    ensures { result ≡ legacy_at (contents tape.now) c.at }
{
    let a = render::find(
        tape,
        c.first_child(tape),
        |d| d.kind(tape).code == Kind::ATTRIBUTE,
    )?;
    let body = without_bar(a.text(tape));
    if parts::find_byte(body, b'=') < body.len() {
        None
    } else {
        Some(a)
    }
}

// The field that n others precede, between bars; empty where there are fewer.
fn field_in(s: &[u8], n: usize) -> &[u8]
    ensures { result.now ≡ get_or (split 124 s.now) n [] }
{
    let mut rest = s;
    for _ in 0..n {
        let bar = parts::find_byte(rest, b'|');
        if rest.len() <= bar {
            return parts::part(rest, 0, 0);
        }
        rest = parts::from(rest, bar + 1);
    }
    parts::part(rest, 0, parts::find_byte(rest, b'|'))
}

// A field of an Attribute, trimmed.
pub fn field<'a>(tape: &TapeFile<'a>, a: Cursor, n: usize) -> &'a [u8]
    ensures { result.now ≡ field_at (contents tape.now) a.at n }
{
    words::trim(field_in(without_bar(a.text(tape)), n), Set::Unicode)
}

// The first Text child, trimmed.
pub fn description<'a>(tape: &TapeFile<'a>, c: Cursor) -> &'a [u8]
    ensures { result.now ≡ described_by (contents tape.now) c.at }
{
    match render::first_text(tape, c) {
        Some(child) => words::trim(child.text(tape), Set::Unicode),
        None => parts::part(tape.file, 0, 0),
    }
}
