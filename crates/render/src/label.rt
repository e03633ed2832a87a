// The label of a verse.
ghost use Rattle.std.specs.Prelude.{◌≡◌, ◌-◌, ◌≤◌, length};
ghost use Rattle.tape.specs.File.{contents};
ghost use Rattle.tape.specs.Name.{strip, name_start};
ghost use Rattle.render.specs.Label.{word_part_of, name_rest, IsLabel};

use tape::{Cursor, TapeFile, long};
use words::{Part, Set};

// How many bytes are stripped of a text that may begin with one.
fn stripped(s: &[u8], x: u8) -> usize
    ensures value { result ≡ length s.now - length (strip x s.now) }
    ensures upper_bound { result ≤ 1 }
{
    if parts::begins_with(s, &[x]) { 1 } else { 0 }
}

// Where the marker name starts in a text.
fn name_start(s: &[u8]) -> usize
    ensures value { result ≡ name_start s.now }
    ensures upper_bound { result ≤ 2 }
{
    let slash = stripped(s, b'\\');
    slash + stripped(parts::from(s, slash), b'+')
}

// The word of a node's text that n others precede, as a part of the source.
pub fn word_part(tape: &TapeFile<'_>, c: Cursor, n: usize) -> Part
    ensures { result ≡ word_part_of (contents tape.now) c.at n }
{
    let node = c.node(tape);
    let start = long(node.start);
    let text = parts::part(tape.source(), start, long(node.len));
    let word = words::nth_word(text, Set::Unicode, n);
    Part {
        start: start + word.start,
        len: word.len,
    }
}

// The marker name past the entry's name length, as a part of the source.
fn name_rest(tape: &TapeFile<'_>, c: Cursor) -> Part
    ensures { result ≡ name_rest (contents tape.now) c.at }
{
    let base = c.base_len(tape);
    let place = name_start(c.text(tape)) + base;
    let start = long(c.node(tape).start) + place;
    let name = c.marker_name(tape);
    Part {
        start,
        len: name.len().saturating_sub(base),
    }
}

// The label: the second word, or the rest of the marker name.
pub fn verse_label(tape: &TapeFile<'_>, c: Cursor) -> Part
    ensures { IsLabel (contents tape.now) c.at result }
{
    let word = word_part(tape, c, 1);
    if word.len == 0 {
        return name_rest(tape, c);
    }
    word
}
