// Refusal 5: the labels of Verses.
ghost use Rattle.std.specs.Prelude.{◌≡◌, true, ◌↔◌, ◌≤◌};
ghost use Rattle.tape.specs.File.{contents};
ghost use Rattle.admit.specs.Pieces.{SoundNode, SoundNodes, GoodLabel, GoodVerse, GoodVerses, Tables};

use source_index::Test;
use tape::{Cursor, Kind, TapeFile, long};

// Whether the cut falls between characters, or the node is no Verse.
fn is_clear(t: &TapeFile<'_>, k: u32) -> bool
    ensures { result ≡ true → GoodVerse (contents t.now) k }
{
    let c = Cursor::new(k);
    c.kind(t).code != Kind::VERSE || chars::is_boundary(tape::bare(c.text(t)), c.base_len(t))
}

fn all_clear(t: &TapeFile<'_>) -> bool
    ensures { result ≡ true → GoodVerses (contents t.now) }
{
    // A loop: `all` took three in a hundred longer here.
    for k in 0..t.sections.nodes {
        if !is_clear(t, k) {
            return false;
        }
    }
    true
}

// Whether a label that is cut out of the marker name is cut between characters.
fn good_label(t: &TapeFile<'_>, k: u32, enders: &[u32], gaps: &[u32]) -> bool
    ensures { Tables (contents t.now).source enders.now gaps.now → SoundNode (contents t.now) k → (result ≡ true) ↔ GoodLabel (contents t.now) k }
{
    let c = Cursor::new(k);
    let base = c.base_len(t);
    let text = c.text(t);
    let name = tape::bare(text);
    if chars::is_boundary(name, base) || name.len() <= base {
        return true;
    }
    let source = t.source();
    let n = t.node_at(k);
    let start = long(n.start);
    !source_index::name_passes(enders, source, start + (text.len() - name.len()), base)
        || source_index::word_follows(gaps, source, start, start + long(n.len))
}

fn good_verse(t: &TapeFile<'_>, k: u32, enders: &[u32], gaps: &[u32]) -> bool
    ensures { Tables (contents t.now).source enders.now gaps.now → SoundNode (contents t.now) k → (result ≡ true) ↔ GoodVerse (contents t.now) k }
{
    t.node_at(k).kind.code != Kind::VERSE || good_label(t, k, enders, gaps)
}

fn good_verses(t: &TapeFile<'_>, enders: &[u32], gaps: &[u32]) -> bool
    ensures { Tables (contents t.now).source enders.now gaps.now → SoundNodes (contents t.now) → (result ≡ true) ↔ GoodVerses (contents t.now) }
{
    (0..t.sections.nodes).all(|k| good_verse(t, k, enders, gaps))
}

// The same once the tables are filled.
fn tabled(t: &TapeFile<'_>, enders: &mut [u32], gaps: &mut [u32]) -> bool
    ensures { SoundNodes (contents t.now) → (result ≡ true) ↔ GoodVerses (contents t.now) }
{
    let source = t.source();
    source_index::fill(enders, source, Test::Ender);
    source_index::fill(gaps, source, Test::Gap);
    good_verses(t, enders, gaps)
}

// The same with tables of so many places. Not inlined: a source that needs shorter ones takes no stack for these.
#[inline(never)]
fn tabled_by<const N: usize>(t: &TapeFile<'_>) -> bool
    requires { N ≤ 65536 }
    ensures { SoundNodes (contents t.now) → (result ≡ true) ↔ GoodVerses (contents t.now) }
{
    tabled(t, &mut [0; N], &mut [0; N])
}

// 5: every label is good. Tables are made only where the byte behind some cut continues a character, with a place for each block of 64 bytes of
// the source, up to the longest.
pub fn good_labels(t: &TapeFile<'_>) -> bool
    ensures { SoundNodes (contents t.now) → (result ≡ true) ↔ GoodVerses (contents t.now) }
{
    if all_clear(t) {
        return true;
    }
    match t.sections.source / 64 {
        0..64 => tabled_by::<64>(t),
        64..1024 => tabled_by::<1024>(t),
        _ => tabled_by::<65536>(t),
    }
}
