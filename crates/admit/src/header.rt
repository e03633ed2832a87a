// Refusals 1 and 2: the header.
ghost use Rattle.std.specs.Prelude.{◌≡◌, true, ◌↔◌, ◌<◌, drop};
ghost use Rattle.tape.specs.File.{le32};
ghost use Rattle.admit.specs.Rules.{LaidOut, Small};
ghost use Rattle.admit.specs.Pieces.{Offsets};

use tape::{Sections, TapeFile, long};

// The most that a tape holds: nodes, entries, name bytes, source bytes.
const MOST_NODES: u32 = 262144;

const MOST_ENTRIES: u32 = 1024;

const MOST_NAMES: u32 = 16384;

const MOST_SOURCE: u32 = 4194304;

// The number that stands at a place of the header.
fn word_at(file: &[u8], at: usize) -> usize
    ensures { result ≡ le32 (drop at file.now) }
{
    tape::length_of(parts::from(file, at))
}

// Whether the offsets that a header gives are those of its counts.
fn offsets(t: &TapeFile<'_>) -> bool
    ensures { (result ≡ true) ↔ Offsets t.now.file.now t.now.sections }
{
    word_at(t.file, 8) == long(t.sections.head)
        && word_at(t.file, 16) == t.sections.entries_at()
        && word_at(t.file, 24) == t.sections.names_at()
        && word_at(t.file, 32) == t.sections.source_at()
}

// 1: at least 36 bytes, format 1, offsets and the file's length as laid out.
pub fn laid_out(file: &[u8]) -> bool
    ensures { (result ≡ true) ↔ LaidOut file.now }
{
    let sections = Sections::of(file);
    file.len() >= Sections::HEADER as usize
        && tape::length_of(file) == Sections::FORMAT
        && offsets(&TapeFile { file, sections })
        && file.len() == sections.source_at() + long(sections.source)
}

// 2: nodes 1 to 262,144; entries at most 1,024; names at most 16,384 bytes; source at most 4,194,304 bytes.
pub fn small(file: &[u8]) -> bool
    ensures { (result ≡ true) ↔ Small file.now }
{
    let t = Sections::of(file);
    0 < t.nodes
        && t.nodes <= MOST_NODES
        && t.entries <= MOST_ENTRIES
        && t.names <= MOST_NAMES
        && t.source <= MOST_SOURCE
}
