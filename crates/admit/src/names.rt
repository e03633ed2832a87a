// Refusal 4: the names and the entries.
ghost use Rattle.std.specs.Prelude.{◌≡◌, true, ◌↔◌};
ghost use Rattle.tape.specs.File.{contents, entry_at};
ghost use Rattle.admit.specs.Rules.{GoodEntry, GoodNames};
ghost use Rattle.admit.specs.Pieces.{GoodBytes, GoodEntries};

use tape::{Category, Element, TapeFile, long, short};

// Whether an entry's name lies in the names, its category is at most 7, its element at most 3.
fn good_entry(t: &TapeFile<'_>, i: u32) -> bool
    ensures { (result ≡ true) ↔ GoodEntry (contents t.now) (entry_at (contents t.now) i) }
{
    let e = t.entry_at(i);
    let names = t.names();
    long(e.start) + short(e.len) <= names.len()
        && e.category.code <= Category::OTHER
        && e.element.code <= Element::ROW
}

fn good_bytes(s: &[u8]) -> bool
    ensures { (result ≡ true) ↔ GoodBytes s.now }
{
    s.iter().all(u8::is_ascii_graphic)
}

fn good_entries(t: &TapeFile<'_>) -> bool
    ensures { (result ≡ true) ↔ GoodEntries (contents t.now) }
{
    (0..t.sections.entries).all(|i| good_entry(t, i))
}

// 4: every name byte lies in 21..7E, and every entry is good.
pub fn good_names(t: &TapeFile<'_>) -> bool
    ensures { (result ≡ true) ↔ GoodNames (contents t.now) }
{
    good_bytes(t.names()) && good_entries(t)
}
