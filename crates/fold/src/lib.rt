#![tactic(auto)]
// Alternate and published numbers behind a chapter or verse.
ghost use Rattle.std.specs.Prelude.{◌≡◌, ◌&&◌, ◌||◌, ◌++◌};
ghost use Rattle.parts.specs.Bytes.{Bytes};
ghost use Rattle.words.specs.Words.{bytes_of};
ghost use Rattle.tape.specs.File.{contents};
ghost use Rattle.fold.specs.Fold.{slot_by, slot_of, free as free_of, claim_of, own_text, number_in};
ghost use Rattle.fold.specs.Number.{collapse, run_list, to_come, number_start, piece_list, word_some, piece_some};

use leading_white::Book;
use tape::{Cursor, Kind, TapeFile, long};
use words::{Part, Set};

// What a node behind an anchor is: nothing, a number that folds, or the end of the fold.
#[derive(Clone, Copy, PartialEq, Eq)]
pub enum Claim {
    Blank,
    Alt,
    Pub,
    Stops,
}

// The number that a name stands for behind an anchor.
fn slot_of(anchor: Kind, name: &[u8]) -> Claim
    ensures { result ≡ slot_of anchor.code name.now }
{
    match anchor.code {
        Kind::CHAPTER => slot_by(name, b"ca", b"cp"),
        Kind::VERSE => slot_by(name, b"va", b"vp"),
        _ => Claim::Stops,
    }
}

fn slot_by(name: &[u8], alt: &[u8], published: &[u8]) -> Claim
    ensures { result ≡ slot_by name.now alt.now published.now }
{
    if parts::same(name, alt) {
        Claim::Alt
    } else if parts::same(name, published) {
        Claim::Pub
    } else {
        Claim::Stops
    }
}

// A number that the anchor does not have yet.
#[tactic(auto, unfolding(crate::specs::Fold::free))]
fn free(claim: Claim, alt: bool, published: bool) -> Claim
    ensures { result ≡ free_of alt published claim }
{
    match claim {
        Claim::Alt if !alt => Claim::Alt,
        Claim::Pub if !published => Claim::Pub,
        _ => Claim::Stops,
    }
}

// What a node behind an anchor is to its fold.
pub fn claims(book: &Book<'_, '_>, c: Cursor, anchor: Kind, alt: bool, published: bool) -> Claim
    ensures { result ≡ claim_of (contents book.now.tape) anchor.code alt published c.at }
{
    if render::is_blank(book, c) {
        return Claim::Blank;
    }
    if c.kind(&book.tape).code != Kind::MARKER_OPEN {
        return Claim::Stops;
    }
    let claim = free(slot_of(anchor, c.marker_name(&book.tape)), alt, published);
    if claim != Claim::Stops && render::is_plain_text(&book.tape, c) {
        claim
    } else {
        Claim::Stops
    }
}

// ---- the number of a marker that folds

// A walk over a number: the rest of a text, the next child to look at, and what stands in front.
#[derive(Clone, Copy)]
pub struct Number {
    pub rest: Part,
    pub next: Option<Cursor>,
    pub begun: bool,
    pub gap: bool,
}

// A piece of a number, whether a space stands in front of it, and what comes behind it.
#[derive(Clone, Copy)]
pub struct Piece {
    pub part: Part,
    pub space: bool,
    pub left: Number,
}

// The first word of a part, or white space alone.
#[derive(Clone, Copy)]
enum Run {
    Word { part: Part, space: bool, rest: Part },
    White(bool),
}

// The first run of a part of the source.
fn run_in(source: &[u8], rest: Part, begun: bool, gap: bool) -> Run
    ensures more_value { (more : Bytes) → collapse begun gap (bytes_of source.now rest ++ more) ≡ run_list source.now begun result more }
    ensures word_some { word_some source.now result }
{
    let s = parts::part(source, rest.start, rest.len);
    let white = words::white_len(s, Set::Ascii);
    let len = words::word_len(parts::from(s, white), Set::Ascii);
    let spaced = gap || 0 < white;
    if len == 0 {
        return Run::White(spaced);
    }
    let start = rest.start + white;
    Run::Word {
        part: Part { start, len },
        space: begun && spaced,
        rest: Part {
            start: start + len,
            len: rest.len - white - len,
        },
    }
}

// The text that a node of a number has, as a part of the source.
fn text_part(tape: &TapeFile<'_>, c: Cursor) -> Part
    ensures { bytes_of (contents tape.now).source result ≡ own_text (contents tape.now) c.at }
{
    let n = c.node(tape);
    if n.kind.code == Kind::TEXT {
        Part {
            start: long(n.start),
            len: long(n.len),
        }
    } else {
        Part { start: 0, len: 0 }
    }
}

impl Number {
    // The number of a marker, from its first byte on.
    pub fn of(tape: &TapeFile<'_>, c: Cursor) -> Self
        ensures result_value { to_come (contents tape.now) result ≡ number_in (contents tape.now) c.at }
        ensures value { result ≡ number_start (contents tape.now) c.at }
    {
        Number {
            rest: Part { start: 0, len: 0 },
            next: c.first_child(tape),
            begun: false,
            gap: false,
        }
    }

    // The next piece, and what comes behind it.
    pub fn next(self, tape: &TapeFile<'_>) -> Option<Piece>
        ensures self_value { to_come (contents tape.now) self ≡ piece_list (contents tape.now) result }
        ensures piece_some { piece_some (contents tape.now) result }
    {
        let begun = self.begun;
        let mut gap = self.gap;
        let mut rest = self.rest;
        let mut next = self.next;
        // A `loop`: it ends at a word, or past the last child, and white space alone goes on.
        loop {
            match run_in(tape.source(), rest, begun, gap) {
                Run::Word {
                    part,
                    space,
                    rest: after,
                } => {
                    return Some(Piece {
                        part,
                        space,
                        left: Number {
                            rest: after,
                            next,
                            begun: true,
                            gap: false,
                        },
                    });
                }
                Run::White(spaced) => {
                    let c = next?;
                    gap = spaced;
                    rest = text_part(tape, c);
                    next = c.next_sibling(tape);
                }
            }
        }
    }
}
