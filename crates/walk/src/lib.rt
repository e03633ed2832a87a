#![tactic(auto)]
// The walk over an admitted tape: the whole text, if there is room for it, or a window of it.
ghost use Rattle.std.specs.Prelude.{◌≡◌, ◌+◌, ◌/◌, ◌≤◌, min};
ghost use Rattle.tape.specs.File.{contents};
ghost use Rattle.events.specs.Text.{first_state_of};
ghost use Rattle.walk.specs.Asked.{whole_in, Walked};
ghost use Rattle.walk.specs.declared.Asked.TheVariants.{Whole};

use blocks::blocks;
use desk::Desk;
use holders::{close_usx, open_usx};
use leading_white::Book;
use tape::{Cursor, Kind, TapeFile, long};
use window::Window;

// What a walk is asked to leave in the buffer: the whole text, if there is room for it; the bytes of the text from one on, as many as there is room for.
// Two ways to ask, no Option: `Whole` is refused room, `From` is not.
#[derive(Clone, Copy, PartialEq, Eq)]
pub enum Asked {
    Whole,
    From(usize),
}

// The chapter's number before any chapter: 0 where the tape has one, else 1.
fn first_number(tape: &TapeFile<'_>) -> u32
    ensures { result ≡ (first_state_of (contents tape.now)).number }
{
    for i in 0..tape.sections.nodes {
        if Cursor::new(i).kind(tape).code == Kind::CHAPTER {
            return 0;
        }
    }
    1
}

// The whole text through a window from one byte on; its length.
fn write_text(book: &Book<'_, '_>, number: u32, from: usize, out: &mut [u8]) -> usize
    ensures value { number ≡ (first_state_of (contents book.now.tape)).number → result ≡ (whole_in (contents book.now.tape) from out.old).at }
    ensures out_after { number ≡ (first_state_of (contents book.now.tape)).number → out.new ≡ (whole_in (contents book.now.tape) from out.old).buf }
{
    let mut desk = Desk::new(from, number);
    let first = Cursor::new(0).first_child(&book.tape);
    open_usx(&mut desk, out);
    blocks(book, false, first, 1, &mut desk, out);
    put_chapters::last_ends(&book.tape, &mut desk, out);
    close_usx(&mut desk, out);
    desk.window.at
}

// The whole text, if there is room for it; its length. A text that is no longer than a lent buffer is written there and copied: it takes one walk where a longer one takes two.
fn write_aside(book: &Book<'_, '_>, number: u32, aside: &mut [u8], out: &mut [u8]) -> usize
    ensures { number ≡ (first_state_of (contents book.now.tape)).number → Walked (contents book.now.tape) Whole out.old result out.new }
{
    let n = write_text(book, number, 0, aside);
    if out.len() < n {
        return n;
    }
    if n <= aside.len() {
        let mut front = Window { at: 0, from: 0 };
        front.put_run(out, parts::part(aside, 0, n));
        return n;
    }
    let _ = write_text(book, number, 0, out);
    n
}

// The same with a buffer for short texts.
fn write_whole(book: &Book<'_, '_>, number: u32, out: &mut [u8]) -> usize
    ensures { number ≡ (first_state_of (contents book.now.tape)).number → Walked (contents book.now.tape) Whole out.old result out.new }
{
    // No heap: the buffer is on the stack.
    let mut aside = [0u8; 2048];
    write_aside(book, number, &mut aside, out)
}

// What is asked of an admitted tape; the length of its whole text.
fn write_by(book: &Book<'_, '_>, asked: Asked, out: &mut [u8]) -> usize
    ensures { Walked (contents book.now.tape) asked out.old result out.new }
{
    let number = first_number(&book.tape);
    // A match that chooses what to call: the two walks differ in what they are given.
    match asked {
        Asked::Whole => write_whole(book, number, out),
        Asked::From(from) => write_text(book, number, from, out),
    }
}

// The same with a table that is not filled yet.
fn write_tabled(tape: &TapeFile<'_>, solids: &mut [u32], asked: Asked, out: &mut [u8]) -> usize
    ensures { Walked (contents tape.now) asked out.old result out.new }
{
    leading_white::fill(solids, tape);
    let book = Book {
        tape: *tape,
        solids,
    };
    write_by(&book, asked, out)
}

// How many blocks of 64 bytes a source has, up to so many.
fn blocks_of(tape: &TapeFile<'_>, most: usize) -> usize
    ensures value { result ≡ min (tape.now.sections.source / 64 + 1) most }
    ensures upper_bound { result ≤ most }
{
    (long(tape.sections.source) / 64 + 1).min(most)
}

// The same with as many blocks of a table as the source has.
fn write_blocks(tape: &TapeFile<'_>, table: &mut [u32], asked: Asked, out: &mut [u8]) -> usize
    ensures { Walked (contents tape.now) asked out.old result out.new }
{
    let n = blocks_of(tape, table.len());
    write_tabled(tape, &mut table[..n], asked, out)
}

// The same with a table for the longest source.
fn write_long(tape: &TapeFile<'_>, asked: Asked, out: &mut [u8]) -> usize
    ensures { Walked (contents tape.now) asked out.old result out.new }
{
    // No heap: the table is on the stack.
    let mut table = [0u32; 65536];
    write_blocks(tape, &mut table, asked, out)
}

// The same with a table that is lent, where it has a place for each block of the source, or else with a longer one. It calls itself, so the
// compiler leaves the longest table to a function of its own: short sources take no stack for it.
fn write_in(tape: &TapeFile<'_>, table: &mut [u32], asked: Asked, out: &mut [u8]) -> usize
    ensures { Walked (contents tape.now) asked out.old result out.new }
{
    let blocks = table.len();
    if long(tape.sections.source) / 64 < blocks {
        return write_blocks(tape, table, asked, out);
    }
    if blocks < 1024 {
        // No heap: the table is on the stack.
        let mut more = [0u32; 1024];
        return write_in(tape, &mut more, asked, out);
    }
    write_long(tape, asked, out)
}

// The same, begun with a table for a source of 4,096 bytes.
pub fn write_tape(tape: &TapeFile<'_>, asked: Asked, out: &mut [u8]) -> usize
    ensures { Walked (contents tape.now) asked out.old result out.new }
{
    // No heap: the table is on the stack.
    let mut table = [0u32; 64];
    write_in(tape, &mut table, asked, out)
}
