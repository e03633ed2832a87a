// The operations, and the answer to each, written at the front of a buffer.
ghost use Rattle.window.specs.Page.{page_of};
ghost use Rattle.test_vectors.specs.Front.{Written};

use window::Window;
use words::{Part, Set};

// What a record asks of the crates.
#[derive(Clone, Copy)]
pub enum Op {
    IsUtf8,
    FirstChar,
    IsBoundary,
    IsWhite,
    IsAsciiWhite,
    TrimStart,
    TrimEnd,
    Trim,
    IsBlank,
    FirstWord,
    AfterWord,
    NthWord,
    LastWord,
    EscapeXml,
    EscapeXmlAttr,
    PutNumber,
    FindByte,
    FindPair,
    BeginsWith,
    Same,
    Part,
    NextWord,
}

// The operations by their codes, with their names.
pub const OPS: [(Op, &str); 22] = [
    (Op::IsUtf8, "is_utf8"),
    (Op::FirstChar, "first_char"),
    (Op::IsBoundary, "is_boundary"),
    (Op::IsWhite, "is_white"),
    (Op::IsAsciiWhite, "is_ascii_white"),
    (Op::TrimStart, "trim_start"),
    (Op::TrimEnd, "trim_end"),
    (Op::Trim, "trim"),
    (Op::IsBlank, "is_blank"),
    (Op::FirstWord, "first_word"),
    (Op::AfterWord, "after_word"),
    (Op::NthWord, "nth_word"),
    (Op::LastWord, "last_word"),
    (Op::EscapeXml, "escape_xml"),
    (Op::EscapeXmlAttr, "escape_xml_attr"),
    (Op::PutNumber, "put_number"),
    (Op::FindByte, "find_byte"),
    (Op::FindPair, "find_pair"),
    (Op::BeginsWith, "begins_with"),
    (Op::Same, "same"),
    (Op::Part, "part"),
    (Op::NextWord, "next_word"),
];

fn low(n: usize) -> u32 {
    (n % 4294967296) as u32
}

fn low_byte(n: usize) -> u8 {
    (n % 256) as u8
}

fn yes_or_no(w: &mut Window, out: &mut [u8], yes: bool)
    ensures { Written (page_of w.old out.old) (page_of w.new out.new) }
{
    w.put_number(out, u32::from(yes));
}

fn count(w: &mut Window, out: &mut [u8], n: usize)
    ensures { Written (page_of w.old out.old) (page_of w.new out.new) }
{
    w.put_number(out, low(n));
}

fn pair(w: &mut Window, out: &mut [u8], a: usize, z: usize)
    ensures { Written (page_of w.old out.old) (page_of w.new out.new) }
{
    count(w, out, a);
    w.put_run(out, b" ");
    count(w, out, z);
}

fn place(w: &mut Window, out: &mut [u8], p: Part)
    ensures { Written (page_of w.old out.old) (page_of w.new out.new) }
{
    pair(w, out, p.start, p.len);
}

fn first(w: &mut Window, out: &mut [u8], s: &[u8])
    ensures { Written (page_of w.old out.old) (page_of w.new out.new) }
{
    let c = chars::first_char(s);
    pair(w, out, c.code as usize, c.width);
}

// Whether a test passes, at each of so many numbers.
fn each<F: Fn(usize) -> bool>(w: &mut Window, out: &mut [u8], many: usize, test: F)
    requires { F.IsAlwaysCallable test }
    ensures { Written (page_of w.old out.old) (page_of w.new out.new) }
{
    for i in 0..many {
        yes_or_no(w, out, test(i));
    }
}

fn put_answer(w: &mut Window, out: &mut [u8], op: Op, set: Set, n: usize, s: &[u8])
    ensures { Written (page_of w.old out.old) (page_of w.new out.new) }
{
    let code = tape::length_of(s);
    match op {
        Op::IsUtf8 => yes_or_no(w, out, chars::is_utf8(s)),
        Op::FirstChar => first(w, out, s),
        Op::IsBoundary => each(w, out, n, |i| chars::is_boundary(s, i)),
        Op::IsWhite => each(w, out, n, |i| chars::is_white(low(code.wrapping_add(i)))),
        Op::IsAsciiWhite => each(
            w,
            out,
            n,
            |i| chars::is_ascii_white(low_byte(code.wrapping_add(i))),
        ),
        Op::TrimStart => w.put_run(out, words::trim_start(s, set)),
        Op::TrimEnd => w.put_run(out, words::trim_end(s, set)),
        Op::Trim => w.put_run(out, words::trim(s, set)),
        Op::IsBlank => yes_or_no(w, out, words::is_blank(s, set)),
        Op::FirstWord => w.put_run(out, words::first_word(s, set)),
        Op::AfterWord => w.put_run(out, words::after_word(s, set)),
        Op::NthWord => place(w, out, words::nth_word(s, set, n)),
        Op::LastWord => w.put_run(out, words::last_word(s, set)),
        Op::EscapeXml => w.escape_xml(out, s),
        Op::EscapeXmlAttr => w.escape_xml_attr(out, s),
        Op::PutNumber => w.put_number(out, low(code)),
        Op::FindByte => count(w, out, parts::find_byte(s, low_byte(n))),
        Op::FindPair => count(w, out, parts::find_pair(s, low_byte(n))),
        Op::BeginsWith => yes_or_no(
            w,
            out,
            parts::begins_with(parts::from(s, n), parts::part(s, 0, n)),
        ),
        Op::Same => yes_or_no(w, out, parts::same(parts::from(s, n), parts::part(s, 0, n))),
        Op::Part => w.put_run(out, parts::part(s, n, 3)),
        Op::NextWord => place(w, out, words::next_word(s, set, n)),
    }
}

// The answer to an operation, and its length.
pub fn answer(op: Op, set: Set, n: usize, s: &[u8], out: &mut [u8]) -> usize
    ensures { Written (record { at = 0; from = 0; buf = out.old }) (record { at = result; from = 0; buf = out.new }) }
{
    let mut w = Window { at: 0, from: 0 };
    put_answer(&mut w, out, op, set, n, s);
    w.at
}
