#![tactic(auto)]
// What a Rust program measures of the parts of the serializer: each function takes slices and numbers and gives a number.
ghost use Rattle.std.specs.Prelude.{◌≡◌, true, false, cond};
ghost use Rattle.chars.specs.Utf8.{is_utf8};
ghost use Rattle.chars.specs.Escape.{escape};
ghost use Rattle.chars.specs.Decimal.{decimal};
ghost use Rattle.texts.specs.Text.{body_of};
ghost use Rattle.window.specs.Page.{paint};
ghost use Rattle.admit.specs.Refusal.{Refusal};

use window::Window;

// A text with its escapes behind `at` bytes, in a window that starts at `from`; the bytes written so far.
#[unsafe(no_mangle)]
pub extern "C" fn bench_escape_xml(out: &mut [u8], at: usize, from: usize, s: &[u8]) -> usize
    ensures count { result ≡ (paint (record { at = at; from = from; buf = out.old }) (escape false s.now)).at }
    ensures buffer { out.new ≡ (paint (record { at = at; from = from; buf = out.old }) (escape false s.now)).buf }
{
    let mut w = Window { at, from };
    w.escape_xml(out, s);
    w.at
}

// The same for an attribute's value.
#[unsafe(no_mangle)]
pub extern "C" fn bench_escape_xml_attr(out: &mut [u8], at: usize, from: usize, s: &[u8]) -> usize
    ensures count { result ≡ (paint (record { at = at; from = from; buf = out.old }) (escape true s.now)).at }
    ensures buffer { out.new ≡ (paint (record { at = at; from = from; buf = out.old }) (escape true s.now)).buf }
{
    let mut w = Window { at, from };
    w.escape_xml_attr(out, s);
    w.at
}

// The same for a number in decimal digits.
#[unsafe(no_mangle)]
pub extern "C" fn bench_put_number(out: &mut [u8], at: usize, from: usize, n: u32) -> usize
    ensures count { result ≡ (paint (record { at = at; from = from; buf = out.old }) (decimal n)).at }
    ensures buffer { out.new ≡ (paint (record { at = at; from = from; buf = out.old }) (decimal n)).buf }
{
    let mut w = Window { at, from };
    w.put_number(out, n);
    w.at
}

// The same for the body of a text.
#[unsafe(no_mangle)]
pub extern "C" fn bench_body(out: &mut [u8], at: usize, from: usize, s: &[u8]) -> usize
    ensures count { result ≡ (paint (record { at = at; from = from; buf = out.old }) (escape false (body_of s.now))).at }
    ensures buffer { out.new ≡ (paint (record { at = at; from = from; buf = out.old }) (escape false (body_of s.now))).buf }
{
    let mut w = Window { at, from };
    put_body::put_body(&mut w, out, s);
    w.at
}

// 1 where a text is UTF-8, and else 0.
#[unsafe(no_mangle)]
pub extern "C" fn bench_is_utf8(s: &[u8]) -> usize
    ensures { result ≡ cond (is_utf8 s.now) 1 0 }
{
    usize::from(chars::is_utf8(s))
}

// The number that a file is given, 0 where it is admitted.
#[tactic(auto, unfolding(admit::specs::Refusal::refusal_number))]
#[unsafe(no_mangle)]
pub extern "C" fn bench_admit(file: &[u8]) -> u32
    ensures { Refusal file.now result }
{
    match admit::admit(file) {
        Ok(_) => 0,
        Err(reason) => u32::from(reason.number()),
    }
}
