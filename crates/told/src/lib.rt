#![tactic(auto)]
// What is told of a finished text and of a tape's names: document 01's number, and further numbers at fixed places of a lent slice, as far as it reaches.
ghost use Rattle.std.specs.Prelude.{◌≡◌, set};
ghost use Rattle.checker.specs.Answer.{answer_of};
ghost use Rattle.checker.specs.Place.{line_of};
ghost use Rattle.tape.specs.File.{tape_of};
ghost use Rattle.told.specs.Told.{place_told, line_told, Checked, what_number, name_in_of, Named};

use checker::Verdict;
use names::{Found, What};
use tape::{Sections, TapeFile, long};
use words::Part;

// Stores a number at a place, where there is one.
pub fn tell(numbers: &mut [u64], at: usize, n: usize)
    ensures { numbers.new ≡ set numbers.old at n }
{
    if at < numbers.len() {
        numbers[at] = n as u64;
    }
}

// ---- a finished text

// Document 01's number, which C reads: `answer_of` gives the same.
#[tactic(auto, unfolding(checker::specs::Answer::answer_of))]
fn number_of(v: Verdict) -> u32
    ensures { result ≡ (answer_of v).number }
{
    match v {
        Verdict::Accepted { .. } => 0,
        Verdict::NotTags => 11,
        Verdict::TooHigh => 12,
        Verdict::NoTree => 13,
        Verdict::BadMarks => 14,
    }
}

// How many chapters and verses start in an accepted text.
#[tactic(auto, unfolding(checker::specs::Answer::answer_of))]
fn counts_of(v: Verdict) -> (usize, usize)
    ensures chapters { result.0 ≡ (answer_of v).chapters }
    ensures verses { result.1 ≡ (answer_of v).verses }
{
    match v {
        Verdict::Accepted { chapters, verses } => (chapters, verses),
        Verdict::NotTags | Verdict::TooHigh | Verdict::NoTree | Verdict::BadMarks => (0, 0),
    }
}

// How many bytes stand before the place where a refused text broke its rule.
#[tactic(auto, unfolding(crate::specs::Told::place_told, crate::specs::Told::of_refused_of))]
fn place_of(text: &[u8], v: Verdict) -> usize
    ensures { result ≡ place_told v text.now }
{
    match v {
        Verdict::Accepted { .. } => 0,
        Verdict::NotTags | Verdict::TooHigh | Verdict::NoTree | Verdict::BadMarks => {
            checker::place(text, v)
        }
    }
}

// The line of that place.
#[tactic(auto, unfolding(crate::specs::Told::line_told, crate::specs::Told::of_refused_of))]
fn line_of(text: &[u8], v: Verdict, at: usize) -> usize
    ensures { result ≡ line_told v text.now at }
{
    match v {
        Verdict::Accepted { .. } => 0,
        Verdict::NotTags | Verdict::TooHigh | Verdict::NoTree | Verdict::BadMarks => {
            checker::line_of(text, at)
        }
    }
}

// The answer to a finished text; its counts become numbers 0 and 1, the place where the rule broke 2 and its line 3.
pub fn check(text: &[u8], numbers: &mut [u64]) -> u32
    ensures { Checked text.now numbers.old result numbers.new }
{
    let v = checker::check(text);
    let (chapters, verses) = counts_of(v);
    let at = place_of(text, v);
    tell(numbers, 0, chapters);
    tell(numbers, 1, verses);
    tell(numbers, 2, at);
    tell(numbers, 3, line_of(text, v, at));
    number_of(v)
}

// ---- the names of a tape

// What a name is, as the number that C reads: `what_number` of the specs gives the same.
#[tactic(auto, unfolding(crate::specs::Told::what_number))]
fn what_number(what: What) -> usize
    ensures { result ≡ what_number what }
{
    match what {
        What::Code => 1,
        What::Label => 2,
        What::Marker => 3,
        What::Key => 4,
    }
}

// Tells what a name is, its node, its part of the source and the line of that.
#[tactic(auto, unfolding(crate::specs::Told::name_in_of))]
fn tell_name(numbers: &mut [u64], what: usize, node: usize, place: Part, line: usize)
    ensures { numbers.new ≡ name_in_of numbers.old what node place line }
{
    tell(numbers, 0, what);
    tell(numbers, 1, node);
    tell(numbers, 2, place.start);
    tell(numbers, 3, place.len);
    tell(numbers, 4, line);
}

// The line of a place of a tape's source.
#[tactic(auto, unfolding(tape::specs::File::tape_of))]
fn source_line(file: &[u8], at: usize) -> usize
    ensures { result ≡ line_of (tape_of file.now).source at }
{
    let tape = TapeFile {
        file,
        sections: Sections::of(file),
    };
    checker::line_of(tape.source(), at)
}

// The first name of a tape file that breaks the proviso, told by `tell_name`; all numbers become 0 where there is none.
pub fn find_names(file: &[u8], numbers: &mut [u64]) -> u32
    ensures { Named file.now numbers.old result numbers.new }
{
    let none = Part { start: 0, len: 0 };
    match names::find_names(file) {
        Found::Refused(n) => {
            tell_name(numbers, 0, 0, none, 0);
            u32::from(n)
        }
        Found::Kept => {
            tell_name(numbers, 0, 0, none, 0);
            0
        }
        Found::Broken { node, what, place } => {
            let line = source_line(file, place.start);
            tell_name(numbers, what_number(what), long(node), place, line);
            0
        }
    }
}
