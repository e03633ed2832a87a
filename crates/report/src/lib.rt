#![tactic(auto)]
// What is said of a finished text on standard output: `accepted` with both counts, or `refused` and document 01's number, then the place for people.
use checker::Verdict;
use std::io;

// The first line of what is said.
pub fn say_answer(rt: &impl Print, answer: Verdict) -> io::Result<()> {
    match answer {
        Verdict::Accepted { chapters, verses } => println!(rt; "accepted {chapters} {verses}"),
        Verdict::NotTags => println!(rt; "refused 11"),
        Verdict::TooHigh => println!(rt; "refused 12"),
        Verdict::NoTree => println!(rt; "refused 13"),
        Verdict::BadMarks => println!(rt; "refused 14"),
    }
}

// Judges a text and says so; a refusal has a second line, `at byte N, line N`, bytes from 0 and lines from 1.
pub fn report(rt: &impl Print, text: &[u8]) -> io::Result<()> {
    let answer = checker::check(text);
    say_answer(rt, answer)?;
    if matches!(answer, Verdict::Accepted { .. }) {
        return Ok(());
    }
    let at = checker::place(text, answer);
    let line = checker::line_of(text, at);
    println!(rt; "at byte {at}, line {line}")
}
