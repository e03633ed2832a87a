#![tactic(auto)]
// Normalized text.
ghost use Rattle.std.specs.Prelude.{◌≡◌};
ghost use Rattle.texts.specs.Text.{body_of, starts_white, ends_white, blank_lead, normalize_text, has_break};

use words::Set;

// One space before a body, one behind it, and whether anything is written.
#[derive(Clone, Copy, PartialEq, Eq)]
pub struct Normalized {
    pub lead: bool,
    pub trail: bool,
    pub shows: bool,
}

// Whether a text begins with ASCII white space.
pub fn starts_white(s: &[u8]) -> bool
    ensures { result ≡ starts_white s.now }
{
    match s.first() {
        Some(x) => chars::is_ascii_white(*x),
        None => false,
    }
}

// Whether a text ends with ASCII white space.
pub fn ends_white(s: &[u8]) -> bool
    ensures { result ≡ ends_white s.now }
{
    match s.last() {
        Some(x) => chars::is_ascii_white(*x),
        None => false,
    }
}

// Whether an all-blank text is written, as one space.
#[tactic(auto, unfolding(crate::specs::Text::blank_lead))]
fn blank_lead(s: &[u8], before: bool, behind: bool) -> bool
    ensures { result ≡ blank_lead s.now before behind }
{
    0 < s.len() && before && behind
}

// The edges of a normalized text, by whether what stands before it and behind it keeps a space.
pub fn normalize_text(s: &[u8], before: bool, behind: bool) -> Normalized
    ensures { result ≡ normalize_text s.now before behind }
{
    if words::is_blank(s, Set::Ascii) {
        let lead = blank_lead(s, before, behind);
        return Normalized {
            lead,
            trail: false,
            shows: lead,
        };
    }
    Normalized {
        lead: starts_white(s) && before,
        trail: ends_white(s) && behind,
        shows: true,
    }
}

// Whether the body of a text holds `//`: only where the text does.
pub fn has_break(s: &[u8]) -> bool
    ensures { result ≡ has_break (body_of s.now) }
{
    parts::find_pair(s, b'/') < s.len()
}
