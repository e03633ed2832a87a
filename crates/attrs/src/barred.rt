// Attributes that are written as they stand in the source.
ghost use Rattle.std.specs.Prelude.{◌≡◌, true};
ghost use Rattle.attrs.specs.Barred.{in_key, in_value, Barred};

// Whether a byte can stand in a simple key.
#[tactic(auto, using(crate::proofs::Scan::key_low, crate::proofs::Scan::key_high, crate::proofs::Scan::key_within))]
fn in_key(x: u8) -> bool
    ensures { result ≡ in_key x }
{
    matches!(x, 0x23..=0x7E if x != b'=')
}

// Whether a byte can stand in a simple value.
#[tactic(auto, unfolding(crate::specs::Barred::in_value, chars::specs::Escape::special))]
fn in_value(x: u8) -> bool
    ensures { result ≡ in_value x }
{
    !matches!(x, b'<' | b'>' | b'&' | b'"' | b'\\')
}

// Whether a text is a `|`, a simple key, `="`, a simple value and `"`.
pub fn is_barred(s: &[u8]) -> bool
    ensures { result ≡ true → Barred s.now }
{
    if s.len() < 5 || s[0] != b'|' {
        return false;
    }
    let i = 1 + s[1..].iter().take_while(|&&x| in_key(x)).count();
    if i == 1 || s.len() - i < 3 || s[i] != b'=' || s[i + 1] != b'"' {
        return false;
    }
    let j = i + 2 + s[i + 2..].iter().take_while(|&&x| in_value(x)).count();
    j + 1 == s.len() && s[j] == b'"'
}
