#![tactic(auto)]
// What a Rust program measures of words and trims, by Unicode white space.
ghost use Rattle.std.specs.Prelude.{◌≡◌, length};
ghost use Rattle.words.specs.Words.{words, trim, last_of};

use words::Set;

// The length of a text's last word: every word is passed on the way to it.
#[unsafe(no_mangle)]
pub extern "C" fn bench_last_word(s: &[u8]) -> usize
    ensures { result ≡ length (last_of (words Set.Unicode s.now)) }
{
    words::last_word(s, Set::Unicode).len()
}

// The length of a text without white space at both ends.
#[unsafe(no_mangle)]
pub extern "C" fn bench_trim(s: &[u8]) -> usize
    ensures { result ≡ length (trim Set.Unicode s.now) }
{
    words::trim(s, Set::Unicode).len()
}
