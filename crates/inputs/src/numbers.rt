// Words and numbers that stand in text. It need not be UTF-8: only what is a number has to be.
// Letters: `b` a byte.
ghost use Rattle.std.specs.Prelude.{◌≡◌, IfSome};
ghost use Rattle.inputs.specs.Numbers.{first_word, is_blank, IsBelowLimit, IsNumberOf};

use std::str;
use track::Asked;

// No number is as large as this, although some that are would fit.
const LIMIT: u64 = 10_000_000_000_000_000_000;

// Whether a byte parts words: a space, a tab or the end of a line.
pub fn is_blank(b: u8) -> bool
    ensures { result ≡ is_blank b }
{
    matches!(b, b' ' | b'\t' | b'\r' | b'\n')
}

// The same of a byte as it stands in text.
fn parts_words(b: &u8) -> bool
    ensures { result ≡ is_blank b.now }
{
    is_blank(*b)
}

// The word that a line begins with; no bytes where it is empty or begins with a blank.
pub fn first_word(line: &[u8]) -> &[u8]
    ensures { result.now ≡ first_word line.now }
{
    line.split(parts_words).next().unwrap_or(b"")
}

// The decimal number that a word is. `parse` takes a sign too.
pub fn number(word: &[u8]) -> Option<u64>
    ensures { IsNumberOf word.now result }
{
    if !word.iter().all(|b| b.is_ascii_digit()) {
        return None;
    }
    let n = str::from_utf8(word).ok()?.parse::<u64>().ok()?;
    if n < LIMIT { Some(n) } else { None }
}

// The parameters of a track: eight numbers and nothing else.
pub fn params(text: &[u8]) -> Option<Asked>
    ensures { IfSome result (λ a. IsBelowLimit a) }
{
    let mut words = text.split(parts_words).filter(|w| !w.is_empty());
    let mut numbers = [0; 8];
    for n in &mut numbers {
        *n = number(words.next()?)?;
    }
    if words.next().is_some() {
        return None;
    }
    let [
        track,
        timescale,
        description,
        duration,
        size,
        flags,
        protection,
        iv_size,
    ] = numbers;
    Some(Asked {
        track,
        timescale,
        description,
        duration,
        size,
        flags,
        protection,
        iv_size,
    })
}
