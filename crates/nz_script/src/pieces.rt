//! Pieces of bytes: lines, words and numerals.

ghost use Rattle.std.specs.Prelude.{◌≡◌, ◌<◌, ◌∷◌, [], length, MatchOption, nat_le, ◌&&◌};
ghost use Rattle.std.specs.Char.{is_ascii_digit};
ghost use Rattle.std.specs.List.{list_all};
ghost use Rattle.std.specs.Option.{option_map};
ghost use Rattle.nz_script.specs.Bytes as bytes_words;
ghost use Rattle.nz_script.specs.Bytes.{cut, words_in};

use memchr::memchr;

/// What is before and after the first byte that is `at`.
pub fn cut_at(bytes: &[u8], at: u8) -> Option<(&[u8], &[u8])>
    ensures { option_map (λ x. (x.0.now, x.1.now)) result ≡ cut at bytes.now }
{
    let place = memchr(at, bytes)?;
    Some((&bytes[..place], &bytes[place + 1..]))
}

/// The next word, and what follows it.
pub fn next_word(line: &[u8]) -> Option<(&[u8], &[u8])>
    ensures { MatchOption result (words_in line.now ≡ []) (λ x. words_in line.now ≡ x.0.now ∷ words_in x.1.now) }
{
    let mut rest = line;
    while let Some((word, later)) = cut_at(rest, b' ') {
        if !word.is_empty() {
            return Some((word, later));
        }
        rest = later;
    }
    if rest.is_empty() {
        None
    } else {
        Some((rest, &[]))
    }
}

fn are_digits(word: &[u8]) -> bool
    ensures { result ≡ list_all is_ascii_digit word.now }
{
    word.iter().all(|b| b.is_ascii_digit())
}

fn is_without_leading_zero(word: &[u8]) -> bool
    ensures { result ≡ bytes_words.is_without_leading_zero word.now }
{
    match word {
        [first, _, ..] => *first != b'0',
        _ => true,
    }
}

fn is_short(word: &[u8]) -> bool
    ensures { result ≡ (nat_le 1 (length word.now) && nat_le (length word.now) 19) }
{
    let len = word.len();
    1 <= len && len <= 19
}

/// Whether the word has 1 to 19 digits, the first not `0` unless it is alone.
fn is_numeral(word: &[u8]) -> bool
    ensures { result ≡ bytes_words.is_numeral word.now }
{
    is_short(word) && (are_digits(word) && is_without_leading_zero(word))
}

#[tactic(auto, unfolding(crate::specs::Bytes::number_of))]
/// The number that the word is the numeral of.
pub fn number_of(word: &[u8]) -> Option<u64>
    ensures { result ≡ bytes_words.number_of word.now }
{
    if !is_numeral(word) {
        return None;
    }
    let Ok(text) = std::str::from_utf8(word) else {
        return None;
    };
    text.parse::<u64>().ok()
}
