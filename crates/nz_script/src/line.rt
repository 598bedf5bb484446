//! Lines, by their words.

ghost use Rattle.std.specs.Prelude.{◌≡◌, IfOk};
ghost use Rattle.std.specs.List.{list_all};
ghost use Rattle.nz_script.specs.Bytes.{is_printed, words_in};
ghost use Rattle.nz_script.specs.Lines as lines;
ghost use Rattle.nz_script.specs.Lines.{fits};

use super::line_forms::{Form, Verb, verb_of};
use super::pieces::next_word;
use super::word::{WordList, word_of};
use nz_base::NoMemory;
use std::alloc::Global;

/// A line that has the shape of its sort.
#[derive(Debug, Drop)]
pub struct Line {
    pub verb: Verb,
    pub words: WordList,
}

#[tactic(auto, using(std::proofs::lemmas::List::Folds::list_all_more))]
fn are_printed(line: &[u8]) -> bool
    ensures { result ≡ list_all is_printed line.now }
{
    // Without an early end the bytes are looked at many at a time.
    let mut all = true;
    for byte in line {
        all &= 0x20 <= *byte && *byte <= 0x7e;
    }
    all
}

/// What the words of the line mean, where each has its form and none is missing or too many.
fn words_of(alloc: Global, forms: &[Form], line: &[u8]) -> Result<Option<WordList>, NoMemory>
    ensures { IfOk result (λ words. words ≡ fits forms.now (words_in line.now)) }
{
    let mut words = WordList::new(alloc);
    let mut rest = line;
    for form in forms {
        let Some((bytes, later)) = next_word(rest) else {
            return Ok(None);
        };
        let Some(word) = word_of(alloc, *form, bytes)? else {
            return Ok(None);
        };
        words.push(word)?;
        rest = later;
    }
    match next_word(rest) {
        None => Ok(Some(words)),
        Some(_) => Ok(None),
    }
}

/// The line that the bytes are, by the table of shapes: None where they have no shape of it.
#[tactic(auto, unfolding(crate::specs::Lines::line_of))]
pub fn line_of(alloc: Global, bytes: &[u8]) -> Result<Option<Line>, NoMemory>
    ensures { IfOk result (λ line. line ≡ lines.line_of bytes.now) }
{
    if !are_printed(bytes) {
        return Ok(None);
    }
    let Some((first, rest)) = next_word(bytes) else {
        return Ok(None);
    };
    let Some(verb) = verb_of(first) else {
        return Ok(None);
    };
    let Some(words) = words_of(alloc, verb.shape().forms, rest)? else {
        return Ok(None);
    };
    Ok(Some(Line { verb, words }))
}
