//! What a word of a line means.

ghost use Rattle.std.specs.Prelude.{◌≡◌, IfOk, slice_get};
ghost use Rattle.std.specs.Option.{option_copied};
ghost use Rattle.nz_script.specs.Forms as forms;
ghost use Rattle.nz_script.specs.Forms.{actor_of_letter, actor_named, number_in, byte_in, units_in, actor_in, actors_in, kind_in, text_as, choice_as};
ghost use Rattle.nz_script.specs.declared.word.Word.TheVariants.{Text};

use super::line_forms::Form;
use super::message::kind_named;
use super::pieces::number_of;
use nz_base::{Actor, List, NoMemory};
use nz_store::Blob;
use std::alloc::Global;

/// What a word of a line means.
#[derive(Debug, Drop)]
pub enum Word {
    Number(u64),
    /// Clock units, behind where `back` is true.
    Units { back: bool, number: u64 },
    Named(Actor),
    Everyone,
    /// A kind of message, None where it has no such name.
    Kind(Option<u8>),
    Text(Blob),
    Nothing,
}

pub type WordList = List<Word>;

fn lettered(letter: u8, number: u8) -> Option<Actor>
    ensures { result ≡ actor_of_letter letter number }
{
    match letter {
        b'r' => Some(Actor::Replica(number)),
        b'p' => Some(Actor::Proxy(number)),
        b'c' => Some(Actor::Client(number)),
        _ => None,
    }
}

#[tactic(auto, unfolding(crate::specs::Forms::actor_named))]
/// The actor with this name, whether or not it is of the cluster.
fn actor_of(bytes: &[u8]) -> Option<Actor>
    ensures { result ≡ actor_named bytes.now }
{
    let [letter, digits @ ..] = bytes else {
        return None;
    };
    let number = number_of(digits)?;
    if number <= 99 {
        lettered(*letter, number as u8)
    } else {
        None
    }
}

#[tactic(auto, unfolding(crate::specs::Forms::number_word))]
fn number_word(bytes: &[u8]) -> Option<Word>
    ensures { result ≡ forms.number_word bytes.now }
{
    let number = number_of(bytes)?;
    Some(Word::Number(number))
}

#[tactic(auto, unfolding(crate::specs::Forms::units_word))]
fn units_word(bytes: &[u8]) -> Option<Word>
    ensures { result ≡ forms.units_word bytes.now }
{
    let [byte, rest @ ..] = bytes else {
        return None;
    };
    if *byte == b'-' {
        let number = number_of(rest)?;
        Some(Word::Units { back: true, number })
    } else {
        let number = number_of(bytes)?;
        Some(Word::Units {
            back: false,
            number,
        })
    }
}

#[tactic(auto, unfolding(crate::specs::Forms::actor_word))]
fn actor_word(bytes: &[u8]) -> Option<Word>
    ensures { result ≡ forms.actor_word bytes.now }
{
    let actor = actor_of(bytes)?;
    Some(Word::Named(actor))
}

#[tactic(auto, unfolding(crate::specs::Forms::actors_word))]
fn actors_word(bytes: &[u8]) -> Option<Word>
    ensures { result ≡ forms.actors_word bytes.now }
{
    if bytes == b"*".as_slice() {
        return Some(Word::Everyone);
    }
    actor_word(bytes)
}

fn text_word(alloc: Global, bytes: &[u8]) -> Result<Word, NoMemory>
    ensures { IfOk result (λ word. word ≡ Text bytes.now) }
{
    Ok(Word::Text(Blob::from_slice(alloc, bytes).map_err(|_| NoMemory)?))
}

fn value_word(alloc: Global, bytes: &[u8]) -> Result<Option<Word>, NoMemory>
    ensures { IfOk result (λ word. word ≡ forms.value_word bytes.now) }
{
    if bytes == b"-".as_slice() {
        return Ok(None);
    }
    Ok(Some(text_word(alloc, bytes)?))
}

fn choice_word(alloc: Global, bytes: &[u8]) -> Result<Word, NoMemory>
    ensures { IfOk result (λ word. word ≡ forms.choice_word bytes.now) }
{
    if bytes == b"-".as_slice() {
        return Ok(Word::Nothing);
    }
    text_word(alloc, bytes)
}

/// What the bytes mean as a word of this form: None where they have not its shape.
pub fn word_of(alloc: Global, form: Form, bytes: &[u8]) -> Result<Option<Word>, NoMemory>
    ensures { IfOk result (λ word. word ≡ forms.word_of form bytes.now) }
{
    match form {
        Form::Number { least: _, most: _ } => Ok(number_word(bytes)),
        Form::Units => Ok(units_word(bytes)),
        Form::Actor | Form::Server | Form::Replica | Form::Client => Ok(actor_word(bytes)),
        Form::Actors => Ok(actors_word(bytes)),
        Form::Kind => Ok(Some(Word::Kind(kind_named(bytes)))),
        Form::Key => Ok(Some(text_word(alloc, bytes)?)),
        Form::Value => value_word(alloc, bytes),
        Form::Choice => Ok(Some(choice_word(alloc, bytes)?)),
    }
}

fn at(words: &[Word], place: usize) -> Option<&Word>
    ensures { option_copied result ≡ slice_get words.now place }
{
    words.get(place)
}

/// The number at the place, as 32 bits hold it.
pub fn number_at(words: &[Word], place: usize) -> u32
    ensures { result ≡ number_in place words.now }
{
    match at(words, place) {
        Some(Word::Number(number)) if *number <= 4_294_967_295 => *number as u32,
        Some(Word::Number(_)) => u32::MAX,
        _ => 0,
    }
}

/// The number at the place, as 8 bits hold it.
pub fn byte_at(words: &[Word], place: usize) -> u8
    ensures { result ≡ byte_in place words.now }
{
    match at(words, place) {
        Some(Word::Number(number)) if *number <= 255 => *number as u8,
        Some(Word::Number(_)) => u8::MAX,
        _ => 0,
    }
}

/// The clock units at the place, of at most 2^62.
pub fn units_at(words: &[Word], place: usize) -> i64
    ensures { result ≡ units_in place words.now }
{
    match at(words, place) {
        Some(Word::Units { back, number }) if *number <= 4_611_686_018_427_387_904 => {
            let units = *number as i64;
            if *back { -units } else { units }
        }
        _ => 0,
    }
}

pub fn actor_at(words: &[Word], place: usize) -> Actor
    ensures { result ≡ actor_in place words.now }
{
    match at(words, place) {
        Some(Word::Named(actor)) => *actor,
        _ => Actor::Replica(0),
    }
}

pub fn actors_at(words: &[Word], place: usize) -> Option<Actor>
    ensures { result ≡ actors_in place words.now }
{
    match at(words, place) {
        Some(Word::Named(actor)) => Some(*actor),
        _ => None,
    }
}

pub fn kind_at(words: &[Word], place: usize) -> u8
    ensures { result ≡ kind_in place words.now }
{
    match at(words, place) {
        Some(Word::Kind(Some(kind))) => *kind,
        _ => 0,
    }
}

/// The bytes of a word that is a key or a value. Other words have none.
pub fn text_of(alloc: Global, word: Option<Word>) -> Result<Blob, NoMemory>
    ensures { IfOk result (λ text. text ≡ text_as word) }
{
    match word {
        Some(Word::Text(text)) => Ok(text),
        _ => Ok(Blob::from_slice(alloc, b"").map_err(|_| NoMemory)?),
    }
}

/// The value that a word is, if it is one.
pub fn choice_of(word: Option<Word>) -> Option<Blob>
    ensures { result ≡ choice_as word }
{
    match word {
        Some(Word::Text(text)) => Some(text),
        _ => None,
    }
}
