//! What a line of a text says, by its words.
ghost use Rattle.std.specs.Prelude.{◌≡◌, ◌<◌, length, map, IfOk, IfSome, IfNone, Some, None};
ghost use Rattle.std.specs.Option.{option_map};
ghost use Rattle.nz_store.specs.Grammar.{IsValidCommand, spelling};
ghost use Rattle.nz_store.specs.Reading.{command_owned};
ghost use Rattle.nz_text.specs.Reading as reading;
ghost use Rattle.nz_text.specs.Reading.{pieces_in, number_in_digits, client_in, id_of_words, alone, line_in_words};
ghost use Rattle.nz_text.specs.declared.line.Line.TheVariants as line;
ghost use Rattle.nz_text.specs.declared.line.TheConstants.{MAX_WORDS};

use arrayvec::ArrayVec;
use nz_base::{Blob, Id, NoMemory};
use nz_machine::{ClientEvent, Executed};
use nz_msg::Path;
use nz_script::{command_first, cut_at, number_of};
use nz_store::{Answer, Blob as Value, CommandRef, is_value, write_command};
use std::alloc::Global;

/// No line of a text has more words.
const MAX_WORDS: usize = 11;

type WordList<'a> = ArrayVec<&'a [u8], MAX_WORDS>;

/// A line of a text.
#[derive(Drop)]
pub enum Line {
    Event(ClientEvent),
    Open(Id),
    /// The place in the history, from 1.
    At(u64, Executed),
    End,
}

/// What is between the spaces of the line, unless it is more than any line of a text has.
fn pieces<'a>(line: &'a [u8]) -> Option<WordList<'a>>
    ensures all { IfSome result (λ words. map (λ w. w.now) words.items ≡ pieces_in line.now) }
    ensures many { IfNone result (MAX_WORDS < length (pieces_in line.now)) }
{
    let mut words = WordList::new();
    let mut rest = line;
    while let Some((word, later)) = cut_at(rest, b' ') {
        if words.is_full() {
            return None;
        }
        words.push(word);
        rest = later;
    }
    if words.is_full() {
        return None;
    }
    words.push(rest);
    Some(words)
}

fn number(word: &[u8]) -> Option<u32>
    ensures { result ≡ number_in_digits word.now }
{
    let number = number_of(word)?;
    if number <= 4_294_967_295 {
        Some(number as u32)
    } else {
        None
    }
}

fn client(word: &[u8]) -> Option<u32>
    ensures { result ≡ client_in word.now }
{
    let [letter, digits @ ..] = word else {
        return None;
    };
    if *letter == b'c' {
        number(digits)
    } else {
        None
    }
}

fn id(client_word: &[u8], num_word: &[u8]) -> Option<Id>
    ensures { result ≡ id_of_words client_word.now num_word.now }
{
    let client = client(client_word)?;
    let num = number(num_word)?;
    Some(Id { client, num })
}

#[tactic(auto, unfolding(crate::specs::Reading::id_first))]
fn id_first<'a, 'b>(words: &'a [&'b [u8]]) -> Option<(Id, &'a [&'b [u8]])>
    ensures { option_map (λ x. (x.0, map (λ w. w.now) x.1.now)) result ≡ reading.id_first (map (λ w. w.now) words.now) }
{
    let [client_word, num_word, more @ ..] = words else {
        return None;
    };
    let id = id(client_word, num_word)?;
    Some((id, more))
}

fn value_first<'a, 'b>(
    alloc: Global,
    words: &'a [&'b [u8]],
) -> Result<Option<(Answer, &'a [&'b [u8]])>, NoMemory>
    ensures { IfOk result (λ answer. option_map (λ x. (x.0, map (λ w. w.now) x.1.now)) answer ≡ reading.value_first (map (λ w. w.now) words.now)) }
{
    let [value, more @ ..] = words else {
        return Ok(None);
    };
    if !is_value(value) {
        return Ok(None);
    }
    let value = Value::from_slice(alloc, value).map_err(|_| NoMemory)?;
    Ok(Some((Answer::Value(value), more)))
}

/// The answer whose words come first, and the words after it.
#[tactic(auto, unfolding(crate::specs::Reading::answer_first))]
fn answer_first<'a, 'b>(
    alloc: Global,
    words: &'a [&'b [u8]],
) -> Result<Option<(Answer, &'a [&'b [u8]])>, NoMemory>
    ensures { IfOk result (λ answer. option_map (λ x. (x.0, map (λ w. w.now) x.1.now)) answer ≡ reading.answer_first (map (λ w. w.now) words.now)) }
{
    let [word, more @ ..] = words else {
        return Ok(None);
    };
    if *word == b"done".as_slice() {
        return Ok(Some((Answer::Done, more)));
    }
    if *word == b"value".as_slice() {
        return value_first(alloc, more);
    }
    if *word == b"absent".as_slice() {
        return Ok(Some((Answer::Absent, more)));
    }
    if *word == b"differs".as_slice() {
        return Ok(Some((Answer::Differs, more)));
    }
    Ok(None)
}

#[tactic(auto, unfolding(crate::specs::Reading::path_of))]
fn path_of(words: &[&[u8]]) -> Option<Path>
    ensures { result ≡ reading.path_of (map (λ w. w.now) words.now) }
{
    let [word] = words else {
        return None;
    };
    if *word == b"fast".as_slice() {
        return Some(Path::Fast);
    }
    if *word == b"slow".as_slice() {
        return Some(Path::Slow);
    }
    None
}

/// The one spelling of the command, in the only memory that is taken for it.
fn spelled(alloc: Global, command: CommandRef<'_>) -> Result<Blob, NoMemory>
    requires { IsValidCommand (command_owned command) }
    ensures { IfOk result (λ bytes. bytes ≡ spelling (command_owned command.entry)) }
{
    let mut bytes = Vec::new(alloc);
    write_command(&mut bytes, command).map_err(|_| NoMemory)?;
    Ok(Blob::from_vec(bytes))
}

fn send_of(alloc: Global, id: Id, words: &[&[u8]]) -> Result<Option<Line>, NoMemory>
    ensures { IfOk result (λ line. line ≡ reading.send_of id (map (λ w. w.now) words.now)) }
{
    let Some((command, rest)) = command_first(words) else {
        return Ok(None);
    };
    match rest {
        [] => {
            let command = spelled(alloc, command)?;
            Ok(Some(Line::Event(ClientEvent::Sent { id, command })))
        }
        [_, ..] => Ok(None),
    }
}

fn accept_of(alloc: Global, id: Id, words: &[&[u8]]) -> Result<Option<Line>, NoMemory>
    ensures { IfOk result (λ line. line ≡ reading.accept_of id (map (λ w. w.now) words.now)) }
{
    let Some((answer, rest)) = answer_first(alloc, words)? else {
        return Ok(None);
    };
    let Some(path) = path_of(rest) else {
        return Ok(None);
    };
    Ok(Some(Line::Event(ClientEvent::Accepted { id, answer, path })))
}

/// The answer after the word `gives`.
#[tactic(auto, unfolding(crate::specs::Reading::answer_in_words))]
fn answer_in_words(alloc: Global, words: &[&[u8]]) -> Result<Option<Answer>, NoMemory>
    ensures { IfOk result (λ answer. answer ≡ reading.answer_in_words (map (λ w. w.now) words.now)) }
{
    let [word, more @ ..] = words else {
        return Ok(None);
    };
    if *word != b"gives".as_slice() {
        return Ok(None);
    }
    let Some((answer, rest)) = answer_first(alloc, more)? else {
        return Ok(None);
    };
    match rest {
        [] => Ok(Some(answer)),
        [_, ..] => Ok(None),
    }
}

fn executed_of(alloc: Global, id: Id, words: &[&[u8]]) -> Result<Option<Executed>, NoMemory>
    ensures { IfOk result (λ executed. executed ≡ reading.executed_of id (map (λ w. w.now) words.now)) }
{
    let Some((command, rest)) = command_first(words) else {
        return Ok(None);
    };
    let Some(answer) = answer_in_words(alloc, rest)? else {
        return Ok(None);
    };
    let command = spelled(alloc, command)?;
    Ok(Some(Executed {
        id,
        command,
        answer,
    }))
}

fn send_in_words(alloc: Global, words: &[&[u8]]) -> Result<Option<Line>, NoMemory>
    ensures { IfOk result (λ line. line ≡ reading.send_in_words (map (λ w. w.now) words.now)) }
{
    match id_first(words) {
        None => Ok(None),
        Some((id, more)) => send_of(alloc, id, more),
    }
}

fn accept_in_words(alloc: Global, words: &[&[u8]]) -> Result<Option<Line>, NoMemory>
    ensures { IfOk result (λ line. line ≡ reading.accept_in_words (map (λ w. w.now) words.now)) }
{
    match id_first(words) {
        None => Ok(None),
        Some((id, more)) => accept_of(alloc, id, more),
    }
}

fn open_in_words(words: &[&[u8]]) -> Option<Line>
    ensures { result ≡ reading.open_in_words (map (λ w. w.now) words.now) }
{
    let (id, rest) = id_first(words)?;
    match rest {
        [] => Some(Line::Open(id)),
        [_, ..] => None,
    }
}

#[tactic(auto, unfolding(crate::specs::Reading::at_in_words))]
fn at_in_words(alloc: Global, words: &[&[u8]]) -> Result<Option<Line>, NoMemory>
    ensures { IfOk result (λ line. line ≡ reading.at_in_words (map (λ w. w.now) words.now)) }
{
    let [place, more @ ..] = words else {
        return Ok(None);
    };
    let Some(place) = number_of(place) else {
        return Ok(None);
    };
    let Some((id, rest)) = id_first(more) else {
        return Ok(None);
    };
    match executed_of(alloc, id, rest)? {
        None => Ok(None),
        Some(executed) => Ok(Some(Line::At(place, executed))),
    }
}

fn end_in_words(words: &[&[u8]]) -> Option<Line>
    ensures { result ≡ alone line.End (map (λ w. w.now) words.now) }
{
    match words {
        [] => Some(Line::End),
        [_, ..] => None,
    }
}

/// What the words say as a line.
#[tactic(auto, unfolding(crate::specs::Reading::line_in_words))]
fn line_of_words(alloc: Global, words: &[&[u8]]) -> Result<Option<Line>, NoMemory>
    ensures { IfOk result (λ line. line ≡ line_in_words (map (λ w. w.now) words.now)) }
{
    let [first, more @ ..] = words else {
        return Ok(None);
    };
    if *first == b"send".as_slice() {
        return send_in_words(alloc, more);
    }
    if *first == b"accept".as_slice() {
        return accept_in_words(alloc, more);
    }
    if *first == b"open".as_slice() {
        return Ok(open_in_words(more));
    }
    if *first == b"at".as_slice() {
        return at_in_words(alloc, more);
    }
    if *first == b"end".as_slice() {
        return Ok(end_in_words(more));
    }
    Ok(None)
}

/// What the bytes say as a line, without its newline.
#[tactic(auto, using(crate::proofs::LongLines::many_words))]
pub fn line_of(alloc: Global, bytes: &[u8]) -> Result<Option<Line>, NoMemory>
    ensures { IfOk result (λ line. line ≡ line_in_words (pieces_in bytes.now)) }
{
    match pieces(bytes) {
        None => Ok(None),
        Some(words) => line_of_words(alloc, words.as_slice()),
    }
}
