//! The tests of a line that has its shape.

ghost use Rattle.std.specs.Prelude.{◌≡◌, ◌<◌, ◌^◌};
ghost use Rattle.nz_base.specs.Actor.{actor_eq};
ghost use Rattle.nz_script.specs.Drafts as drafts;
ghost use Rattle.nz_script.specs.Drafts.{keeps_order, all_known, names_known, is_key_word, word_within, all_within, has_room_for_requests};
ghost use Rattle.nz_script.specs.Drafts.{has_room_for_faults, has_room_for_line, within_limits};
ghost use Rattle.nz_script.specs.Reading as reading;

use super::draft::Draft;
use super::faults::Kind;
use super::group::{Group, knows};
use super::line::Line;
use super::line_forms::{Form, Head, Mishap, Verb};
use super::message::KIND_COUNT;
use super::word::{Word, actor_at, number_at};
use nz_base::{Actor, MAX_CHANCES, MAX_FAULTS, MAX_REQUEST_TICKS, MAX_REQUESTS, Skew};
use nz_store::{is_key, is_value};

/// Whether a text of this version has lines of this sort. In version 1 the word `window` is unknown.
fn version_has(version: u8, verb: Verb) -> bool
    ensures { result ≡ drafts.version_has version verb }
{
    match verb {
        Verb::Head(Head::Window) => version == 2,
        _ => true,
    }
}

fn is_turn(draft: &Draft, words: &[Word]) -> bool
    ensures { result ≡ drafts.is_turn draft.now words.now }
{
    match words {
        [Word::Named(Actor::Client(number)), ..] => {
            *number >= draft.group.clients || u32::from(*number) == draft.scripts.len()
        }
        _ => true,
    }
}

fn is_in_turn(draft: &Draft, verb: Verb, words: &[Word]) -> bool
    ensures { result ≡ drafts.is_in_turn draft.now verb words.now }
{
    match verb {
        Verb::Skew => draft.scripts.len() == 0,
        Verb::Client => is_turn(draft, words),
        _ => true,
    }
}

fn is_in_order(draft: &Draft, line: &Line) -> bool
    ensures { result ≡ keeps_order draft.now line.now }
{
    draft.place.is(line.verb.shape().place) && is_in_turn(draft, line.verb, line.words.as_slice())
}

fn suits(form: Form, actor: Actor) -> bool
    ensures { result ≡ drafts.suits form actor }
{
    match (form, actor) {
        (Form::Server, Actor::Client(_)) => false,
        (Form::Replica, Actor::Proxy(_) | Actor::Client(_)) => false,
        (Form::Client, Actor::Replica(_) | Actor::Proxy(_)) => false,
        _ => true,
    }
}

fn is_known(group: &Group, form: Form, word: &Word) -> bool
    ensures { result ≡ drafts.is_known group.now form word.now }
{
    match word {
        Word::Named(actor) => suits(form, *actor) && knows(group, *actor),
        Word::Kind(None) => false,
        Word::Kind(Some(kind)) => 1 <= *kind && *kind <= KIND_COUNT,
        _ => true,
    }
}

pub fn are_known(group: &Group, forms: &[Form], words: &[Word]) -> bool
    ensures { result ≡ all_known group.now forms.now words.now }
{
    let [form, forms @ ..] = forms else {
        return true;
    };
    let [word, words @ ..] = words else {
        return true;
    };
    is_known(group, *form, word) && are_known(group, forms, words)
}

fn is_same_actor(one: Actor, other: Actor) -> bool
    ensures { result ≡ actor_eq one other }
{
    one == other
}

pub fn has_skew(skews: &[Skew], actor: Actor) -> bool
    ensures { result ≡ drafts.has_skew skews.now actor }
{
    skews.iter().any(|skew| is_same_actor(skew.actor, actor))
}

fn is_new_skew(draft: &Draft, verb: Verb, words: &[Word]) -> bool
    ensures { result ≡ drafts.is_new_skew draft.now verb words.now }
{
    match verb {
        Verb::Skew => !has_skew(draft.skews.as_slice(), actor_at(words, 0)),
        _ => true,
    }
}

fn has_known_names(draft: &Draft, line: &Line) -> bool
    ensures { result ≡ names_known draft.now line.now }
{
    are_known(&draft.group, line.verb.shape().forms, line.words.as_slice())
        && is_new_skew(draft, line.verb, line.words.as_slice())
}

fn has_number(least: u32, most: u32, word: &Word) -> bool
    ensures { result ≡ drafts.has_number least most word.now }
{
    match word {
        Word::Number(number) => u64::from(least) <= *number && *number <= u64::from(most),
        _ => false,
    }
}

fn has_units(word: &Word) -> bool
    ensures { result ≡ drafts.has_units word.now }
{
    match word {
        Word::Units { back: _, number } => *number <= 4_611_686_018_427_387_904,
        _ => false,
    }
}

fn has_key(word: &Word) -> bool
    ensures { result ≡ is_key_word word.now }
{
    match word {
        Word::Text(text) => is_key(text.as_slice()),
        _ => false,
    }
}

fn has_value(word: &Word) -> bool
    ensures { result ≡ drafts.has_value word.now }
{
    match word {
        Word::Text(text) => is_value(text.as_slice()),
        _ => false,
    }
}

fn has_choice(word: &Word) -> bool
    ensures { result ≡ drafts.has_choice word.now }
{
    match word {
        Word::Nothing => true,
        _ => has_value(word),
    }
}

fn is_within(form: Form, word: &Word) -> bool
    ensures { result ≡ word_within form word.now }
{
    match form {
        Form::Number { least, most } => has_number(least, most, word),
        Form::Units => has_units(word),
        Form::Key => has_key(word),
        Form::Value => has_value(word),
        Form::Choice => has_choice(word),
        _ => true,
    }
}

pub fn are_within(forms: &[Form], words: &[Word]) -> bool
    ensures { result ≡ all_within forms.now words.now }
{
    let [form, forms @ ..] = forms else {
        return true;
    };
    let [word, words @ ..] = words else {
        return false;
    };
    is_within(*form, word) && are_within(forms, words)
}

/// Whether this many requests are within the limits.
pub fn fits_requests(requests: u64, ticks: u32) -> bool
    requires { requests < 2 ^ 40 }
    ensures { result ≡ has_room_for_requests requests ticks }
{
    requests <= MAX_REQUESTS && requests * u64::from(ticks) <= MAX_REQUEST_TICKS
}

/// Whether this many faults are within the limits.
pub fn fits_faults(requests: u64, faults: u64) -> bool
    requires { requests < 2 ^ 40 }
    ensures { result ≡ has_room_for_faults requests faults }
{
    faults <= MAX_FAULTS && requests * faults <= MAX_CHANCES
}

fn has_room(draft: &Draft, verb: Verb) -> bool
    ensures { result ≡ has_room_for_line draft.now verb }
{
    let requests = u64::from(draft.requests);
    match verb {
        Verb::Ask(_) => fits_requests(requests + 1, draft.ticks),
        Verb::Mishap(_) => fits_faults(requests, u64::from(draft.faults.len()) + 1),
        _ => true,
    }
}

pub fn is_span(verb: Verb, words: &[Word]) -> bool
    ensures { result ≡ drafts.is_span verb words.now }
{
    match verb {
        Verb::Mishap(Mishap::Block) => number_at(words, 2) <= number_at(words, 3),
        _ => true,
    }
}

fn is_within_limits(draft: &Draft, line: &Line) -> bool
    ensures { result ≡ within_limits draft.now line.now }
{
    let words = line.words.as_slice();
    are_within(line.verb.shape().forms, words)
        && is_span(line.verb, words)
        && has_room(draft, line.verb)
}

/// What is wrong with the line: the first test that fails.
pub fn fault_of(draft: &Draft, line: &Line) -> Option<Kind>
    ensures { result ≡ reading.fault_of draft.now line.now }
{
    if !version_has(draft.version, line.verb) {
        return Some(Kind::Syntax);
    }
    if !is_in_order(draft, line) {
        return Some(Kind::Order);
    }
    if !has_known_names(draft, line) {
        return Some(Kind::Name);
    }
    if !is_within_limits(draft, line) {
        return Some(Kind::Limit);
    }
    None
}
