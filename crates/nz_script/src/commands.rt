//! The command that words spell.

ghost use Rattle.std.specs.Prelude.{◌≡◌, map, IfSome, Some};
ghost use Rattle.std.specs.Option.{option_map};
ghost use Rattle.nz_store.specs.Grammar.{IsValidCommand};
ghost use Rattle.nz_store.specs.Reading.{command_owned};
ghost use Rattle.nz_script.specs.Commands as commands;
ghost use Rattle.nz_script.specs.Commands.{ask_of_verb, command_of_sort};
ghost use Rattle.nz_script.specs.Drafts.{has_choice};
ghost use Rattle.nz_script.specs.Forms.{choice_as, choice_word};
ghost use Rattle.nz_script.specs.declared.line_forms.Ask.TheVariants as ask;

use super::line_forms::{Ask, Verb, verb_of};
use nz_store::{CommandRef, is_key, is_value};

fn ask_of(verb: Verb) -> Option<Ask>
    ensures { result ≡ ask_of_verb verb }
{
    match verb {
        Verb::Ask(ask) => Some(ask),
        _ => None,
    }
}

#[tactic(auto, using(crate::proofs::CommandWords::put_is))]
fn put_first<'a, 'b>(words: &'a [&'b [u8]]) -> Option<(CommandRef<'b>, &'a [&'b [u8]])>
    ensures { option_map (λ x. (command_owned x.0, map (λ w. w.now) x.1.now)) result ≡ command_of_sort ask.Put (map (λ w. w.now) words.now) }
{
    let [key, value, more @ ..] = words else {
        return None;
    };
    if is_key(key) && is_value(value) {
        Some((CommandRef::Put { key, value }, more))
    } else {
        None
    }
}

#[tactic(auto, using(crate::proofs::CommandWords::get_is))]
fn get_first<'a, 'b>(words: &'a [&'b [u8]]) -> Option<(CommandRef<'b>, &'a [&'b [u8]])>
    ensures { option_map (λ x. (command_owned x.0, map (λ w. w.now) x.1.now)) result ≡ command_of_sort ask.Get (map (λ w. w.now) words.now) }
{
    let [key, more @ ..] = words else {
        return None;
    };
    if is_key(key) {
        Some((CommandRef::Get { key }, more))
    } else {
        None
    }
}

#[tactic(auto, using(crate::proofs::CommandWords::del_is))]
fn del_first<'a, 'b>(words: &'a [&'b [u8]]) -> Option<(CommandRef<'b>, &'a [&'b [u8]])>
    ensures { option_map (λ x. (command_owned x.0, map (λ w. w.now) x.1.now)) result ≡ command_of_sort ask.Del (map (λ w. w.now) words.now) }
{
    let [key, more @ ..] = words else {
        return None;
    };
    if is_key(key) {
        Some((CommandRef::Del { key }, more))
    } else {
        None
    }
}

/// Whether the word is `-` or a value.
fn is_choice(word: &[u8]) -> bool
    ensures { result ≡ has_choice (choice_word word.now) }
{
    word == b"-".as_slice() || is_value(word)
}

/// The value that the word is, or none where it is `-`.
fn choice_of<'b>(word: &'b [u8]) -> Option<&'b [u8]>
    ensures { option_map (λ v. v.now) result ≡ choice_as (Some (choice_word word.now)) }
{
    if word == b"-".as_slice() {
        None
    } else {
        Some(word)
    }
}

#[tactic(auto, using(crate::proofs::CommandWords::cas_is))]
fn cas_first<'a, 'b>(words: &'a [&'b [u8]]) -> Option<(CommandRef<'b>, &'a [&'b [u8]])>
    ensures { option_map (λ x. (command_owned x.0, map (λ w. w.now) x.1.now)) result ≡ command_of_sort ask.Cas (map (λ w. w.now) words.now) }
{
    let [key, old, new, more @ ..] = words else {
        return None;
    };
    if is_key(key) && is_choice(old) && is_choice(new) {
        let old = choice_of(old);
        let new = choice_of(new);
        Some((CommandRef::Cas { key, old, new }, more))
    } else {
        None
    }
}

fn command_of_ask<'a, 'b>(
    ask: Ask,
    words: &'a [&'b [u8]],
) -> Option<(CommandRef<'b>, &'a [&'b [u8]])>
    ensures { option_map (λ x. (command_owned x.0, map (λ w. w.now) x.1.now)) result ≡ command_of_sort ask (map (λ w. w.now) words.now) }
{
    match ask {
        Ask::Put => put_first(words),
        Ask::Get => get_first(words),
        Ask::Del => del_first(words),
        Ask::Cas => cas_first(words),
    }
}

#[tactic(auto, unfolding(crate::specs::Commands::command_first))]
fn lent_first<'a, 'b>(words: &'a [&'b [u8]]) -> Option<(CommandRef<'b>, &'a [&'b [u8]])>
    ensures { option_map (λ x. (command_owned x.0, map (λ w. w.now) x.1.now)) result ≡ commands.command_first (map (λ w. w.now) words.now) }
{
    let [first, more @ ..] = words else {
        return None;
    };
    let verb = verb_of(first)?;
    let ask = ask_of(verb)?;
    command_of_ask(ask, more)
}

/// The command whose words, as a scenario has them, come first, and the words after it. Its key and its
/// values are those of the words.
pub fn command_first<'a, 'b>(words: &'a [&'b [u8]]) -> Option<(CommandRef<'b>, &'a [&'b [u8]])>
    ensures value { option_map (λ x. (command_owned x.0, map (λ w. w.now) x.1.now)) result ≡ commands.command_first (map (λ w. w.now) words.now) }
    ensures valid { IfSome result (λ x. IsValidCommand (command_owned x.0)) }
{
    lent_first(words)
}
