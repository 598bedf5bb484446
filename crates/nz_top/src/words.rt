//! The words of a call.
ghost use Rattle.std.specs.Prelude.{◌≡◌, ◌≤◌, IfOk, IfSome, Some, map};
ghost use Rattle.nz_top.specs.Words as spec;
ghost use Rattle.nz_top.specs.Words.{verb_of_word, workers_of_words, show_command, peek_command, gen_command, scenario_command};
ghost use Rattle.nz_top.specs.Words.{command_after, command_of_words, IsCalled};

use crate::reports::{KeyRef, Report};
use nz_base::{Blob, List, MAX_F, MAX_REQUESTS, MAX_WORKERS, NoMemory};
use nz_script::number_of;
use nz_store::is_key;
use std::alloc::Global;
use std::marker::Model;

/// The greatest number of a replica.
const LAST_REPLICA: u64 = 2 * MAX_F as u64;

/// What the program is to do.
#[derive(Drop)]
pub enum Command<'a> {
    /// Play a scenario, and print a report of the run.
    Play(Play<'a>),
    /// Print the scenario that the seed draws, with this many requests, at most `MAX_REQUESTS`.
    Scenario { seed: u64, count: u32 },
    /// Judge the text that is read from the source.
    Check,
    /// Print a line for each command.
    Help,
}

/// A scenario, who plays it, and what is reported of the run.
#[derive(Drop)]
pub struct Play<'a> {
    pub origin: Origin,
    /// How many workers play it, 1 to `MAX_WORKERS`.
    pub workers: u8,
    pub report: Report<'a>,
}

/// Where a scenario comes from.
#[derive(Clone, Copy, Debug, PartialEq, Eq)]
pub enum Origin {
    /// It is read from the source.
    Input,
    /// It is the one that the seed draws, with this many requests, at most `MAX_REQUESTS`.
    Seed { seed: u64, count: u32 },
}

/// What the first word of a call asks for. It decides what the words after it may be.
#[derive(Drop)]
pub enum Verb<'a> {
    /// To play the scenario of the input, and report this. A number of workers may follow.
    Show(Report<'a>),
    /// To play the scenario of the input with one worker, and print what is observed of a replica. Its name and a key follow.
    Peek,
    /// To play the scenario of the input with one worker, and print its pace. No word follows.
    Pace,
    /// To play a scenario that is drawn, and print its summary. The seed and the count follow.
    Gen,
    /// To print a scenario that is drawn. The seed and the count follow.
    Scenario,
    /// To judge a text. No word follows.
    Check,
    /// To print what the commands are. No word follows.
    Help,
}

/// The words after the program's name.
#[derive(Drop)]
pub struct Words {
    words: List<Blob>,
}

impl Model for Words {
    ghost use Rattle.std.specs.Prelude.{ℕ, List};

    ghost Value = { List (List ℕ) };

    ghost view = { λ w. w.words };
}

fn workers_in(numeral: &[u8]) -> Option<u8>
    ensures value { result ≡ spec.workers_in numeral.now }
    ensures some { IfSome result (λ workers. 1 ≤ workers) }
    ensures few { IfSome result (λ workers. workers ≤ MAX_WORKERS) }
{
    match number_of(numeral) {
        Some(workers) if 1 <= workers && workers <= MAX_WORKERS as u64 => Some(workers as u8),
        _ => None,
    }
}

fn workers_at(word: &[u8]) -> Option<u8>
    ensures value { result ≡ spec.workers_at word.now }
    ensures some { IfSome result (λ workers. 1 ≤ workers) }
    ensures few { IfSome result (λ workers. workers ≤ MAX_WORKERS) }
{
    match word.strip_prefix(b"--workers=".as_slice()) {
        Some(numeral) => workers_in(numeral),
        None => None,
    }
}

fn workers(rest: &[Blob]) -> Option<u8>
    ensures value { result ≡ workers_of_words rest.now }
    ensures some { IfSome result (λ workers. 1 ≤ workers) }
    ensures few { IfSome result (λ workers. workers ≤ MAX_WORKERS) }
{
    match rest {
        [] => Some(1),
        [option] => workers_at(option.as_slice()),
        [option, numeral] if option.as_slice() == b"--workers".as_slice() => {
            workers_in(numeral.as_slice())
        }
        _ => None,
    }
}

fn count_in(numeral: &[u8]) -> Option<u32>
    ensures value { result ≡ spec.count_in numeral.now }
    ensures some { IfSome result (λ count. 1 ≤ count) }
    ensures few { IfSome result (λ count. count ≤ MAX_REQUESTS) }
{
    match number_of(numeral) {
        Some(count) if 1 <= count && count <= MAX_REQUESTS => Some(count as u32),
        _ => None,
    }
}

fn replica_in(word: &[u8]) -> Option<u8>
    ensures { result ≡ spec.replica_in word.now }
{
    let [letter, digits @ ..] = word else {
        return None;
    };
    match number_of(digits) {
        Some(number) if *letter == b'r' && number <= LAST_REPLICA => Some(number as u8),
        _ => None,
    }
}

fn is_key_word(word: &[u8]) -> bool
    ensures { result ≡ spec.is_key_word word.now }
{
    is_key(word) && !word.starts_with(b"-".as_slice())
}

fn to_show<'a>(report: Report<'a>, workers: Option<u8>) -> Option<Command<'a>>
    requires { IfSome workers (λ n. (1 ≤ n) × (n ≤ MAX_WORKERS)) }
    ensures value { result ≡ show_command report.entry workers }
    ensures called { IfSome result IsCalled }
{
    match workers {
        Some(workers) => Some(Command::Play(Play {
            origin: Origin::Input,
            workers,
            report,
        })),
        None => None,
    }
}

fn to_peek<'a>(replica: Option<u8>, key: &'a [u8]) -> Option<Command<'a>>
    ensures value { result ≡ peek_command replica key.now }
    ensures called { IfSome result IsCalled }
{
    match replica {
        Some(replica) if is_key_word(key) => {
            let key = KeyRef::new(key);
            to_show(Report::Peek { replica, key }, Some(1))
        }
        _ => None,
    }
}

fn to_draw<'a>(seed: Option<u64>, count: Option<u32>) -> Option<Command<'a>>
    requires { IfSome count (λ n. (1 ≤ n) × (n ≤ MAX_REQUESTS)) }
    ensures value { result ≡ gen_command seed count }
    ensures called { IfSome result IsCalled }
{
    match (seed, count) {
        (Some(seed), Some(count)) => Some(Command::Play(Play {
            origin: Origin::Seed { seed, count },
            workers: 1,
            report: Report::Summary,
        })),
        _ => None,
    }
}

fn to_print<'a>(seed: Option<u64>, count: Option<u32>) -> Option<Command<'a>>
    requires { IfSome count (λ n. (1 ≤ n) × (n ≤ MAX_REQUESTS)) }
    ensures value { result ≡ scenario_command seed count }
    ensures called { IfSome result IsCalled }
{
    match (seed, count) {
        (Some(seed), Some(count)) => Some(Command::Scenario { seed, count }),
        _ => None,
    }
}

impl<'a> Verb<'a> {
    /// The table of words.
    fn of_word(word: &[u8]) -> Option<Verb<'a>>
        ensures { result ≡ verb_of_word word.now }
    {
        if word == b"run".as_slice() {
            Some(Verb::Show(Report::Text))
        } else if word == b"trace".as_slice() {
            Some(Verb::Show(Report::Trace))
        } else if word == b"story".as_slice() {
            Some(Verb::Show(Report::Story))
        } else if word == b"locks".as_slice() {
            Some(Verb::Show(Report::Locks))
        } else if word == b"peek".as_slice() {
            Some(Verb::Peek)
        } else if word == b"pace".as_slice() {
            Some(Verb::Pace)
        } else if word == b"gen".as_slice() {
            Some(Verb::Gen)
        } else if word == b"scenario".as_slice() {
            Some(Verb::Scenario)
        } else if word == b"check".as_slice() {
            Some(Verb::Check)
        } else if word == b"help".as_slice() {
            Some(Verb::Help)
        } else {
            None
        }
    }

    /// The command of the words after the first one.
    fn command(self, rest: &'a [Blob]) -> Option<Command<'a>>
        ensures value { result ≡ command_after (Some self.entry) rest.now }
        ensures called { IfSome result IsCalled }
    {
        match (self, rest) {
            (Verb::Show(report), _) => to_show(report, workers(rest)),
            (Verb::Peek, [actor, key]) => to_peek(replica_in(actor.as_slice()), key.as_slice()),
            (Verb::Pace, []) => to_show(Report::Pace, Some(1)),
            (Verb::Gen, [seed, count]) => {
                to_draw(number_of(seed.as_slice()), count_in(count.as_slice()))
            }
            (Verb::Scenario, [seed, count]) => {
                to_print(number_of(seed.as_slice()), count_in(count.as_slice()))
            }
            (Verb::Check, []) => Some(Command::Check),
            (Verb::Help, []) => Some(Command::Help),
            (Verb::Peek | Verb::Pace | Verb::Gen | Verb::Scenario | Verb::Check | Verb::Help, _) =>
                { None }
        }
    }
}

impl Words {
    pub fn from_list(alloc: Global, list: &[&str]) -> Result<Words, NoMemory>
        ensures { IfOk result (λ words. words ≡ map (λ word. word.now) list.now) }
    {
        let mut words = List::new(alloc);
        for word in list {
            words.push(Blob::from_slice(alloc, word.as_bytes())?)?;
        }
        Ok(Words { words })
    }

    /// The command that the words call, if they call one.
    pub fn command(&self) -> Option<Command<'_>>
        ensures value { result ≡ command_of_words self.now }
        ensures called { IfSome result IsCalled }
    {
        match self.words.as_slice() {
            [word, rest @ ..] => match Verb::of_word(word.as_slice()) {
                Some(verb) => verb.command(rest),
                None => None,
            },
            [] => None,
        }
    }
}
