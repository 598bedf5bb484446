//! Whether the text of a scenario is short enough, part by part.

ghost use Rattle.std.specs.Prelude.{◌≡◌, ◌≤◌, ◌∷◌, [], length, map, Some, None};
ghost use Rattle.std.specs.Fmt.{decimal};
ghost use Rattle.nz_store.specs.Reading.{command_of};
ghost use Rattle.nz_script.specs.Lines.{a_line};
ghost use Rattle.nz_script.specs.Texts.{actor_text, word_text, words_text, text_of_lines, window_lines, head_lines, number_line, skew_line};
ghost use Rattle.nz_script.specs.Texts.{wait_lines, lines_of_command, request_lines, script_lines, scripts_lines, fault_line, text_of};
ghost use Rattle.nz_script.specs.Sizes.{room_after};

use super::command_len::spelled_len;
use super::line_forms::{Head, Verb};
use super::message::name_of;
use super::printing::{fault_parts, units_of, version_of};
use super::word::Word;
use nz_base::{Actor, Fault, Request, RequestList, Scenario, Skew};

/// What is left of a room when this many bytes are taken.
fn room_left(room: u32, len: u32) -> Option<u32>
    ensures { result ≡ room_after room len }
{
    if len <= room { Some(room - len) } else { None }
}

/// How many digits the number has.
fn decimal_len(number: u64) -> u32
    ensures value { result ≡ length (decimal number) }
    ensures short { result ≤ 20 }
{
    let mut left = number;
    let mut len = 1;
    while left >= 10 {
        left /= 10;
        len += 1;
    }
    len
}

fn bytes_room(room: u32, bytes: &[u8]) -> Option<u32>
    ensures { result ≡ room_after room (length bytes.now) }
{
    let len = bytes.len();
    if len <= room as usize {
        Some(room - len as u32)
    } else {
        None
    }
}

fn actor_room(room: u32, actor: Actor) -> Option<u32>
    ensures { result ≡ room_after room (length (actor_text actor)) }
{
    match actor {
        Actor::Replica(number) | Actor::Proxy(number) | Actor::Client(number) => room_left(
            room,
            1 + decimal_len(u64::from(number)),
        ),
    }
}

fn word_room(room: u32, word: &Word) -> Option<u32>
    ensures { result ≡ room_after room (length (word_text word.now)) }
{
    match word {
        Word::Number(number) => room_left(room, decimal_len(*number)),
        Word::Units { back: true, number } => room_left(room, 1 + decimal_len(*number)),
        Word::Units {
            back: false,
            number,
        } => room_left(room, decimal_len(*number)),
        Word::Named(actor) => actor_room(room, *actor),
        Word::Everyone => room_left(room, 1),
        Word::Kind(Some(kind)) => bytes_room(room, name_of(*kind)),
        Word::Kind(None) => Some(room),
        Word::Text(text) => bytes_room(room, text.as_slice()),
        Word::Nothing => room_left(room, 1),
    }
}

fn words_room(room: u32, words: &[Word]) -> Option<u32>
    ensures { result ≡ room_after room (length (words_text words.now)) }
{
    let [word, others @ ..] = words else {
        return Some(room);
    };
    let room = room_left(room, 1)?;
    let room = word_room(room, word)?;
    words_room(room, others)
}

fn line_room(room: u32, verb: Verb, words: &[Word]) -> Option<u32>
    ensures { result ≡ room_after room (length (text_of_lines (a_line verb words.now ∷ []))) }
{
    let room = bytes_room(room, verb.shape().word)?;
    let room = words_room(room, words)?;
    room_left(room, 1)
}

fn number_room(room: u32, verb: Verb, number: u32) -> Option<u32>
    ensures { result ≡ room_after room (length (text_of_lines (number_line verb number ∷ []))) }
{
    line_room(room, verb, &[Word::Number(u64::from(number))])
}

fn window_room(room: u32, window: u8) -> Option<u32>
    ensures { result ≡ room_after room (length (text_of_lines (window_lines window))) }
{
    if window == 1 {
        return Some(room);
    }
    number_room(room, Verb::Head(Head::Window), u32::from(window))
}

fn head_room(room: u32, scenario: &Scenario) -> Option<u32>
    ensures { result ≡ room_after room (length (text_of_lines (head_lines scenario.now))) }
{
    let version = version_of(scenario.window);
    let room = number_room(room, Verb::Head(Head::Version), version)?;
    let room = number_room(
        room,
        Verb::Head(Head::Faulty),
        u32::from(scenario.cluster.f()),
    )?;
    let room = number_room(room, Verb::Head(Head::Proxies), u32::from(scenario.proxies))?;
    let room = number_room(room, Verb::Head(Head::Clients), u32::from(scenario.clients))?;
    let room = number_room(room, Verb::Head(Head::Ticks), scenario.ticks)?;
    window_room(room, scenario.window)
}

fn skews_room(room: u32, skews: &[Skew]) -> Option<u32>
    ensures { result ≡ room_after room (length (text_of_lines (map skew_line skews.now))) }
{
    let mut room = room;
    for skew in skews {
        room = line_room(
            room,
            Verb::Skew,
            &[Word::Named(skew.actor), units_of(skew.units)],
        )?;
    }
    Some(room)
}

fn wait_room(room: u32, wait: u32) -> Option<u32>
    ensures { result ≡ room_after room (length (text_of_lines (wait_lines wait))) }
{
    if wait == 0 {
        return Some(room);
    }
    number_room(room, Verb::Wait, wait)
}

fn command_room(room: u32, bytes: &[u8]) -> Option<u32>
    ensures { result ≡ room_after room (length (text_of_lines (lines_of_command (command_of bytes.now)))) }
{
    match spelled_len(bytes) {
        None => Some(room),
        Some(len) => room_left(room_left(room, len)?, 1),
    }
}

fn request_room(room: u32, request: &Request) -> Option<u32>
    ensures { result ≡ room_after room (length (text_of_lines (request_lines request.now))) }
{
    let room = wait_room(room, request.wait)?;
    command_room(room, request.command.as_slice())
}

fn script_room(room: u32, script: &[Request]) -> Option<u32>
    ensures { result ≡ room_after room (length (text_of_lines (script_lines script.now))) }
{
    let mut room = room;
    for request in script {
        room = request_room(room, request)?;
    }
    line_room(room, Verb::End, &[])
}

fn scripts_room(room: u32, scripts: &[RequestList]) -> Option<u32>
    requires { length scripts.now ≤ 255 }
    ensures { result ≡ room_after room (length (text_of_lines (scripts_lines 0 scripts.now))) }
{
    let mut room = room;
    let mut client = 0;
    for script in scripts {
        room = line_room(room, Verb::Client, &[Word::Named(Actor::Client(client))])?;
        room = script_room(room, script.as_slice())?;
        client += 1;
    }
    Some(room)
}

fn fault_room(room: u32, fault: &Fault) -> Option<u32>
    ensures { result ≡ room_after room (length (text_of_lines (fault_line fault.now ∷ []))) }
{
    let (verb, words, len) = fault_parts(fault);
    line_room(room, verb, &words[..len])
}

fn faults_room(room: u32, faults: &[Fault]) -> Option<u32>
    ensures { result ≡ room_after room (length (text_of_lines (map fault_line faults.now))) }
{
    let mut room = room;
    for fault in faults {
        room = fault_room(room, fault)?;
    }
    Some(room)
}

/// What the text of the scenario leaves of a room.
#[tactic(auto, unfolding(crate::specs::Texts::text_of))]
pub fn scenario_room(room: u32, scenario: &Scenario) -> Option<u32>
    requires { length scenario.now.scripts ≤ 255 }
    ensures { result ≡ room_after room (length (text_of scenario.now)) }
{
    let room = head_room(room, scenario)?;
    let room = skews_room(room, scenario.skews.as_slice())?;
    let room = scripts_room(room, scenario.scripts.as_slice())?;
    let room = faults_room(room, scenario.faults.as_slice())?;
    line_room(room, Verb::Done, &[])
}
