//! The one text of a scenario.

ghost use Rattle.std.specs.Prelude.{◌≡◌, ◌++◌, ◌∷◌, [], IfOk, OnOk, Ok, Some, map, length, take, ◌≤◌};
ghost use Rattle.std.specs.Fmt.{decimal};
ghost use Rattle.std.specs.Option.{option_map};
ghost use Rattle.nz_store.specs.Reading.{command_of, command_owned};
ghost use Rattle.nz_script.specs.Lines.{a_line};
ghost use Rattle.nz_script.specs.Texts as texts;
ghost use Rattle.nz_script.specs.Texts.{actor_text, word_text, words_text, line_text, text_of_lines, number_line, window_lines, head_lines, skew_line};
ghost use Rattle.nz_script.specs.Texts.{command_line, wait_lines, lines_of_command, request_lines, script_lines, scripts_lines, fault_line, text_of};
ghost use Rattle.nz_script.specs.declared.line_forms.Verb.TheVariants as verb;
ghost use Rattle.nz_script.specs.declared.word.Word.TheVariants as word;
ghost use Rattle.nz_script.specs.Valid.{IsValid};
ghost use Rattle.nz_script.specs.Reading as reading;

use super::line_forms::{Ask, Head, Mishap, Verb};
use super::message::name_of;
use super::word::Word;
use itoa::Buffer;
use nz_base::{Actor, Blob, Fault, NoMemory, Request, RequestList, Scenario, Skew};
use nz_store::{CommandRef, command_in};
use std::alloc::Global;

/// Writes the bytes.
pub fn put(out: &mut Vec<u8>, bytes: &[u8]) -> Result<(), NoMemory>
    ensures { OnOk result (out.new.items ≡ out.old.items ++ bytes.now) }
{
    out.extend_from_slice(bytes)?;
    Ok(())
}

/// Writes the number in decimal. Its digits take no memory but that of `out`.
pub fn put_number(out: &mut Vec<u8>, number: u64) -> Result<(), NoMemory>
    ensures { OnOk result (out.new.items ≡ out.old.items ++ decimal number) }
{
    put(out, Buffer::new().format(number).as_bytes())
}

/// Writes the actor's name.
pub fn put_actor(out: &mut Vec<u8>, actor: Actor) -> Result<(), NoMemory>
    ensures { OnOk result (out.new.items ≡ out.old.items ++ actor_text actor) }
{
    let (letter, number) = match actor {
        Actor::Replica(number) => (b'r', number),
        Actor::Proxy(number) => (b'p', number),
        Actor::Client(number) => (b'c', number),
    };
    out.push(letter)?;
    put_number(out, u64::from(number))
}

fn put_word(out: &mut Vec<u8>, word: &Word) -> Result<(), NoMemory>
    ensures { OnOk result (out.new.items ≡ out.old.items ++ word_text word.now) }
{
    match word {
        Word::Number(number) => put_number(out, *number),
        Word::Units { back, number } => {
            if *back {
                out.push(b'-')?;
            }
            put_number(out, *number)
        }
        Word::Named(actor) => put_actor(out, *actor),
        Word::Everyone => put(out, b"*"),
        Word::Kind(Some(kind)) => put(out, name_of(*kind)),
        Word::Kind(None) => Ok(()),
        Word::Text(text) => put(out, text.as_slice()),
        Word::Nothing => put(out, b"-"),
    }
}

fn put_words(out: &mut Vec<u8>, words: &[Word]) -> Result<(), NoMemory>
    ensures { OnOk result (out.new.items ≡ out.old.items ++ words_text words.now) }
{
    let [word, others @ ..] = words else {
        return Ok(());
    };
    out.push(b' ')?;
    put_word(out, word)?;
    put_words(out, others)
}

/// Writes a line without its newline.
fn put_shaped(out: &mut Vec<u8>, verb: Verb, words: &[Word]) -> Result<(), NoMemory>
    ensures { OnOk result (out.new.items ≡ out.old.items ++ line_text (a_line verb words.now)) }
{
    put(out, verb.shape().word)?;
    put_words(out, words)
}

/// Writes a line and its newline.
fn put_line(out: &mut Vec<u8>, verb: Verb, words: &[Word]) -> Result<(), NoMemory>
    ensures { OnOk result (out.new.items ≡ out.old.items ++ text_of_lines (a_line verb words.now ∷ [])) }
{
    put_shaped(out, verb, words)?;
    out.push(b'\n')?;
    Ok(())
}

fn put_number_line(out: &mut Vec<u8>, verb: Verb, number: u32) -> Result<(), NoMemory>
    ensures { OnOk result (out.new.items ≡ out.old.items ++ text_of_lines (number_line verb number ∷ [])) }
{
    put_line(out, verb, &[Word::Number(u64::from(number))])
}

/// Version 1 is that of the texts where each client has at most one request open.
pub fn version_of(window: u8) -> u32
    ensures { result ≡ texts.version_of window }
{
    if window == 1 { 1 } else { 2 }
}

fn put_window(out: &mut Vec<u8>, window: u8) -> Result<(), NoMemory>
    ensures { OnOk result (out.new.items ≡ out.old.items ++ text_of_lines (window_lines window)) }
{
    if window == 1 {
        return Ok(());
    }
    put_number_line(out, Verb::Head(Head::Window), u32::from(window))
}

fn put_head(out: &mut Vec<u8>, scenario: &Scenario) -> Result<(), NoMemory>
    ensures { OnOk result (out.new.items ≡ out.old.items ++ text_of_lines (head_lines scenario.now)) }
{
    let version = version_of(scenario.window);
    put_number_line(out, Verb::Head(Head::Version), version)?;
    put_number_line(
        out,
        Verb::Head(Head::Faulty),
        u32::from(scenario.cluster.f()),
    )?;
    put_number_line(out, Verb::Head(Head::Proxies), u32::from(scenario.proxies))?;
    put_number_line(out, Verb::Head(Head::Clients), u32::from(scenario.clients))?;
    put_number_line(out, Verb::Head(Head::Ticks), scenario.ticks)?;
    put_window(out, scenario.window)
}

pub fn units_of(units: i64) -> Word
    ensures { result ≡ texts.units_of units }
{
    Word::Units {
        back: units < 0,
        number: units.unsigned_abs(),
    }
}

fn put_skews(out: &mut Vec<u8>, skews: &[Skew]) -> Result<(), NoMemory>
    ensures { OnOk result (out.new.items ≡ out.old.items ++ text_of_lines (map skew_line skews.now)) }
{
    for skew in skews {
        put_line(
            out,
            Verb::Skew,
            &[Word::Named(skew.actor), units_of(skew.units)],
        )?;
    }
    Ok(())
}

/// The choice as a word of a line.
fn choice_text(choice: Option<&[u8]>) -> &[u8]
    ensures { result.now ≡ word_text (texts.choice_of (option_map (λ v. v.now) choice.entry)) }
{
    match choice {
        None => b"-",
        Some(value) => value,
    }
}

/// Writes the words, each after a space.
fn put_texts(out: &mut Vec<u8>, words: &[&[u8]]) -> Result<(), NoMemory>
    ensures { OnOk result (out.new.items ≡ out.old.items ++ words_text (map (λ w. word.Text w.now) words.now)) }
{
    for word in words {
        out.push(b' ')?;
        put(out, word)?;
    }
    Ok(())
}

/// Writes the line of a command of these words, without its newline.
fn put_asked(out: &mut Vec<u8>, ask: Ask, words: &[&[u8]]) -> Result<(), NoMemory>
    ensures { OnOk result (out.new.items ≡ out.old.items ++ line_text (a_line (verb.Ask ask) (map (λ w. word.Text w.now) words.now))) }
{
    put(out, Verb::Ask(ask).shape().word)?;
    put_texts(out, words)
}

/// Writes the command as its line in a scenario has it, without the newline.
pub fn put_command(out: &mut Vec<u8>, command: CommandRef<'_>) -> Result<(), NoMemory>
    ensures { OnOk result (out.new.items ≡ out.old.items ++ line_text (command_line (command_owned command.entry))) }
{
    match command {
        CommandRef::Put { key, value } => put_asked(out, Ask::Put, &[key, value]),
        CommandRef::Get { key } => put_asked(out, Ask::Get, &[key]),
        CommandRef::Del { key } => put_asked(out, Ask::Del, &[key]),
        CommandRef::Cas { key, old, new } => {
            put_asked(out, Ask::Cas, &[key, choice_text(old), choice_text(new)])
        }
    }
}

fn put_command_line(out: &mut Vec<u8>, command: CommandRef<'_>) -> Result<(), NoMemory>
    ensures { OnOk result (out.new.items ≡ out.old.items ++ text_of_lines (command_line (command_owned command.entry) ∷ [])) }
{
    put_command(out, command)?;
    out.push(b'\n')?;
    Ok(())
}

fn put_wait(out: &mut Vec<u8>, wait: u32) -> Result<(), NoMemory>
    ensures { OnOk result (out.new.items ≡ out.old.items ++ text_of_lines (wait_lines wait)) }
{
    if wait == 0 {
        return Ok(());
    }
    put_number_line(out, Verb::Wait, wait)
}

fn put_request(out: &mut Vec<u8>, request: &Request) -> Result<(), NoMemory>
    ensures { OnOk result (out.new.items ≡ out.old.items ++ text_of_lines (request_lines request.now)) }
{
    put_wait(out, request.wait)?;
    match command_in(request.command.as_slice()) {
        None => Ok(()),
        Some(command) => put_command_line(out, command),
    }
}

fn put_script(out: &mut Vec<u8>, script: &[Request]) -> Result<(), NoMemory>
    ensures { OnOk result (out.new.items ≡ out.old.items ++ text_of_lines (script_lines script.now)) }
{
    for request in script {
        put_request(out, request)?;
    }
    put_line(out, Verb::End, &[])
}

fn put_scripts(out: &mut Vec<u8>, scripts: &[RequestList]) -> Result<(), NoMemory>
    requires { length scripts.now ≤ 255 }
    ensures { OnOk result (out.new.items ≡ out.old.items ++ text_of_lines (scripts_lines 0 scripts.now)) }
{
    let mut client = 0;
    for script in scripts {
        put_line(out, Verb::Client, &[Word::Named(Actor::Client(client))])?;
        put_script(out, script.as_slice())?;
        client += 1;
    }
    Ok(())
}

fn number(number: u32) -> Word
    ensures { result ≡ word.Number number }
{
    Word::Number(u64::from(number))
}

pub fn actors_word(actors: Option<Actor>) -> Word
    ensures { result ≡ texts.actors_word actors }
{
    match actors {
        None => Word::Everyone,
        Some(actor) => Word::Named(actor),
    }
}

type Parts = (Verb, [Word; 5], usize);

/// The words of a fault of the parcel of this kind that has this number among them.
fn parcel_words(from: Actor, to: Actor, kind: u8, count: u32, last: Word) -> [Word; 5]
    ensures { result ≡ word.Named from ∷ word.Named to ∷ word.Kind (Some kind) ∷ word.Number count ∷ last ∷ [] }
{
    let kind = Word::Kind(Some(kind));
    [
        Word::Named(from),
        Word::Named(to),
        kind,
        number(count),
        last,
    ]
}

fn block_words(from: Option<Actor>, to: Option<Actor>, first: u32, last: u32) -> [Word; 5]
    ensures { result ≡ texts.actors_word from ∷ texts.actors_word to ∷ word.Number first ∷ word.Number last ∷ word.Nothing ∷ [] }
{
    let nothing = Word::Nothing;
    [
        actors_word(from),
        actors_word(to),
        number(first),
        number(last),
        nothing,
    ]
}

fn timed(mishap: Mishap, actor: Actor, tick: u32) -> Parts
    ensures verb { result.0 ≡ verb.Mishap mishap }
    ensures words { take result.2 result.1 ≡ word.Named actor ∷ word.Number tick ∷ [] }
    ensures short { result.2 ≤ 5 }
{
    let none = Word::Nothing;
    let words = [
        Word::Named(actor),
        number(tick),
        none,
        Word::Nothing,
        Word::Nothing,
    ];
    (Verb::Mishap(mishap), words, 2)
}

/// The sort of the fault's line, its words, and how many of these there are.
pub fn fault_parts(fault: &Fault) -> Parts
    ensures line { a_line result.0 (take result.2 result.1) ≡ fault_line fault.now }
    ensures short { result.2 ≤ 5 }
{
    match *fault {
        Fault::Drop {
            from,
            to,
            kind,
            count,
        } => (
            Verb::Mishap(Mishap::Drop),
            parcel_words(from, to, kind, count, Word::Nothing),
            4,
        ),
        Fault::Hold {
            from,
            to,
            kind,
            count,
            by,
        } => (
            Verb::Mishap(Mishap::Hold),
            parcel_words(from, to, kind, count, number(by)),
            5,
        ),
        Fault::Twice {
            from,
            to,
            kind,
            count,
            by,
        } => (
            Verb::Mishap(Mishap::Twice),
            parcel_words(from, to, kind, count, number(by)),
            5,
        ),
        Fault::Cut {
            from,
            to,
            kind,
            count,
            keep,
        } => (
            Verb::Mishap(Mishap::Cut),
            parcel_words(from, to, kind, count, number(keep)),
            5,
        ),
        Fault::Block {
            from,
            to,
            first,
            last,
        } => (
            Verb::Mishap(Mishap::Block),
            block_words(from, to, first, last),
            4,
        ),
        Fault::Crash { actor, tick } => timed(Mishap::Crash, actor, tick),
        Fault::Restart { actor, tick } => timed(Mishap::Restart, actor, tick),
        Fault::Alarm { actor, tick } => timed(Mishap::Alarm, actor, tick),
    }
}

fn put_fault(out: &mut Vec<u8>, fault: &Fault) -> Result<(), NoMemory>
    ensures { OnOk result (out.new.items ≡ out.old.items ++ text_of_lines (fault_line fault.now ∷ [])) }
{
    let (verb, words, len) = fault_parts(fault);
    put_line(out, verb, &words[..len])
}

fn put_faults(out: &mut Vec<u8>, faults: &[Fault]) -> Result<(), NoMemory>
    ensures { OnOk result (out.new.items ≡ out.old.items ++ text_of_lines (map fault_line faults.now)) }
{
    for fault in faults {
        put_fault(out, fault)?;
    }
    Ok(())
}

/// The one text of the scenario. Reading it gives the scenario back.
#[tactic(auto, unfolding(crate::specs::Texts::text_of))]
pub fn print(alloc: Global, scenario: &Scenario) -> Result<Blob, NoMemory>
    requires { IsValid scenario.now }
    ensures text { IfOk result (λ text. text ≡ text_of scenario.now) }
    ensures read_back { IfOk result (λ text. reading.scenario text ≡ Ok scenario.now) }
{
    let mut out = Vec::new(alloc);
    put_head(&mut out, scenario)?;
    put_skews(&mut out, scenario.skews.as_slice())?;
    put_scripts(&mut out, scenario.scripts.as_slice())?;
    put_faults(&mut out, scenario.faults.as_slice())?;
    put_line(&mut out, Verb::Done, &[])?;
    Ok(Blob::from_vec(out))
}
