//! Whether a scenario is one that a text can have.

ghost use Rattle.std.specs.Prelude.{◌≡◌, ◌↔◌, ◌≤◌, ◌<◌, ◌^◌, IsTrue, length};
ghost use Rattle.std.specs.List.{list_all};
ghost use Rattle.nz_base.specs.Actor.{is_within};
ghost use Rattle.nz_base.specs.declared.scenario.Scenario.{Scenario as ScenarioModel};
ghost use Rattle.nz_script.specs.Lines.{a_line};
ghost use Rattle.nz_script.specs.Texts.{skew_line, fault_line};
ghost use Rattle.nz_script.specs.Valid as valid;
ghost use Rattle.nz_script.specs.Valid.{group_of_scenario, requests_in_all, has_faults, IsValid};

use super::checks::{are_known, are_within, fits_faults, fits_requests, has_skew, is_span};
use super::command_len::spelled_len;
use super::group::Group;
use super::line_forms::Verb;
use super::printing::{fault_parts, units_of};
use super::sizes::scenario_room;
use super::word::Word;
use nz_base::{
    Fault, MAX_CLIENTS, MAX_F, MAX_PROXIES, MAX_TEXT, MAX_TICKS, MAX_WINDOW, Request, RequestList,
    Scenario, Skew,
};

/// A scenario that may be run and written.
pub trait ValidScenario {
    /// Whether it may.
    ghost Holds: { Self → Type 0 };

    /// Whether the scenario is as a run asks, and its text has at most 1,048,576 bytes.
    fn is_valid(&self) -> bool
        ensures { IsTrue result ↔ Holds self.now };
}

fn group_of(scenario: &Scenario) -> Group
    ensures { result ≡ group_of_scenario scenario.now }
{
    Group {
        cluster: scenario.cluster,
        proxies: scenario.proxies,
        clients: scenario.clients,
        window: scenario.window,
    }
}

fn is_between(least: u32, most: u32, number: u32) -> bool
    ensures { result ≡ is_within least most number }
{
    least <= number && number <= most
}

fn has_group(scenario: &Scenario) -> bool
    ensures { result ≡ valid.has_group scenario.now }
{
    let few = is_between(1, MAX_F, u32::from(scenario.cluster.f()))
        && is_between(1, MAX_PROXIES, u32::from(scenario.proxies));
    let many = is_between(1, MAX_CLIENTS, u32::from(scenario.clients))
        && is_between(1, MAX_TICKS, scenario.ticks);
    let open = is_between(1, MAX_WINDOW, u32::from(scenario.window));
    few && many && (open && scenario.scripts.len() == u32::from(scenario.clients))
}

/// Whether the actors of the line are there and its numbers in range.
fn is_sound(group: &Group, verb: Verb, words: &[Word]) -> bool
    ensures { result ≡ valid.is_sound group.now (a_line verb words.now) }
{
    let forms = verb.shape().forms;
    are_known(group, forms, words) && (are_within(forms, words) && is_span(verb, words))
}

fn is_sound_skew(group: &Group, skew: &Skew) -> bool
    ensures { result ≡ valid.is_sound group.now (skew_line skew.now) }
{
    is_sound(
        group,
        Verb::Skew,
        &[Word::Named(skew.actor), units_of(skew.units)],
    )
}

fn are_apart(skews: &[Skew]) -> bool
    ensures { result ≡ valid.are_apart skews.now }
{
    for i in 0..skews.len() {
        if has_skew(&skews[i + 1..], skews[i].actor) {
            return false;
        }
    }
    true
}

fn are_sound_skews(group: &Group, skews: &[Skew]) -> bool
    ensures { result ≡ list_all (λ k. valid.is_sound group.now (skew_line k)) skews.now }
{
    skews.iter().all(|skew| is_sound_skew(group, skew))
}

fn has_skews(scenario: &Scenario) -> bool
    ensures { result ≡ valid.has_skews scenario.now }
{
    let skews = scenario.skews.as_slice();
    are_sound_skews(&group_of(scenario), skews) && are_apart(skews)
}

fn is_request(request: &Request) -> bool
    ensures { result ≡ valid.is_request request.now }
{
    request.wait <= MAX_TICKS && spelled_len(request.command.as_slice()).is_some()
}

fn are_requests(script: &[Request]) -> bool
    ensures { result ≡ valid.are_requests script.now }
{
    script.iter().all(is_request)
}

fn are_scripts(scripts: &[RequestList]) -> bool
    ensures { result ≡ list_all valid.are_requests scripts.now }
{
    scripts.iter().all(|script| are_requests(script.as_slice()))
}

/// How many requests there are in all.
fn request_count(scripts: &[RequestList]) -> u64
    requires { length scripts.now ≤ 255 }
    ensures value { result ≡ requests_in_all scripts.now }
    ensures bound { result < 2 ^ 40 }
{
    let mut count = 0;
    for script in scripts {
        count += u64::from(script.len());
    }
    count
}

fn has_few(scenario: &Scenario) -> bool
    requires { length scenario.now.scripts ≤ 255 }
    ensures { result ≡ valid.has_few scenario.now }
{
    let requests = request_count(scenario.scripts.as_slice());
    fits_requests(requests, scenario.ticks)
        && fits_faults(requests, u64::from(scenario.faults.len()))
}

fn is_sound_fault(group: &Group, fault: &Fault) -> bool
    ensures { result ≡ valid.is_sound group.now (fault_line fault.now) }
{
    let (verb, words, len) = fault_parts(fault);
    is_sound(group, verb, &words[..len])
}

fn are_sound_faults(group: &Group, faults: &[Fault]) -> bool
    ensures { result ≡ list_all (λ f. valid.is_sound group.now (fault_line f)) faults.now }
{
    faults.iter().all(|fault| is_sound_fault(group, fault))
}

fn is_short(scenario: &Scenario) -> bool
    requires { length scenario.now.scripts ≤ 255 }
    ensures { result ≡ valid.is_short scenario.now }
{
    scenario_room(MAX_TEXT as u32, scenario).is_some()
}

fn is_valid(scenario: &Scenario) -> bool
    ensures { result ≡ valid.is_valid scenario.now }
{
    let first = has_group(scenario) && has_skews(scenario);
    if !first {
        return false;
    }
    let second = are_scripts(scenario.scripts.as_slice()) && has_few(scenario);
    let group = group_of(scenario);
    second && (are_sound_faults(&group, scenario.faults.as_slice()) && is_short(scenario))
}

impl ValidScenario for Scenario {
    ghost Holds = { IsValid };

    fn is_valid(&self) -> bool {
        is_valid(self)
    }
}
