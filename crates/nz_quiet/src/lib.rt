//! The pace of a quiet cluster: how many ticks a request takes where nothing goes wrong.
#![tactic(auto)]

mod laws;
mod laws_of_clients;
mod laws_of_proxies;
mod pace;
mod pace_lines;
mod quiet;
mod replicas;
mod schedule;

pub use laws::{prompt, runs_stay_quiet};
pub use laws_of_clients::{clients_do_their_part, clients_hear_what_they_may};
pub use laws_of_proxies::{
    bounds_are_two, proxies_do_their_part, proxies_hear_what_they_may, replies_decide,
    requests_are_answered,
};
pub use pace_lines::put_pace;
pub use quiet::is_quiet;
pub use replicas::{
    a_replica_hears, a_replica_ticks, entries_are_few, log_mods_are_taken_calmly,
    releases_are_replied,
};
pub use schedule::{
    a_tick_is_a_fold, a_tick_is_heard, flight_is_of_actors, records_in_order_are_a_run,
    requests_go_to_all_replicas,
};
