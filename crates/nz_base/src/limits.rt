//! The numbers of the protocol and its limits. Code, contracts and definitions cite them from here.

/// A log has at most this many entries; so do log, early and late together. A frame of at most 16,777,216 bytes bounds it:
/// entries of 570 bytes, so at most 29,433 of them.
pub const MAX_ENTRIES: u32 = 4096;

/// A tick in clock units.
pub const UNITS_PER_TICK: u64 = 1_000;

/// The last view.
pub const MAX_VIEW: u64 = (1 << 62) - 1;

/// Clocks stop here, in clock units.
pub const MAX_CLOCK: u64 = (1 << 62) - 1;

/// The last deadline, in clock units.
pub const MAX_DEADLINE: u64 = (1 << 63) - 1;

/// A delay counts up to this, in clock units. It is the bound of a replica that has no sample.
pub const MAX_DELAY: u64 = 10_000;

/// A log modification has at most this many keys, a fetch this many ids, its reply this many entries.
pub const MAX_KEYS: u8 = 64;

/// The longest command, in bytes.
pub const MAX_COMMAND: u16 = 552;

/// The longest value, in bytes.
pub const MAX_VALUE: u16 = 256;

/// The most replicas of a cluster.
pub const MAX_REPLICAS: usize = 9;

/// The greatest number of a replica. Numbers begin at 0.
pub const MAX_REPLICA: u8 = MAX_REPLICAS as u8 - 1;

/// Added to the bound on the delay when a proxy stamps a request, in clock units.
pub const MARGIN: u64 = 500;

/// After this many ticks without its leader, or in one view change, a replica enters the next view.
pub const VIEW_TIMEOUT_TICKS: u8 = 20;

/// A replica in a view change asks the others for their views again after this many ticks.
pub const VIEW_ASK_TICKS: u8 = 5;

/// A replica that rejoins asks again after this many ticks.
pub const REJOIN_ASK_TICKS: u8 = 5;

/// A client sends a request again after this many ticks without an answer.
pub const RETRY_TICKS: u32 = 30;

/// The greatest f of a cluster of 2f + 1 replicas.
pub const MAX_F: u32 = 4;

/// The most proxies of a scenario.
pub const MAX_PROXIES: u32 = 8;

/// The greatest number of a proxy.
pub const MAX_PROXY: u8 = MAX_PROXIES as u8 - 1;

/// The most clients of a scenario.
pub const MAX_CLIENTS: u32 = 64;

/// The greatest number of a client.
pub const MAX_CLIENT: u8 = MAX_CLIENTS as u8 - 1;

/// The most requests that a client has open at once.
pub const MAX_WINDOW: u32 = 16;

/// The last tick of a scenario, and the most ticks that a request waits.
pub const MAX_TICKS: u32 = 20_000;

/// The most requests of a scenario.
pub const MAX_REQUESTS: u64 = 2_000;

/// The most requests times ticks of a scenario.
pub const MAX_REQUEST_TICKS: u64 = 2_000_000;

/// The most fault lines of a scenario.
pub const MAX_FAULTS: u64 = 1_000;

/// The most requests times fault lines of a scenario.
pub const MAX_CHANCES: u64 = 200_000;

/// A fault line of a scenario names a parcel by its place among those that match, 1 to this.
pub const MAX_COUNT: u32 = 1_000_000;

/// The most bytes that a fault line of a scenario keeps of a parcel.
pub const MAX_KEEP: u32 = 16_777_216;

/// The longest text of a scenario, in bytes.
pub const MAX_TEXT: usize = 1_048_576;

/// The most workers of a run. The ledger of open batches has a part for each.
pub const MAX_WORKERS: usize = 16;
