//! A proxy: a core that stamps requests with deadlines, and answers clients where a quorum of replies
//! decides.
#![tactic(auto)]

mod proxy;
mod standing;
mod state;

pub use proxy::Proxy;
