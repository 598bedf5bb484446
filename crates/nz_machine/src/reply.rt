//! Replies as proxies note them.
ghost use Rattle.std.specs.Prelude.{◌≡◌};
ghost use Rattle.nz_machine.specs.rules.Proxies.{of_fast, of_slow};

use nz_base::List;
use nz_cv::CrashVector;
use nz_digest::Digest;
use nz_msg::{FastReplyBody, SlowReplyBody};
use nz_store::Answer;

/// A reply of a replica as a proxy notes it.
#[derive(Debug, Drop)]
pub enum Reply {
    Fast {
        replica: u8,
        view: u64,
        digest: Digest,
        vector: CrashVector,
        answer: Option<Answer>,
    },
    Slow {
        replica: u8,
        view: u64,
    },
}

pub type ReplyList = List<Reply>;

impl Reply {
    /// The fast reply of the replica.
    pub fn from_fast(replica: u8, body: FastReplyBody) -> Reply
        ensures { result ≡ of_fast replica body }
    {
        Reply::Fast {
            replica,
            view: body.view,
            digest: body.digest,
            vector: body.vector,
            answer: body.answer,
        }
    }

    /// The slow reply of the replica.
    pub fn from_slow(replica: u8, body: &SlowReplyBody) -> Reply
        ensures { result ≡ of_slow replica body.now }
    {
        Reply::Slow {
            replica,
            view: body.view,
        }
    }
}
