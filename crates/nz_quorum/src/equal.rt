//! Whether two replies are one.

ghost use Rattle.std.specs.Prelude.{◌≡◌};
ghost use Rattle.std.specs.Option.{option_eq};
ghost use Rattle.nz_machine.specs.rules.Quorums.{answer_eq, reply_eq};

use nz_machine::Reply;
use nz_store::Answer;

fn same_answer(a: &Answer, b: &Answer) -> bool
    ensures { result ≡ answer_eq a.now b.now }
{
    match (a, b) {
        (Answer::Done, Answer::Done) => true,
        (Answer::Value(x), Answer::Value(y)) => x.as_slice() == y.as_slice(),
        (Answer::Absent, Answer::Absent) => true,
        (Answer::Differs, Answer::Differs) => true,
        _ => false,
    }
}

fn same_choice(a: &Option<Answer>, b: &Option<Answer>) -> bool
    ensures { result ≡ option_eq answer_eq a.now b.now }
{
    match (a, b) {
        (None, None) => true,
        (Some(x), Some(y)) => same_answer(x, y),
        _ => false,
    }
}

/// Whether the replies are equal.
pub fn same_reply(a: &Reply, b: &Reply) -> bool
    ensures { result ≡ reply_eq a.now b.now }
{
    match (a, b) {
        (
            Reply::Fast {
                replica: r,
                view: v,
                digest: d,
                vector: u,
                answer: x,
            },
            Reply::Fast {
                replica: s,
                view: w,
                digest: e,
                vector: t,
                answer: y,
            },
        ) => r == s && v == w && d == e && u == t && same_choice(x, y),
        (
            Reply::Slow {
                replica: r,
                view: v,
            },
            Reply::Slow {
                replica: s,
                view: w,
            },
        ) => r == s && v == w,
        _ => false,
    }
}
