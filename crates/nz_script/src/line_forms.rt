//! The table of lines.

ghost use Rattle.std.specs.Prelude.{◌≡◌, ◌==◌};
ghost use Rattle.nz_script.specs.Shapes as shapes;
ghost use Rattle.nz_script.specs.Shapes.{verb_word, verb_place, forms_of, head_shape_of, ask_shape_of, mishap_shape_of, place_rank};

use nz_base::{MAX_CLIENTS, MAX_COUNT, MAX_F, MAX_KEEP, MAX_PROXIES, MAX_TICKS, MAX_WINDOW};

/// How far a text has come: which lines may come next.
#[derive(Clone, Copy, Debug)]
pub enum Place {
    Version,
    Faulty,
    Proxies,
    Clients,
    Ticks,
    /// The line that version 2 has, and version 1 has not.
    Window,
    /// Skews at first, then the clients' blocks.
    Between,
    Block,
    Mishaps,
    Ended,
}

/// The first five lines, and the sixth of version 2.
#[derive(Clone, Copy, Debug)]
pub enum Head {
    Version,
    Faulty,
    Proxies,
    Clients,
    Ticks,
    Window,
}

/// What a client asks of the store.
#[derive(Clone, Copy, Debug)]
pub enum Ask {
    Put,
    Get,
    Del,
    Cas,
}

/// What goes wrong.
#[derive(Clone, Copy, Debug)]
pub enum Mishap {
    Drop,
    Hold,
    Twice,
    Cut,
    Block,
    Crash,
    Restart,
    Alarm,
}

/// The sort of a line, by its first word.
#[derive(Clone, Copy, Debug)]
pub enum Verb {
    Head(Head),
    Skew,
    Client,
    Ask(Ask),
    Wait,
    End,
    Mishap(Mishap),
    Done,
}

/// What may be a word after the first one.
#[derive(Clone, Copy, Debug)]
pub enum Form {
    /// A number from `least` to `most`.
    Number { least: u32, most: u32 },
    /// Clock units from -2^62 to 2^62.
    Units,
    Actor,
    /// An actor, or `*` for every actor.
    Actors,
    /// A replica or a proxy.
    Server,
    Replica,
    Client,
    /// The name of a kind of message.
    Kind,
    Key,
    Value,
    /// A value, or `-` for none.
    Choice,
}

const VERBS: [Verb; 23] = [
    Verb::Head(Head::Version),
    Verb::Head(Head::Faulty),
    Verb::Head(Head::Proxies),
    Verb::Head(Head::Clients),
    Verb::Head(Head::Ticks),
    Verb::Head(Head::Window),
    Verb::Skew,
    Verb::Client,
    Verb::Ask(Ask::Put),
    Verb::Ask(Ask::Get),
    Verb::Ask(Ask::Del),
    Verb::Ask(Ask::Cas),
    Verb::Wait,
    Verb::End,
    Verb::Mishap(Mishap::Drop),
    Verb::Mishap(Mishap::Hold),
    Verb::Mishap(Mishap::Twice),
    Verb::Mishap(Mishap::Cut),
    Verb::Mishap(Mishap::Block),
    Verb::Mishap(Mishap::Crash),
    Verb::Mishap(Mishap::Restart),
    Verb::Mishap(Mishap::Alarm),
    Verb::Done,
];

impl Place {
    fn rank(self) -> u8
        ensures { result ≡ place_rank self }
    {
        match self {
            Place::Version => 0,
            Place::Faulty => 1,
            Place::Proxies => 2,
            Place::Clients => 3,
            Place::Ticks => 4,
            Place::Window => 5,
            Place::Between => 6,
            Place::Block => 7,
            Place::Mishaps => 8,
            Place::Ended => 9,
        }
    }

    pub fn is(self, other: Place) -> bool
        ensures { result ≡ (place_rank self == place_rank other) }
    {
        self.rank() == other.rank()
    }
}

/// The first word of a line, where the line may come, and the forms of the words that follow.
#[derive(Clone, Copy, Debug)]
pub struct Shape {
    pub word: &'static [u8],
    pub place: Place,
    pub forms: &'static [Form],
}

fn row(word: &'static [u8], place: Place, forms: &'static [Form]) -> Shape
    ensures word { result.word.now ≡ word.now }
    ensures place { result.place ≡ place }
    ensures forms { result.forms.now ≡ forms.now }
{
    Shape { word, place, forms }
}

const TICK: Form = Form::Number {
    least: 1,
    most: MAX_TICKS,
};

const DELAY: Form = Form::Number {
    least: 0,
    most: MAX_TICKS,
};

const COUNT: Form = Form::Number {
    least: 1,
    most: MAX_COUNT,
};

const LENGTH: Form = Form::Number {
    least: 0,
    most: MAX_KEEP,
};

const FAULTY: Form = Form::Number {
    least: 1,
    most: MAX_F,
};

const PROXIES: Form = Form::Number {
    least: 1,
    most: MAX_PROXIES,
};

const CLIENTS: Form = Form::Number {
    least: 1,
    most: MAX_CLIENTS,
};

const WINDOW: Form = Form::Number {
    least: 2,
    most: MAX_WINDOW,
};

const VERSION: Form = Form::Number { least: 1, most: 2 };

/// The shapes of the lines of the head.
fn head_shape(head: Head) -> Shape
    ensures word { result.word.now ≡ (head_shape_of head).word }
    ensures place { result.place ≡ (head_shape_of head).place }
    ensures forms { result.forms.now ≡ (head_shape_of head).forms }
{
    match head {
        Head::Version => row(b"nezha", Place::Version, &[VERSION]),
        Head::Faulty => row(b"f", Place::Faulty, &[FAULTY]),
        Head::Proxies => row(b"proxies", Place::Proxies, &[PROXIES]),
        Head::Clients => row(b"clients", Place::Clients, &[CLIENTS]),
        Head::Ticks => row(b"ticks", Place::Ticks, &[TICK]),
        Head::Window => row(b"window", Place::Window, &[WINDOW]),
    }
}

fn ask_shape(ask: Ask) -> Shape
    ensures word { result.word.now ≡ (ask_shape_of ask).word }
    ensures place { result.place ≡ (ask_shape_of ask).place }
    ensures forms { result.forms.now ≡ (ask_shape_of ask).forms }
{
    match ask {
        Ask::Put => row(b"put", Place::Block, &[Form::Key, Form::Value]),
        Ask::Get => row(b"get", Place::Block, &[Form::Key]),
        Ask::Del => row(b"del", Place::Block, &[Form::Key]),
        Ask::Cas => row(
            b"cas",
            Place::Block,
            &[Form::Key, Form::Choice, Form::Choice],
        ),
    }
}

fn mishap_shape(mishap: Mishap) -> Shape
    ensures word { result.word.now ≡ (mishap_shape_of mishap).word }
    ensures place { result.place ≡ (mishap_shape_of mishap).place }
    ensures forms { result.forms.now ≡ (mishap_shape_of mishap).forms }
{
    let place = Place::Mishaps;
    match mishap {
        Mishap::Drop => row(
            b"drop",
            place,
            &[Form::Actor, Form::Actor, Form::Kind, COUNT],
        ),
        Mishap::Hold => row(
            b"hold",
            place,
            &[Form::Actor, Form::Actor, Form::Kind, COUNT, TICK],
        ),
        Mishap::Twice => row(
            b"twice",
            place,
            &[Form::Actor, Form::Actor, Form::Kind, COUNT, DELAY],
        ),
        Mishap::Cut => row(
            b"cut",
            place,
            &[Form::Actor, Form::Actor, Form::Kind, COUNT, LENGTH],
        ),
        Mishap::Block => row(b"block", place, &[Form::Actors, Form::Actors, TICK, TICK]),
        Mishap::Crash => row(b"crash", place, &[Form::Server, TICK]),
        Mishap::Restart => row(b"restart", place, &[Form::Server, TICK]),
        Mishap::Alarm => row(b"alarm", place, &[Form::Replica, TICK]),
    }
}

impl Verb {
    /// The shape of such a line.
    pub fn shape(self) -> Shape
        ensures word { result.word.now ≡ verb_word self }
        ensures place { result.place ≡ verb_place self }
        ensures forms { result.forms.now ≡ forms_of self }
    {
        match self {
            Verb::Head(head) => head_shape(head),
            Verb::Skew => row(b"skew", Place::Between, &[Form::Server, Form::Units]),
            Verb::Client => row(b"client", Place::Between, &[Form::Client]),
            Verb::Ask(ask) => ask_shape(ask),
            Verb::Wait => row(b"wait", Place::Block, &[TICK]),
            Verb::End => row(b"end", Place::Block, &[]),
            Verb::Mishap(mishap) => mishap_shape(mishap),
            Verb::Done => row(b"done", Place::Mishaps, &[]),
        }
    }
}

fn verb_in(verbs: &[Verb], word: &[u8]) -> Option<Verb>
    ensures { result ≡ shapes.verb_in verbs.now word.now }
{
    for verb in verbs {
        if verb.shape().word == word {
            return Some(*verb);
        }
    }
    None
}

#[tactic(auto, unfolding(crate::specs::Shapes::verb_of))]
/// The sort of the lines with this first word.
pub fn verb_of(word: &[u8]) -> Option<Verb>
    ensures { result ≡ shapes.verb_of word.now }
{
    verb_in(&VERBS, word)
}
