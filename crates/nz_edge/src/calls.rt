//! Which calls of a source or a sink in memory fail.

ghost use Rattle.std.specs.Prelude.{◌≡◌, ◌↔◌, IsTrue, Contains};
ghost use Rattle.nz_edge.specs.Faults.{one_fault_more};

use nz_base::List;

/// Numbers of calls, from 1.
pub type CallList = List<u32>;

/// Counts the calls of a source or a sink, and knows which of them fail.
#[derive(Debug, Drop)]
pub struct Calls {
    pub fail: CallList,
    pub made: u64,
}

impl Calls {
    pub fn new(fail: CallList) -> Calls
        ensures { result ≡ record { fail = fail; made = 0 } }
    {
        Calls { fail, made: 0 }
    }

    /// Counts one more call, and says whether it is to fail.
    pub fn next_fails(&mut self) -> bool
        ensures counted { self.new ≡ record self.old { made = one_fault_more self.old.made } }
        ensures listed { IsTrue result ↔ Contains self.old.fail (one_fault_more self.old.made) }
    {
        self.made = self.made.saturating_add(1);
        let made = self.made;
        self.fail
            .as_slice()
            .iter()
            .any(|number| u64::from(*number) == made)
    }
}
