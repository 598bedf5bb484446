//! A stream of items, read from a source in any pieces.

ghost use Rattle.std.specs.Prelude.{◌≡◌, ◌≤◌, ◌+◌, [], length, None, Err, IfOk, IfErr, IfSome, OnOk, OnErr};
ghost use Rattle.nz_edge.specs.Faults.{Rose};
ghost use Rattle.nz_edge.specs.Exposed.{Loses};
ghost use Rattle.nz_lane.specs.Items.{IsValidItem};
ghost use Rattle.nz_lane.specs.Streams.{ahead, given, place_after};
ghost use Rattle.nz_lane.specs.Stops.{IsNoRefusal, IsRefusalOf, IsSettledBy};
ghost use Rattle.nz_lane.specs.declared.lane_reader.Stop.TheVariants as stops;

use super::item::{Item, ItemRefusal};
use super::reading::{MOST_WANTED, item_of, wanted};
use bytes::BytesMut;
use nz_edge::{Failed, Source};
use std::alloc::{AllocError, Global};
use std::marker::Model;

/// How much is asked of the source at a time.
const PIECE: usize = 4_096;

/// Why there is no next item.
#[derive(Clone, Copy, Debug, PartialEq, Eq)]
pub enum Stop {
    /// The source failed.
    Fault,
    NoMemory,
    /// The bytes at this place, counted from the first one of the stream, begin no item.
    Refused { place: u64, why: ItemRefusal },
}

impl From<AllocError> for Stop {
    ghost from_gives = { λ _ stop. stop ≡ stops.NoMemory };

    fn from(_: AllocError) -> Stop {
        Stop::NoMemory
    }
}

impl From<Failed> for Stop {
    ghost from_gives = { λ _ stop. stop ≡ stops.Fault };

    fn from(_: Failed) -> Stop {
        Stop::Fault
    }
}

/// Reads a stream of items from a source, which gives its bytes in any pieces.
#[derive(Drop)]
pub struct LaneReader {
    held: BytesMut,
    /// How many bytes of the stream were given as items.
    place: u64,
}

impl Model for LaneReader {
    ghost use Rattle.nz_lane.specs.Streams.{Held};

    ghost Value = { Held };

    ghost view = { λ r. record { bytes = r.held.items; place = r.place } };
}

impl LaneReader {
    /// Before the first item.
    pub fn new(alloc: Global) -> LaneReader
        ensures { result ≡ record { bytes = []; place = 0 } }
    {
        LaneReader {
            held: BytesMut::new(alloc),
            place: 0,
        }
    }

    /// Reads once. Gives how many bytes came, none at the end of the input.
    fn read_piece<S: Source>(&mut self, source: &mut S) -> Result<usize, Stop>
        ensures ahead { ahead self.old (S.left source.old) ≡ ahead self.new (S.left source.new) }
        ensures place { self.new.place ≡ self.old.place }
        ensures more { IfOk result (λ count. length self.new.bytes ≡ length self.old.bytes + count) }
        ensures end { IfOk result (λ count. count ≡ 0 → IfSome (S.left source.new) (λ rest. rest ≡ [])) }
        ensures fault { result ≡ Err stops.Fault → Rose (S.faults source.old) (S.faults source.new) }
        ensures counts { S.faults source.old ≤ S.faults source.new }
        ensures ours { IfErr result IsNoRefusal }
    {
        self.held.reserve(PIECE)?;
        let mut piece = [0; PIECE];
        let count = source.read(&mut piece)?;
        self.held.extend_reserved(&piece[..count]);
        Ok(count)
    }

    /// Reads until the item at the beginning is whole, or the input ends.
    fn fill<S: Source>(&mut self, source: &mut S) -> Result<(), Stop>
        ensures ahead { ahead self.old (S.left source.old) ≡ ahead self.new (S.left source.new) }
        ensures place { self.new.place ≡ self.old.place }
        ensures whole { OnOk result (IsSettledBy self.new (S.left source.new)) }
        ensures fault { result ≡ Err stops.Fault → Rose (S.faults source.old) (S.faults source.new) }
        ensures counts { S.faults source.old ≤ S.faults source.new }
        ensures ours { IfErr result IsNoRefusal }
    {
        // Each turn takes at least one byte, or is the last.
        for _ in 0..MOST_WANTED {
            if wanted(self.held.as_slice()) <= self.held.len() {
                return Ok(());
            }
            if self.read_piece(source)? == 0 {
                return Ok(());
            }
        }
        Ok(())
    }

    /// The next item, or none at the end of the stream.
    pub fn next<S: Source>(&mut self, source: &mut S) -> Result<Option<Item>, Stop>
        // What is given was next on the stream, whole, and is an item.
        ensures valid { IfOk result (λ found. IfSome found IsValidItem) }
        ensures taken { IfOk result (λ found. Loses (ahead self.old (S.left source.old)) (ahead self.new (S.left source.new)) (given found)) }
        ensures place { IfOk result (λ found. self.new.place ≡ place_after self.old.place (length (given found))) }

        // None is given only at the end.
        ensures end { IfOk result (λ found. found ≡ None → IfSome (ahead self.new (S.left source.new)) (λ rest. rest ≡ [])) }

        // A refusal is that of the first bytes that begin no item. After another stop the stream is as before.
        ensures refused { IfErr result (IsRefusalOf self.old.place (ahead self.old (S.left source.old))) }
        ensures kept { IfErr result (λ stop. IsNoRefusal stop → ahead self.old (S.left source.old) ≡ ahead self.new (S.left source.new)) }
        ensures same_place { OnErr result (self.new.place ≡ self.old.place) }
        ensures fault { result ≡ Err stops.Fault → Rose (S.faults source.old) (S.faults source.new) }
        ensures counts { S.faults source.old ≤ S.faults source.new }
    {
        self.fill(source)?;
        let place = self.place;
        let size = wanted(self.held.as_slice());
        if self.held.is_empty() {
            return Ok(None);
        }
        if self.held.len() < size {
            let why = ItemRefusal::Cut;
            return Err(Stop::Refused { place, why });
        }
        let own = self.held.freeze_to(size)?;
        match item_of(own) {
            Ok(item) => {
                self.place = place.saturating_add(size as u64);
                Ok(Some(item))
            }
            Err(why) => Err(Stop::Refused { place, why }),
        }
    }
}
