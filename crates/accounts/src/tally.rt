// What is counted: of a chunk, of a track and of all of them.
ghost use Rattle.std.specs.Prelude.{◌≡◌, ◌↔◌, IsTrue, None};
ghost use Rattle.accounts.specs.Counts.{saturating_add};
ghost use Rattle.accounts.specs.Joins.{with_track};
ghost use Rattle.accounts.specs.Tally.{of_chunk, sums};

use crate::joins::{Join, Joins};

// A chunk that became an object: whether that is a delta, the bytes of the heads (all but the payload) before and after, those of the payload, and whether the
// rebuilt chunk gave the same object again; of a chunk with IVs also the bytes of those that the object left at home, 0 where it has them.
#[derive(Clone, Copy)]
pub struct Sent {
    pub delta: bool,
    pub cmaf: u64,
    pub locmaf: u64,
    pub payload: u64,
    pub same: bool,
    pub home: Option<u64>,
}

// A chunk's way: it became an object, or was refused with a number.
pub type Passed = Result<Sent, u64>;

// Sums over chunks. `ivs` counts those that have IVs, `home` those that left them at home, `spared` the bytes of these; `differs` is the first chunk whose object
// differed, counted from 1.
#[derive(Clone, Copy, Default)]
pub struct Tally {
    pub chunks: u64,
    pub full: u64,
    pub delta: u64,
    pub refused: u64,
    pub cmaf: u64,
    pub locmaf: u64,
    pub payload: u64,
    pub differs: Option<u64>,
    pub ivs: u64,
    pub home: u64,
    pub spared: u64,
}

impl Tally {
    // One chunk alone, as the one with the number i.
    fn of_chunk(i: u64, passed: &Passed) -> Tally
        ensures { result ≡ of_chunk i passed.now }
    {
        match passed {
            Ok(sent) => {
                let spared = sent.home.unwrap_or(0);
                Tally {
                    chunks: 1,
                    full: !sent.delta as u64,
                    delta: sent.delta as u64,
                    refused: 0,
                    cmaf: sent.cmaf,
                    locmaf: sent.locmaf,
                    payload: sent.payload,
                    differs: if sent.same { None } else { Some(i) },
                    ivs: sent.home.is_some() as u64,
                    home: (spared != 0) as u64,
                    spared,
                }
            }
            Err(_) => Tally {
                chunks: 1,
                full: 0,
                delta: 0,
                refused: 1,
                cmaf: 0,
                locmaf: 0,
                payload: 0,
                differs: None,
                ivs: 0,
                home: 0,
                spared: 0,
            },
        }
    }

    // A further chunk.
    pub fn count(&mut self, passed: &Passed)
        ensures { self.new ≡ sums self.old (of_chunk self.new.chunks passed.now) }
    {
        let i = self.chunks.saturating_add(1);
        self.add(&Tally::of_chunk(i, passed));
    }

    // The chunks of another track; of `differs` only whether there is one counts then.
    pub fn add(&mut self, other: &Tally)
        ensures { self.new ≡ sums self.old other.now }
    {
        self.chunks = self.chunks.saturating_add(other.chunks);
        self.full = self.full.saturating_add(other.full);
        self.delta = self.delta.saturating_add(other.delta);
        self.refused = self.refused.saturating_add(other.refused);
        self.cmaf = self.cmaf.saturating_add(other.cmaf);
        self.locmaf = self.locmaf.saturating_add(other.locmaf);
        self.payload = self.payload.saturating_add(other.payload);
        self.differs = self.differs.or(other.differs);
        self.ivs = self.ivs.saturating_add(other.ivs);
        self.home = self.home.saturating_add(other.home);
        self.spared = self.spared.saturating_add(other.spared);
    }
}

// A track: its chunks, and what came of a second receiver.
#[derive(Clone, Copy, Default)]
pub struct Track {
    pub tally: Tally,
    pub join: Join,
}

// All tracks: how many there were, how many were left out for a bad file, and the sums over the others.
#[derive(Clone, Copy, Default)]
pub struct Total {
    pub tracks: u64,
    pub bad: u64,
    pub tally: Tally,
    pub joins: Joins,
}

impl Total {
    pub fn add(&mut self, track: &Track)
        ensures { self.new ≡ record self.old { tracks = saturating_add self.old.tracks 1; tally = sums self.old.tally track.now.tally; joins = with_track self.old.joins track.now.join } }
    {
        self.tracks = self.tracks.saturating_add(1);
        self.tally.add(&track.tally);
        self.joins.add(&track.join);
    }

    // A track that is left out.
    pub fn leave_out(&mut self)
        ensures { self.new ≡ record self.old { bad = saturating_add self.old.bad 1 } }
    {
        self.bad = self.bad.saturating_add(1);
    }

    pub fn is_well(&self) -> bool
        ensures { IsTrue result ↔ ((self.now.bad ≡ 0) × (self.now.tally.differs ≡ None) × (self.now.joins.differs ≡ None)) }
    {
        self.bad == 0 && self.tally.differs.is_none() && self.joins.differs.is_none()
    }
}
