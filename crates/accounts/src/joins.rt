// What is counted of a second receiver, which starts at a full object.
ghost use Rattle.std.specs.Prelude.{◌≡◌};
ghost use Rattle.accounts.specs.Joins.{after_full, after_object, with_track};

// Of a track: how many full objects the first receiver accepted, and the chunk that the second one started at; how many objects both got, by how much the second
// one's numbers in the `mfhd` are less, and the first chunk of which the two made something else. Chunks are counted from 1.
#[derive(Clone, Copy, Default)]
pub struct Join {
    pub full: u64,
    pub chunk: Option<u64>,
    pub objects: u64,
    pub less: Option<u64>,
    pub differs: Option<u64>,
}

impl Join {
    // A full object that the first receiver accepted: the second one starts at the one with the number `at`.
    pub fn count_full(&mut self, at: u64, chunk: u64)
        ensures { self.new ≡ after_full self.old at chunk }
    {
        self.full = self.full.saturating_add(1);
        if self.full == at {
            self.chunk = Some(chunk);
        }
    }

    // An object that both receivers got. The first one that both accepted says by how much the numbers have to differ.
    pub fn count_object(&mut self, chunk: u64, same: bool, less: Option<u64>)
        ensures { self.new ≡ after_object self.old chunk same less }
    {
        self.objects = self.objects.saturating_add(1);
        if self.less.is_none() {
            self.less = less;
        }
        let as_before = less.is_none() || self.less == less;
        if !(same && as_before) {
            self.differs = self.differs.or(Some(chunk));
        }
    }
}

// Of all tracks: those where a second receiver started, the objects that both receivers got, and a chunk of which they made something else.
#[derive(Clone, Copy, Default)]
pub struct Joins {
    pub tracks: u64,
    pub objects: u64,
    pub differs: Option<u64>,
}

impl Joins {
    pub fn add(&mut self, track: &Join)
        ensures { self.new ≡ with_track self.old track.now }
    {
        self.tracks = self.tracks.saturating_add(track.chunk.is_some() as u64);
        self.objects = self.objects.saturating_add(track.objects);
        self.differs = self.differs.or(track.differs);
    }
}
