//! A count of what came to pass, which stands still at its end.
ghost use Rattle.std.specs.Prelude.{◌≡◌, ◌^◌, ◌<◌};
ghost use Rattle.outside_io.specs.Counts.{RisesBy};

/// How often something came to pass, up to 2^64 - 1.
#[derive(Clone, Copy, Debug, PartialEq, Eq)]
pub struct Count {
    times: u64,
    ghost fits: { times < 2 ^ 64 },
}

impl Count {
    /// The count of nothing.
    pub fn zero() -> Count
        ensures { result.times ≡ 0 }
    {
        Count { times: 0 }
    }

    /// One time more, unless the count stands at its end.
    pub fn rise(&mut self)
        ensures { RisesBy 1 self.old.times self.new.times }
    {
        self.times = self.times.saturating_add(1);
    }

    /// How often it was.
    pub fn times(&self) -> u64
        ensures { result ≡ self.now.times }
    {
        self.times
    }
}
