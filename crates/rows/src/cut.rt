ghost use Rattle.std.specs.Prelude.{Some};

use dsv_outside::{Got, MemSource, Source};

/// How a source's bytes come: at most `first` by the first read, and at most `later` by each one after.
#[derive(Clone, Copy)]
pub struct Cutting {
    pub first: usize,
    pub later: usize,
}

impl Cutting {
    /// As many as each read has room for.
    pub const WHOLE: Cutting = Cutting {
        first: usize::MAX,
        later: usize::MAX,
    };

    /// Byte by byte.
    pub const BYTES: Cutting = Cutting { first: 1, later: 1 };
}

/// A source in memory whose bytes come cut.
#[derive(Drop)]
pub struct CutSource {
    pub source: MemSource,
    pub cutting: Cutting,
}

impl Source for CutSource {
    ghost left = { λ s. Some s.source.left };

    ghost over = { λ s. s.source.over };

    ghost faults = { λ s. s.source.calls.faults };

    fn read(&mut self, into: &mut [u8]) -> Got {
        let room = self.cutting.first.max(1).min(into.len());
        self.cutting.first = self.cutting.later;
        self.source.read(&mut into[..room])
    }
}
