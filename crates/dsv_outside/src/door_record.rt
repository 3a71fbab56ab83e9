ghost use Rattle.std.specs.Prelude.{◌≡◌, Some};

use crate::mem_sink::MemSink;
use crate::mem_source::MemSource;
use crate::serve_end::ServeEnd;
use crate::sure_sink::SureSink;
use crate::sure_source::SureSource;
use std::marker::Model;

/// A connection that went back to a door in memory, as it was then, and how its serving ended.
#[derive(Debug, Drop)]
pub struct DoorRecord {
    end: ServeEnd,
    source: SureSource,
    source_faults: u64,
    sink: SureSink,
    sink_faults: u64,
}

impl Model for DoorRecord {
    ghost use Rattle.std.specs.Prelude.{Some};
    ghost use Rattle.dsv_outside.specs.DoorStates.{Returned};

    ghost Value = { Returned };

    ghost view = { λ r. record {
      end = r.end;
      pair = record {
        left = Some r.source.left;
        over = r.source.over;
        source_faults = r.source_faults;
        taken = Some r.sink;
        sink_faults = r.sink_faults;
      };
    } };
}

impl DoorRecord {
    /// A pair that can't fail.
    pub(crate) fn of_sure(end: ServeEnd, source: SureSource, sink: SureSink) -> DoorRecord
        ensures { result ≡ record {
          end = end;
          pair = record {
            left = Some source.left;
            over = source.over;
            source_faults = 0;
            taken = Some sink;
            sink_faults = 0;
          };
        } }
    {
        DoorRecord {
            end,
            source,
            source_faults: 0,
            sink,
            sink_faults: 0,
        }
    }

    /// A pair some of whose calls may have failed.
    pub(crate) fn of(end: ServeEnd, source: MemSource, sink: MemSink) -> DoorRecord
        ensures { result ≡ record {
          end = end;
          pair = record {
            left = Some source.left;
            over = source.over;
            source_faults = source.calls.faults;
            taken = Some sink.taken;
            sink_faults = sink.calls.faults;
          };
        } }
    {
        let (source, source_faults) = source.into_parts();
        let (sink, sink_faults) = sink.into_parts();
        DoorRecord {
            end,
            source,
            source_faults,
            sink,
            sink_faults,
        }
    }

    /// How the serving of the connection ended.
    pub fn end(&self) -> ServeEnd
        ensures { result ≡ self.now.end }
    {
        self.end
    }

    /// The bytes that the source had left.
    pub fn left(&self) -> &[u8]
        ensures { Some result.now ≡ self.now.pair.left }
    {
        self.source.left()
    }

    /// Whether the source had ended.
    pub fn is_over(&self) -> bool
        ensures { result ≡ self.now.pair.over }
    {
        self.source.is_over()
    }

    /// How many calls of the source had failed.
    pub fn source_faults(&self) -> u64
        ensures { result ≡ self.now.pair.source_faults }
    {
        self.source_faults
    }

    /// The bytes that the sink had taken.
    pub fn taken(&self) -> &[u8]
        ensures { Some result.now ≡ self.now.pair.taken }
    {
        self.sink.taken()
    }

    /// How many calls of the sink had failed.
    pub fn sink_faults(&self) -> u64
        ensures { result ≡ self.now.pair.sink_faults }
    {
        self.sink_faults
    }
}
