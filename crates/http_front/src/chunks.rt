ghost use Rattle.std.specs.Prelude.{◌≡◌, ◌≤◌, ◌<◌, [], OnOk, length, drop, IfOk};
ghost use Rattle.http_front.specs.Readings.{ReadsChunks, ChunkStepSays, ChunksSay};
ghost use Rattle.http_front.specs.Chunks.{IsSizeLine};
ghost use Rattle.http_front.specs.declared.size_line.SizeLine.TheVariants.{Line};
ghost use Rattle.http_front.specs.declared.stage.Stage.TheVariants.{AtLine, InData, InTrailers};

use crate::byte_place::BytePlace;
use crate::chunk_step::{ChunkStep, ChunksEnd};
use crate::data_end::DataEnd;
use crate::framings::MOST_BODY_BYTES;
use crate::message_fault::MessageFault;
use crate::scan::{Scan, scan_section};
use crate::size_line::SizeLine;
use crate::size_lines::{data_end, size_line};
use crate::slices::{front_bytes, rest_from};
use crate::stage::Stage;
use dsv_base::NoMemory;
use std::alloc::Global;

/// The most bytes that trailer lines may have together.
const MOST_TRAILER_BYTES: usize = 16_384;

/// A body by chunks that is being read: what its whole chunks so far make, how many bytes they
/// have, and what was read of the next one.
#[derive(Debug, Drop)]
pub(crate) struct Chunks {
    pub(crate) body: Vec<u8>,
    pub(crate) used: usize,
    pub(crate) stage: Stage,
}

impl Chunks {
    pub(crate) fn new(alloc: Global) -> Chunks
        ensures body { result.body.items ≡ [] }
        ensures used { result.used ≡ 0 }
        ensures stage { result.stage ≡ AtLine }
    {
        Chunks {
            body: Vec::new(alloc),
            used: 0,
            stage: Stage::AtLine,
        }
    }

    /// Reads one thing more of the bytes. After want of memory the body is of no use.
    pub(crate) fn step(&mut self, bytes: &[u8]) -> Result<ChunkStep, NoMemory>
        requires { ReadsChunks bytes.now self.old }
        ensures { IfOk result (ChunkStepSays bytes.now self.old self.new) }
    {
        match self.stage {
            Stage::AtLine => Ok(self.read_line(bytes)),
            Stage::InData(len, size) => self.take_data(bytes, len, size),
            Stage::InTrailers(len, scan) => Ok(self.read_trailers(bytes, len, scan)),
        }
    }

    /// Reads the bytes to the end of the body, or as far as they go. After want of memory the body
    /// is of no use.
    pub(crate) fn read(&mut self, bytes: &[u8]) -> Result<ChunksEnd, NoMemory>
        requires { ReadsChunks bytes.now self.old }
        ensures { IfOk result (ChunksSay bytes.now self.new) }
    {
        'steps: loop {
            match self.step(bytes) {
                Ok(ChunkStep::Goes) => {}
                Ok(ChunkStep::Ends(end)) => return Ok(end),
                Err(error) => return Err(error),
            }
        }
    }

    fn read_line(&mut self, bytes: &[u8]) -> ChunkStep
        requires reads { ReadsChunks bytes.now self.old }
        requires stage { self.old.stage ≡ AtLine }
        ensures { ChunkStepSays bytes.now self.old self.new result }
    {
        match size_line(rest_from(bytes, self.used)) {
            SizeLine::Line(len, size) => self.begin_chunk(bytes, len, size),
            SizeLine::Unended => ChunkStep::Ends(ChunksEnd::Waits),
            SizeLine::Unreadable => ChunkStep::Ends(ChunksEnd::Fails(MessageFault::BadMessage)),
        }
    }

    fn begin_chunk(&mut self, bytes: &[u8], len: usize, size: u64) -> ChunkStep
        requires reads { ReadsChunks bytes.now self.old }
        requires stage { self.old.stage ≡ AtLine }
        requires line { IsSizeLine (drop self.old.used bytes.now) (Line len size) }
        ensures { ChunkStepSays bytes.now self.old self.new result }
    {
        if size == 0 {
            let scan = Scan {
                at: 0,
                place: BytePlace::Between,
            };
            self.stage = Stage::InTrailers(len, scan);
            return ChunkStep::Goes;
        }
        if size > (MOST_BODY_BYTES - self.body.len()) as u64 {
            return ChunkStep::Ends(ChunksEnd::Fails(MessageFault::BodyTooLarge));
        }
        self.stage = Stage::InData(len, size as usize);
        ChunkStep::Goes
    }

    fn take_data(&mut self, bytes: &[u8], len: usize, size: usize) -> Result<ChunkStep, NoMemory>
        requires reads { ReadsChunks bytes.now self.old }
        requires stage { self.old.stage ≡ InData len size }
        ensures { IfOk result (ChunkStepSays bytes.now self.old self.new) }
    {
        let chunk = rest_from(bytes, self.used);
        match data_end(rest_from(chunk, len + size)) {
            DataEnd::Closed => {
                self.body
                    .extend_from_slice(front_bytes(rest_from(chunk, len), size))?;
                self.used += len + size + 2;
                self.stage = Stage::AtLine;
                Ok(ChunkStep::Goes)
            }
            DataEnd::Open => Ok(ChunkStep::Ends(ChunksEnd::Waits)),
            DataEnd::Wrong => Ok(ChunkStep::Ends(ChunksEnd::Fails(MessageFault::BadMessage))),
        }
    }

    fn read_trailers(&mut self, bytes: &[u8], len: usize, scan: Scan) -> ChunkStep
        requires reads { ReadsChunks bytes.now self.old }
        requires stage { self.old.stage ≡ InTrailers len scan }
        ensures { ChunkStepSays bytes.now self.old self.new result }
    {
        let start = self.used + len;
        let scanned = scan_section(rest_from(bytes, start + scan.at), scan.place);
        let lines = scan.at + scanned.section.lines;
        if lines > MOST_TRAILER_BYTES {
            return ChunkStep::Ends(ChunksEnd::Fails(MessageFault::HeadTooLarge));
        }
        if scanned.section.closing > 0 {
            let used = start + lines + scanned.section.closing;
            return ChunkStep::Ends(ChunksEnd::Ended(used));
        }
        let scan = Scan {
            at: scan.at + scanned.scan.at,
            place: scanned.scan.place,
        };
        self.stage = Stage::InTrailers(len, scan);
        ChunkStep::Ends(ChunksEnd::Waits)
    }
}
