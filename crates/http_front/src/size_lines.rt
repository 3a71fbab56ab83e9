ghost use Rattle.std.specs.Prelude.{◌≡◌};
ghost use Rattle.http_front.specs.Chunks.{IsSizeLine, after_data};
ghost use Rattle.http_front.specs.Readings.{end_outcome};

use crate::data_end::DataEnd;
use crate::size_line::SizeLine;
use crate::slices::front_bytes;
use httparse::{Status, parse_chunk_size};

/// The most bytes that a size line may have.
const MOST_LINE_BYTES: usize = 1_024;

/// The size line at the front.
pub(crate) fn size_line(bytes: &[u8]) -> SizeLine
    ensures { IsSizeLine bytes.now result }
{
    match parse_chunk_size(front_bytes(bytes, MOST_LINE_BYTES)) {
        Ok(Status::Complete((len, size))) => SizeLine::Line(len, size),
        Ok(Status::Partial) => {
            if bytes.len() < MOST_LINE_BYTES {
                return SizeLine::Unended;
            }
            SizeLine::Unreadable
        }
        Err(_) => SizeLine::Unreadable,
    }
}

/// What stands at the end of a chunk's data.
pub(crate) fn data_end(bytes: &[u8]) -> DataEnd
    ensures { after_data bytes.now ≡ end_outcome result }
{
    match bytes {
        [] => DataEnd::Open,
        [first] => {
            if *first == b'\r' {
                return DataEnd::Open;
            }
            DataEnd::Wrong
        }
        [first, second, ..] => {
            if *first == b'\r' && *second == b'\n' {
                return DataEnd::Closed;
            }
            DataEnd::Wrong
        }
    }
}
