ghost use Rattle.std.specs.Prelude.{◌≡◌, ◌≤◌, IfOk, map, length, All};
ghost use Rattle.httparse.specs.Spans.{IsHeaderWithin, IsRequestWithin, IsRequestOf};
ghost use Rattle.http_front.specs.Limits.{most_header_lines};
ghost use Rattle.http_front.specs.Heads.{HeadOf, field_at, head_at};

use crate::head::Head;
use dsv_base::{Bytes, Field, List, NoMemory};
use httparse::Status;
use httparse::spans::{EMPTY_HEADER_SPAN, HeaderSpan, RequestSpans, parse_request};
use std::alloc::Global;

/// The most header lines that a head may have.
pub(crate) const MOST_HEADER_LINES: usize = 100;

/// The head that the text is, if it is one. The one error is want of memory.
pub(crate) fn read_head(alloc: Global, text: &[u8]) -> Result<Option<Head>, NoMemory>
    ensures { IfOk result (HeadOf text.now) }
{
    let mut headers = [EMPTY_HEADER_SPAN; MOST_HEADER_LINES];
    match parse_request(text, &mut headers) {
        Ok(Status::Complete(spans)) => whole_head(alloc, text, &spans, &headers),
        Ok(Status::Partial) => Ok(None),
        Err(_) => Ok(None),
    }
}

/// The head at the front of the text, if nothing stands after it.
fn whole_head(
    alloc: Global,
    text: &[u8],
    spans: &RequestSpans,
    headers: &[HeaderSpan],
) -> Result<Option<Head>, NoMemory>
    requires within { IsRequestWithin text.now headers.now spans.now }
    requires reads { IsRequestOf text.now headers.now spans.now }
    requires few { length headers.now ≤ most_header_lines }
    ensures { IfOk result (HeadOf text.now) }
{
    if spans.len != text.len() {
        return Ok(None);
    }
    Ok(Some(head_at(alloc, text, spans, headers)?))
}

fn head_at(
    alloc: Global,
    text: &[u8],
    spans: &RequestSpans,
    headers: &[HeaderSpan],
) -> Result<Head, NoMemory>
    requires { IsRequestWithin text.now headers.now spans.now }
    ensures { IfOk result (λ head. head ≡ head_at text.now headers.now spans.now) }
{
    Ok(Head {
        len: spans.len,
        method: Bytes::of(alloc, spans.method.of(text))?,
        target: Bytes::of(alloc, spans.path.of(text))?,
        fields: fields_of(alloc, text, &headers[..spans.headers])?,
        minor: spans.version,
    })
}

fn fields_of(alloc: Global, text: &[u8], headers: &[HeaderSpan]) -> Result<List<Field>, NoMemory>
    requires { All (IsHeaderWithin (length text.now)) headers.now }
    ensures { IfOk result (λ fields. fields ≡ map (field_at text.now) headers.now) }
{
    let mut fields = Vec::new(alloc);
    'headers: for header in headers {
        fields.push(field_of(alloc, text, header)?)?;
    }
    Ok(List::of(fields))
}

fn field_of(alloc: Global, text: &[u8], header: &HeaderSpan) -> Result<Field, NoMemory>
    requires { IsHeaderWithin (length text.now) header.now }
    ensures { IfOk result (λ field. field ≡ field_at text.now header.now) }
{
    Ok(Field {
        name: Bytes::of(alloc, header.name.of(text))?,
        value: Bytes::of(alloc, header.value.of(text))?,
    })
}
