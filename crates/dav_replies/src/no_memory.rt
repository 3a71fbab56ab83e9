ghost use Rattle.std.specs.Prelude.{◌≡◌};
ghost use Rattle.dav_replies.specs.Refusals.{refusal_bytes};
ghost use Rattle.dav_replies.specs.declared.refusal.Refusal.TheVariants.{NoMemory};

use crate::client::Client;

// The replies are written out, since a call that puts them together would take memory.

const HEAD: &[u8] = b"HTTP/1.1 503 Service Unavailable\r
Content-Type: text/xml; charset=\"utf-8\"\r
Content-Length: 170\r
\r
";

const LAST_HEAD: &[u8] = b"HTTP/1.1 503 Service Unavailable\r
Content-Type: text/xml; charset=\"utf-8\"\r
Content-Length: 170\r
Connection: close\r
\r
";

const WHOLE: &[u8] = b"HTTP/1.1 503 Service Unavailable\r
Content-Type: text/xml; charset=\"utf-8\"\r
Content-Length: 170\r
\r
<?xml version=\"1.0\" encoding=\"utf-8\"?>
<D:error xmlns:D=\"DAV:\" xmlns:m=\"http://apache.org/dav/xmlns\">\
<m:human-readable errcode=\"24\">NoMemory</m:human-readable></D:error>
";

const LAST_WHOLE: &[u8] = b"HTTP/1.1 503 Service Unavailable\r
Content-Type: text/xml; charset=\"utf-8\"\r
Content-Length: 170\r
Connection: close\r
\r
<?xml version=\"1.0\" encoding=\"utf-8\"?>
<D:error xmlns:D=\"DAV:\" xmlns:m=\"http://apache.org/dav/xmlns\">\
<m:human-readable errcode=\"24\">NoMemory</m:human-readable></D:error>
";

const GUEST_HEAD: &[u8] = b"HTTP/1.1 503 Service Unavailable\r
Content-Type: text/xml; charset=\"utf-8\"\r
Content-Length: 174\r
\r
";

const GUEST_LAST_HEAD: &[u8] = b"HTTP/1.1 503 Service Unavailable\r
Content-Type: text/xml; charset=\"utf-8\"\r
Content-Length: 174\r
Connection: close\r
\r
";

const GUEST_WHOLE: &[u8] = b"HTTP/1.1 503 Service Unavailable\r
Content-Type: text/xml; charset=\"utf-8\"\r
Content-Length: 174\r
\r
<?xml version=\"1.0\" encoding=\"utf-8\"?>
<D:error xmlns:D=\"DAV:\" xmlns:m=\"http://apache.org/dav/xmlns\">\
<m:human-readable errcode=\"175002\">NoMemory</m:human-readable></D:error>
";

const GUEST_LAST_WHOLE: &[u8] = b"HTTP/1.1 503 Service Unavailable\r
Content-Type: text/xml; charset=\"utf-8\"\r
Content-Length: 174\r
Connection: close\r
\r
<?xml version=\"1.0\" encoding=\"utf-8\"?>
<D:error xmlns:D=\"DAV:\" xmlns:m=\"http://apache.org/dav/xmlns\">\
<m:human-readable errcode=\"175002\">NoMemory</m:human-readable></D:error>
";

/// The bytes of the reply that tells a client want of memory, which take no memory: those that
/// `refusal_bytes` gives for this refusal where it gives any.
pub fn no_memory_bytes(client: Client, head_only: bool, last: bool) -> &'static [u8]
    ensures { result.now ≡ refusal_bytes client NoMemory head_only last }
{
    match (client, head_only, last) {
        (Client::Plain, true, true) => LAST_HEAD,
        (Client::Plain, true, false) => HEAD,
        (Client::Plain, false, true) => LAST_WHOLE,
        (Client::Plain, false, false) => WHOLE,
        (Client::Guest, true, true) => GUEST_LAST_HEAD,
        (Client::Guest, true, false) => GUEST_HEAD,
        (Client::Guest, false, true) => GUEST_LAST_WHOLE,
        (Client::Guest, false, false) => GUEST_WHOLE,
    }
}
