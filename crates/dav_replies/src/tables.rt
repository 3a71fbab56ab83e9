ghost use Rattle.std.specs.Prelude.{◌≡◌, true, false};
ghost use Rattle.std.specs.Option.{option_copied};
ghost use Rattle.dav_replies.specs.Tables.{row_of, form_name, reason_of, subversion_code, code_for};

use crate::client::Client;
use crate::refusal::Refusal;
use dsv_base::Form;

/// What every reply that tells a refusal tells of it.
#[derive(Clone, Copy)]
pub(crate) struct Row {
    /// The number of the cause.
    pub(crate) code: u16,
    pub(crate) name: &'static [u8],
    pub(crate) status: u16,
    /// Whether the reply is the connection's last one.
    pub(crate) closing: bool,
}

impl Row {
    fn staying(code: u16, name: &'static [u8], status: u16) -> Row
        ensures code { result.code ≡ code }
        ensures name { result.name.now ≡ name.now }
        ensures status { result.status ≡ status }
        ensures closing { result.closing ≡ false }
    {
        Row {
            code,
            name,
            status,
            closing: false,
        }
    }

    fn ending(code: u16, name: &'static [u8], status: u16) -> Row
        ensures code { result.code ≡ code }
        ensures name { result.name.now ≡ name.now }
        ensures status { result.status ≡ status }
        ensures closing { result.closing ≡ true }
    {
        Row {
            code,
            name,
            status,
            closing: true,
        }
    }
}

/// The table of refusals.
pub(crate) fn row_of(refusal: &Refusal) -> Row
    ensures code { result.code ≡ (row_of refusal.now).code }
    ensures name { result.name.now ≡ (row_of refusal.now).name }
    ensures status { result.status ≡ (row_of refusal.now).status }
    ensures closing { result.closing ≡ (row_of refusal.now).closing }
{
    match refusal {
        Refusal::BadMessage => Row::ending(1, b"BadMessage", 400),
        Refusal::BadTarget => Row::staying(2, b"BadTarget", 400),
        Refusal::BadBody => Row::staying(3, b"BadBody", 400),
        Refusal::BadHeader => Row::staying(4, b"BadHeader", 400),
        Refusal::NeedsLogin => Row::staying(5, b"NeedsLogin", 401),
        Refusal::Denied => Row::staying(6, b"Denied", 403),
        Refusal::InfiniteDepth => Row::staying(7, b"InfiniteDepth", 403),
        Refusal::NoNode => Row::staying(8, b"NoNode", 404),
        Refusal::NoRevision { .. } => Row::staying(9, b"NoRevision", 404),
        Refusal::NoTransaction => Row::staying(10, b"NoTransaction", 404),
        Refusal::WrongMethod { .. } => Row::staying(11, b"WrongMethod", 405),
        Refusal::Exists { .. } => Row::staying(12, b"Exists", 405),
        Refusal::NoParent => Row::staying(13, b"NoParent", 409),
        Refusal::OutOfDate { .. } => Row::staying(14, b"OutOfDate", 409),
        Refusal::Conflict { .. } => Row::staying(15, b"Conflict", 409),
        Refusal::WrongToken => Row::staying(16, b"WrongToken", 409),
        Refusal::WrongText { .. } => Row::staying(17, b"WrongText", 409),
        Refusal::NotOverwritten => Row::staying(18, b"NotOverwritten", 412),
        Refusal::BodyTooLarge => Row::ending(19, b"BodyTooLarge", 413),
        Refusal::Locked { .. } => Row::staying(20, b"Locked", 423),
        Refusal::HeadTooLarge => Row::ending(21, b"HeadTooLarge", 431),
        Refusal::KeeperFault => Row::staying(22, b"KeeperFault", 500),
        Refusal::NotInProfile { .. } => Row::staying(23, b"NotInProfile", 501),
        Refusal::NoMemory => Row::staying(24, b"NoMemory", 503),
        Refusal::FullRevisions => Row::staying(25, b"FullRevisions", 507),
        Refusal::TooManyTransactions => Row::staying(26, b"TooManyTransactions", 507),
        Refusal::TooManyChanges => Row::staying(27, b"TooManyChanges", 507),
        Refusal::PathTooLong => Row::staying(28, b"PathTooLong", 507),
        Refusal::TooManyLocks => Row::staying(29, b"TooManyLocks", 507),
    }
}

/// The number, one of Subversion's own (svn_error_codes.h), by which its clients go where davsvn refuses
/// so.
fn subversion_code(refusal: &Refusal) -> u32
    ensures { result ≡ subversion_code refusal.now }
{
    match refusal {
        Refusal::BadTarget => 160_005,
        Refusal::NeedsLogin => 170_001,
        Refusal::Denied => 220_001,
        Refusal::NoNode | Refusal::NoParent => 160_013,
        Refusal::NoRevision { .. } => 160_006,
        Refusal::NoTransaction => 160_007,
        Refusal::WrongMethod { .. } => 175_008,
        Refusal::Exists { .. } | Refusal::NotOverwritten => 160_020,
        Refusal::OutOfDate { .. } => 160_028,
        Refusal::Conflict { .. } => 160_024,
        Refusal::WrongToken => 160_040,
        Refusal::WrongText { .. } => 200_014,
        Refusal::Locked { .. } => 160_035,
        Refusal::NotInProfile { .. } => 200_007,
        _ => 175_002,
    }
}

/// The number by which a client is told a refusal: a client of Subversion goes by Subversion's. A
/// refusal that ends the connection has one number for all.
pub(crate) fn code_for(client: Client, refusal: &Refusal) -> u32
    ensures { result ≡ code_for client refusal.now }
{
    let row = row_of(refusal);
    match client {
        Client::Guest if !row.closing => subversion_code(refusal),
        _ => u32::from(row.code),
    }
}

/// The name of a form that is left out, as a refusal tells it.
pub(crate) fn form_name(form: Form) -> &'static [u8]
    ensures { result.now ≡ form_name form }
{
    match form {
        Form::Svndiff => b"svndiff",
        Form::ContentEncoding => b"content-encoding",
        Form::PostType => b"post-type",
        Form::IfCondition => b"if-condition",
        Form::CopyDepth => b"copy-depth",
        Form::Doctype => b"doctype",
        Form::Processing => b"processing",
        Form::Propname => b"propname",
        Form::SharedLock => b"shared-lock",
        Form::LockRefresh => b"lock-refresh",
        Form::Report => b"report",
        Form::ReportPlace => b"report-place",
        Form::Switch => b"switch",
        Form::UpdateTarget => b"update-target",
        Form::LinkPath => b"link-path",
        Form::Mixed => b"mixed",
        Form::Depth => b"depth",
        Form::SeveralPaths => b"several-paths",
        Form::MergedRevisions => b"merged-revisions",
        Form::Later => b"later",
    }
}

/// The reason phrase of a status (RFC 9110, section 15), for those that replies have.
pub(crate) fn reason_of(status: u16) -> Option<&'static [u8]>
    ensures { option_copied result ≡ reason_of status }
{
    match status {
        200 => Some(b"OK"),
        201 => Some(b"Created"),
        204 => Some(b"No Content"),
        207 => Some(b"Multi-Status"),
        400 => Some(b"Bad Request"),
        401 => Some(b"Unauthorized"),
        403 => Some(b"Forbidden"),
        404 => Some(b"Not Found"),
        405 => Some(b"Method Not Allowed"),
        409 => Some(b"Conflict"),
        412 => Some(b"Precondition Failed"),
        413 => Some(b"Content Too Large"),
        423 => Some(b"Locked"),
        431 => Some(b"Request Header Fields Too Large"),
        500 => Some(b"Internal Server Error"),
        501 => Some(b"Not Implemented"),
        503 => Some(b"Service Unavailable"),
        507 => Some(b"Insufficient Storage"),
        _ => None,
    }
}
