ghost use Rattle.std.specs.Prelude.{◌≡◌};
ghost use Rattle.std.specs.List.{find};
ghost use Rattle.dav_replies.specs.Methods.{method_name, has_name, method_of, methods_of, is_allowed, allow_list};

use crate::allow_kind::AllowKind;

/// The methods of requests (RFC 9110, section 9.3; RFC 4918, section 9; RFC 3253, section 3.6).
#[derive(Clone, Copy, Debug, PartialEq, Eq)]
pub enum Method {
    Options,
    Get,
    Head,
    Propfind,
    Report,
    Post,
    Put,
    Mkcol,
    Proppatch,
    Delete,
    Copy,
    Merge,
    Lock,
    Unlock,
}

/// All methods.
const METHODS: [Method; 14] = [
    Method::Options,
    Method::Get,
    Method::Head,
    Method::Propfind,
    Method::Report,
    Method::Post,
    Method::Put,
    Method::Mkcol,
    Method::Proppatch,
    Method::Delete,
    Method::Copy,
    Method::Merge,
    Method::Lock,
    Method::Unlock,
];

impl Method {
    /// The method that has this name, or None. The case of letters counts (RFC 9110, section 9.1).
    #[tactic(auto, unfolding(crate::specs::Methods::method_of))]
    pub fn read(name: &[u8]) -> Option<Method>
        ensures { result ≡ method_of name.now }
    {
        first_named(&METHODS, name)
    }

    /// The name that the method has in the first line of a request.
    pub fn name(self) -> &'static [u8]
        ensures { result.now ≡ method_name self }
    {
        match self {
            Method::Options => b"OPTIONS",
            Method::Get => b"GET",
            Method::Head => b"HEAD",
            Method::Propfind => b"PROPFIND",
            Method::Report => b"REPORT",
            Method::Post => b"POST",
            Method::Put => b"PUT",
            Method::Mkcol => b"MKCOL",
            Method::Proppatch => b"PROPPATCH",
            Method::Delete => b"DELETE",
            Method::Copy => b"COPY",
            Method::Merge => b"MERGE",
            Method::Lock => b"LOCK",
            Method::Unlock => b"UNLOCK",
        }
    }

    /// Whether a resource of this kind takes the method.
    #[tactic(auto, unfolding(crate::specs::Methods::is_allowed))]
    pub fn is_allowed(self, kind: AllowKind) -> bool
        ensures { result ≡ is_allowed kind self }
    {
        let name = self.name();
        methods_of(kind).iter().any(|method| method.name() == name)
    }
}

/// The first of the methods that has this name.
fn first_named(methods: &[Method], name: &[u8]) -> Option<Method>
    ensures { result ≡ find (has_name name.now) methods.now }
{
    'methods: for method in methods {
        if method.name() == name {
            return Some(*method);
        }
    }
    None
}

/// The methods that a resource of this kind takes, in the order in which Allow lists them.
fn methods_of(kind: AllowKind) -> &'static [Method]
    ensures { result.now ≡ methods_of kind }
{
    match kind {
        AllowKind::Public => &[
            Method::Options,
            Method::Get,
            Method::Head,
            Method::Propfind,
            Method::Report,
            Method::Copy,
            Method::Merge,
            Method::Lock,
            Method::Unlock,
        ],
        AllowKind::Rvr => &[
            Method::Get,
            Method::Head,
            Method::Propfind,
            Method::Report,
            Method::Copy,
        ],
        AllowKind::RevOnly => &[Method::Propfind],
        AllowKind::Me => &[Method::Post, Method::Report],
        AllowKind::Txr => &[
            Method::Put,
            Method::Mkcol,
            Method::Proppatch,
            Method::Delete,
        ],
        AllowKind::TxrRoot => &[Method::Proppatch],
        AllowKind::Txn => &[Method::Proppatch, Method::Delete],
    }
}

/// The methods that a resource of this kind takes, as the field Allow lists them (RFC 9110,
/// section 10.2.1): in a reply to OPTIONS, and in one with status 405.
#[tactic(auto, unfolding(crate::specs::Methods::allow_list))]
pub fn allow_list(kind: AllowKind) -> &'static [u8]
    ensures { result.now ≡ allow_list kind }
{
    match kind {
        AllowKind::Public => b"OPTIONS, GET, HEAD, PROPFIND, REPORT, COPY, MERGE, LOCK, UNLOCK",
        AllowKind::Rvr => b"GET, HEAD, PROPFIND, REPORT, COPY",
        AllowKind::RevOnly => b"PROPFIND",
        AllowKind::Me => b"POST, REPORT",
        AllowKind::Txr => b"PUT, MKCOL, PROPPATCH, DELETE",
        AllowKind::TxrRoot => b"PROPPATCH",
        AllowKind::Txn => b"PROPPATCH, DELETE",
    }
}
