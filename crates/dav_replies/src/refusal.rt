ghost use Rattle.std.specs.Prelude.{◌≡◌};
ghost use Rattle.dav_replies.specs.declared.refusal.Refusal.TheVariants as refusals;

use crate::allow_kind::AllowKind;
use dsv_base::{Form, NoMemory, Path, Rev};

/// Why a request is refused, in the order of the codes 1 to 29 that the replies tell.
#[derive(Debug, Drop)]
pub enum Refusal {
    /// The head, or the framing of the body, isn't that of a request. The connection ends.
    BadMessage,
    /// The target names no resource.
    BadTarget,
    /// The body isn't in its grammar.
    BadBody,
    /// A field of the head is missing, doubled or not in its form.
    BadHeader,
    /// The login is wrong, or nobody is logged in and somebody has to be.
    NeedsLogin,
    /// Somebody is logged in, and the rule denies.
    Denied,
    /// Properties are asked for with Depth infinity (RFC 4918, section 9.1).
    InfiniteDepth,
    /// The node that the request needs isn't there.
    NoNode,
    /// This revision, which the request names, isn't there yet.
    NoRevision { rev: Rev },
    /// The user has no open transaction of the name.
    NoTransaction,
    /// The resource, which is of this kind, doesn't take the method.
    WrongMethod { allow: AllowKind },
    /// Something stands where the request would make a node. The resource is of this kind.
    Exists { allow: AllowKind },
    /// The parent of a new node isn't a directory.
    NoParent,
    /// The node has changed since the revision that the request speaks of: in this one.
    OutOfDate { created: Rev },
    /// The change of this path conflicts with a later revision.
    Conflict { path: Path },
    /// The token isn't that of a lock which the user may remove here.
    WrongToken,
    /// The text has another MD5 sum than the one that was told.
    WrongText { told: [u8; 16], got: [u8; 16] },
    /// A node stands at the destination, and isn't to be overwritten.
    NotOverwritten,
    /// The body is too large. The connection ends.
    BodyTooLarge,
    /// This path is locked.
    Locked { path: Path },
    /// The head is too large. The connection ends.
    HeadTooLarge,
    /// The revision couldn't be kept.
    KeeperFault,
    /// The request has a form that is left out by name.
    NotInProfile { form: Form },
    /// Want of memory.
    NoMemory,
    /// There are as many revisions as there can be.
    FullRevisions,
    /// The user has too many open transactions, or their numbers are used up.
    TooManyTransactions,
    /// A transaction would have too many changes or properties.
    TooManyChanges,
    /// A copy would make what isn't a path.
    PathTooLong,
    /// The numbers of the user's locks are used up.
    TooManyLocks,
}

impl From<NoMemory> for Refusal {
    ghost from_gives = { λ _ e. e ≡ refusals.NoMemory };

    fn from(_e: NoMemory) -> Refusal {
        Refusal::NoMemory
    }
}
