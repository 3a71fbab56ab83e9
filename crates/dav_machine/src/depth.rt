ghost use Rattle.std.specs.Prelude.{◌≡◌};
ghost use Rattle.dsv_base.specs.Gives.{Gives};
ghost use Rattle.dav_replies.specs.Faults.{refusal_no_memory};
ghost use Rattle.dav_machine.specs.Depths.{depth_said, depth_of, children_asked};

use dav_replies::{AllowKind, Refusal};
use http_front::{FieldFault, Request};

/// How far below its resource a request reaches (RFC 4918, section 10.2).
#[derive(Clone, Copy, Debug, PartialEq, Eq)]
pub enum Depth {
    /// The resource alone.
    Zero,
    /// It and its children.
    One,
    /// All below it too.
    Infinity,
}

impl Depth {
    /// The depth of the request: infinity, where the field isn't there.
    ///
    /// # Errors
    /// `BadHeader`: the field stands twice, or is none of `0`, `1` and, in any case of letters,
    /// `infinity`.
    #[tactic(auto, unfolding(crate::specs::Depths::depth_of))]
    pub fn of(request: &Request) -> Result<Depth, Refusal>
        ensures { Gives refusal_no_memory result (depth_of request.now.fields) }
    {
        match request.field(b"depth") {
            Ok(None) => Ok(Depth::Infinity),
            Ok(Some(value)) => Depth::said(value),
            Err(FieldFault::Doubled) => Err(Refusal::BadHeader),
        }
    }

    /// The depth that a value of the field says.
    fn said(value: &[u8]) -> Result<Depth, Refusal>
        ensures { Gives refusal_no_memory result (depth_said value.now) }
    {
        if value == b"0".as_slice() {
            return Ok(Depth::Zero);
        }
        if value == b"1".as_slice() {
            return Ok(Depth::One);
        }
        if value.eq_ignore_ascii_case(b"infinity") {
            return Ok(Depth::Infinity);
        }
        Err(Refusal::BadHeader)
    }

    /// Whether a PROPFIND of this depth asks about the children of a resource of the kind, too. A revision
    /// has no children.
    ///
    /// # Errors
    /// `InfiniteDepth`: all below a node is asked about (RFC 4918, section 9.1).
    pub fn asks_children(self, kind: AllowKind) -> Result<bool, Refusal>
        ensures { Gives refusal_no_memory result (children_asked kind self) }
    {
        if kind == AllowKind::RevOnly {
            return Ok(false);
        }
        match self {
            Depth::Zero => Ok(false),
            Depth::One => Ok(true),
            Depth::Infinity => Err(Refusal::InfiniteDepth),
        }
    }
}
