ghost use Rattle.std.specs.Prelude.{◌≡◌};
ghost use Rattle.authz_file.specs.declared.rules_fault.RulesFault.TheVariants as faults;
ghost use Rattle.authz_file.specs.Faults.{line_of};

use dsv_base::NoMemory;
use std::alloc::{AllocError, AllocFailed};
use thiserror::Error;

/// Why a rules file was not read. Lines are counted from 1, and a line that others continue is
/// named by its first.
#[derive(Clone, Copy, Debug, PartialEq, Eq, Error)]
pub enum RulesFault {
    /// The line is no rule, no definition and no continuation of one.
    #[error("line {line}: not a rule")]
    BadLine { line: u32 },
    /// The line begins with `[`, and isn't the line of a section.
    #[error("line {line}: not a section")]
    BadSection { line: u32 },
    /// The value in a path section is none of an empty one, `r` and `rw`.
    #[error("line {line}: not an access value")]
    BadAccess { line: u32 },
    /// The line names a group that no line defines.
    #[error("line {line}: an unknown group")]
    UnknownGroup { line: u32 },
    /// The line names an alias that no line defines.
    #[error("line {line}: an unknown alias")]
    UnknownAlias { line: u32 },
    /// The line defines a group that holds itself, by itself or by way of others. It is a counting
    /// line: the last of those that define the group.
    #[error("line {line}: a group that holds itself")]
    GroupCycle { line: u32 },
    /// Want of memory.
    #[error("no memory")]
    NoMemory,
}

impl RulesFault {
    /// The line that is named; want of memory names none.
    pub fn line(self) -> Option<u32>
        ensures { result ≡ line_of self }
    {
        match self {
            RulesFault::BadLine { line }
            | RulesFault::BadSection { line }
            | RulesFault::BadAccess { line }
            | RulesFault::UnknownGroup { line }
            | RulesFault::UnknownAlias { line }
            | RulesFault::GroupCycle { line } => Some(line),
            RulesFault::NoMemory => None,
        }
    }
}

impl From<NoMemory> for RulesFault {
    ghost from_gives = { λ _ e. e ≡ faults.NoMemory };

    fn from(_e: NoMemory) -> RulesFault {
        RulesFault::NoMemory
    }
}

impl From<AllocError> for RulesFault {
    ghost from_gives = { λ _ e. e ≡ faults.NoMemory };

    fn from(_e: AllocError) -> RulesFault {
        RulesFault::NoMemory
    }
}

impl<T: Drop> From<AllocFailed<T>> for RulesFault {
    ghost from_gives = { λ _ e. e ≡ faults.NoMemory };

    fn from(_e: AllocFailed<T>) -> RulesFault {
        RulesFault::NoMemory
    }
}
