ghost use Rattle.http_front.specs.MessageLaws.{OneOutcome, WholeStays, RefusedStays, WholeIsWithin, PartIsWithin, OneReading, CutsDontMatter, LaterCutsDontMatter};

/// Bytes begin with one thing alone: a whole request, a part of one, or a refused message.
pub fn one_outcome()
    ensures { OneOutcome }
{}

/// A whole request stays the first, whatever bytes follow.
pub fn whole_stays()
    ensures { WholeStays }
{}

/// A refused message stays refused for the same cause, whatever bytes follow.
pub fn refused_stays()
    ensures { RefusedStays }
{}

/// A whole request has at least one byte, lies within the bytes, and is no longer than a message
/// may be.
pub fn whole_is_within()
    ensures { WholeIsWithin }
{}

/// Bytes that are a part of a message are no more than a message may have.
pub fn part_is_within()
    ensures { PartIsWithin }
{}

/// The bytes of a connection are one list of requests, and come to one end.
pub fn one_reading()
    ensures { OneReading }
{}

/// However the bytes are cut, and whenever the front is asked: it gives the requests of all bytes
/// together, and their end.
pub fn cuts_dont_matter()
    ensures { CutsDontMatter }
{}

/// The same of a front from which requests may still come: its rest stands before the bytes that
/// it is fed.
pub fn later_cuts_dont_matter()
    ensures { LaterCutsDontMatter }
{}
