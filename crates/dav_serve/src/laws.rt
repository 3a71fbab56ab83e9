ghost use Rattle.dav_serve.specs.Laws.{BeginningsAreFirst};

/// The requests that a connection's bytes begin with are the first of all requests that the bytes have,
/// in the same order.
pub fn beginnings_are_first()
    ensures { BeginningsAreFirst }
{}
