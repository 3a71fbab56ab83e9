ghost use Rattle.dav_machine.specs.Laws.{ReadByTheView, ShownAlikeAnsweredAlike, RefusedAlike, HiddenAnsweredAlike, PlainAnsweredAlike};

/// The reply to a reading request is a function of what the state shows to its user, and of the request.
pub fn read_by_the_view()
    ensures { ReadByTheView }
{}

/// A reading request is answered alike in any two states that show its user the same, at any moments.
pub fn shown_alike_answered_alike()
    ensures { ShownAlikeAnsweredAlike }
{}

/// A request that target, method, headers, login, body or rule refuses is answered alike in any two
/// states of the same name and rules.
pub fn refused_alike()
    ensures { RefusedAlike }
{}

/// An OPTIONS, a GET, a HEAD or a PROPFIND for a path that its user may not read is answered alike in
/// any two states of the same name and rules, whatever stands there or anywhere else.
pub fn hidden_answered_alike()
    ensures { HiddenAnsweredAlike }
{}

/// A request whose client isn't one of Subversion's is answered as if it didn't tell its client.
pub fn plain_answered_alike()
    ensures { PlainAnsweredAlike }
{}
