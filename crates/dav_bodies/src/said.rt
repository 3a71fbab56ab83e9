use crate::body::Body;
use dav_reading::FormPlace;

/// What the root of a body says that is in the wide grammar of its kind, which has the left-out forms in it.
#[derive(Debug, Drop)]
pub enum Said {
    /// It asks for this.
    Asks(Body),
    /// It has left-out forms at its elements or attributes, of which this is the first.
    Leaves(FormPlace),
}
