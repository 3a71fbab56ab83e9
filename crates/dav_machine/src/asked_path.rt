ghost use Rattle.std.specs.Prelude.{◌≡◌};

use dav_names::Resource;
use dsv_base::{Path, Rev};

/// A path of a revision that is asked about, and the resource that named it.
#[derive(Debug, Drop)]
pub struct AskedPath<'a> {
    pub resource: &'a Resource,
    pub rev: Rev,
    pub path: &'a Path,
}

impl<'a> AskedPath<'a> {
    /// The path of these three.
    pub fn of(resource: &'a Resource, rev: Rev, path: &'a Path) -> AskedPath<'a>
        ensures resource { result.resource.now ≡ resource.now }
        ensures rev { result.rev ≡ rev }
        ensures path { result.path.now ≡ path.now }
    {
        AskedPath {
            resource,
            rev,
            path,
        }
    }
}
