/// A form that a request may have and that davsvn leaves out by name. A request in such a form is
/// refused, and the reply names the form.
#[derive(Clone, Copy, Debug, PartialEq, Eq)]
pub enum Form {
    /// A PUT of a difference (`application/vnd.svn-svndiff`).
    Svndiff,
    /// A Content-Encoding other than `identity`.
    ContentEncoding,
    /// A POST of anything but a skel.
    PostType,
    /// A condition of the If field with `Not` or an entity tag (RFC 4918, section 10.4).
    IfCondition,
    /// A COPY of a directory with Depth 0.
    CopyDepth,
    /// A document type declaration.
    Doctype,
    /// A processing instruction.
    Processing,
    /// A PROPFIND of the names of properties.
    Propname,
    /// A shared lock.
    SharedLock,
    /// A LOCK without a body, which refreshes a lock.
    LockRefresh,
    /// A report that isn't known.
    Report,
    /// A report of another resource than its own.
    ReportPlace,
    /// An update that switches to another path.
    Switch,
    /// An update of one entry of the anchor.
    UpdateTarget,
    /// A path that is held from another place.
    LinkPath,
    /// A tree that is held in several revisions.
    Mixed,
    /// A depth other than infinity.
    Depth,
    /// A log of several paths.
    SeveralPaths,
    /// A log with merged revisions.
    MergedRevisions,
    /// A method that isn't built yet.
    Later,
}
