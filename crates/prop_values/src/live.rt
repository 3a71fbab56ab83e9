/// A live property: one that the server computes (RFC 4918, section 15; Subversion's notes on WebDAV).
#[derive(Clone, Copy, Debug, PartialEq, Eq)]
pub enum Live {
    /// What kind of thing this is: `D:resourcetype`.
    ResourceType,
    /// How long a file's text is: `D:getcontentlength`.
    ContentLength,
    /// The revision of the last change: `D:version-name`.
    VersionName,
    /// When that was, as Subversion writes it: `D:creationdate`.
    CreationDate,
    /// When that was, as HTTP writes it: `D:getlastmodified`.
    LastModified,
    /// Who made it: `D:creator-displayname`.
    CreatorName,
    /// Where the node stands as a node of its revision: `D:checked-in`.
    CheckedIn,
    /// The lock on it: `D:lockdiscovery`.
    LockDiscovery,
    /// Its path without the first slash: `V:baseline-relative-path`.
    RelativePath,
    /// The repository's UUID: `V:repository-uuid`.
    RepositoryUuid,
    /// The MD5 of a file's text: `V:md5-checksum`.
    Md5Checksum,
    /// The SHA-1 of a file's text: `V:sha1-checksum`.
    Sha1Checksum,
    /// How many properties the node has: `V:deadprop-count`.
    PropertyCount,
}
