ghost use Rattle.std.specs.Prelude.{◌≡◌};
ghost use Rattle.md5.specs.Md5.{md5};
ghost use Rattle.sha1.specs.Sha1.{sha1};

use dsv_base::Bytes;
use md5::{Digest, Md5};
use sha1::Sha1;
use std::marker::Model;

/// Bytes with their MD5 (RFC 1321) and their SHA-1 (RFC 3174). Contracts see the bytes.
#[derive(Debug, Drop)]
pub(crate) struct Summed {
    bytes: Bytes,
    md5: [u8; 16],
    sha1: [u8; 20],
}

impl Model for Summed {
    ghost use Rattle.std.specs.Prelude.{List, ℕ, ◌≡◌};
    ghost use Rattle.rev_nodes.specs.Sums.{AreSumsOf};

    ghost Value = { List ℕ };

    ghost view = { λ s. s.bytes };

    ghost invariant = { λ s. AreSumsOf s.bytes s.md5 s.sha1 };
}

impl Summed {
    /// The bytes, whose sums are made here.
    pub(crate) fn of(bytes: Bytes) -> Summed
        ensures { result ≡ bytes }
    {
        let md5 = Md5::digest(bytes.get());
        let sha1 = Sha1::digest(bytes.get());
        Summed { bytes, md5, sha1 }
    }

    pub(crate) fn bytes(&self) -> &Bytes
        ensures { result.now ≡ self.now }
    {
        &self.bytes
    }

    pub(crate) fn md5(&self) -> [u8; 16]
        ensures { result ≡ md5 self.now }
    {
        self.md5
    }

    pub(crate) fn sha1(&self) -> [u8; 20]
        ensures { result ≡ sha1 self.now }
    {
        self.sha1
    }
}
