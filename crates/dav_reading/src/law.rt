ghost use Rattle.dav_reading.specs.WrittenTrees.{WrittenIsRead};

/// A body that `dav_documents` writes of a tree is read as the tree for which it stands.
pub fn written_is_read()
    ensures { WrittenIsRead }
{}
