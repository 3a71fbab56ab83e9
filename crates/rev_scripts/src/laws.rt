ghost use Rattle.rev_scripts.specs.Aloud.{ScriptsReadAloud};

/// Whatever is read as a script is the head of its repository and then the texts of its revisions, one
/// after another. So each repository has one script, and the reader's grammar is what is written.
pub fn scripts_read_aloud()
    ensures { ScriptsReadAloud }
{}
