use authz_file::{Rules, RulesFault, read_rules};
use dsv_base::Bytes;
use http_front::{Users, UsersFault, read_users};
use rev_scripts::{ScriptFault, read_script};
use rev_trees::Trees;
use std::alloc::Global;

/// The most bytes of a file that is read.
const MOST_FILE_BYTES: usize = 268_435_456;

/// The trees of a script. One that is too long is answered by want of memory.
pub fn trees_of(alloc: Global, script: &[u8]) -> Result<Trees, ScriptFault> {
    if script.len() > MOST_FILE_BYTES {
        return Err(ScriptFault::NoMemory);
    }
    read_script(alloc, &Bytes::of(alloc, script)?)
}

/// The rules of a file. One that is too long is answered by want of memory.
pub fn rules_of(alloc: Global, file: &[u8]) -> Result<Rules, RulesFault> {
    if file.len() > MOST_FILE_BYTES {
        return Err(RulesFault::NoMemory);
    }
    read_rules(alloc, file)
}

/// The users of a file. One that is too long is answered by want of memory.
pub fn users_of(alloc: Global, file: &[u8]) -> Result<Users, UsersFault> {
    if file.len() > MOST_FILE_BYTES {
        return Err(UsersFault::NoMemory);
    }
    read_users(alloc, file)
}
