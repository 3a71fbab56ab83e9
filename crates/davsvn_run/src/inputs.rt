ghost use Rattle.std.specs.Prelude.{◌≡◌};
ghost use Rattle.dsv_outside.specs.Causes.{Rose};
ghost use Rattle.davsvn_run.specs.Opening.{OpeningSays};
ghost use Rattle.davsvn_run.specs.Words.{file_names_in};

use crate::command::FileNames;
use crate::end::End;
use crate::opening::{end_of, open_rules, open_script, open_users};
use authz_file::Rules;
use dsv_outside::Files;
use http_front::Users;
use rev_trees::Trees;
use std::alloc::Global;

/// What the three files of a repository give.
#[derive(Drop)]
pub struct Inputs {
    pub trees: Trees,
    pub rules: Rules,
    pub users: Users,
}

/// Reads the script, the rules and the users, each checked before the next is read.
///
/// # Errors
/// The end of a run that needs a file which isn't known.
pub fn open_inputs<F: Files>(
    alloc: Global,
    names: FileNames<'_>,
    files: &mut F,
) -> Result<Inputs, End>
    ensures says { OpeningSays (F.contents files.old) (file_names_in names.entry)
        (Rose (F.faults files.old) (F.faults files.new)) result }
    ensures same { F.contents files.new ≡ F.contents files.old }
{
    let trees = match open_script(alloc, files, names.script) {
        Ok(trees) => trees,
        Err(why) => return Err(end_of(alloc, names.script, why)),
    };
    let rules = match open_rules(alloc, files, names.rules) {
        Ok(rules) => rules,
        Err(why) => return Err(end_of(alloc, names.rules, why)),
    };
    let users = match open_users(alloc, files, names.users) {
        Ok(users) => users,
        Err(why) => return Err(end_of(alloc, names.users, why)),
    };
    Ok(Inputs {
        trees,
        rules,
        users,
    })
}
