use crate::rights::rules_in;
use authz_check::Policy;
use log_access::{Level, level_of};
use rev_nodes::Changed;
use row_files::{Answer, Given};

/// How much of the record of a revision that changed these paths a user is shown by the table's rules;
/// who is nobody where the third column is empty.
pub fn put_level(repository: &[u8], changed: &[Changed], given: &Given<'_>, out: &mut Answer) {
    let name = given.bytes(2);
    let user = if name.is_empty() { None } else { Some(name) };
    match policy_in(repository, given) {
        Some(policy) => out.put(level_word(level_of(&policy, user, changed))),
        None => out.give_up(),
    }
}

/// The table's rules, in this repository.
fn policy_in(repository: &[u8], given: &Given<'_>) -> Option<Policy> {
    let rules = rules_in(given)?;
    Policy::new(given.alloc, &rules, repository).ok()
}

fn level_word(level: Level) -> &'static [u8] {
    match level {
        Level::Full => b"full",
        Level::Partial => b"partial",
        Level::None => b"none",
    }
}
