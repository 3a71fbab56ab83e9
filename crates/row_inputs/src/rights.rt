use crate::reading::rules_of;
use authz_check::Policy;
use authz_file::{Base, Right, Rule, Rules};
use dsv_base::{Bytes, Path};
use row_files::{Answer, Given};

/// The tables on rules files and the rights that they give.
#[derive(Clone, Copy)]
pub enum RightTable {
    Rules,
    Rights,
}

/// Answers a row of such a table.
pub fn answer_right(table: RightTable, given: &Given<'_>, out: &mut Answer) {
    match table {
        RightTable::Rules => put_rules(given, out),
        RightTable::Rights => match policy_of(given) {
            Some(policy) => put_rights(&policy, given, out),
            None => out.give_up(),
        },
    }
}

/// What is read of a rules file, each rule ended by `;`, or why it isn't taken.
fn put_rules(given: &Given<'_>, out: &mut Answer) {
    match rules_of(given.alloc, given.bytes(0)) {
        Ok(rules) => put_each(rules.list.get(), out),
        Err(fault) => out.put_shown(format!(in given.alloc; "{fault}")),
    }
}

fn put_each(rules: &[Rule], out: &mut Answer) {
    'rules: for rule in rules {
        put_rule(rule, out);
    }
}

fn put_rule(rule: &Rule, out: &mut Answer) {
    if let Some(repos) = &rule.repos {
        out.put(repos.get());
        out.put(b":");
    }
    out.put(rule.path.text());
    out.put(if rule.negated { b" ~" } else { b" " });
    put_base(&rule.base, out);
    out.put(b" ");
    out.put(right_word(rule.right));
    out.put(b";");
}

fn put_base(base: &Base, out: &mut Answer) {
    match base {
        Base::All => out.put(b"*"),
        Base::LoggedIn => out.put(b"$authenticated"),
        Base::Anonymous => out.put(b"$anonymous"),
        Base::Named(names) => put_names(names.get(), out),
    }
}

fn put_names(names: &[Bytes], out: &mut Answer) {
    out.put(b"{");
    'names: for place in 0..names.len() {
        if place > 0 {
            out.put(b",");
        }
        out.put(names[place].get());
    }
    out.put(b"}");
}

fn right_word(right: Right) -> &'static [u8] {
    match right {
        Right::No => b"no",
        Right::Read => b"r",
        Right::Write => b"rw",
    }
}

/// The table's rules, in its repository.
fn policy_of(given: &Given<'_>) -> Option<Policy> {
    let repository = given.setting("repository")?;
    let rules = rules_in(given)?;
    Policy::new(given.alloc, &rules, repository.as_slice()).ok()
}

/// The table's rules.
pub fn rules_in(given: &Given<'_>) -> Option<Rules> {
    let file = given.setting("rules")?;
    rules_of(given.alloc, file.as_slice()).ok()
}

/// A user, who is nobody where the name is empty, and a path: the right there, the greatest right that is
/// held there and at each section under it, and whether no right is held at any of these.
fn put_rights(policy: &Policy, given: &Given<'_>, out: &mut Answer) {
    let name = given.bytes(0);
    let user = if name.is_empty() { None } else { Some(name) };
    match given.path(1) {
        Some(path) => put_rights_at(policy, user, &path, out),
        None => out.give_up(),
    }
}

fn put_rights_at(policy: &Policy, user: Option<&[u8]>, path: &Path, out: &mut Answer) {
    out.put(right_word(policy.access(user, path)));
    out.put(b" | ");
    out.put(held_word(policy, user, path));
    out.put(b" | ");
    out.put_word(policy.closed(user, path));
}

/// The greatest right that is held at the path and at each section under it.
fn held_word(policy: &Policy, user: Option<&[u8]>, path: &Path) -> &'static [u8] {
    let writes = policy.all_access(user, path, Right::Write);
    let reads = policy.all_access(user, path, Right::Read);
    if !policy.all_access(user, path, Right::No) || (writes && !reads) {
        return b"a lesser right isn't held";
    }
    right_word(match (reads, writes) {
        (_, true) => Right::Write,
        (true, false) => Right::Read,
        (false, false) => Right::No,
    })
}
