ghost use Rattle.std.specs.Prelude.{◌≡◌, ◌<◌, ◌++◌, length, option_to_list, IfOk, OnOk};
ghost use Rattle.dsv_base.specs.Gives.{Gives};
ghost use Rattle.authz_file.specs.Faults.{is_free_rules_fault};
ghost use Rattle.authz_file.specs.Groups.{names_at, place_of_label, targets};
ghost use Rattle.authz_file.specs.Resolving.{base_of, entry_rule, granted, is_place, resolved, rules_from};

use crate::base::Base;
use crate::book::Book;
use crate::faults::first_fault;
use crate::grant::Grant;
use crate::graph::targets;
use crate::names::names_at;
use crate::rule::{Rule, copy_repos};
use crate::rules::Rules;
use crate::rules_fault::RulesFault;
use crate::section_entry::SectionEntry;
use crate::who::Who;
use dsv_base::{List, NoMemory};
use std::alloc::Global;

/// The principal of the entry at this place.
fn base_of(
    alloc: Global,
    book: &Book,
    graph: &[List<usize>],
    place: usize,
    who: Who,
) -> Result<Base, NoMemory>
    requires graph { graph.now ≡ targets book.now }
    requires place { place < length book.now }
    ensures { IfOk result (λ base. base ≡ base_of who (names_at book.now place)) }
{
    match who {
        Who::All => Ok(Base::All),
        Who::LoggedIn => Ok(Base::LoggedIn),
        Who::Anonymous => Ok(Base::Anonymous),
        Who::Word => {
            let names = names_at(alloc, book, graph, place)?;
            Ok(Base::Named(names))
        }
    }
}

/// The rule of a grant that counts.
fn granted(
    alloc: Global,
    book: &Book,
    graph: &[List<usize>],
    place: usize,
    grant: &Grant,
) -> Result<Rule, NoMemory>
    requires graph { graph.now ≡ targets book.now }
    requires place { place < length book.now }
    ensures { IfOk result (λ rule. rule ≡ granted book.now place grant.now) }
{
    let repos = copy_repos(&grant.place.repos)?;
    let path = grant.place.path.copy()?;
    let base = base_of(alloc, book, graph, place, grant.who)?;
    Ok(Rule {
        repos,
        path,
        negated: grant.negated,
        base,
        right: grant.right,
    })
}

/// Whether the entry at this place counts for the label.
fn is_counted(book: &Book, place: usize, label: &[u8]) -> bool
    ensures { result ≡ is_place place (place_of_label book.now label.now) }
{
    match book.place(label) {
        Some(other) => place == other,
        None => false,
    }
}

/// The rule of the entry at this place, where it stands in a path section and counts.
#[tactic(auto, unfolding(crate::specs::Resolving::entry_rule))]
fn entry_rule(
    alloc: Global,
    book: &Book,
    graph: &[List<usize>],
    place: usize,
    entry: &SectionEntry,
) -> Result<Option<Rule>, NoMemory>
    requires graph { graph.now ≡ targets book.now }
    requires place { place < length book.now }
    ensures { IfOk result (λ rule. rule ≡ entry_rule book.now place entry.now) }
{
    match &entry.grant {
        None => Ok(None),
        Some(grant) => {
            if !is_counted(book, place, entry.label.get()) {
                return Ok(None);
            }
            let rule = granted(alloc, book, graph, place, grant)?;
            Ok(Some(rule))
        }
    }
}

fn push_rule(list: &mut Vec<Rule>, rule: Option<Rule>) -> Result<(), NoMemory>
    ensures { OnOk result (list.new.items ≡ list.old.items ++ option_to_list rule) }
{
    match rule {
        None => Ok(()),
        Some(rule) => {
            list.push(rule)?;
            Ok(())
        }
    }
}

/// The rules of all entries, in their order.
fn rules_of(alloc: Global, book: &Book, graph: &[List<usize>]) -> Result<List<Rule>, NoMemory>
    requires { graph.now ≡ targets book.now }
    ensures { IfOk result (λ list. list ≡ rules_from book.now 0 book.now) }
{
    let mut list = Vec::new(alloc);
    'entries: for (place, entry) in book.entries().iter().enumerate() {
        let rule = entry_rule(alloc, book, graph, place, entry)?;
        push_rule(&mut list, rule)?;
    }
    Ok(List::of(list))
}

/// The rules of the entries, or the first line with a word that names nothing, or with a group
/// that holds itself.
#[tactic(auto, unfolding(crate::specs::Resolving::resolved))]
pub(crate) fn resolved(alloc: Global, entries: List<SectionEntry>) -> Result<Rules, RulesFault>
    ensures { Gives is_free_rules_fault result (resolved entries) }
{
    let book = Book::of(alloc, entries)?;
    let graph = targets(alloc, &book)?;
    if let Some(fault) = first_fault(alloc, &book, graph.as_slice())? {
        return Err(fault);
    }
    let list = rules_of(alloc, &book, graph.as_slice())?;
    Ok(Rules { list })
}
