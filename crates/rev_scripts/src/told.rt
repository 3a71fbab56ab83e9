ghost use Rattle.std.specs.Prelude.{◌≡◌, OnOk};
ghost use Rattle.rev_scripts.specs.Items.{may_follow, is_next_name, nothing_told, told_with_prop, told_with_change};

use crate::item::Item;
use dsv_base::{Bytes, List, Moment, NoMemory, Prop, Rev};
use rev_nodes::{Change, Commit};
use std::alloc::Global;
use std::marker::Model;

/// What the items of a revision have told so far: its properties, and its changes, each with the
/// line that it begins at.
#[derive(Debug, Drop)]
pub struct Told {
    props: Vec<Prop>,
    changes: Vec<Change>,
    lines: Vec<u32>,
}

impl Model for Told {
    ghost use Rattle.rev_scripts.specs.Items as items;

    ghost Value = { items.Told };

    ghost view = { λ t. record { props = t.props.items; changes = t.changes.items; lines = t.lines.items } };
}

impl Told {
    ghost use Rattle.rev_scripts.specs.Scripts.{commit_of};

    /// Before the first item.
    pub fn new(alloc: Global) -> Told
        ensures { result ≡ nothing_told }
    {
        Told {
            props: Vec::new(alloc),
            changes: Vec::new(alloc),
            lines: Vec::new(alloc),
        }
    }

    /// Whether the item may stand next in the revision of this number.
    pub fn may_take(&self, number: Rev, item: &Item) -> bool
        ensures { result ≡ may_follow number self.now item.now }
    {
        match item {
            Item::End => true,
            Item::Prop(prop) => {
                self.changes.is_empty() && is_next_name(self.props.as_slice(), prop.name.get())
            }
            Item::Change(_) => number.get() >= 1,
        }
    }

    /// Takes a property.
    pub fn add_prop(&mut self, prop: Prop) -> Result<(), NoMemory>
        ensures { OnOk result (self.new ≡ told_with_prop self.old prop) }
    {
        self.props.push(prop)?;
        Ok(())
    }

    /// Takes a change that begins at this line.
    pub fn add_change(&mut self, change: Change, line: u32) -> Result<(), NoMemory>
        ensures { OnOk result (self.new ≡ told_with_change self.old change line) }
    {
        self.changes.push(change)?;
        self.lines.push(line)?;
        Ok(())
    }

    /// The commit of the revision, and the lines of its changes.
    pub fn into_commit(self, author: Bytes, moment: Moment) -> (Commit, Vec<u32>)
        ensures commit { result.0 ≡ commit_of author moment self }
        ensures lines { result.1.items ≡ self.lines }
    {
        let Told {
            props,
            changes,
            lines,
        } = self;
        let commit = Commit {
            author,
            moment,
            props: List::of(props),
            changes: List::of(changes),
        };
        (commit, lines)
    }
}

/// Whether the name comes after that of the last property, if there is one.
fn is_next_name(props: &[Prop], name: &[u8]) -> bool
    ensures { result ≡ is_next_name props.now name.now }
{
    match props {
        [] => true,
        [.., before] => before.name.get().cmp(name).is_lt(),
    }
}
