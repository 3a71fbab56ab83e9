ghost use Rattle.std.specs.Prelude.{◌≡◌, ◌++◌, IfOk, Some, None, false};
ghost use Rattle.std.specs.Option.{option_copied};
ghost use Rattle.prop_values.specs.PropTags.{tag_of};
ghost use Rattle.std.specs.List.{list_any};
ghost use Rattle.prop_values.specs.LiveNames.{live_named};
ghost use Rattle.prop_values.specs.Records.{tells_record, is_revision, asks_record, wants_record, IsSameForRecords};

use crate::live::Live;
use crate::live_names::live_named;
use crate::subject::Subject;
use crate::tag::Tag;
use dsv_base::{NoMemory, PropName};
use std::alloc::Global;
use std::marker::Model;

/// A name that is wanted, with the live property that has it, if one has, and how it is written.
/// Contracts see the name.
#[derive(Debug, Drop)]
pub(crate) struct AskedName<'a> {
    name: &'a PropName,
    live: Option<Live>,
    tag: Tag<'a>,
}

impl<'a> Model for AskedName<'a> {
    ghost use Rattle.dsv_base.specs.declared.prop_name.PropName.{PropName as Name};
    ghost use Rattle.prop_values.specs.LookedUp.{IsLookedUp};

    ghost Value = { Name };

    ghost view = { λ a. a.name.now };

    ghost invariant = { λ a. IsLookedUp a.name.now a.live a.tag };
}

impl<'a> AskedName<'a> {
    /// The name, looked up. Its one error is want of memory.
    fn of(alloc: Global, name: &'a PropName) -> Result<AskedName<'a>, NoMemory>
        ensures { IfOk result (λ asked. asked ≡ name.now) }
    {
        let live = live_named(name);
        let tag = Tag::of(alloc, name)?;
        Ok(AskedName { name, live, tag })
    }

    pub(crate) fn name(&self) -> &PropName
        ensures { result.now ≡ self.now }
    {
        self.name
    }

    /// The live property that has this name.
    pub(crate) fn live(&self) -> Option<Live>
        ensures { result ≡ live_named self.now }
    {
        self.live
    }

    /// How the name is written.
    pub(crate) fn tag(&self) -> &Tag<'a>
        ensures { result.now ≡ tag_of self.now }
    {
        &self.tag
    }
}

/// The properties that are wanted, each name looked up once. Contracts see the names, or none where all
/// properties are wanted.
#[derive(Debug, Drop)]
pub struct Query<'a> {
    names: Option<Vec<AskedName<'a>>>,
}

impl<'a> Model for Query<'a> {
    ghost use Rattle.std.specs.Prelude.{List, Option, vec_items};
    ghost use Rattle.std.specs.Option.{option_map};
    ghost use Rattle.dsv_base.specs.declared.prop_name.PropName.{PropName as Name};

    ghost Value = { Option (List Name) };

    ghost view = { λ q. option_map (λ names. vec_items names) q.names };
}

impl<'a> Query<'a> {
    /// All properties.
    pub fn all() -> Query<'a>
        ensures { result ≡ None }
    {
        Query { names: None }
    }

    /// The properties of these names, in their order, each as often as it stands there. Its one error is
    /// want of memory.
    pub fn these(alloc: Global, names: &'a [PropName]) -> Result<Query<'a>, NoMemory>
        ensures { IfOk result (λ query. query ≡ Some names.now) }
    {
        let names = looked_up(alloc, names)?;
        Ok(Query { names: Some(names) })
    }

    /// Whether something that is wanted of a node or a revision is told from the record of a revision:
    /// date, author or a property of that revision. Where it isn't, the answer is the same whatever is
    /// shown of the record, so that nobody has to look for it.
    #[tactic(auto, using(crate::proofs::Unneeded::unneeded))]
    pub fn wants_record(&self, subject: &Subject<'_>) -> bool
        ensures value { result ≡ wants_record self.now subject.now }
        ensures same { result ≡ false → IsSameForRecords self.now subject.now }
    {
        match self.names() {
            None => true,
            Some(names) => any_asks_record(names, subject),
        }
    }

    /// The names, where not all properties are wanted.
    pub(crate) fn names(&self) -> Option<&[AskedName<'a>]>
        ensures { option_copied result ≡ self.now }
    {
        match &self.names {
            None => None,
            Some(names) => Some(names.as_slice()),
        }
    }
}

/// These names, each looked up.
fn looked_up<'a>(alloc: Global, names: &'a [PropName]) -> Result<Vec<AskedName<'a>>, NoMemory>
    ensures { IfOk result (λ all. all.items ≡ names.now) }
{
    let mut all = Vec::new(alloc);
    'names: for name in names {
        all.push(AskedName::of(alloc, name)?)?;
    }
    Ok(all)
}

fn any_asks_record(names: &[AskedName<'_>], subject: &Subject<'_>) -> bool
    ensures { result ≡ list_any (asks_record subject.now) names.now }
{
    'names: for asked in names {
        if asks_record(asked, subject) {
            return true;
        }
    }
    false
}

/// Whether the property of this name is told from the record of a revision.
fn asks_record(asked: &AskedName<'_>, subject: &Subject<'_>) -> bool
    ensures { result ≡ asks_record subject.now asked.now }
{
    match asked.live() {
        Some(live) => tells_record(live),
        None => is_revision(subject),
    }
}

fn tells_record(live: Live) -> bool
    ensures { result ≡ tells_record live }
{
    match live {
        Live::CreationDate => true,
        Live::LastModified => true,
        Live::CreatorName => true,
        _ => false,
    }
}

fn is_revision(subject: &Subject<'_>) -> bool
    ensures { result ≡ is_revision subject.now }
{
    match subject {
        Subject::WholeRevision(_rev) => true,
        Subject::YoungestNode(_place) => false,
        Subject::RevisionNode(_place) => false,
    }
}
