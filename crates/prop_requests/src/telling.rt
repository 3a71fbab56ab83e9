ghost use Rattle.std.specs.Prelude.{◌≡◌, ◌<◌, ◌∷◌, IfOk, IfSome, OnOk, IsTrue, Some, None, [], length, codes, option_to_list, if◌then◌else◌};
ghost use Rattle.std.specs.List.{All};
ghost use Rattle.std.specs.Option.{option_copied};
ghost use Rattle.dsv_base.specs.Paths.{is_path, join_text};
ghost use Rattle.rev_nodes.specs.Forests.{id_at, IsId, IsNodeOf};
ghost use Rattle.log_access.specs.Levels.{shows_props, shows_author};
ghost use Rattle.log_access.specs.Records.{some_author};
ghost use Rattle.dav_documents.specs.Drafts.{started, with_attributes, with_elements};
ghost use Rattle.dav_documents.specs.Written.{for_each};
ghost use Rattle.prop_values.specs.PropTags.{prefix_bindings};
ghost use Rattle.prop_values.specs.Subjects.{told_revision, told_lock, told_of};
ghost use Rattle.prop_values.specs.Responses.{response_about, response_element};
ghost use Rattle.prop_values.specs.Records.{AreSameBesideRecord};
ghost use Rattle.prop_values.specs.declared.subject.Subject.TheVariants.{WholeRevision};
ghost use Rattle.prop_requests.specs.Sights.{sources_by};
ghost use Rattle.prop_requests.specs.Multistatus.{multistatus_tree};
ghost use Rattle.prop_requests.specs.Levels.{level_in};
ghost use Rattle.prop_requests.specs.Entered.{spot_subject, entry_subject, entry_subjects, IsEntered, CanBeTold};

use crate::known_level::KnownLevel;
use crate::sight::Sight;
use crate::spot::Spot;
use dav_documents::{Namespace, Writer};
use dsv_base::{Moment, NoMemory, Path, PathFault, Prop, Rev};
use log_access::Level;
use path_locks::Lock;
use prop_values::{Query, Subject, Told, write_response};
use rev_nodes::{Commit, Entry, Node, NodeId};
use rev_trees::Trees;
use std::alloc::Global;
use std::collections::BTreeMap;
use std::marker::Model;

/// What an answer is told from while it is written, with the levels of revisions that were found so far:
/// to find one, all paths that the revision changed are looked at. Contracts see what the user sees and
/// the properties that are wanted.
#[derive(Debug, Drop)]
pub(crate) struct Telling<'a> {
    alloc: Global,
    sight: &'a Sight<'a>,
    query: &'a Query<'a>,
    levels: BTreeMap<u32, KnownLevel>,
}

impl<'a> Model for Telling<'a> {
    ghost use Rattle.prop_requests.specs.Levels.{TellingState, AreKnown};

    ghost Value = { TellingState };

    ghost view = { λ t. record { sight = t.sight.now; wanted = t.query.now } };

    ghost invariant = { λ t. AreKnown t.sight.now t.levels.entries };
}

impl<'a> Telling<'a> {
    /// Nothing is known so far.
    pub(crate) fn of(alloc: Global, sight: &'a Sight<'a>, query: &'a Query<'a>) -> Telling<'a>
        ensures { result ≡ record { sight = sight.now; wanted = query.now } }
    {
        Telling {
            alloc,
            sight,
            query,
            levels: BTreeMap::new(alloc),
        }
    }

    /// What the user sees.
    fn sight(&self) -> &'a Sight<'a>
        ensures { result.now ≡ self.now.sight }
    {
        self.sight
    }

    /// The level at which the user is shown the record of a revision, and it is known from then on.
    fn level_of(&mut self, rev: Rev) -> Result<Level, NoMemory>
        requires { rev < length self.old.sight.trees.revisions }
        ensures kept { self.new ≡ self.old }
        ensures level { IfOk result (λ level. level ≡ level_in self.old.sight rev) }
    {
        if let Some(level) = self.known(rev) {
            return Ok(level);
        }
        let level = self.sight.level_of(rev);
        self.levels.insert(rev.get(), KnownLevel { rev, level })?;
        Ok(level)
    }

    /// The level of a revision, where it is known.
    fn known(&self, rev: Rev) -> Option<Level>
        ensures { IfSome result (λ level. level ≡ level_in self.now.sight rev) }
    {
        let known = self.levels.get(&rev.get())?;
        if known.rev != rev {
            return None;
        }
        Some(known.level)
    }

    /// What is told of a subject, as far as it matters for the properties that are wanted: the level of a
    /// revision is found only where something of its record is.
    fn told(&mut self, subject: &Subject<'_>) -> Result<Told<'a>, NoMemory>
        requires { CanBeTold self.old.sight subject.now }
        ensures kept { self.new ≡ self.old }
        ensures told { IfOk result (λ told. response_about told self.old.wanted subject.now
            ≡ response_element (sources_by self.old.sight) self.old.wanted subject.now) }
    {
        if !self.query.wants_record(subject) {
            return Ok(told_beside_record(self.sight(), subject));
        }
        let level = self.level_of(told_revision(subject))?;
        Ok(told_of(self.sight(), level, subject))
    }

    /// Writes the answer about a subject.
    fn write(&mut self, writer: &mut Writer, subject: &Subject<'_>) -> Result<(), NoMemory>
        requires { CanBeTold self.old.sight subject.now }
        ensures kept { self.new ≡ self.old }
        ensures written { OnOk result (writer.new ≡ with_elements
            (response_element (sources_by self.old.sight) self.old.wanted subject.now) writer.old) }
    {
        let told = self.told(subject)?;
        write_response(self.alloc, writer, &told, self.query, subject)
    }

    /// Writes the answer about the node of this number, which stands at the spot, where the user may read
    /// the path.
    fn write_spot(
        &mut self,
        writer: &mut Writer,
        spot: &Spot<'_>,
        id: NodeId,
    ) -> Result<(), NoMemory>
        requires { id_at self.old.sight.trees spot.now.rev spot.now.path ≡ Some id }
        ensures kept { self.new ≡ self.old }
        ensures written { OnOk result (writer.new ≡ with_elements
            (for_each (response_element (sources_by self.old.sight) self.old.wanted)
            (option_to_list (spot_subject self.old.sight spot.now))) writer.old) }
    {
        if !self.sight().can_read(spot.path) {
            return Ok(());
        }
        let node = node_of(self.sight().trees(), id);
        self.write(writer, &spot.subject(node))
    }

    /// Writes the answer about what an entry of the directory names, where the user may read its path.
    fn write_entry(
        &mut self,
        writer: &mut Writer,
        directory: &Spot<'_>,
        entry: &Entry,
    ) -> Result<(), NoMemory>
        requires { IsEntered self.old.sight directory.now entry.now }
        ensures kept { self.new ≡ self.old }
        ensures written { OnOk result (writer.new ≡ with_elements
            (for_each (response_element (sources_by self.old.sight) self.old.wanted)
            (option_to_list (entry_subject self.old.sight directory.now entry.now))) writer.old) }
    {
        let path = entry_path(directory, entry)?;
        self.write_spot(writer, &directory.at(&path), entry.id)
    }

    /// Writes the answers about what the entries of the directory name.
    fn write_entries(
        &mut self,
        writer: &mut Writer,
        directory: &Spot<'_>,
        entries: &[Entry],
    ) -> Result<(), NoMemory>
        requires { All (IsEntered self.old.sight directory.now) entries.now }
        ensures kept { self.new ≡ self.old }
        ensures written { OnOk result (writer.new ≡ with_elements
            (for_each (response_element (sources_by self.old.sight) self.old.wanted)
            (entry_subjects self.old.sight directory.now entries.now)) writer.old) }
    {
        'entries: for entry in entries {
            self.write_entry(writer, directory, entry)?;
        }
        Ok(())
    }

    /// Writes the answers about a node, and about what these entries of it name.
    #[tactic(auto, using(dav_documents::proofs::Trees::with_elements_joined), unfolding(crate::specs::Multistatus::multistatus_tree))]
    pub(crate) fn write_node(
        &mut self,
        writer: &mut Writer,
        spot: &Spot<'_>,
        subject: &Subject<'_>,
        entries: &[Entry],
    ) -> Result<(), NoMemory>
        requires can { CanBeTold self.old.sight subject.now }
        requires entered { All (IsEntered self.old.sight spot.now) entries.now }
        ensures { OnOk result (writer.new ≡ with_elements
            (multistatus_tree (sources_by self.old.sight) self.old.wanted
            (subject.now ∷ entry_subjects self.old.sight spot.now entries.now)) writer.old) }
    {
        start_root(writer)?;
        self.write(writer, subject)?;
        self.write_entries(writer, spot, entries)?;
        writer.end(b"D:multistatus")
    }

    /// Writes the answer about a revision.
    #[tactic(auto, using(dav_documents::proofs::Trees::with_elements_joined), unfolding(crate::specs::Multistatus::multistatus_tree))]
    pub(crate) fn write_revision(&mut self, writer: &mut Writer, rev: Rev) -> Result<(), NoMemory>
        requires { rev < length self.old.sight.trees.revisions }
        ensures { OnOk result (writer.new ≡ with_elements
            (multistatus_tree (sources_by self.old.sight) self.old.wanted (WholeRevision rev ∷ [])) writer.old) }
    {
        start_root(writer)?;
        self.write(writer, &Subject::WholeRevision(rev))?;
        writer.end(b"D:multistatus")
    }
}

/// The revision that is told of: that of a node's last change, and a revision itself.
fn told_revision(subject: &Subject<'_>) -> Rev
    ensures { result ≡ told_revision subject.now }
{
    match subject {
        Subject::YoungestNode(place) => place.node.created,
        Subject::RevisionNode(place) => place.node.created,
        Subject::WholeRevision(rev) => *rev,
    }
}

/// Begins the root element, and binds the four prefixes.
fn start_root(writer: &mut Writer) -> Result<(), NoMemory>
    ensures { OnOk result (writer.new
        ≡ with_attributes prefix_bindings (started (codes "D:multistatus") writer.old)) }
{
    writer.start(b"D:multistatus")?;
    writer.bind(b"D", Namespace::Dav.uri())?;
    writer.bind(b"V", Namespace::SubversionDav.uri())?;
    writer.bind(b"S", Namespace::SubversionSvn.uri())?;
    writer.bind(b"C", Namespace::SubversionCustom.uri())
}

/// The node of this number, which was changed last in a revision that is there.
pub(crate) fn node_of(trees: &Trees, id: NodeId) -> &Node
    requires { IsId trees.now id }
    ensures is { IsNodeOf trees.now id result.now }
    ensures created { result.now.created < length trees.now.revisions }
{
    trees.learn();
    trees.node(id)
}

/// The path of an entry of the directory, which is one.
fn entry_path(directory: &Spot<'_>, entry: &Entry) -> Result<Path, NoMemory>
    requires { IsTrue (is_path (join_text directory.now.path entry.now.name)) }
    ensures { IfOk result (λ path. path ≡ join_text directory.now.path entry.now.name) }
{
    match directory.path.join(entry.name.get()) {
        Ok(path) => Ok(path),
        Err(PathFault::BadPath) => unreachable!(),
        Err(PathFault::NoMemory) => Err(NoMemory),
    }
}

/// What is told of a subject, where this is the level of the revision that is told of.
fn told_of<'t>(sight: &'t Sight<'_>, level: Level, subject: &Subject<'_>) -> Told<'t>
    requires can { CanBeTold sight.now subject.now }
    requires level { level ≡ level_in sight.now (told_revision subject.now) }
    ensures { result ≡ told_of (sources_by sight.now) subject.now }
{
    let commit = sight.trees().commit_of(told_revision(subject));
    Told {
        root: sight.root(),
        uuid: sight.trees().uuid(),
        lock: told_lock(sight, subject),
        props: shown_props(level, commit),
        author: shown_author(level, commit),
        moment: shown_moment(level, commit),
    }
}

/// What is told of a subject without the record of a revision.
fn told_beside_record<'t>(sight: &'t Sight<'_>, subject: &Subject<'_>) -> Told<'t>
    requires { CanBeTold sight.now subject.now }
    ensures { AreSameBesideRecord result (told_of (sources_by sight.now) subject.now) }
{
    Told {
        root: sight.root(),
        uuid: sight.trees().uuid(),
        lock: told_lock(sight, subject),
        props: &[],
        author: None,
        moment: None,
    }
}

/// The lock on a node of the youngest revision.
#[tactic(auto, unfolding(crate::specs::Sights::sources_of))]
fn told_lock<'t>(sight: &'t Sight<'_>, subject: &Subject<'_>) -> Option<&'t Lock>
    requires { CanBeTold sight.now subject.now }
    ensures { option_copied result ≡ told_lock (sources_by sight.now) subject.now }
{
    match subject {
        Subject::YoungestNode(place) => sight.lock_at(place.path),
        Subject::RevisionNode(_place) => None,
        Subject::WholeRevision(_rev) => None,
    }
}

/// The properties of a revision, where this level shows them.
fn shown_props(level: Level, commit: &Commit) -> &[Prop]
    ensures { result.now ≡ (if shows_props level then commit.now.props else []) }
{
    match level {
        Level::Full => commit.props.get(),
        Level::Partial => &[],
        Level::None => &[],
    }
}

/// The author of a revision, where it has one and this level shows it.
fn shown_author(level: Level, commit: &Commit) -> Option<&[u8]>
    ensures { option_copied result ≡ (if shows_author level then some_author commit.now.author else None) }
{
    match level {
        Level::Full => some_author(commit.author.get()),
        Level::Partial => some_author(commit.author.get()),
        Level::None => None,
    }
}

/// The author, where there is one: the empty name is none.
fn some_author(name: &[u8]) -> Option<&[u8]>
    ensures { option_copied result ≡ some_author name.now }
{
    match name {
        [] => None,
        [_first, ..] => Some(name),
    }
}

/// When a revision was made, where this level shows it.
fn shown_moment(level: Level, commit: &Commit) -> Option<Moment>
    ensures { result ≡ (if shows_author level then Some commit.now.moment else None) }
{
    match level {
        Level::Full => Some(commit.moment),
        Level::Partial => Some(commit.moment),
        Level::None => None,
    }
}
