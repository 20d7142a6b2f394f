//! Trees that a command reads and edits.
ghost use Rattle.std.specs.Prelude.{◌≡◌, ◌++◌, [], true, false, Ok, All, map as list_map, IfOk, OnOk, OnErr};
ghost use Rattle.unit_paths.specs.Slots.{is_slot};
ghost use Rattle.load_path.specs.Find.{find};
ghost use Rattle.load_path.specs.Follow.{follow};
ghost use Rattle.tree_access.specs.declared.key.Key.TheVariants.{Cell, Marked, Presets};
ghost use Rattle.footprint.specs.Inquiry.{by_cells, entries_of_all, entries_seen, giving, stands_at};
ghost use Rattle.tree_access.specs.Keys.{is_cell, StandAtSlots};
ghost use Rattle.tree_access.specs.Readings.{reading_of};
ghost use Rattle.footprint.specs.Steps.{all_at_once};
ghost use Rattle.footprint.specs.Units.{found_unit};
ghost use Rattle.transaction.specs.Seen.{tree_of, StartsAt};
ghost use Rattle.transaction.specs.Runs.{asking, asking_for, put, silently, taking, Runs, Closes};

use crate::edit::Edit;
use crate::stop::Stop;
use crate::wanted::WantedLinks;
use footprint::{Answer, Changes, Key, Keys, Notices, Outcome, Reading, Refusal, Subject};
use link_tree::{Entry, Scope, Tree, TreePart, TreePath};
use load_path::{Cells, End, Found, find_into, follow_into};
use std::alloc::{AllocError, Global};
use std::marker::Model;
use tree_access::copy_entry;
use unit_name::UnitName;

/// A tree that a command reads and edits: as it was at first, as it is now, and the keys of what
/// was looked at. The first tree itself never changes: the edits become the changes of an outcome.
/// If memory runs out, the edits may be lost, and the command must be given up. Contracts see the
/// two trees and the keys.
#[derive(Drop)]
pub struct Transaction<'t> {
    first: &'t Tree,
    /// `None` as long as nothing is edited.
    edit: Option<Edit<'t>>,
    keys: Keys,
}

impl<'t> Model for Transaction<'t> {
    ghost use Rattle.std.specs.Coded.{codes};
    ghost use Rattle.std.specs.FinMap as map;
    ghost use Rattle.link_tree.specs.Trees.{path_cmp};
    ghost use Rattle.link_tree.specs.Values.{coded_path, coded_entry};
    ghost use Rattle.transaction.specs.Seen.{Transacted, tree_of, StartsAt};

    ghost Value = { Transacted };

    ghost coded = { Prim.hlevel (codes, map.code {R = path_cmp} coded_path coded_entry) };

    ghost view = { λ txn. record { first = txn.first.now; tree = tree_of txn.first.now txn.edit; keys = txn.keys } };

    ghost invariant = { λ txn. StartsAt txn.first.now txn.edit };
}

/// The tree as it is now.
fn current<'a>(first: &'a Tree, edit: &'a Option<Edit<'_>>) -> &'a Tree
    ensures { result.now ≡ tree_of first.now edit.now }
{
    match edit {
        Some(edit) => edit.tree(),
        None => first,
    }
}

/// The edit so far; a new one if nothing was edited.
fn begin<'t>(alloc: Global, first: &'t Tree, edit: Option<Edit<'t>>) -> Result<Edit<'t>, AllocError>
    requires { StartsAt first.now edit }
    ensures { IfOk result (λ begun. begun ≡ (first.now, tree_of first.now edit.entry)) }
{
    match edit {
        Some(edit) => Ok(edit),
        None => Edit::new(alloc, first),
    }
}

/// The keys of the links that belong to these names.
fn marks(alloc: Global, scope: Scope, names: &[UnitName]) -> Result<Keys, AllocError>
    ensures { IfOk result (λ marks. marks ≡ list_map (Marked scope) names.now) }
{
    let mut marks = Keys::none(alloc);
    for name in names {
        marks.push(Key::Marked(scope, name.copy()?))?;
    }
    Ok(marks)
}

impl<'t> Transaction<'t> {
    /// Begins a command on a tree: nothing has been looked at or edited yet. Takes no memory.
    pub fn new(alloc: Global, tree: &'t Tree) -> Transaction<'t>
        ensures { result ≡ record { first = tree.now; tree = tree.now; keys = [] } }
    {
        Transaction {
            first: tree,
            edit: None,
            keys: Keys::none(alloc),
        }
    }

    /// What is at a path now, after all edits so far. Notes that the path was looked at. Fails only
    /// if memory runs out.
    pub fn get(&mut self, path: &TreePath) -> Result<Option<Entry>, AllocError>
        ensures ok { IfOk result (λ entry. Runs (asking (stands_at path.now)) self.old self.new (Ok entry)) }
        ensures err { OnErr result (self.new.first ≡ self.old.first) }
    {
        self.keys.push(Key::Cell(path.copy()?))?;
        copy_entry(current(self.first, &self.edit).get(path))
    }

    /// Looks up a unit that the command needs, and returns its own name and the path of its file:
    /// systemd.unit(5), "Unit File Load Path". Notes each path that was looked at. Refused by
    /// `NotFound` if no directory has the unit, by `Masked` if it is masked, and by `Dangling` with
    /// the last link if its links lead to nothing.
    pub fn unit(&mut self, alloc: Global, name: &UnitName) -> Result<(UnitName, TreePath), Stop>
        ensures { Runs (asking_for (giving (by_cells (find name.now)) (found_unit name.now))) self.old self.new result }
    {
        match self.find(alloc, name)? {
            Found::Missing => Err(Stop::Refused(Refusal::NotFound(Subject::Unit(name.copy()?)))),
            Found::Masked(_) => Err(Stop::Refused(Refusal::Masked(Subject::Unit(name.copy()?)))),
            Found::Dangling(link) => Err(Stop::Refused(Refusal::Dangling(link))),
            Found::Unit { real, file, .. } => Ok((real, file)),
        }
    }

    /// Looks up a unit that may also be missing or masked. Notes each path that was looked at.
    /// Fails only if memory runs out.
    pub fn find(&mut self, alloc: Global, name: &UnitName) -> Result<Found, AllocError>
        ensures ok { IfOk result (λ found. Runs (asking (by_cells (find name.now))) self.old self.new (Ok found)) }
        ensures err { OnErr result (self.new.first ≡ self.old.first) }
    {
        let mut cells = Cells::new(alloc);
        let found = find_into(alloc, self.tree(), name, &mut cells)?;
        self.note(cells)?;
        Ok(found)
    }

    /// Follows links from a path to their end. Notes each path that was looked at. Fails only if
    /// memory runs out.
    pub fn follow(&mut self, alloc: Global, path: &TreePath) -> Result<End, AllocError>
        ensures ok { IfOk result (λ end. Runs (asking (by_cells (follow path.now))) self.old self.new (Ok end)) }
        ensures err { OnErr result (self.new.first ≡ self.old.first) }
    {
        let mut cells = Cells::new(alloc);
        let end = follow_into(alloc, self.tree(), path, &mut cells)?;
        self.note(cells)?;
        Ok(end)
    }

    /// The links of a scope that belong to a unit's name now, after all edits so far. Notes that
    /// these links were looked at. Fails only if memory runs out.
    pub fn links_of(
        &mut self,
        alloc: Global,
        scope: Scope,
        name: &UnitName,
    ) -> Result<TreePart, AllocError>
        ensures ok { IfOk result (λ links. Runs (asking (entries_seen (Marked scope name.now))) self.old self.new (Ok links)) }
        ensures err { OnErr result (self.new.first ≡ self.old.first) }
    {
        self.entries(alloc, Key::Marked(scope, name.copy()?))
    }

    /// The links of a scope that belong to at least one of these names now, all of them at slots.
    /// Notes that the links of each name were looked at. Fails only if memory runs out.
    pub fn links_of_all(
        &mut self,
        alloc: Global,
        scope: Scope,
        names: &[UnitName],
    ) -> Result<TreePart, AllocError>
        ensures ok { IfOk result (λ links. Runs (asking (entries_of_all (list_map (Marked scope) names.now))) self.old self.new (Ok links)) }
        ensures slots { IfOk result StandAtSlots }
        ensures err { OnErr result (self.new.first ≡ self.old.first) }
    {
        let marks = marks(alloc, scope, names)?;
        let links = marks.entries_of(alloc, self.tree())?;
        self.keys.append(marks)?;
        Ok(links)
    }

    /// The entries at the slots of preset files now. Notes that these slots were looked at. Fails
    /// only if memory runs out.
    pub fn presets(&mut self, alloc: Global) -> Result<TreePart, AllocError>
        ensures ok { IfOk result (λ presets. Runs (asking (entries_seen Presets)) self.old self.new (Ok presets)) }
        ensures err { OnErr result (self.new.first ≡ self.old.first) }
    {
        self.entries(alloc, Key::Presets)
    }

    /// The entries at which a key looks now, which can't be a cell. Notes the key. Fails only if
    /// memory runs out.
    pub fn entries(&mut self, alloc: Global, key: Key) -> Result<TreePart, AllocError>
        requires { is_cell key ≡ false }
        ensures ok { IfOk result (λ entries. Runs (asking (entries_seen key)) self.old self.new (Ok entries)) }
        ensures err { OnErr result (self.new.first ≡ self.old.first) }
    {
        let entries = key.entries(alloc, self.tree())?;
        self.keys.push(key)?;
        Ok(entries)
    }

    /// The whole tree as it is now. If you look things up in it by other calls than those of a
    /// transaction, `note` the paths that these looked at.
    pub fn tree(&self) -> &Tree
        ensures { result.now ≡ self.now.tree }
    {
        current(self.first, &self.edit)
    }

    /// Notes that these paths were looked at. Fails only if memory runs out.
    pub fn note(&mut self, cells: Cells) -> Result<(), AllocError>
        ensures ok { OnOk result (self.new ≡ record self.old { keys = self.old.keys ++ list_map Cell cells }) }
        ensures err { OnErr result (self.new.first ≡ self.old.first) }
    {
        self.keys.push_cells(cells)
    }

    /// Replaces what is at a slot by an entry, or removes it if `entry` is `None`. The path must be
    /// a slot, which `Slot::of` tests. Fails only if memory runs out, and then all edits so far are
    /// lost.
    pub fn put(
        &mut self,
        alloc: Global,
        slot: &TreePath,
        entry: Option<Entry>,
    ) -> Result<(), AllocError>
        requires { is_slot slot.now ≡ true }
        ensures ok { OnOk result (self.new ≡ put slot.now entry self.old) }
        ensures err { OnErr result (self.new.first ≡ self.old.first) }
    {
        let edit = begin(alloc, self.first, self.edit.take())?;
        self.edit = Some(edit.with(slot, entry)?);
        Ok(())
    }

    /// Makes all wanted links, and removes the entries that are wanted absent. Notes that each of
    /// these slots was looked at, even if nothing is done there. `Exists` names the least path, in
    /// byte order, at which something is in the way of a link.
    pub fn all_at_once(&mut self, alloc: Global, wanted: &WantedLinks) -> Result<(), Stop>
        ensures { Runs (taking (all_at_once wanted.now)) self.old self.new result }
    {
        wanted.push_cells(&mut self.keys)?;
        let edit = begin(alloc, self.first, self.edit.take())?;
        self.edit = Some(edit.with_all(alloc, wanted)?);
        Ok(())
    }

    /// Ends the command: makes the outcome of what it did, with the notices that it reports. After
    /// a refusal the outcome has no changes. Fails if memory ran out, during the command or here.
    pub fn outcome(self, alloc: Global, done: Result<Notices, Stop>) -> Result<Outcome, AllocError>
        ensures outcome { IfOk result (Closes self.entry done) }
        ensures slots { IfOk result (λ outcome. All (λ change. is_slot change.path ≡ true) outcome.changes) }
    {
        match done {
            Ok(notices) => self.carry_out(alloc, notices),
            Err(Stop::Refused(refusal)) => self.answer(alloc, Answer::Refused(refusal)),
            Err(Stop::OutOfMemory) => Err(AllocError),
        }
    }

    /// The outcome of a command that was carried out.
    fn carry_out(self, alloc: Global, notices: Notices) -> Result<Outcome, AllocError>
        ensures outcome { IfOk result (Closes self.entry (Ok notices)) }
        ensures slots { IfOk result (λ outcome. All (λ change. is_slot change.path ≡ true) outcome.changes) }
    {
        let Transaction { first, edit, keys } = self;
        let changes = begin(alloc, first, edit)?.into_changes(alloc)?;
        let reading = Reading::of(alloc, first, keys)?;
        Ok(Outcome {
            answer: Answer::Done(notices),
            changes,
            reading,
        })
    }

    /// Ends a question: its outcome has this answer, no change, and what was looked at. Edits, if
    /// there are any, are lost. Fails only if memory runs out.
    pub fn answer(self, alloc: Global, answer: Answer) -> Result<Outcome, AllocError>
        ensures outcome { IfOk result (λ outcome. outcome ≡ record { answer = answer; changes = []; reading = reading_of self.entry.keys self.entry.first }) }
        ensures slots { IfOk result (λ outcome. All (λ change. is_slot change.path ≡ true) outcome.changes) }
    {
        let Transaction { first, keys, .. } = self;
        Ok(Outcome {
            answer,
            changes: Changes::none(alloc),
            reading: Reading::of(alloc, first, keys)?,
        })
    }

    /// Ends a command that reports no notices, as `outcome` does.
    pub fn outcome_of_steps(
        self,
        alloc: Global,
        done: Result<(), Stop>,
    ) -> Result<Outcome, AllocError>
        ensures outcome { IfOk result (Closes self.entry (silently done)) }
        ensures slots { IfOk result (λ outcome. All (λ change. is_slot change.path ≡ true) outcome.changes) }
    {
        match done {
            Ok(()) => self.outcome(alloc, Ok(Notices::none(alloc))),
            Err(stop) => self.outcome(alloc, Err(stop)),
        }
    }
}
