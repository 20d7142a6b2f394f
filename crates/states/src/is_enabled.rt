//! is-enabled.
ghost use Rattle.std.specs.Prelude.{◌≡◌, Ok, IfOk};
ghost use Rattle.std.specs.Option.{option_copied};
ghost use Rattle.footprint.specs.Inquiry.{by_cells};
ghost use Rattle.install_section.specs.Sections.{section_of};
ghost use Rattle.states.specs.IsEnabled as states;
ghost use Rattle.states.specs.IsEnabled.{by_place, has_other, asks_for_none, by_lists, by_file, by_links, state_word};
ghost use Rattle.transaction.specs.Runs.{Runs, asking};

use footprint::{Answer, Operation, Outcome, StateWord};
use install_section::{Section, section_into};
use link_tree::{Place, Scope, Slot, Tree, TreePart, TreePath};
use load_path::{Cells, Found};
use std::alloc::{AllocError, Global};
use transaction::Transaction;
use unit_name::UnitName;

/// systemctl(1), `is-enabled`: the first of these words that applies (`Answer::State`). It is a
/// question, changes nothing and refuses nothing.
///
/// - `NotFound`: the name isn't found anywhere, or its links lead nowhere.
/// - `Masked`, or `MaskedRuntime` if its entry is in `/run`.
/// - `Alias`: it is another name of a unit.
/// - `Enabled`: a link in `/etc` belongs to the unit, other than the one with its own name; or else
///   `EnabledRuntime`: one in `/run` does.
/// - `Linked`: its file is outside the unit directories, or `LinkedRuntime` if its entry is in
///   `/run`.
/// - `Static`: its [Install] section names no unit and asks for no link; `Indirect`: it only names
///   units.
/// - `Disabled`.
#[derive(Debug, Drop)]
pub struct IsEnabled {
    pub unit: UnitName,
}

/// One word if an entry is in `/run`, and another if it is elsewhere.
fn by_place(place: Place, in_run: StateWord, elsewhere: StateWord) -> StateWord
    ensures { result ≡ by_place place in_run elsewhere }
{
    match place {
        Place::Run => in_run,
        Place::Etc | Place::Local | Place::Vendor => elsewhere,
    }
}

/// Whether one of the links is at a path other than this.
fn has_other(own: &TreePath, links: &TreePart) -> bool
    ensures { result ≡ has_other own.now links.now }
{
    for (path, _link) in links.iter() {
        if path.text() != own.text() {
            return true;
        }
    }
    false
}

/// Whether a link of a scope that belongs to the unit is at another path than that of its own name.
fn is_enabled_in(
    alloc: Global,
    scope: Scope,
    unit: &UnitName,
    links: &TreePart,
) -> Result<bool, AllocError>
    ensures { IfOk result (λ enabled. enabled ≡ states.is_enabled_in scope unit.now links.now) }
{
    let own = scope.place().slot(alloc, unit)?;
    Ok(has_other(&own, links))
}

/// Whether a section asks for no link.
fn asks_for_none(section: &Section) -> bool
    ensures { result ≡ asks_for_none section.now }
{
    let text = &section.text;
    text.alias.is_empty()
        && text.wanted_by.is_empty()
        && text.required_by.is_empty()
        && text.upheld_by.is_empty()
}

/// The word, by what the lists of a section hold.
fn by_lists(section: Option<&Section>) -> StateWord
    ensures { result ≡ by_lists (option_copied section.entry) }
{
    match section {
        None => StateWord::Static,
        Some(section) => {
            if section.is_empty() {
                StateWord::Static
            } else if asks_for_none(section) {
                StateWord::Indirect
            } else {
                StateWord::Disabled
            }
        }
    }
}

/// The word, by where the unit's file is.
fn by_file(file: &TreePath, place: Place, section: Option<&Section>) -> StateWord
    ensures { result ≡ by_file file.now place (option_copied section.entry) }
{
    if Slot::is_of_unit(file) {
        return by_lists(section);
    }
    by_place(place, StateWord::LinkedRuntime, StateWord::Linked)
}

/// The word, by the links that belong to a unit, and by its file.
fn by_links(
    alloc: Global,
    unit: &UnitName,
    file: &TreePath,
    place: Place,
    section: Option<&Section>,
    etc: &TreePart,
    run: &TreePart,
) -> Result<StateWord, AllocError>
    ensures { IfOk result (λ word. word ≡ by_links unit.now file.now place (option_copied section.entry) etc.now run.now) }
{
    if is_enabled_in(alloc, Scope::Etc, unit, etc)? {
        return Ok(StateWord::Enabled);
    }
    if is_enabled_in(alloc, Scope::Run, unit, run)? {
        return Ok(StateWord::EnabledRuntime);
    }
    Ok(by_file(file, place, section))
}

/// The section of a unit's file.
fn ask_section(
    alloc: Global,
    unit: &UnitName,
    txn: &mut Transaction<'_>,
) -> Result<Option<Section>, AllocError>
    ensures { IfOk result (λ section. Runs (asking (by_cells (section_of unit.now))) txn.old txn.new (Ok section)) }
{
    let mut cells = Cells::new(alloc);
    let section = section_into(alloc, txn.tree(), unit, &mut cells)?;
    txn.note(cells)?;
    Ok(section)
}

/// The word for a unit that is found under its own name and has this section.
fn linked_word(
    alloc: Global,
    unit: &UnitName,
    file: &TreePath,
    place: Place,
    section: Option<&Section>,
    txn: &mut Transaction<'_>,
) -> Result<StateWord, AllocError>
    ensures { IfOk result (λ word. Runs (asking (states.linked_word unit.now file.now place (option_copied section.entry))) txn.old txn.new (Ok word)) }
{
    let etc = txn.links_of(alloc, Scope::Etc, unit)?;
    let run = txn.links_of(alloc, Scope::Run, unit)?;
    by_links(alloc, unit, file, place, section, &etc, &run)
}

/// The word for a unit that is found under its own name.
fn unit_word(
    alloc: Global,
    unit: &UnitName,
    file: &TreePath,
    place: Place,
    txn: &mut Transaction<'_>,
) -> Result<StateWord, AllocError>
    ensures { IfOk result (λ word. Runs (asking (states.unit_word unit.now file.now place)) txn.old txn.new (Ok word)) }
{
    let section = ask_section(alloc, unit, txn)?;
    linked_word(alloc, unit, file, place, section.as_ref(), txn)
}

/// The word for a unit that is found, by its own name.
fn named_word(
    alloc: Global,
    name: &UnitName,
    real: &UnitName,
    file: &TreePath,
    place: Place,
    txn: &mut Transaction<'_>,
) -> Result<StateWord, AllocError>
    ensures { IfOk result (λ word. Runs (asking (states.named_word name.now real.now file.now place)) txn.old txn.new (Ok word)) }
{
    if real.text() == name.text() {
        return unit_word(alloc, name, file, place, txn);
    }
    Ok(StateWord::Alias)
}

impl IsEnabled {
    /// The word, by what the name is found as.
    fn word(&self, alloc: Global, txn: &mut Transaction<'_>) -> Result<StateWord, AllocError>
        ensures { IfOk result (λ word. Runs (asking (state_word self.now.unit)) txn.old txn.new (Ok word)) }
    {
        match txn.find(alloc, &self.unit)? {
            Found::Missing | Found::Dangling(_) => Ok(StateWord::NotFound),
            Found::Masked(place) => {
                Ok(by_place(place, StateWord::MaskedRuntime, StateWord::Masked))
            }
            Found::Unit { real, file, place } => {
                named_word(alloc, &self.unit, &real, &file, place, txn)
            }
        }
    }
}

impl Operation for IsEnabled {
    ghost use Rattle.std.specs.Prelude.{true};
    ghost use Rattle.footprint.proofs.Asking.{laws_of_questions};
    ghost use Rattle.states.specs.IsEnabled.{is_enabled_answer, is_enabled_meaning};

    ghost meaning = { is_enabled_meaning };

    ghost asks = { λ c. true };

    fn run(&self, alloc: Global, tree: &Tree) -> Result<Outcome, AllocError> {
        let mut txn = Transaction::new(alloc, tree);
        let word = self.word(alloc, &mut txn)?;
        txn.answer(alloc, Answer::State(word))
    }

    fn asks_only(&self) -> bool {
        true
    }

    fn copy(&self) -> Result<IsEnabled, AllocError> {
        Ok(IsEnabled {
            unit: self.unit.copy()?,
        })
    }

    fn same(&self, other: &IsEnabled) -> bool {
        self.unit == other.unit
    }

    ghost laws = { laws_of_questions is_enabled_answer };
}
