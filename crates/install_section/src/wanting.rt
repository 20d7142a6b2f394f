//! The links that units want.
ghost use Rattle.std.specs.Prelude.{◌≡◌, true, Some, IfOk, OnOk, OnErr};
ghost use Rattle.std.specs.Ordering.{is_lt};
ghost use Rattle.std.specs.FinMap as map;
ghost use Rattle.unit_paths.specs.Slots.{is_slot};
ghost use Rattle.unit_paths.specs.Places.{scope_place};
ghost use Rattle.link_tree.specs.Trees.{path_cmp};
ghost use Rattle.load_path.specs.Search.{Finds, giving};
ghost use Rattle.unit_file.specs.Notices.{with_notice};
ghost use Rattle.install_section.specs.Words.{skipped};
ghost use Rattle.install_section.specs.Sections.{section_of};
ghost use Rattle.install_section.specs.Wishes.{words_for, notice_key};
ghost use Rattle.install_section.specs.Wanted.{least_with, with_link, with_nameless, with_wish, with_words, with_list, with_section, all_wants, no_wants, verdict, wanted};
ghost use Rattle.install_section.specs.WantedErrors.{Gives};
ghost use Rattle.install_section.specs.WishSlots.{IsAtSlot};

use crate::closed::Closure;
use crate::links::Links;
use crate::section::{Section, section_looked_up};
use crate::wants::{Wanted, WantedError, WantedFault, Wants};
use crate::wish::{LinkKey, Wish, wish_of};
use crate::word::skipped;
use link_tree::{Place, Scope, Tree, TreePath};
use load_path::Cells;
use std::alloc::{AllocError, Global};
use unit_file::{Notices, Reason, Word};
use unit_name::UnitName;

/// The links that the units of a closure want in a scope when they are enabled, each to the unit's
/// file: systemd.unit(5), "[Install] Section Options", `WantedBy=`, `RequiredBy=`, `UpheldBy=` and
/// `Alias=`. The words are expanded with the unit's identity.
///
/// - A unit X in `WantedBy=`, `RequiredBy=` or `UpheldBy=` gets a link in `X.wants/`, `X.requires/`
///   or `X.upholds/`, under the name of the unit. If the unit is a template and X is none, its
///   default instance is linked instead.
/// - A word of `Alias=` gets a link under that name, if it is another name of the unit's type and
///   kind, with the same instance, and not of a type without aliases: mount, automount, swap and
///   slice. For an instance, the name of a template means its own instance.
///
/// A word with a bad specifier, one that is not a unit's name, and one that breaks a rule of
/// aliases results in a notice instead of a link. With `skip`, a word that would need an instance
/// which the template doesn't have asks for nothing, without a notice. A name that is no unit's
/// wants nothing.
///
/// # Errors
///
/// `NeedsInstance` with the least such template, unless `skip`; then `Clash` with the least path
/// that is wanted with two different targets. `OutOfMemory` if memory runs out.
pub fn wanted(
    alloc: Global,
    tree: &Tree,
    closure: &Closure,
    scope: Scope,
    skip: bool,
) -> Result<Wanted, WantedError>
    ensures { Gives ((wanted closure.now.units scope skip).conclusion tree.now) result }
{
    let mut cells = Cells::new(alloc);
    let units = closure.units.as_slice();
    match wanted_by_all(alloc, tree, units, scope, skip, &mut cells)? {
        Ok(wanted) => Ok(wanted),
        Err(WantedFault::NeedsInstance(unit)) => Err(WantedError::NeedsInstance(unit)),
        Err(WantedFault::Clash(path)) => Err(WantedError::Clash(path)),
    }
}

/// The same as `wanted` for a list of units, with the paths that are looked at added to `cells`, as
/// often as they are looked at. The outer error means only that memory ran out, and then `cells` is
/// unchanged.
pub fn wanted_into(
    alloc: Global,
    tree: &Tree,
    units: &[UnitName],
    scope: Scope,
    skip: bool,
    cells: &mut Cells,
) -> Result<Result<Wanted, WantedFault>, AllocError>
    ensures ok { IfOk result (λ given. Finds tree.now (wanted units.now scope skip) cells.old cells.new given) }
    ensures err { OnErr result (cells.new ≡ cells.old) }
{
    let mut more = Cells::new(alloc);
    let wanted = wanted_by_all(alloc, tree, units, scope, skip, &mut more)?;
    cells.append(more)?;
    Ok(wanted)
}

/// The same, but if memory runs out, some of the paths may have been added.
#[tactic(auto, unfolding(crate::specs::Wanted::wanted))]
fn wanted_by_all(
    alloc: Global,
    tree: &Tree,
    units: &[UnitName],
    scope: Scope,
    skip: bool,
    cells: &mut Cells,
) -> Result<Result<Wanted, WantedFault>, AllocError>
    ensures { IfOk result (λ given. Finds tree.now (wanted units.now scope skip) cells.old cells.new given) }
{
    let mut wants = Wants::none(alloc);
    wants.add_all(alloc, tree, units, scope.place(), skip, cells)?;
    Ok(wants.verdict())
}

/// Whether a text would be the least one.
fn is_less(text: &[u8], least: &[u8]) -> bool
    ensures { result ≡ is_lt (path_cmp text.now least.now) }
{
    text.cmp(least).is_lt()
}

impl Wants {
    fn none(alloc: Global) -> Wants
        ensures { result ≡ no_wants }
    {
        Wants {
            links: Links::none(alloc),
            notices: Notices::none(alloc),
            nameless: None,
            clash: None,
        }
    }

    /// Adds a wanted link at a slot, to a file. The first target stays, and the least path with a
    /// second, different one is recorded.
    fn add_link(&mut self, path: TreePath, file: &TreePath) -> Result<(), AllocError>
        requires { is_slot path ≡ true }
        ensures { OnOk result (self.new ≡ with_link path file.now self.old (map.get self.old.links path)) }
    {
        match self.links.get(&path) {
            None => self.links.insert(path, file.copy()?),
            Some(other) => {
                if other != file {
                    self.add_clash(path);
                }
                Ok(())
            }
        }
    }

    fn add_clash(&mut self, path: TreePath)
        ensures { self.new ≡ record self.old { clash = least_with self.old.clash path } }
    {
        match &self.clash {
            Some(least) if !is_less(path.text(), least.text()) => {}
            _ => self.clash = Some(path),
        }
    }

    /// Records a template that needs an instance, if it is the least one, unless such words are
    /// left out.
    fn add_nameless(&mut self, skip: bool, unit: &UnitName) -> Result<(), AllocError>
        ensures { OnOk result (self.new ≡ with_nameless skip unit.now self.old) }
    {
        if skip {
            return Ok(());
        }
        match &self.nameless {
            Some(least) if !is_less(unit.text(), least.text()) => {}
            _ => self.nameless = Some(unit.copy()?),
        }
        Ok(())
    }

    /// What one word of a unit with this file asks for.
    fn add_wish(
        &mut self,
        skip: bool,
        unit: &UnitName,
        file: &TreePath,
        key: LinkKey,
        word: &Word,
        wish: Wish,
    ) -> Result<(), AllocError>
        requires { IsAtSlot wish }
        ensures { OnOk result (self.new ≡ with_wish skip unit.now file.now key word.now self.old wish) }
    {
        match wish {
            Wish::Link(path) => self.add_link(path, file),
            Wish::Skip(reason) => self.add_notice(unit, key, word, reason),
            Wish::NoInstance => self.add_nameless(skip, unit),
        }
    }

    fn add_notice(
        &mut self,
        unit: &UnitName,
        key: LinkKey,
        word: &Word,
        reason: Reason,
    ) -> Result<(), AllocError>
        ensures { OnOk result (self.new ≡ record self.old { notices = with_notice self.old.notices (skipped unit.now (notice_key key) word.now reason) }) }
    {
        let notice = skipped(unit, key.notice_key(), word, reason)?;
        self.notices.add(notice)
    }

    /// What the words of one of the lists of a unit's section ask for.
    fn add_list(
        &mut self,
        alloc: Global,
        place: Place,
        skip: bool,
        unit: &UnitName,
        identity: &UnitName,
        section: &Section,
        key: LinkKey,
    ) -> Result<(), AllocError>
        ensures { OnOk result (self.new ≡ with_words place skip unit.now identity.now section.now.file key (words_for key section.now.text) self.old) }
    {
        let words = key.words(&section.text);
        for word in words {
            let wish = wish_of(alloc, place, key, unit, identity, word)?;
            self.add_wish(skip, unit, &section.file, key, word, wish)?;
        }
        Ok(())
    }

    /// What the section of a unit asks for.
    fn add_section(
        &mut self,
        alloc: Global,
        place: Place,
        skip: bool,
        unit: &UnitName,
        section: &Section,
    ) -> Result<(), AllocError>
        ensures { OnOk result (self.new ≡ with_section place skip unit.now self.old (Some section.now)) }
    {
        let identity = section.identity_of(alloc, unit)?;
        self.add_list(
            alloc,
            place,
            skip,
            unit,
            &identity,
            section,
            LinkKey::WantedBy,
        )?;
        self.add_list(
            alloc,
            place,
            skip,
            unit,
            &identity,
            section,
            LinkKey::RequiredBy,
        )?;
        self.add_list(
            alloc,
            place,
            skip,
            unit,
            &identity,
            section,
            LinkKey::UpheldBy,
        )?;
        self.add_list(alloc, place, skip, unit, &identity, section, LinkKey::Alias)
    }

    /// Looks a unit up, and adds what it wants.
    fn add_unit(
        &mut self,
        alloc: Global,
        tree: &Tree,
        place: Place,
        skip: bool,
        unit: &UnitName,
        cells: &mut Cells,
    ) -> Result<(), AllocError>
        ensures { OnOk result (Finds tree.now (giving (section_of unit.now) (with_section place skip unit.now self.old)) cells.old cells.new self.new) }
    {
        match section_looked_up(alloc, tree, unit, cells)? {
            None => Ok(()),
            Some(section) => self.add_section(alloc, place, skip, unit, &section),
        }
    }

    /// Adds what the units want, unit after unit.
    fn add_all(
        &mut self,
        alloc: Global,
        tree: &Tree,
        units: &[UnitName],
        place: Place,
        skip: bool,
        cells: &mut Cells,
    ) -> Result<(), AllocError>
        ensures { OnOk result (Finds tree.now (all_wants place skip units.now self.old) cells.old cells.new self.new) }
    {
        for unit in units {
            self.add_unit(alloc, tree, place, skip, unit, cells)?;
        }
        Ok(())
    }

    /// The links that the units want, or what is wrong with them.
    fn verdict(self) -> Result<Wanted, WantedFault>
        ensures { result ≡ verdict self }
    {
        let Wants {
            links,
            notices,
            nameless,
            clash,
        } = self;
        match (nameless, clash) {
            (Some(unit), _) => Err(WantedFault::NeedsInstance(unit)),
            (None, Some(path)) => Err(WantedFault::Clash(path)),
            (None, None) => Ok(Wanted { links, notices }),
        }
    }
}
