//! The numbers of rows, and lists of such numbers under texts.
ghost use Rattle.std.specs.Prelude.{◌≡◌, ℕ, List, ◌||◌, ◌&&◌, not, [], OnOk, OnErr};
ghost use Rattle.std.specs.Ordering.{nat_cmp};
ghost use Rattle.std.specs.BTreeMap.{is_at};
ghost use Rattle.link_tree.specs.Trees.{path_cmp};
ghost use Rattle.readers.specs.Numbers.{has, lists, numbers_at, IsNext};

use std::alloc::{AllocError, Global};
use std::collections::{BTreeMap, BTreeSet};
use std::marker::Model;
use std::ops::Bound;

/// The numbers of rows. Contracts see them in ascending order.
#[derive(Debug, Drop)]
pub(crate) struct Numbers {
    numbers: BTreeSet<u32>,
}

impl Model for Numbers {
    ghost use Rattle.std.specs.Prelude.{List, ℕ};

    ghost Value = { List ℕ };

    ghost view = { λ these. these.numbers.keys };
}

impl Numbers {
    /// No numbers. Takes no memory.
    pub(crate) fn none(alloc: Global) -> Numbers
        ensures { result ≡ [] }
    {
        Numbers {
            numbers: BTreeSet::new(alloc),
        }
    }

    /// Adds a number. Fails only if memory runs out, and then nothing changes.
    pub(crate) fn add(&mut self, n: u32) -> Result<(), AllocError>
        ensures ok { OnOk result ((i : ℕ) → has self.new i ≡ (is_at (nat_cmp n) i || has self.old i)) }
        ensures err { OnErr result (self.new ≡ self.old) }
    {
        self.numbers.insert(n)?;
        Ok(())
    }

    /// Removes a number. Takes no memory.
    pub(crate) fn remove(&mut self, n: u32)
        ensures { (i : ℕ) → has self.new i ≡ (not (is_at (nat_cmp n) i) && has self.old i) }
    {
        self.numbers.remove(&n);
    }

    /// The least number after n. Takes no memory.
    pub(crate) fn after(&self, n: u32) -> Option<u32>
        ensures { IsNext (has self.now) n result }
    {
        self.numbers
            .range((Bound::Excluded(n), Bound::Unbounded))
            .next()
            .copied()
    }
}

/// The numbers of rows under texts. Contracts see a list of the texts, each with its numbers.
#[derive(Debug, Drop)]
pub(crate) struct Listed {
    by_text: BTreeMap<Vec<u8>, Numbers>,
}

impl Model for Listed {
    ghost use Rattle.std.specs.Prelude.{map};
    ghost use Rattle.readers.specs.Numbers.{Lists};

    ghost Value = { Lists };

    ghost view = { λ listed. map (λ e. (e.0.items, e.1)) listed.by_text.entries };
}

impl Listed {
    /// No texts. Takes no memory.
    pub(crate) fn none(alloc: Global) -> Listed
        ensures { result ≡ [] }
    {
        Listed {
            by_text: BTreeMap::new(alloc),
        }
    }

    /// Lists a number under a text. Fails only if memory runs out, and then nothing changes.
    pub(crate) fn add(&mut self, alloc: Global, text: &[u8], n: u32) -> Result<(), AllocError>
        ensures ok { OnOk result ((t : List ℕ) (i : ℕ) → lists self.new t i ≡ ((is_at (path_cmp t) text.now && is_at (nat_cmp n) i) || lists self.old t i)) }
        ensures err { OnErr result (self.new ≡ self.old) }
    {
        match self.by_text.get_mut(text) {
            Some(numbers) => Ok(numbers.add(n)?),
            None => self.add_first(alloc, text, n),
        }
    }

    /// Lists the first number under a text.
    fn add_first(&mut self, alloc: Global, text: &[u8], n: u32) -> Result<(), AllocError>
        requires { numbers_at self.old text.now ≡ [] }
        ensures ok { OnOk result ((t : List ℕ) (i : ℕ) → lists self.new t i ≡ ((is_at (path_cmp t) text.now && is_at (nat_cmp n) i) || lists self.old t i)) }
        ensures err { OnErr result (self.new ≡ self.old) }
    {
        let mut numbers = Numbers::none(alloc);
        numbers.add(n)?;
        let text = Vec::from_slice(alloc, text)?;
        self.by_text.insert(text, numbers)?;
        Ok(())
    }

    /// Removes a number from those under a text. Takes no memory; a text whose last number is
    /// removed stays.
    pub(crate) fn remove(&mut self, text: &[u8], n: u32)
        ensures { (t : List ℕ) (i : ℕ) → lists self.new t i ≡ (not (is_at (path_cmp t) text.now && is_at (nat_cmp n) i) && lists self.old t i) }
    {
        match self.by_text.get_mut(text) {
            Some(numbers) => numbers.remove(n),
            None => {}
        }
    }

    /// The least number after n under a text. Takes no memory.
    pub(crate) fn after(&self, text: &[u8], n: u32) -> Option<u32>
        ensures { IsNext (lists self.now text.now) n result }
    {
        match self.by_text.get(text) {
            Some(numbers) => numbers.after(n),
            None => None,
        }
    }
}
