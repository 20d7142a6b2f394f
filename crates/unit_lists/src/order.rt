//! The order in which unit files are listed.
ghost use Rattle.std.specs.Prelude.{◌≡◌, IfOk};
ghost use Rattle.unit_lists.specs.Order.{order_text, last_name};

use std::alloc::{AllocError, Global};
use std::cmp::Ordering;
use std::marker::Model;
use unit_name::UnitName;

/// What a name is listed by: its type, the name in small letters and the name itself, with a NUL
/// after the first two. Such texts are ordered by their bytes. Contracts see the text.
#[derive(Debug, Drop)]
pub(crate) struct OrderText {
    text: Vec<u8>,
}

impl Model for OrderText {
    ghost use Rattle.std.specs.Prelude.{List, ℕ};

    ghost Value = { List ℕ };

    ghost view = { λ order. order.text.items };
}

impl OrderText {
    pub(crate) fn of(alloc: Global, name: &UnitName) -> Result<OrderText, AllocError>
        ensures { IfOk result (λ order. order ≡ order_text name.now) }
    {
        Ok(OrderText {
            text: order_text(alloc, name)?,
        })
    }

    fn text(&self) -> &[u8]
        ensures { result.now ≡ self.now }
    {
        &self.text
    }

    /// The name itself.
    pub(crate) fn name(&self) -> &[u8]
        ensures { result.now ≡ last_name self.now }
    {
        last_name(self.text())
    }
}

#[tactic(auto, unfolding(crate::specs::Order::order_text))]
fn order_text(alloc: Global, name: &UnitName) -> Result<Vec<u8>, AllocError>
    ensures { IfOk result (λ text. text.items ≡ order_text name.now) }
{
    let small = name.text().to_ascii_lowercase(alloc)?;
    let mut text = Vec::from_slice(alloc, name.unit_type().text().as_bytes())?;
    text.push(b'\0')?;
    text.extend_from_slice(&small)?;
    text.push(b'\0')?;
    text.extend_from_slice(name.text())?;
    Ok(text)
}

/// What follows the last NUL.
fn last_name(text: &[u8]) -> &[u8]
    ensures { result.now ≡ last_name text.now }
{
    for i in (0..text.len()).rev() {
        if text[i] == b'\0' {
            return &text[i + 1..];
        }
    }
    text
}

impl PartialEq for OrderText {
    ghost use Rattle.std.specs.Prelude.{nat_eq};
    ghost use Rattle.std.specs.Cmp.{partial_equiv_from_equiv};
    ghost use Rattle.std.specs.Cmp.Lexicographic.{pointwise, nat_list_eq_equiv};

    ghost eq = { pointwise nat_eq };

    ghost laws = { partial_equiv_from_equiv nat_list_eq_equiv };

    fn eq(&self, other: &OrderText) -> bool {
        self.text() == other.text()
    }
}

impl Eq for OrderText {
    ghost use Rattle.std.specs.Cmp.Lexicographic.{nat_list_eq_equiv};

    ghost laws = { nat_list_eq_equiv };
}

impl PartialOrd for OrderText {
    ghost use Rattle.std.specs.Prelude.{Some};
    ghost use Rattle.std.specs.Ordering.{nat_cmp};
    ghost use Rattle.std.specs.Cmp.Lexicographic.{slice_cmp, texts_po};

    ghost partial_cmp = { λ x y. Some (slice_cmp nat_cmp x y) };

    ghost laws = { texts_po };

    fn partial_cmp(&self, other: &OrderText) -> Option<Ordering> {
        Some(self.cmp(other))
    }
}

impl Ord for OrderText {
    ghost use Rattle.std.specs.Prelude.{refl};
    ghost use Rattle.std.specs.Ordering.{nat_cmp};
    ghost use Rattle.std.specs.Cmp.Lexicographic.{slice_cmp, nat_list_cmp_total, texts_ties};

    ghost cmp = { slice_cmp nat_cmp };

    ghost total = { nat_list_cmp_total };

    ghost matches_partial_cmp = { λ x y. refl };

    ghost matches_eq = { texts_ties };

    fn cmp(&self, other: &OrderText) -> Ordering {
        self.text().cmp(other.text())
    }
}
