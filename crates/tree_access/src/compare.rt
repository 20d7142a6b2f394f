//! The order of keys in a reading.

use crate::key::Key;
use std::cmp::Ordering;

impl PartialEq for Key {
    ghost use Rattle.std.specs.Prelude.{nat_eq};
    ghost use Rattle.std.specs.Ordering.{on};
    ghost use Rattle.std.specs.Cmp.{on_per, partial_equiv_from_equiv};
    ghost use Rattle.std.specs.Cmp.Lexicographic.{pointwise, nat_list_eq_equiv};
    ghost use Rattle.tree_access.specs.Order.{spelling};

    ghost eq = { on spelling (pointwise nat_eq) };

    ghost laws = { on_per spelling (partial_equiv_from_equiv nat_list_eq_equiv) };

    fn eq(&self, other: &Key) -> bool {
        match (self, other) {
            (Key::Cell(one), Key::Cell(other)) => one == other,
            (Key::Marked(scope, name), Key::Marked(other, named)) => {
                scope == other && name == named
            }
            (Key::Presets, Key::Presets) | (Key::Links, Key::Links) => true,
            _ => false,
        }
    }
}

impl Eq for Key {
    ghost use Rattle.std.proofs.lemmas.Cmp.{on_equiv};
    ghost use Rattle.std.specs.Cmp.Lexicographic.{nat_list_eq_equiv};
    ghost use Rattle.tree_access.specs.Order.{spelling};

    ghost laws = { on_equiv spelling nat_list_eq_equiv };
}

impl PartialOrd for Key {
    ghost use Rattle.std.specs.Prelude.{Some};
    ghost use Rattle.std.specs.Cmp.{on_po};
    ghost use Rattle.std.specs.Cmp.Lexicographic.{texts_po};
    ghost use Rattle.tree_access.specs.Order.{spelling, key_cmp};

    ghost partial_cmp = { λ k l. Some (key_cmp k l) };

    ghost laws = { on_po spelling texts_po };

    fn partial_cmp(&self, other: &Key) -> Option<Ordering> {
        Some(self.cmp(other))
    }
}

impl Ord for Key {
    ghost use Rattle.std.specs.Prelude.{refl};
    ghost use Rattle.std.specs.Cmp.Lexicographic.{nat_list_cmp_total, texts_ties};
    ghost use Rattle.std.proofs.lemmas.Cmp.{on_total};
    ghost use Rattle.tree_access.specs.Order.{spelling, key_cmp};

    ghost cmp = { key_cmp };

    ghost total = { on_total spelling nat_list_cmp_total };

    ghost matches_partial_cmp = { λ k l. refl };

    ghost matches_eq = { λ k l. texts_ties (spelling k) (spelling l) };

    fn cmp(&self, other: &Key) -> Ordering {
        match (self, other) {
            (Key::Cell(one), Key::Cell(other)) => one.cmp(other),
            (Key::Marked(scope, name), Key::Marked(other, named)) => {
                scope.cmp(other).then_with(|| name.cmp(named))
            }
            _ => self.rank().cmp(&other.rank()),
        }
    }
}
