//! A key of a user's own: a priority, which is written and read as its number, and of which the greater comes first.

use std::alloc::Global;
use std::cmp::Ordering;
use sw_check::facts::Facts;
use sw_elem::{Deserialize, Element, Serialize};
use sw_tree::builds::Builds;
use sw_tree::fail::{DeFail, SerFail};
use sw_tree::meant::{Meant, Named};
use sw_tree::mode::Mode;
use sw_tree::ranked::{Keyed, Ranked};
use sw_tree::skipped::Skipped;
use sw_tree::view::View;

#[derive(Copy, Clone, PartialEq, Eq, Hash)]
pub(crate) struct Priority {
    level: u8,
}

/// The greater number comes first.
impl Ord for Priority {
    ghost use Rattle.std.proofs.Common.{rules};
    ghost use Rattle.std.specs.Cmp.Rules.{comparing};
    ghost use Rattle.std.specs.Ordering.{nat_cmp, on, flip_args};

    ghost cmp = { flip_args (on (λ p. p.level) nat_cmp) };

    ghost total = { Prim.search (comparing, rules) };

    ghost matches_partial_cmp = { Prim.search (comparing, rules) };

    ghost matches_eq = { Prim.search (comparing, rules) };

    fn cmp(&self, other: &Priority) -> Ordering {
        other.level.cmp(&self.level)
    }
}

impl PartialOrd for Priority {
    ghost use Rattle.std.proofs.Common.{rules};
    ghost use Rattle.std.specs.Cmp.{partial_order_from_own_ties};
    ghost use Rattle.std.specs.Cmp.Rules.{comparing};
    ghost use Rattle.std.specs.Ordering.{nat_cmp, on, flip_args, as_partial_cmp};

    ghost partial_cmp = { as_partial_cmp (flip_args (on (λ p. p.level) nat_cmp)) };

    ghost laws = { partial_order_from_own_ties (Prim.search (comparing, rules)) (Prim.search (comparing, rules)) };

    fn partial_cmp(&self, other: &Priority) -> Option<Ordering> {
        Some(self.cmp(other))
    }
}

/// It means its number.
impl Named for Priority {
    ghost use Rattle.std.specs.Prelude.{◌^◌};
    ghost use Rattle.sw_tree.specs.Meant.{unsigned_meaning, IsBelow};

    ghost meaning = { λ p. unsigned_meaning p.level };

    ghost is_meaning = { IsBelow (2 ^ 8) };
}

impl Meant for Priority {
    fn in_hand(&self) {
        self.level.in_hand();
    }
}

impl Ranked for Priority {
    ghost use Rattle.std.specs.Prelude.{◌^◌};
    ghost use Rattle.sw_tree.specs.LeafRanks.{number_order};
    ghost use Rattle.sw_tree.specs.Meant.{IsBelow};
    ghost use Rattle.sw_tree.specs.Laws.LeafRanks.{number_ranks, unsigned_order};
    ghost use Rattle.sw_examples.specs.Priority.{backwards};
    ghost use Rattle.sw_examples.specs.Laws.Priority.{backwards_ranks};

    ghost order = { backwards number_order };

    ghost order_is = { λ x y. unsigned_order y.level x.level };

    ghost ranks = { backwards_ranks (number_ranks (IsBelow (2 ^ 8))) };
}

impl Keyed for Priority {
    ghost use Rattle.std.specs.Prelude.{◌^◌};
    ghost use Rattle.std.specs.Hash as fed;
    ghost use Rattle.sw_tree.specs.Meant.{IsBelow};
    ghost use Rattle.sw_tree.specs.Laws.LeafRanks.{below_apart};
    ghost use Rattle.sw_tree.specs.Laws.LeafSame.{unsigned_same, unsigned_alike};
    ghost use Rattle.sw_examples.specs.Laws.Priority.{backwards_apart};

    ghost apart = { backwards_apart (below_apart (2 ^ 8)) };

    ghost same = { λ x y. unsigned_same (IsBelow (2 ^ 8)) x.level y.level };

    ghost alike = { λ x y. unsigned_alike (IsBelow (2 ^ 8)) fed.u8 x.level y.level };
}

/// Written as its number.
impl Serialize for Priority {
    ghost use Rattle.sw_elem.specs.Numbers.{number_writes};

    ghost writes = { number_writes };

    fn write<B: Builds>(&self, alloc: Global, out: &mut B, mode: Mode) -> Result<(), SerFail> {
        self.level.write(alloc, out, mode)
    }
}

/// Read as its number.
impl Deserialize for Priority {
    ghost use Rattle.std.specs.Prelude.{◌^◌, true};
    ghost use Rattle.std.proofs.Common.{lit≤};
    ghost use Rattle.sw_tree.specs.Meant.{IsBelow};
    ghost use Rattle.sw_elem.specs.Equations.{own_spot, no_skips};
    ghost use Rattle.sw_elem.specs.Numbers.{is_below, number_reads};
    ghost use Rattle.sw_elem.specs.Laws.Numbers.{number_lawful, unsigned_integer};

    const FREE: bool = true;

    ghost FREE = { true };

    ghost reads = { number_reads (is_below (2 ^ 8)) };

    ghost spot = { own_spot };

    ghost skips = { no_skips };

    fn deserialize(
        alloc: Global,
        view: View<'_>,
        mode: Mode,
        log: &mut Skipped,
    ) -> Result<Priority, DeFail> {
        match u8::deserialize(alloc, view, mode, log) {
            Ok(level) => Ok(Priority { level }),
            Err(fail) => Err(fail),
        }
    }

    ghost lawful_reading = { number_lawful _ (is_below (2 ^ 8)) (IsBelow (2 ^ 8)) (unsigned_integer (2 ^ 8) (lit≤ tt)) };
}

impl Element for Priority {
    ghost use Rattle.std.specs.Prelude.{refl, ◌^◌};
    ghost use Rattle.std.proofs.Common.{lit≤};
    ghost use Rattle.sw_tree.specs.Meant.{IsBelow};
    ghost use Rattle.sw_elem.specs.Facts.{number_facts};
    ghost use Rattle.sw_elem.specs.Numbers.{is_below};
    ghost use Rattle.sw_elem.specs.Laws.KeyedLeaf.{number_keeps};
    ghost use Rattle.sw_elem.specs.Laws.Numbers.{unsigned_integer};

    ghost known = { number_facts };

    fn facts() -> Facts {
        sw_elem::facts::number_facts()
    }

    ghost keeps = { number_keeps _ (is_below (2 ^ 8)) (IsBelow (2 ^ 8)) (unsigned_integer (2 ^ 8) (lit≤ tt)) };

    ghost passes_nothing = { λ _ _. refl };
}
