//! The meanings of `()`, truth values, characters and texts.

use crate::meant::{Meant, Named};
use crate::ranked::{Keyed, Ranked};

impl Named for () {
    ghost use Rattle.sw_tree.specs.Meaning.{nothing};
    ghost use Rattle.sw_tree.specs.Meant.{IsNothing};

    ghost meaning = { λ _. nothing };

    ghost is_meaning = { IsNothing };
}

impl Meant for () {
    fn in_hand(&self) {
        let _value = *self;
    }
}

impl Ranked for () {
    ghost use Rattle.std.specs.Prelude.{refl};
    ghost use Rattle.sw_tree.specs.Meant.{IsNothing};
    ghost use Rattle.sw_tree.specs.LeafRanks.{level_order};
    ghost use Rattle.sw_tree.specs.Laws.LeafRanks.{level_ranks};

    ghost order = { level_order };

    ghost order_is = { λ _ _. refl };

    ghost ranks = { level_ranks IsNothing };
}

impl Keyed for () {
    ghost use Rattle.std.specs.Prelude.{refl};
    ghost use Rattle.sw_tree.specs.Laws.LeafRanks.{nothing_apart};

    ghost apart = { nothing_apart };

    ghost same = { λ _ _ _ _. (λ _. refl, λ _. refl) };

    ghost alike = { λ _ _ _ _. refl };
}

impl Named for bool {
    ghost use Rattle.sw_tree.specs.Meaning.{truth};
    ghost use Rattle.sw_tree.specs.Meant.{IsTruth};

    ghost meaning = { truth };

    ghost is_meaning = { IsTruth };
}

impl Meant for bool {
    fn in_hand(&self) {
        let _value = *self;
    }
}

impl Ranked for bool {
    ghost use Rattle.std.specs.Prelude.{refl};
    ghost use Rattle.sw_tree.specs.Meant.{IsTruth};
    ghost use Rattle.sw_tree.specs.LeafRanks.{truth_order};
    ghost use Rattle.sw_tree.specs.Laws.LeafRanks.{truth_ranks};

    ghost order = { truth_order };

    ghost order_is = { λ x y. refl };

    ghost ranks = { truth_ranks IsTruth };
}

impl Keyed for bool {
    ghost use Rattle.std.specs.Cmp.{booleans_Decides};
    ghost use Rattle.std.specs.Hash as fed;
    ghost use Rattle.sw_tree.specs.Laws.LeafRanks.{truth_apart};
    ghost use Rattle.sw_tree.specs.Laws.LeafSame.{truths_same, truths_alike};

    ghost apart = { truth_apart };

    ghost same = { truths_same _ booleans_Decides };

    ghost alike = { truths_alike fed.bool };
}

/// A character means its text.
impl Named for char {
    ghost use Rattle.sw_tree.specs.Meant.{char_meaning, IsCharText};

    ghost meaning = { char_meaning };

    ghost is_meaning = { IsCharText };
}

impl Meant for char {
    fn in_hand(&self) {
        let _value = *self;
    }
}

impl Ranked for char {
    ghost use Rattle.sw_tree.specs.Meant.{IsCharText};
    ghost use Rattle.sw_tree.specs.CharRanks.{char_order};
    ghost use Rattle.sw_tree.specs.Laws.CharRanks.{char_order-is, char_ranks};

    ghost order = { char_order };

    ghost order_is = { char_order-is };

    ghost ranks = { char_ranks IsCharText };
}

impl Keyed for char {
    ghost use Rattle.std.specs.Hash as fed;
    ghost use Rattle.sw_tree.specs.Laws.CharRanks.{chars_apart};
    ghost use Rattle.sw_tree.specs.Laws.LeafSame.{chars_same, chars_alike};

    ghost apart = { chars_apart };

    ghost same = { chars_same };

    ghost alike = { chars_alike fed.char };
}

impl Named for String {
    ghost use Rattle.sw_tree.specs.Meant.{text_meaning, IsText};

    ghost meaning = { text_meaning };

    ghost is_meaning = { IsText };
}

impl Meant for String {
    fn in_hand(&self) {
        let _text = self.as_str();
    }
}

impl Ranked for String {
    ghost use Rattle.std.specs.Prelude.{refl};
    ghost use Rattle.sw_tree.specs.Meant.{IsText};
    ghost use Rattle.sw_tree.specs.LeafRanks.{text_order};
    ghost use Rattle.sw_tree.specs.Laws.LeafRanks.{text_ranks};

    ghost order = { text_order };

    ghost order_is = { λ x y. refl };

    ghost ranks = { text_ranks IsText };
}

impl Keyed for String {
    ghost use Rattle.std.specs.Hash as fed;
    ghost use Rattle.sw_tree.specs.Laws.LeafRanks.{texts_apart};
    ghost use Rattle.sw_tree.specs.Laws.LeafSame.{texts_same, texts_alike};

    ghost apart = { texts_apart };

    ghost same = { texts_same };

    ghost alike = { texts_alike fed.str };
}
