//! Truth values, characters, texts and `()`, each by itself.

use crate::element::Element;
use crate::facts;
use crate::refuse::refused_at;
use crate::serialize::{Deserialize, Serialize};
use crate::strings::{char_in, copied, put_char};
use crate::truths::bool_at;
use std::alloc::Global;
use sw_check::facts::Facts;
use sw_tree::builds::Builds;
use sw_tree::fail::{DeError, DeFail, SerFail};
use sw_tree::mode::{Kind, Mode};
use sw_tree::skipped::Skipped;
use sw_tree::view::View;

impl Serialize for bool {
    ghost use Rattle.sw_elem.specs.Truths.{truth_writes};

    ghost writes = { truth_writes };

    fn write<B: Builds>(&self, _alloc: Global, out: &mut B, _mode: Mode) -> Result<(), SerFail> {
        out.bool(*self)
    }
}

/// In key place of JSON, not buffered, the texts `true` and `false` are read as truth values, and
/// another text is refused as `InvalidType` of a text; else a text is refused so, as every node is
/// that is no truth value.
impl Deserialize for bool {
    ghost use Rattle.std.specs.Prelude.{true};
    ghost use Rattle.sw_elem.specs.Equations.{own_spot, no_skips};
    ghost use Rattle.sw_elem.specs.Truths.{truth_reads};
    ghost use Rattle.sw_elem.specs.Laws.Text.{truth_reading_lawful};

    const FREE: bool = true;

    ghost FREE = { true };

    ghost reads = { truth_reads };

    ghost spot = { own_spot };

    ghost skips = { no_skips };

    fn deserialize(
        _alloc: Global,
        view: View<'_>,
        mode: Mode,
        _log: &mut Skipped,
    ) -> Result<bool, DeFail> {
        match bool_at(view, mode) {
            Ok(value) => Ok(value),
            Err(refusal) => Err(DeFail::Refused(refusal)),
        }
    }

    ghost lawful_reading = { truth_reading_lawful };
}

impl Element for bool {
    ghost use Rattle.std.specs.Prelude.{refl};
    ghost use Rattle.sw_elem.specs.Facts.{truth_facts};
    ghost use Rattle.sw_elem.specs.Laws.KeyedLeaf.{truth_keeps};

    ghost known = { truth_facts };

    fn facts() -> Facts {
        facts::truth_facts()
    }

    ghost keeps = { truth_keeps };

    ghost passes_nothing = { λ _ _. refl };
}

impl Serialize for char {
    ghost use Rattle.sw_elem.specs.Strings.{text_writes};

    ghost writes = { text_writes };

    fn write<B: Builds>(&self, _alloc: Global, out: &mut B, _mode: Mode) -> Result<(), SerFail> {
        put_char(out, *self)
    }
}

/// A text of one character. Another text is refused as `InvalidValue`, and a node of another kind
/// as `InvalidType` of that kind.
impl Deserialize for char {
    ghost use Rattle.std.specs.Prelude.{true};
    ghost use Rattle.sw_elem.specs.Equations.{own_spot, no_skips};
    ghost use Rattle.sw_elem.specs.Strings.{character_reads};
    ghost use Rattle.sw_elem.specs.Laws.Text.{character_reading_lawful};

    const FREE: bool = true;

    ghost FREE = { true };

    ghost reads = { character_reads };

    ghost spot = { own_spot };

    ghost skips = { no_skips };

    fn deserialize(
        _alloc: Global,
        view: View<'_>,
        _mode: Mode,
        _log: &mut Skipped,
    ) -> Result<char, DeFail> {
        match view.as_text() {
            None => Err(refused_at(view, DeError::InvalidType(view.kind()))),
            Some(text) => match char_in(text) {
                Some(value) => Ok(value),
                None => Err(refused_at(view, DeError::InvalidValue)),
            },
        }
    }

    ghost lawful_reading = { character_reading_lawful };
}

impl Element for char {
    ghost use Rattle.std.specs.Prelude.{refl};
    ghost use Rattle.sw_elem.specs.Facts.{text_facts};
    ghost use Rattle.sw_elem.specs.Laws.TextLeaf.{character_keeps};

    ghost known = { text_facts };

    fn facts() -> Facts {
        facts::text_facts()
    }

    ghost keeps = { character_keeps };

    ghost passes_nothing = { λ _ _. refl };
}

impl Serialize for String {
    ghost use Rattle.sw_elem.specs.Strings.{text_writes};

    ghost writes = { text_writes };

    fn write<B: Builds>(&self, _alloc: Global, out: &mut B, _mode: Mode) -> Result<(), SerFail> {
        out.text(self.as_str())
    }
}

/// A text. A node of another kind is refused as `InvalidType` of that kind.
impl Deserialize for String {
    ghost use Rattle.std.specs.Prelude.{false};
    ghost use Rattle.sw_elem.specs.Equations.{own_spot, no_skips};
    ghost use Rattle.sw_elem.specs.Strings.{text_reads};
    ghost use Rattle.sw_elem.specs.Laws.Text.{text_reading_lawful};

    const FREE: bool = false;

    ghost FREE = { false };

    ghost reads = { text_reads };

    ghost spot = { own_spot };

    ghost skips = { no_skips };

    fn deserialize(
        alloc: Global,
        view: View<'_>,
        _mode: Mode,
        _log: &mut Skipped,
    ) -> Result<String, DeFail> {
        match view.as_text() {
            None => Err(refused_at(view, DeError::InvalidType(view.kind()))),
            Some(text) => match copied(alloc, text) {
                Ok(copy) => Ok(copy),
                Err(_) => Err(DeFail::Memory),
            },
        }
    }

    ghost lawful_reading = { text_reading_lawful };
}

impl Element for String {
    ghost use Rattle.std.specs.Prelude.{refl};
    ghost use Rattle.sw_elem.specs.Facts.{text_facts};
    ghost use Rattle.sw_elem.specs.Laws.TextLeaf.{text_keeps};

    ghost known = { text_facts };

    fn facts() -> Facts {
        facts::text_facts()
    }

    ghost keeps = { text_keeps };

    ghost passes_nothing = { λ _ _. refl };
}

impl Serialize for () {
    ghost use Rattle.sw_elem.specs.Strings.{nothing_writes};

    ghost writes = { nothing_writes };

    fn write<B: Builds>(&self, _alloc: Global, out: &mut B, _mode: Mode) -> Result<(), SerFail> {
        out.null()
    }
}

/// The null. A node of another kind is refused as `InvalidType` of that kind.
impl Deserialize for () {
    ghost use Rattle.std.specs.Prelude.{true};
    ghost use Rattle.sw_elem.specs.Equations.{own_spot, no_skips};
    ghost use Rattle.sw_elem.specs.Strings.{nothing_reads};
    ghost use Rattle.sw_elem.specs.Laws.Text.{nothing_lawful};

    const FREE: bool = true;

    ghost FREE = { true };

    ghost reads = { nothing_reads };

    ghost spot = { own_spot };

    ghost skips = { no_skips };

    fn deserialize(
        _alloc: Global,
        view: View<'_>,
        _mode: Mode,
        _log: &mut Skipped,
    ) -> Result<(), DeFail> {
        match view.kind() {
            Kind::Null => Ok(()),
            kind => Err(refused_at(view, DeError::InvalidType(kind))),
        }
    }

    ghost lawful_reading = { nothing_lawful };
}

impl Element for () {
    ghost use Rattle.std.specs.Prelude.{refl};
    ghost use Rattle.sw_elem.specs.Facts.{nothing_facts};
    ghost use Rattle.sw_elem.specs.Laws.TextLeaf.{nothing_keeps};

    ghost known = { nothing_facts };

    fn facts() -> Facts {
        facts::nothing_facts()
    }

    ghost keeps = { nothing_keeps };

    ghost passes_nothing = { λ _ _. refl };
}
