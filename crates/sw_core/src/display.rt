use crate::adapter::{Adapter, DeserializeAs, SerializeAs};
use std::alloc::{AllocError, Global};
use sw_check::expr::Expr;
use sw_elem::facts::text_facts;
use sw_elem::refuse::refused_at;
use sw_elem::text::{ParseFail, TextForm};
use sw_tree::builds::Builds;
use sw_tree::fail::{DeError, DeFail, SerFail};
use sw_tree::mode::Mode;
use sw_tree::skipped::Skipped;
use sw_tree::view::View;

/// A value by its text, as serde_with's `DisplayFromStr`.
///
/// It writes the text that the value shows, and reads a text that parses. Another text is refused as
/// `Text`, a node of another kind as `InvalidType` of that kind.
#[derive(PartialEq, Eq, PartialOrd, Ord, Hash)]
pub struct DisplayFromStr;

impl<T: TextForm> SerializeAs<T> for DisplayFromStr {
    ghost use Rattle.sw_core.specs.Display.{display_writes};

    ghost writes = { display_writes T.shows };

    fn write_as<B: Builds>(
        alloc: Global,
        out: &mut B,
        source: &T,
        _mode: Mode,
    ) -> Result<(), SerFail> {
        source.show_to(alloc, out)
    }
}

impl<T: TextForm> DeserializeAs<T> for DisplayFromStr {
    ghost use Rattle.sw_elem.specs.Equations.{own_spot, no_skips};
    ghost use Rattle.sw_core.specs.Display.{display_reads};
    ghost use Rattle.sw_core.specs.Laws.Display.{display_lawful};

    const FREE: bool = T::FREE;

    ghost FREE = { T.FREE };

    ghost reads = { display_reads T.parses };

    ghost spot = { own_spot };

    ghost skips = { no_skips };

    fn deserialize_as(
        alloc: Global,
        view: View<'_>,
        _mode: Mode,
        _log: &mut Skipped,
    ) -> Result<T, DeFail> {
        match view.as_text() {
            None => Err(refused_at(view, DeError::InvalidType(view.kind()))),
            Some(text) => match T::parse(alloc, text) {
                Ok(value) => Ok(value),
                Err(ParseFail::Refused) => Err(refused_at(view, DeError::Text)),
                Err(ParseFail::Memory) => Err(DeFail::Memory),
            },
        }
    }

    ghost lawful_reading = { display_lawful T.lawful_text };
}

impl<T: TextForm> Adapter<T> for DisplayFromStr {
    ghost use Rattle.sw_check.specs.Form.{leaf};
    ghost use Rattle.sw_elem.specs.Lawful.{same_norm};
    ghost use Rattle.sw_elem.specs.Facts.{text_facts};
    ghost use Rattle.sw_core.specs.Laws.Display.{display_keeps};

    ghost expr = { leaf text_facts };

    ghost norm = { same_norm };

    ghost assumes = { Unit {0} };

    fn describe(_alloc: Global) -> Result<Expr, AllocError> {
        Ok(Expr::leaf(text_facts()))
    }

    ghost keeps = { display_keeps T.lawful_text };
}
