use crate::adapter::{Adapter, DeserializeAs, SerializeAs};
use std::alloc::{AllocError, Global};
use sw_check::expr::Expr;
use sw_elem::element::Element;
use sw_elem::serialize::{Deserialize, Serialize};
use sw_tree::builds::Builds;
use sw_tree::fail::{DeFail, SerFail};
use sw_tree::mode::Mode;
use sw_tree::skipped::Skipped;
use sw_tree::view::View;

/// A type that writes and reads itself, by itself, as serde_with's `Same`.
#[derive(PartialEq, Eq, PartialOrd, Ord, Hash)]
pub struct Same;

impl<T: Serialize> SerializeAs<T> for Same {
    ghost writes = { T.writes };

    fn write_as<B: Builds>(
        alloc: Global,
        out: &mut B,
        source: &T,
        mode: Mode,
    ) -> Result<(), SerFail> {
        source.write(alloc, out, mode)
    }
}

impl<T: Deserialize> DeserializeAs<T> for Same {
    const FREE: bool = T::FREE;

    ghost FREE = { T.FREE };

    ghost reads = { T.reads };

    ghost spot = { T.spot };

    ghost skips = { T.skips };

    fn deserialize_as(
        alloc: Global,
        view: View<'_>,
        mode: Mode,
        log: &mut Skipped,
    ) -> Result<T, DeFail> {
        T::deserialize(alloc, view, mode, log)
    }

    ghost lawful_reading = { T.lawful_reading };
}

impl<T: Element> Adapter<T> for Same {
    ghost use Rattle.sw_check.specs.Form.{leaf};
    ghost use Rattle.sw_elem.specs.Lawful.{same_norm};
    ghost use Rattle.sw_elem.specs.Laws.Leaf.{leaf_lawful};

    ghost expr = { leaf T.known };

    ghost norm = { same_norm };

    ghost assumes = { Unit {0} };

    fn describe(_alloc: Global) -> Result<Expr, AllocError> {
        Ok(Expr::leaf(T::facts()))
    }

    ghost keeps = { leaf_lawful T.is_meaning T.writes T.reads T.spot T.skips T.known same_norm (Unit {0}) T.keeps T.passes_nothing };
}
