#![tactic(auto)]

use crate::adapter::{Adapter, DeserializeAs, SerializeAs};
use std::alloc::{AllocError, Global};
use sw_check::expr::Expr;
use sw_tree::builds::Builds;
use sw_tree::fail::{DeFail, SerFail};
use sw_tree::meant::Meant;
use sw_tree::mode::{Kind, Mode};
use sw_tree::skipped::Skipped;
use sw_tree::view::View;

/// Null for `None`, and the value of `Some` by `A` in the same mode.
impl<T: Meant, A: SerializeAs<T>> SerializeAs<Option<T>> for Option<A> {
    ghost use Rattle.sw_core.specs.Option.{option_writes};

    ghost writes = { option_writes A.writes };

    fn write_as<B: Builds>(
        alloc: Global,
        out: &mut B,
        source: &Option<T>,
        mode: Mode,
    ) -> Result<(), SerFail> {
        match source {
            None => out.null(),
            Some(value) => A::write_as(alloc, out, value, mode),
        }
    }
}

/// `None` for null, and `Some` of what `A` reads of another tree in the same mode. It is refused
/// exactly where `A` refuses, at the same node, and no null is.
impl<T: Meant, A: DeserializeAs<T>> DeserializeAs<Option<T>> for Option<A> {
    ghost use Rattle.sw_core.specs.Option.{option_reads, option_spot, option_skips};
    ghost use Rattle.sw_core.specs.Laws.Option.{option_lawful};

    const FREE: bool = A::FREE;

    ghost FREE = { A.FREE };

    ghost reads = { option_reads A.reads };

    ghost spot = { option_spot A.spot };

    ghost skips = { option_skips A.skips };

    fn deserialize_as(
        alloc: Global,
        view: View<'_>,
        mode: Mode,
        log: &mut Skipped,
    ) -> Result<Option<T>, DeFail> {
        if view.kind() == Kind::Null {
            return Ok(None);
        }
        let value = A::deserialize_as(alloc, view, mode, log)?;
        Ok(Some(value))
    }

    ghost lawful_reading = { option_lawful A.lawful_reading };
}

/// It is as faithful as its part, which writes no null where the option is sound.
impl<T: Meant, A: Adapter<T>> Adapter<Option<T>> for Option<A> {
    ghost use Rattle.sw_check.specs.Form.{option};
    ghost use Rattle.sw_core.specs.Option.{option_norm};
    ghost use Rattle.sw_core.specs.Laws.Option.{option_keeps};

    ghost expr = { option A.expr };

    ghost norm = { option_norm A.norm };

    ghost assumes = { A.assumes };

    fn describe(alloc: Global) -> Result<Expr, AllocError> {
        Expr::option(alloc, A::describe(alloc)?)
    }

    ghost keeps = { option_keeps A.keeps };
}
