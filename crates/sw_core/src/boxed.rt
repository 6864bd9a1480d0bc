#![tactic(auto, using(sw_tree::specs::Laws::Logs::gains))]

use crate::adapter::{Adapter, DeserializeAs, SerializeAs};
use std::alloc::{AllocError, Global};
use sw_check::expr::Expr;
use sw_tree::builds::Builds;
use sw_tree::fail::{DeFail, SerFail};
use sw_tree::meant::Meant;
use sw_tree::mode::Mode;
use sw_tree::skipped::Skipped;
use sw_tree::view::View;

/// What the box holds, by `A` in the same mode.
impl<T: Meant, A: SerializeAs<T>> SerializeAs<Box<T>> for Box<A> {
    ghost writes = { A.writes };

    fn write_as<B: Builds>(
        alloc: Global,
        out: &mut B,
        source: &Box<T>,
        mode: Mode,
    ) -> Result<(), SerFail> {
        A::write_as(alloc, out, &**source, mode)
    }
}

/// A box of what `A` reads in the same mode. It is refused exactly where `A` refuses, at the same
/// node.
///
/// The box itself takes memory, so it is never free.
impl<T: Meant, A: DeserializeAs<T>> DeserializeAs<Box<T>> for Box<A> {
    ghost use Rattle.std.specs.Prelude.{false};

    const FREE: bool = false;

    ghost FREE = { false };

    ghost reads = { A.reads };

    ghost spot = { A.spot };

    ghost skips = { A.skips };

    fn deserialize_as(
        alloc: Global,
        view: View<'_>,
        mode: Mode,
        log: &mut Skipped,
    ) -> Result<Box<T>, DeFail> {
        let value = A::deserialize_as(alloc, view, mode, log)?;
        Ok(Box::new(alloc, value)?)
    }

    ghost lawful_reading = { A.lawful_reading };
}

/// A box means what it holds, so it is described as its part and keeps what that keeps.
impl<T: Meant, A: Adapter<T>> Adapter<Box<T>> for Box<A> {
    ghost expr = { A.expr };

    ghost norm = { A.norm };

    ghost assumes = { A.assumes };

    fn describe(alloc: Global) -> Result<Expr, AllocError> {
        A::describe(alloc)
    }

    ghost keeps = { A.keeps };
}
