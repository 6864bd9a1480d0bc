#![tactic(auto)]

use crate::adapter::{Adapter, DeserializeAs, SerializeAs};
use crate::each;
use std::alloc::{AllocError, Global};
use sw_check::expr::Expr;
use sw_tree::builds::Builds;
use sw_tree::fail::{DeFail, SerFail};
use sw_tree::meant::Meant;
use sw_tree::mode::Mode;
use sw_tree::skipped::Skipped;
use sw_tree::view::View;

/// A list of values, each by `A` in value place.
///
/// The first part that isn't written decides. Without one, a list of which a part has 128 levels is
/// `TooDeep`.
impl<T: Meant, A: SerializeAs<T>> SerializeAs<Vec<T>> for Vec<A> {
    ghost use Rattle.sw_core.specs.Vec.{list_writes};

    ghost writes = { list_writes A.writes };

    fn write_as<B: Builds>(
        alloc: Global,
        out: &mut B,
        source: &Vec<T>,
        mode: Mode,
    ) -> Result<(), SerFail> {
        each::write_list::<T, A, B, _>(alloc, out, source.len(), source.iter(), mode)
    }
}

/// A list of items, each by `A` in value place. A node of another kind is refused as `InvalidType` of
/// that kind; else the first item that is refused decides.
impl<T: Meant, A: DeserializeAs<T>> DeserializeAs<Vec<T>> for Vec<A> {
    ghost use Rattle.std.specs.Prelude.{false};
    ghost use Rattle.sw_core.specs.Vec.{list_reads, list_spot, list_skips};
    ghost use Rattle.sw_core.specs.Laws.Vec.{list_lawful};

    const FREE: bool = false;

    ghost FREE = { false };

    ghost reads = { list_reads A.reads A.spot A.skips };

    ghost spot = { list_spot A.reads A.spot A.skips };

    ghost skips = { list_skips A.reads A.spot A.skips };

    fn deserialize_as(
        alloc: Global,
        view: View<'_>,
        mode: Mode,
        log: &mut Skipped,
    ) -> Result<Vec<T>, DeFail> {
        each::read_list::<T, A>(alloc, view, mode, log)
    }

    ghost lawful_reading = { list_lawful A.skips A.lawful_reading };
}

/// It is as faithful as its parts: the norm of a list has its items' norms.
impl<T: Meant, A: Adapter<T>> Adapter<Vec<T>> for Vec<A> {
    ghost use Rattle.sw_check.specs.Form.{vec};
    ghost use Rattle.sw_core.specs.Vec.{list_norm};
    ghost use Rattle.sw_core.specs.Laws.Vec.{list_keeps};

    ghost expr = { vec A.expr };

    ghost norm = { list_norm A.norm };

    ghost assumes = { A.assumes };

    fn describe(alloc: Global) -> Result<Expr, AllocError> {
        Expr::vec(alloc, A::describe(alloc)?)
    }

    ghost keeps = { list_keeps A.keeps };
}
