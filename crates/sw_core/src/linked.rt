#![tactic(auto, using(sw_tree::specs::Laws::Logs::gains))]

ghost use Rattle.std.specs.Prelude.{◌≡◌, IfOk};

use crate::adapter::{Adapter, DeserializeAs, SerializeAs};
use crate::each;
use std::alloc::{AllocError, Global};
use std::collections::LinkedList;
use sw_check::expr::Expr;
use sw_tree::builds::Builds;
use sw_tree::fail::{DeFail, SerFail};
use sw_tree::meant::Meant;
use sw_tree::mode::Mode;
use sw_tree::skipped::Skipped;
use sw_tree::view::View;

/// A linked list as the list of its items from front to back, each by `A` in value place.
///
/// The first part that isn't written decides. Without one, a list of which a part has 128 levels is
/// `TooDeep`.
impl<T: Meant, A: SerializeAs<T>> SerializeAs<LinkedList<T>> for LinkedList<A> {
    ghost use Rattle.sw_core.specs.Vec.{list_writes};

    ghost writes = { list_writes A.writes };

    fn write_as<B: Builds>(
        alloc: Global,
        out: &mut B,
        source: &LinkedList<T>,
        mode: Mode,
    ) -> Result<(), SerFail> {
        each::write_list::<T, A, B, _>(alloc, out, source.len(), source.iter(), mode)
    }
}

/// A list of items from front to back, each by `A` in value place. A node of another kind is refused
/// as `InvalidType` of that kind; else the first item that is refused decides.
impl<T: Meant, A: DeserializeAs<T>> DeserializeAs<LinkedList<T>> for LinkedList<A> {
    ghost use Rattle.std.specs.Prelude.{false};
    ghost use Rattle.sw_core.specs.Vec.{list_reads, list_spot, list_skips};
    ghost use Rattle.sw_core.specs.Laws.Vec.{list_lawful};

    const FREE: bool = false;

    ghost FREE = { false };

    ghost reads = { list_reads A.reads A.spot A.skips };

    ghost spot = { list_spot A.reads A.spot A.skips };

    ghost skips = { list_skips A.reads A.spot A.skips };

    fn deserialize_as(
        alloc: Global,
        view: View<'_>,
        mode: Mode,
        log: &mut Skipped,
    ) -> Result<LinkedList<T>, DeFail> {
        let values = each::read_list::<T, A>(alloc, view, mode, log)?;
        Ok(linked(alloc, values)?)
    }

    ghost lawful_reading = { list_lawful A.skips A.lawful_reading };
}

/// It is as faithful as its parts: the norm of a list has its items' norms.
impl<T: Meant, A: Adapter<T>> Adapter<LinkedList<T>> for LinkedList<A> {
    ghost use Rattle.sw_check.specs.Form.{vec};
    ghost use Rattle.sw_core.specs.Vec.{list_norm};
    ghost use Rattle.sw_core.specs.Laws.Vec.{list_keeps};

    ghost expr = { vec A.expr };

    ghost norm = { list_norm A.norm };

    ghost assumes = { A.assumes };

    fn describe(alloc: Global) -> Result<Expr, AllocError> {
        Expr::vec(alloc, A::describe(alloc)?)
    }

    ghost keeps = { list_keeps A.keeps };
}

/// The linked list of these values, in their order.
pub fn linked<T: Drop>(alloc: Global, values: Vec<T>) -> Result<LinkedList<T>, AllocError>
    ensures { IfOk result (λ list. list ≡ values.items) }
{
    let mut list = LinkedList::new(alloc);
    for value in values {
        list.push_back(value)?;
    }
    Ok(list)
}
