#![tactic(auto, using(sw_tree::specs::Laws::Logs::gains))]

use crate::adapter::{Adapter, DeserializeAs, SerializeAs};
use crate::each;
use crate::parts::{ReadParts, read_tuple};
use std::alloc::{AllocError, Global};
use std::marker::PhantomData;
use sw_check::expr::Expr;
use sw_tree::builds::Builds;
use sw_tree::fail::{DeFail, SerFail};
use sw_tree::meant::Meant;
use sw_tree::mode::Mode;
use sw_tree::node::Node;
use sw_tree::node_builder::NodeBuilder;
use sw_tree::skipped::Skipped;
use sw_tree::view::{Items, View};

/// An array as the list of its values, each by `A` in value place.
///
/// The first part that isn't written decides. Without one, a list of which a part has 128 levels is
/// `TooDeep`.
impl<T: Meant, A: SerializeAs<T>, const N: usize> SerializeAs<[T; N]> for [A; N] {
    ghost use Rattle.sw_core.specs.Vec.{list_writes};

    ghost writes = { list_writes A.writes };

    fn write_as<B: Builds>(
        alloc: Global,
        out: &mut B,
        source: &[T; N],
        mode: Mode,
    ) -> Result<(), SerFail> {
        each::write_list::<T, A, B, _>(alloc, out, N, source.iter(), mode)
    }

    // As the trait derives it: of an array of adapters the size isn't known, which calling that would ask for.
    fn serialize_as(alloc: Global, source: &[T; N], mode: Mode) -> Result<Node, SerFail> {
        let mut builder = NodeBuilder::new(alloc);
        Self::write_as(alloc, &mut builder, source, mode)?;
        match builder.finish() {
            Some(node) => Ok(node),
            None => Err(SerFail::Memory),
        }
    }
}

/// A list of `N` items, each by `A` in value place. A node of another kind is refused as `InvalidType` of
/// that kind; else the first of its first `N` items that is refused decides; without one, a list of
/// another length is refused as `InvalidLength` of it, at the list.
///
/// The array is filled in place, so where `A` is `FREE`, so is it.
impl<T: Meant + Copy + Default, A: DeserializeAs<T>, const N: usize> DeserializeAs<[T; N]>
    for [A; N] {
    ghost use Rattle.sw_core.specs.Array.{array_reads, array_spot, array_skips};
    ghost use Rattle.sw_core.specs.Laws.Array.{array_lawful};

    const FREE: bool = A::FREE;

    ghost FREE = { A.FREE };

    ghost reads = { array_reads N A.reads A.spot A.skips };

    ghost spot = { array_spot N A.reads A.spot A.skips };

    ghost skips = { array_skips N A.reads A.spot A.skips };

    fn deserialize_as(
        alloc: Global,
        view: View<'_>,
        mode: Mode,
        log: &mut Skipped,
    ) -> Result<[T; N], DeFail> {
        read_tuple::<[T; N], Repeated<A, N>>(alloc, view, mode, log)
    }

    ghost lawful_reading = { array_lawful N A.skips A.lawful_reading };
}

/// `N` parts that are all read by `A`.
struct Repeated<A, const N: usize> {
    part: PhantomData<A>,
}

impl<T: Meant + Copy + Default, A: DeserializeAs<T>, const N: usize> ReadParts<[T; N]>
    for Repeated<A, N> {
    ghost use Rattle.std.specs.Prelude.{map};
    ghost use Rattle.sw_core.specs.Array.{array_readings};

    const FREE: bool = A::FREE;

    ghost FREE = { A.FREE };

    ghost readings = { array_readings N A.reads A.spot A.skips };

    ghost shows = { map T.meaning };

    fn read_parts(
        alloc: Global,
        mut items: Items<'_>,
        mode: Mode,
        log: &mut Skipped,
    ) -> Result<Option<[T; N]>, DeFail> {
        let mut values = [T::default(); N];
        for index in 0..N {
            let Some(item) = items.next() else {
                return Ok(None);
            };
            values[index] = match A::deserialize_as(alloc, item, mode, log) {
                Ok(value) => value,
                Err(DeFail::Refused(refusal)) => return Err(DeFail::Refused(refusal)),
                Err(DeFail::Memory) => return Err(DeFail::Memory),
            };
        }
        match items.next() {
            None => Ok(Some(values)),
            Some(_) => Ok(None),
        }
    }
}

/// It is as faithful as its parts: the norm of an array has its values' norms.
impl<T: Meant + Copy + Default, A: Adapter<T>, const N: usize> Adapter<[T; N]> for [A; N] {
    ghost use Rattle.sw_check.specs.Form.{vec};
    ghost use Rattle.sw_core.specs.Vec.{list_norm};
    ghost use Rattle.sw_core.specs.Laws.Array.{array_keeps};

    ghost expr = { vec A.expr };

    ghost norm = { list_norm A.norm };

    ghost assumes = { A.assumes };

    fn describe(alloc: Global) -> Result<Expr, AllocError> {
        Expr::vec(alloc, A::describe(alloc)?)
    }

    ghost keeps = { array_keeps N A.keeps };
}
