#![tactic(auto, using(sw_tree::specs::Laws::Logs::gains))]

use crate::adapter::{Adapter, DeserializeAs, SerializeAs};
use crate::tagged::{Tag, Tags, Variant, tag_of, write_case};
use std::alloc::{AllocError, Global};
use sw_check::expr::Expr;
use sw_check::exprs::ExprList;
use sw_elem::refuse::refused_at;
use sw_tree::builds::Builds;
use sw_tree::fail::{DeError, DeFail, SerFail};
use sw_tree::meant::Meant;
use sw_tree::mode::Mode;
use sw_tree::skipped::Skipped;
use sw_tree::view::View;

/// The variants of a result.
struct ResultTags;

impl Tags for ResultTags {
    ghost use Rattle.sw_core.specs.Tagged.{result_names};

    ghost names = { result_names };

    fn variant(name: &str) -> Variant {
        match name {
            "Ok" => Variant::First,
            "Err" => Variant::Second,
            _ => Variant::Unknown,
        }
    }
}

/// A map of one entry: the name `Ok` with the value by `A` in value place, or `Err` with the error by
/// `B`. The part's refusal is the result's. Without one, a map whose part has 128 levels is `TooDeep`.
impl<T: Meant, E: Meant, A: SerializeAs<T>, B: SerializeAs<E>> SerializeAs<Result<T, E>>
    for Result<A, B> {
    ghost use Rattle.sw_core.specs.Tagged.{tagged_writes, result_names};

    ghost writes = { tagged_writes result_names A.writes B.writes };

    fn write_as<W: Builds>(
        alloc: Global,
        out: &mut W,
        source: &Result<T, E>,
        mode: Mode,
    ) -> Result<(), SerFail> {
        match source {
            Ok(value) => write_case::<T, A, W>(alloc, out, "Ok", value, mode),
            Err(error) => write_case::<E, B, W>(alloc, out, "Err", error, mode),
        }
    }
}

/// Such a map, whose part is read by `A` or `B` in value place.
///
/// A node that is neither a map nor a text is refused as `InvalidType` of its kind. A text is refused
/// too: `Ok` and `Err` as `InvalidType` of a text, any other as `UnknownVariant`. A map of another count
/// is `InvalidLength` of it. Then a key that is no text is refused as `InvalidType` of its kind, and
/// a name of no variant as `UnknownVariant`, each at the key; else the part's refusal is the result's.
impl<T: Meant, E: Meant, A: DeserializeAs<T>, B: DeserializeAs<E>> DeserializeAs<Result<T, E>>
    for Result<A, B> {
    ghost use Rattle.std.specs.Prelude.{false};
    ghost use Rattle.sw_core.specs.Parts.{reading};
    ghost use Rattle.sw_core.specs.Tagged.{tagged_reads, tagged_spot, tagged_skips, result_names};
    ghost use Rattle.sw_core.specs.Laws.Tagged.{result_lawful};

    const FREE: bool = false;

    ghost FREE = { false };

    ghost reads = { tagged_reads result_names (reading A.reads A.spot A.skips) (reading B.reads B.spot B.skips) };

    ghost spot = { tagged_spot result_names (reading A.reads A.spot A.skips) (reading B.reads B.spot B.skips) };

    ghost skips = { tagged_skips result_names (reading A.reads A.spot A.skips) (reading B.reads B.spot B.skips) };

    fn deserialize_as(
        alloc: Global,
        view: View<'_>,
        mode: Mode,
        log: &mut Skipped,
    ) -> Result<Result<T, E>, DeFail> {
        match tag_of::<ResultTags>(view) {
            Ok(Tag::One(value)) => match A::deserialize_as(alloc, value, mode.value(), log) {
                Ok(value) => Ok(Ok(value)),
                Err(DeFail::Refused(refusal)) => Err(DeFail::Refused(refusal)),
                Err(DeFail::Memory) => Err(DeFail::Memory),
            },
            Ok(Tag::Two(error)) => match B::deserialize_as(alloc, error, mode.value(), log) {
                Ok(error) => Ok(Err(error)),
                Err(DeFail::Refused(refusal)) => Err(DeFail::Refused(refusal)),
                Err(DeFail::Memory) => Err(DeFail::Memory),
            },
            Ok(Tag::Bare) => Err(refused_at(view, DeError::UnknownVariant)),
            Err(fail) => Err(fail),
        }
    }

    ghost lawful_reading = { result_lawful A.skips A.lawful_reading B.skips B.lawful_reading };
}

/// It is as faithful as its parts: the norm has that of the value or the error.
impl<T: Meant, E: Meant, A: Adapter<T>, B: Adapter<E>> Adapter<Result<T, E>> for Result<A, B> {
    ghost use Rattle.std.specs.Prelude.{false};
    ghost use Rattle.sw_check.specs.Form.{tagged, form, no_forms};
    ghost use Rattle.sw_core.specs.Tagged.{tagged_norm};
    ghost use Rattle.sw_core.specs.Laws.Tagged.{result_keeps};

    ghost expr = { tagged (form A.expr (form B.expr no_forms)) false };

    ghost norm = { tagged_norm A.norm B.norm };

    ghost assumes = { A.assumes × B.assumes };

    fn describe(alloc: Global) -> Result<Expr, AllocError> {
        let mut parts = ExprList::new(alloc);
        parts.push(A::describe(alloc)?)?;
        parts.push(B::describe(alloc)?)?;
        Ok(Expr::tagged(parts, false))
    }

    ghost keeps = { result_keeps A.keeps B.keeps };
}
