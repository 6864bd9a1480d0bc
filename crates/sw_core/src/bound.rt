#![tactic(auto, using(sw_tree::specs::Laws::Logs::gains))]

use crate::adapter::{Adapter, DeserializeAs, SerializeAs};
use crate::tagged::{Tag, Tags, Variant, tag_of, write_case};
use std::alloc::{AllocError, Global};
use std::ops::Bound;
use sw_check::expr::Expr;
use sw_check::exprs::ExprList;
use sw_tree::builds::Builds;
use sw_tree::fail::{DeFail, SerFail};
use sw_tree::meant::Meant;
use sw_tree::mode::Mode;
use sw_tree::skipped::Skipped;
use sw_tree::view::View;

/// The variants of an end.
struct BoundTags;

impl Tags for BoundTags {
    ghost use Rattle.sw_core.specs.Tagged.{bound_names};

    ghost names = { bound_names };

    fn variant(name: &str) -> Variant {
        match name {
            "Included" => Variant::First,
            "Excluded" => Variant::Second,
            "Unbounded" => Variant::Alone,
            _ => Variant::Unknown,
        }
    }
}

/// A map of one entry, the name `Included` or `Excluded` with the value by `A` in value place; for
/// no end the text `Unbounded`. The value's refusal is the end's. Without one, a map whose value has
/// 128 levels is `TooDeep`.
impl<T: Meant, A: SerializeAs<T>> SerializeAs<Bound<T>> for Bound<A> {
    ghost use Rattle.sw_core.specs.Tagged.{tagged_writes, bound_names};

    ghost writes = { tagged_writes bound_names A.writes A.writes };

    fn write_as<W: Builds>(
        alloc: Global,
        out: &mut W,
        source: &Bound<T>,
        mode: Mode,
    ) -> Result<(), SerFail> {
        match source {
            Bound::Included(value) => write_case::<T, A, W>(alloc, out, "Included", value, mode),
            Bound::Excluded(value) => write_case::<T, A, W>(alloc, out, "Excluded", value, mode),
            Bound::Unbounded => out.text("Unbounded"),
        }
    }
}

/// Such a map or text; the value is read by `A` in value place, and that of the name `Unbounded` is null.
///
/// A node that is neither a map nor a text is refused as `InvalidType` of its kind. A text that is
/// `Included` or `Excluded` is refused as `InvalidType` of a text, and a text of no variant as `UnknownVariant`. A
/// map of another count is `InvalidLength` of it. Then a key that is no text is refused as `InvalidType` of its
/// kind, and a name of no variant as `UnknownVariant`, each at the key; else the value's refusal is the
/// end's.
impl<T: Meant, A: DeserializeAs<T>> DeserializeAs<Bound<T>> for Bound<A> {
    ghost use Rattle.std.specs.Prelude.{false};
    ghost use Rattle.sw_core.specs.Parts.{reading};
    ghost use Rattle.sw_core.specs.Tagged.{tagged_reads, tagged_spot, tagged_skips, bound_names};
    ghost use Rattle.sw_core.specs.Laws.Tagged.{bound_lawful};

    const FREE: bool = false;

    ghost FREE = { false };

    ghost reads = { tagged_reads bound_names (reading A.reads A.spot A.skips) (reading A.reads A.spot A.skips) };

    ghost spot = { tagged_spot bound_names (reading A.reads A.spot A.skips) (reading A.reads A.spot A.skips) };

    ghost skips = { tagged_skips bound_names (reading A.reads A.spot A.skips) (reading A.reads A.spot A.skips) };

    fn deserialize_as(
        alloc: Global,
        view: View<'_>,
        mode: Mode,
        log: &mut Skipped,
    ) -> Result<Bound<T>, DeFail> {
        match tag_of::<BoundTags>(view) {
            Ok(Tag::One(value)) => match A::deserialize_as(alloc, value, mode.value(), log) {
                Ok(value) => Ok(Bound::Included(value)),
                Err(DeFail::Refused(refusal)) => Err(DeFail::Refused(refusal)),
                Err(DeFail::Memory) => Err(DeFail::Memory),
            },
            Ok(Tag::Two(value)) => match A::deserialize_as(alloc, value, mode.value(), log) {
                Ok(value) => Ok(Bound::Excluded(value)),
                Err(DeFail::Refused(refusal)) => Err(DeFail::Refused(refusal)),
                Err(DeFail::Memory) => Err(DeFail::Memory),
            },
            Ok(Tag::Bare) => Ok(Bound::Unbounded),
            Err(fail) => Err(fail),
        }
    }

    ghost lawful_reading = { bound_lawful A.skips A.lawful_reading };
}

/// It is as faithful as its value: the norm has the value's.
impl<T: Meant, A: Adapter<T>> Adapter<Bound<T>> for Bound<A> {
    ghost use Rattle.std.specs.Prelude.{true};
    ghost use Rattle.sw_check.specs.Form.{tagged, form, no_forms};
    ghost use Rattle.sw_core.specs.Tagged.{tagged_norm};
    ghost use Rattle.sw_core.specs.Laws.Tagged.{bound_keeps};

    ghost expr = { tagged (form A.expr (form A.expr no_forms)) true };

    ghost norm = { tagged_norm A.norm A.norm };

    ghost assumes = { A.assumes × A.assumes };

    fn describe(alloc: Global) -> Result<Expr, AllocError> {
        let mut parts = ExprList::new(alloc);
        parts.push(A::describe(alloc)?)?;
        parts.push(A::describe(alloc)?)?;
        Ok(Expr::tagged(parts, true))
    }

    ghost keeps = { bound_keeps A.keeps };
}
