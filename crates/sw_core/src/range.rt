//! A range is a map of its bounds, each by the same adapter in value place. It is read of the list of them too.
#![tactic(auto, using(sw_tree::specs::Laws::Logs::gains))]

ghost use Rattle.std.specs.Prelude.{[], ◌∷◌};
ghost use Rattle.sw_tree.specs.Building.{IsPut};
ghost use Rattle.sw_tree.specs.Meant.{row};
ghost use Rattle.sw_tree.specs.Placed.{placed, placed_notes};
ghost use Rattle.sw_tree.specs.Inner.View.{seen, tree_of};
ghost use Rattle.sw_elem.specs.Answers.{IsRead, IsLogged};
ghost use Rattle.sw_core.specs.Parts.{reading};
ghost use Rattle.sw_core.specs.Range.{range_names, bounds, range_reads, range_spot, range_skips};
ghost use Rattle.sw_core.specs.Record.{record_writes};

use crate::adapter::{Adapter, DeserializeAs, SerializeAs};
use crate::fields::{Fields, read_field, write_field};
use crate::parts::with_part;
use crate::record::read_record;
use crate::tagged::write_case;
use std::alloc::{AllocError, Global};
use std::marker::PhantomData;
use std::ops::{Range, RangeFrom, RangeInclusive, RangeTo};
use sw_check::expr::Expr;
use sw_check::exprs::ExprList;
use sw_check::grade::Grade;
use sw_elem::refuse::refused_at;
use sw_tree::builds::Builds;
use sw_tree::fail::{DeError, DeFail, SerFail};
use sw_tree::meant::Meant;
use sw_tree::mode::{Kind, Mode};
use sw_tree::skipped::Skipped;
use sw_tree::view::View;

/// A map with `start` and `end` in this order, each by `A` in value place. The first bound that isn't
/// written decides. Without one, a map of which a bound has 128 levels is `TooDeep`.
impl<T: Meant, A: SerializeAs<T>> SerializeAs<Range<T>> for Range<A> {
    ghost writes = { record_writes range_names (A.writes ∷ A.writes ∷ []) };

    fn write_as<B: Builds>(
        alloc: Global,
        out: &mut B,
        source: &Range<T>,
        mode: Mode,
    ) -> Result<(), SerFail> {
        write_bounds::<T, A, B>(alloc, out, &source.start, &source.end, mode)
    }
}

/// Such a map with its entries in any order, or the list of start and end, each bound by `A` in value
/// place.
///
/// In a list the first bound that is refused decides; without one, a list of another length than two
/// is refused as `InvalidLength` of it, at the list.
///
/// A map's entries are taken in order. A key that is no text is refused as `InvalidType` of its kind,
/// a name that has come before as `DuplicateField`, and any other name as `UnknownField`, each at the
/// key; else the bound's refusal is the range's. Behind all entries a missing bound is refused at the
/// map, as `MissingField` of 0 for the start and of 1 for the end. A node that is neither a list nor a
/// map is refused as `InvalidType` of its kind.
impl<T: Meant, A: DeserializeAs<T>> DeserializeAs<Range<T>> for Range<A> {
    ghost use Rattle.std.specs.Prelude.{false, refl};
    ghost use Rattle.sw_core.specs.Laws.Parts.{read_by};
    ghost use Rattle.sw_core.specs.Laws.Range.{range_lawful};

    const FREE: bool = false;

    ghost FREE = { false };

    ghost reads = { range_reads (bounds range_names (reading A.reads A.spot A.skips)) };

    ghost spot = { range_spot (bounds range_names (reading A.reads A.spot A.skips)) };

    ghost skips = { range_skips (bounds range_names (reading A.reads A.spot A.skips)) };

    fn deserialize_as(
        alloc: Global,
        view: View<'_>,
        mode: Mode,
        log: &mut Skipped,
    ) -> Result<Range<T>, DeFail> {
        match read_bounds::<T, A>(alloc, view, mode, log) {
            Ok((start, end)) => Ok(Range { start, end }),
            Err(DeFail::Refused(refusal)) => Err(DeFail::Refused(refusal)),
            Err(DeFail::Memory) => Err(DeFail::Memory),
        }
    }

    ghost lawful_reading = { range_lawful (bounds range_names (reading A.reads A.spot A.skips)) (read_by A.skips A.lawful_reading ∷ read_by A.skips A.lawful_reading ∷ []) refl (tt, (tt, tt)) };
}

/// It is as faithful as its bounds: the norm has theirs.
impl<T: Meant, A: Adapter<T>> Adapter<Range<T>> for Range<A> {
    ghost use Rattle.std.specs.Prelude.{true, refl};
    ghost use Rattle.sw_check.specs.Form.{forms, fields};
    ghost use Rattle.sw_check.specs.declared.grade.Grade.TheVariants.{Exact};
    ghost use Rattle.sw_core.specs.Record.{record_norm};
    ghost use Rattle.sw_core.specs.Tuple.{tuple_assumes};
    ghost use Rattle.sw_core.specs.Laws.Parts.{kept};
    ghost use Rattle.sw_core.specs.Laws.Range.{range_keeps};

    ghost expr = { fields (forms (A.expr ∷ A.expr ∷ [])) true Exact };

    ghost norm = { record_norm (A.norm ∷ A.norm ∷ []) };

    ghost assumes = { tuple_assumes (A.assumes ∷ A.assumes ∷ []) };

    fn describe(alloc: Global) -> Result<Expr, AllocError> {
        let parts = with_part::<T, A>(alloc, ExprList::new(alloc))?;
        let parts = with_part::<T, A>(alloc, parts)?;
        Ok(Expr::fields(parts, true, Grade::Exact))
    }

    ghost keeps = { range_keeps (bounds range_names (reading A.reads A.spot A.skips)) refl (kept A.keeps ∷ kept A.keeps ∷ []) refl Exact };
}

/// A map with `start` alone, by `A` in value place. Its refusal is the range's. Without one, a map whose
/// start has 128 levels is `TooDeep`.
impl<T: Meant, A: SerializeAs<T>> SerializeAs<RangeFrom<T>> for RangeFrom<A> {
    ghost use Rattle.std.specs.Prelude.{codes};

    ghost writes = { record_writes (codes "start" ∷ []) (A.writes ∷ []) };

    fn write_as<B: Builds>(
        alloc: Global,
        out: &mut B,
        source: &RangeFrom<T>,
        mode: Mode,
    ) -> Result<(), SerFail> {
        write_bound::<T, A, B>(alloc, out, "start", &source.start, mode)
    }
}

/// Such a map, or the list of the start; the start is read by `A` in value place. It is refused as a
/// range of both bounds is: a list of another length than one as `InvalidLength`, and each name but
/// `start` as `UnknownField`.
impl<T: Meant, A: DeserializeAs<T>> DeserializeAs<RangeFrom<T>> for RangeFrom<A> {
    ghost use Rattle.std.specs.Prelude.{false, refl, codes};
    ghost use Rattle.sw_core.specs.Laws.Parts.{read_by};
    ghost use Rattle.sw_core.specs.Laws.Range.{range_lawful};

    const FREE: bool = false;

    ghost FREE = { false };

    ghost reads = { range_reads (bounds (codes "start" ∷ []) (reading A.reads A.spot A.skips)) };

    ghost spot = { range_spot (bounds (codes "start" ∷ []) (reading A.reads A.spot A.skips)) };

    ghost skips = { range_skips (bounds (codes "start" ∷ []) (reading A.reads A.spot A.skips)) };

    fn deserialize_as(
        alloc: Global,
        view: View<'_>,
        mode: Mode,
        log: &mut Skipped,
    ) -> Result<RangeFrom<T>, DeFail> {
        match read_bound::<T, A, StartName>(alloc, view, mode, log) {
            Ok((start,)) => Ok(RangeFrom { start }),
            Err(DeFail::Refused(refusal)) => Err(DeFail::Refused(refusal)),
            Err(DeFail::Memory) => Err(DeFail::Memory),
        }
    }

    ghost lawful_reading = { range_lawful (bounds (codes "start" ∷ []) (reading A.reads A.spot A.skips)) (read_by A.skips A.lawful_reading ∷ []) refl (tt, tt) };
}

/// It is as faithful as its start: the norm has the start's.
impl<T: Meant, A: Adapter<T>> Adapter<RangeFrom<T>> for RangeFrom<A> {
    ghost use Rattle.std.specs.Prelude.{true, refl, codes};
    ghost use Rattle.sw_check.specs.Form.{forms, fields};
    ghost use Rattle.sw_check.specs.declared.grade.Grade.TheVariants.{Exact};
    ghost use Rattle.sw_core.specs.Record.{record_norm};
    ghost use Rattle.sw_core.specs.Tuple.{tuple_assumes};
    ghost use Rattle.sw_core.specs.Laws.Parts.{kept};
    ghost use Rattle.sw_core.specs.Laws.Range.{range_keeps};

    ghost expr = { fields (forms (A.expr ∷ [])) true Exact };

    ghost norm = { record_norm (A.norm ∷ []) };

    ghost assumes = { tuple_assumes (A.assumes ∷ []) };

    fn describe(alloc: Global) -> Result<Expr, AllocError> {
        let parts = with_part::<T, A>(alloc, ExprList::new(alloc))?;
        Ok(Expr::fields(parts, true, Grade::Exact))
    }

    ghost keeps = { range_keeps (bounds (codes "start" ∷ []) (reading A.reads A.spot A.skips)) refl (kept A.keeps ∷ []) refl Exact };
}

/// A map with `end` alone, by `A` in value place. Its refusal is the range's. Without one, a map whose
/// end has 128 levels is `TooDeep`.
impl<T: Meant, A: SerializeAs<T>> SerializeAs<RangeTo<T>> for RangeTo<A> {
    ghost use Rattle.std.specs.Prelude.{codes};

    ghost writes = { record_writes (codes "end" ∷ []) (A.writes ∷ []) };

    fn write_as<B: Builds>(
        alloc: Global,
        out: &mut B,
        source: &RangeTo<T>,
        mode: Mode,
    ) -> Result<(), SerFail> {
        write_bound::<T, A, B>(alloc, out, "end", &source.end, mode)
    }
}

/// Such a map, or the list of the end; the end is read by `A` in value place. It is refused as a range
/// of both bounds is: a list of another length than one as `InvalidLength`, each name but `end` as
/// `UnknownField`, and a missing end as `MissingField` of 0.
impl<T: Meant, A: DeserializeAs<T>> DeserializeAs<RangeTo<T>> for RangeTo<A> {
    ghost use Rattle.std.specs.Prelude.{false, refl, codes};
    ghost use Rattle.sw_core.specs.Laws.Parts.{read_by};
    ghost use Rattle.sw_core.specs.Laws.Range.{range_lawful};

    const FREE: bool = false;

    ghost FREE = { false };

    ghost reads = { range_reads (bounds (codes "end" ∷ []) (reading A.reads A.spot A.skips)) };

    ghost spot = { range_spot (bounds (codes "end" ∷ []) (reading A.reads A.spot A.skips)) };

    ghost skips = { range_skips (bounds (codes "end" ∷ []) (reading A.reads A.spot A.skips)) };

    fn deserialize_as(
        alloc: Global,
        view: View<'_>,
        mode: Mode,
        log: &mut Skipped,
    ) -> Result<RangeTo<T>, DeFail> {
        match read_bound::<T, A, EndName>(alloc, view, mode, log) {
            Ok((end,)) => Ok(RangeTo { end }),
            Err(DeFail::Refused(refusal)) => Err(DeFail::Refused(refusal)),
            Err(DeFail::Memory) => Err(DeFail::Memory),
        }
    }

    ghost lawful_reading = { range_lawful (bounds (codes "end" ∷ []) (reading A.reads A.spot A.skips)) (read_by A.skips A.lawful_reading ∷ []) refl (tt, tt) };
}

/// It is as faithful as its end: the norm has the end's.
impl<T: Meant, A: Adapter<T>> Adapter<RangeTo<T>> for RangeTo<A> {
    ghost use Rattle.std.specs.Prelude.{true, refl, codes};
    ghost use Rattle.sw_check.specs.Form.{forms, fields};
    ghost use Rattle.sw_check.specs.declared.grade.Grade.TheVariants.{Exact};
    ghost use Rattle.sw_core.specs.Record.{record_norm};
    ghost use Rattle.sw_core.specs.Tuple.{tuple_assumes};
    ghost use Rattle.sw_core.specs.Laws.Parts.{kept};
    ghost use Rattle.sw_core.specs.Laws.Range.{range_keeps};

    ghost expr = { fields (forms (A.expr ∷ [])) true Exact };

    ghost norm = { record_norm (A.norm ∷ []) };

    ghost assumes = { tuple_assumes (A.assumes ∷ []) };

    fn describe(alloc: Global) -> Result<Expr, AllocError> {
        let parts = with_part::<T, A>(alloc, ExprList::new(alloc))?;
        Ok(Expr::fields(parts, true, Grade::Exact))
    }

    ghost keeps = { range_keeps (bounds (codes "end" ∷ []) (reading A.reads A.spot A.skips)) refl (kept A.keeps ∷ []) refl Exact };
}

/// A map with `start` and `end`, as a range without its end is written. Whether its walk has ended isn't
/// written.
impl<T: Meant, A: SerializeAs<T>> SerializeAs<RangeInclusive<T>> for RangeInclusive<A> {
    ghost use Rattle.sw_core.specs.Range.{inclusive_writes};

    ghost writes = { inclusive_writes A.writes };

    fn write_as<B: Builds>(
        alloc: Global,
        out: &mut B,
        source: &RangeInclusive<T>,
        mode: Mode,
    ) -> Result<(), SerFail> {
        write_bounds::<T, A, B>(alloc, out, source.start(), source.end(), mode)
    }
}

/// It is read, and refused, as a range without its end is, and hasn't been walked.
impl<T: Meant, A: DeserializeAs<T>> DeserializeAs<RangeInclusive<T>> for RangeInclusive<A> {
    ghost use Rattle.std.specs.Prelude.{false};
    ghost use Rattle.sw_core.specs.Range.{inclusive_reads};
    ghost use Rattle.sw_core.specs.Laws.Range.{inclusive_lawful};

    const FREE: bool = false;

    ghost FREE = { false };

    ghost reads = { inclusive_reads (reading A.reads A.spot A.skips) };

    ghost spot = { range_spot (bounds range_names (reading A.reads A.spot A.skips)) };

    ghost skips = { range_skips (bounds range_names (reading A.reads A.spot A.skips)) };

    fn deserialize_as(
        alloc: Global,
        view: View<'_>,
        mode: Mode,
        log: &mut Skipped,
    ) -> Result<RangeInclusive<T>, DeFail> {
        match read_bounds::<T, A>(alloc, view, mode, log) {
            Ok((start, end)) => Ok(RangeInclusive::new(start, end)),
            Err(DeFail::Refused(refusal)) => Err(DeFail::Refused(refusal)),
            Err(DeFail::Memory) => Err(DeFail::Memory),
        }
    }

    ghost lawful_reading = { inclusive_lawful A.skips A.lawful_reading };
}

/// Its norm has the norms of the bounds, and hasn't been walked: so it is rounded, whatever its bounds are.
impl<T: Meant, A: Adapter<T>> Adapter<RangeInclusive<T>> for RangeInclusive<A> {
    ghost use Rattle.std.specs.Prelude.{true};
    ghost use Rattle.sw_check.specs.Form.{forms, fields};
    ghost use Rattle.sw_check.specs.declared.grade.Grade.TheVariants.{Rounded};
    ghost use Rattle.sw_core.specs.Range.{inclusive_norm};
    ghost use Rattle.sw_core.specs.Tuple.{tuple_assumes};
    ghost use Rattle.sw_core.specs.Laws.Range.{inclusive_keeps};

    ghost expr = { fields (forms (A.expr ∷ A.expr ∷ [])) true Rounded };

    ghost norm = { inclusive_norm A.norm };

    ghost assumes = { tuple_assumes (A.assumes ∷ A.assumes ∷ []) };

    fn describe(alloc: Global) -> Result<Expr, AllocError> {
        let parts = with_part::<T, A>(alloc, ExprList::new(alloc))?;
        let parts = with_part::<T, A>(alloc, parts)?;
        Ok(Expr::fields(parts, true, Grade::Rounded))
    }

    ghost keeps = { inclusive_keeps A.keeps };
}

// ---- both bounds

/// Puts in the map of both bounds.
fn write_bounds<T: Meant, A: SerializeAs<T>, B: Builds>(
    alloc: Global,
    out: &mut B,
    start: &T,
    end: &T,
    mode: Mode,
) -> Result<(), SerFail>
    ensures { IsPut B.put result (record_writes range_names (A.writes ∷ A.writes ∷ []) mode (row (T.meaning start.now ∷ T.meaning end.now ∷ []))) out.old out.new }
{
    out.open_map(2)?;
    write_field::<T, A, B>(alloc, out, "start", start, mode)?;
    write_field::<T, A, B>(alloc, out, "end", end, mode)?;
    out.close()
}

/// Reads both bounds.
fn read_bounds<T: Meant, A: DeserializeAs<T>>(
    alloc: Global,
    view: View<'_>,
    mode: Mode,
    log: &mut Skipped,
) -> Result<(T, T), DeFail>
    ensures answer { IsRead
        (λ both. row (T.meaning both.0 ∷ T.meaning both.1 ∷ []))
        result
        (placed (range_reads (bounds range_names (reading A.reads A.spot A.skips)) mode) (range_spot (bounds range_names (reading A.reads A.spot A.skips)) mode) (seen view.entry)) }
    ensures logs { IsLogged result log.old (placed_notes (seen view.entry) (range_skips (bounds range_names (reading A.reads A.spot A.skips)) mode (tree_of view.entry))) log.new }
{
    if view.kind() == Kind::List {
        <(A, A) as DeserializeAs<(T, T)>>::deserialize_as(alloc, view, mode, log)
    } else {
        read_record::<(T, T), BothFields<T, A>>(alloc, view, mode, log)
    }
}

/// What has been read of both bounds.
#[derive(Drop)]
struct BothFields<T, A> {
    start: Option<T>,
    end: Option<T>,
    by: PhantomData<A>,
}

impl<T: Meant, A: DeserializeAs<T>> Fields<(T, T)> for BothFields<T, A> {
    ghost use Rattle.std.specs.Prelude.{true, false, option_map};

    ghost known = { bounds range_names (reading A.reads A.spot A.skips) };

    ghost strict = { true };

    ghost FREE = { false };

    ghost slots = { λ f. option_map T.meaning f.start ∷ option_map T.meaning f.end ∷ [] };

    fn none() -> BothFields<T, A> {
        BothFields {
            start: None,
            end: None,
            by: PhantomData,
        }
    }

    fn read(
        &mut self,
        alloc: Global,
        name: &str,
        key: View<'_>,
        value: View<'_>,
        mode: Mode,
        log: &mut Skipped,
    ) -> Result<(), DeFail> {
        match name {
            "start" => read_field::<T, A>(alloc, key, value, &mut self.start, mode, log),
            "end" => read_field::<T, A>(alloc, key, value, &mut self.end, mode, log),
            _ => Err(refused_at(key, DeError::UnknownField)),
        }
    }

    fn finish(self, _alloc: Global, view: View<'_>) -> Result<(T, T), DeFail> {
        let (start, end) = (self.start, self.end);
        let Some(start) = start else {
            return Err(refused_at(view, DeError::MissingField(0)));
        };
        let Some(end) = end else {
            return Err(refused_at(view, DeError::MissingField(1)));
        };
        Ok((start, end))
    }
}

// ---- one bound

/// Puts in the map of one bound.
fn write_bound<T: Meant, A: SerializeAs<T>, B: Builds>(
    alloc: Global,
    out: &mut B,
    name: &str,
    bound: &T,
    mode: Mode,
) -> Result<(), SerFail>
    ensures { IsPut B.put result (record_writes (name.now ∷ []) (A.writes ∷ []) mode (row (T.meaning bound.now ∷ []))) out.old out.new }
{
    write_case::<T, A, B>(alloc, out, name, bound, mode)
}

/// Reads one bound of that name.
fn read_bound<T: Meant, A: DeserializeAs<T>, N: BoundName>(
    alloc: Global,
    view: View<'_>,
    mode: Mode,
    log: &mut Skipped,
) -> Result<(T,), DeFail>
    ensures answer { IsRead
        (λ one. row (T.meaning one.0 ∷ []))
        result
        (placed (range_reads (bounds (N.name ∷ []) (reading A.reads A.spot A.skips)) mode) (range_spot (bounds (N.name ∷ []) (reading A.reads A.spot A.skips)) mode) (seen view.entry)) }
    ensures logs { IsLogged result log.old (placed_notes (seen view.entry) (range_skips (bounds (N.name ∷ []) (reading A.reads A.spot A.skips)) mode (tree_of view.entry))) log.new }
{
    if view.kind() == Kind::List {
        <(A,) as DeserializeAs<(T,)>>::deserialize_as(alloc, view, mode, log)
    } else {
        read_record::<(T,), OneField<T, A, N>>(alloc, view, mode, log)
    }
}

/// The name of a range's one bound.
trait BoundName {
    ghost use Rattle.std.specs.Prelude.{◌≡◌, ℕ, List};
    ghost use Rattle.std.specs.Str.{bytes_eq};

    ghost name: { List ℕ };

    fn is_named(text: &str) -> bool
        ensures { result ≡ bytes_eq text.now name };
}

struct StartName;

impl BoundName for StartName {
    ghost use Rattle.std.specs.Prelude.{codes};

    ghost name = { codes "start" };

    fn is_named(text: &str) -> bool {
        text == "start"
    }
}

struct EndName;

impl BoundName for EndName {
    ghost use Rattle.std.specs.Prelude.{codes};

    ghost name = { codes "end" };

    fn is_named(text: &str) -> bool {
        text == "end"
    }
}

/// What has been read of one bound.
#[derive(Drop)]
struct OneField<T, A, N> {
    bound: Option<T>,
    by: PhantomData<(A, N)>,
}

impl<T: Meant, A: DeserializeAs<T>, N: BoundName> Fields<(T,)> for OneField<T, A, N> {
    ghost use Rattle.std.specs.Prelude.{true, false, option_map};

    ghost known = { bounds (N.name ∷ []) (reading A.reads A.spot A.skips) };

    ghost strict = { true };

    ghost FREE = { false };

    ghost slots = { λ f. option_map T.meaning f.bound ∷ [] };

    fn none() -> OneField<T, A, N> {
        OneField {
            bound: None,
            by: PhantomData,
        }
    }

    fn read(
        &mut self,
        alloc: Global,
        name: &str,
        key: View<'_>,
        value: View<'_>,
        mode: Mode,
        log: &mut Skipped,
    ) -> Result<(), DeFail> {
        if N::is_named(name) {
            read_field::<T, A>(alloc, key, value, &mut self.bound, mode, log)
        } else {
            Err(refused_at(key, DeError::UnknownField))
        }
    }

    fn finish(self, _alloc: Global, view: View<'_>) -> Result<(T,), DeFail> {
        match self.bound {
            Some(bound) => Ok((bound,)),
            None => Err(refused_at(view, DeError::MissingField(0))),
        }
    }
}
