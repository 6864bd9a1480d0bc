//! Settings, the record that the profile of that name reads and writes.

use std::alloc::{AllocError, Global};
use std::collections::BTreeMap;
use std::marker::PhantomData;
use sw_check::expr::Expr;
use sw_check::exprs::ExprList;
use sw_check::grade::Grade;
use sw_core::adapter::{Adapter, DeserializeAs, SerializeAs};
use sw_core::fields::{Fields, read_field, write_field};
use sw_core::record::read_record;
use sw_elem::refuse::refused_at;
use sw_tree::builds::Builds;
use sw_tree::fail::{DeError, DeFail, SerFail};
use sw_tree::meant::{Meant, Named};
use sw_tree::mode::Mode;
use sw_tree::skipped::Skipped;
use sw_tree::view::View;

/// A name, numbers, two limits or none, and labels.
#[derive(Drop)]
pub(crate) struct Settings {
    name: String,
    ids: Vec<u32>,
    limits: Option<(u32, u32)>,
    labels: BTreeMap<String, String>,
}

/// Settings mean the row of what the fields mean.
impl Named for Settings {
    ghost use Rattle.std.specs.Prelude.{[], ◌∷◌, ◌^◌};
    ghost use Rattle.sw_tree.specs.LeafRanks.{text_order};
    ghost use Rattle.sw_tree.specs.Meant.{row, text_meaning, unsigned_meaning, list_meaning, option_meaning, pair_meaning, IsText, IsBelow, IsListOf, IsOptionOf, IsPairOf, IsRowOf};
    ghost use Rattle.sw_tree.specs.Sorted.{IsMapOf};

    ghost meaning = { λ s. row (text_meaning s.name ∷ list_meaning unsigned_meaning s.ids.items ∷ option_meaning (pair_meaning unsigned_meaning unsigned_meaning) s.limits ∷ list_meaning (pair_meaning text_meaning text_meaning) s.labels.entries ∷ []) };

    ghost is_meaning = { IsRowOf (IsText ∷ IsListOf (IsBelow (2 ^ 32)) ∷ IsOptionOf (IsPairOf (IsBelow (2 ^ 32)) (IsBelow (2 ^ 32))) ∷ IsMapOf IsText text_order IsText ∷ []) };
}

impl Meant for Settings {
    fn in_hand(&self) {
        self.name.in_hand();
        self.ids.in_hand();
        self.limits.in_hand();
        self.labels.in_hand();
    }
}

/// What has been read of settings.
#[derive(Drop)]
struct SettingsFields<A, B, C, D> {
    name: Option<String>,
    ids: Option<Vec<u32>>,
    limits: Option<Option<(u32, u32)>>,
    labels: Option<BTreeMap<String, String>>,
    by: PhantomData<(A, B, C, D)>,
}

impl<
    A: DeserializeAs<String>,
    B: DeserializeAs<Vec<u32>>,
    C: DeserializeAs<Option<(u32, u32)>>,
    D: DeserializeAs<BTreeMap<String, String>>,
> Fields<Settings> for SettingsFields<A, B, C, D> {
    ghost use Rattle.std.specs.Prelude.{[], ◌∷◌, false, option_map};
    ghost use Rattle.sw_tree.specs.Meant.{text_meaning, unsigned_meaning, list_meaning, option_meaning, pair_meaning};
    ghost use Rattle.sw_core.specs.Parts.{reading};
    ghost use Rattle.sw_tool.specs.Settings.{settings_fields};

    ghost known = { settings_fields (reading A.reads A.spot A.skips) (reading B.reads B.spot B.skips) (reading C.reads C.spot C.skips) (reading D.reads D.spot D.skips) };

    ghost strict = { false };

    ghost FREE = { false };

    ghost slots = { λ f. option_map text_meaning f.name ∷ option_map (λ v. list_meaning unsigned_meaning v.items) f.ids ∷ option_map (option_meaning (pair_meaning unsigned_meaning unsigned_meaning)) f.limits ∷ option_map (λ m. list_meaning (pair_meaning text_meaning text_meaning) m.entries) f.labels ∷ [] };

    fn none() -> SettingsFields<A, B, C, D> {
        SettingsFields {
            name: None,
            ids: None,
            limits: None,
            labels: None,
            by: PhantomData,
        }
    }

    fn read(
        &mut self,
        alloc: Global,
        name: &str,
        key: View<'_>,
        value: View<'_>,
        mode: Mode,
        log: &mut Skipped,
    ) -> Result<(), DeFail> {
        match name {
            "name" => read_field::<String, A>(alloc, key, value, &mut self.name, mode, log),
            "ids" => read_field::<Vec<u32>, B>(alloc, key, value, &mut self.ids, mode, log),
            "limits" => read_field::<Option<(u32, u32)>, C>(
                alloc,
                key,
                value,
                &mut self.limits,
                mode,
                log,
            ),
            "labels" => read_field::<BTreeMap<String, String>, D>(
                alloc,
                key,
                value,
                &mut self.labels,
                mode,
                log,
            ),
            _ => Ok(()),
        }
    }

    fn finish(self, _alloc: Global, view: View<'_>) -> Result<Settings, DeFail> {
        let (name, ids, limits, labels) = (self.name, self.ids, self.limits, self.labels);
        let Some(name) = name else {
            return Err(refused_at(view, DeError::MissingField(0)));
        };
        let Some(ids) = ids else {
            return Err(refused_at(view, DeError::MissingField(1)));
        };
        let Some(labels) = labels else {
            return Err(refused_at(view, DeError::MissingField(3)));
        };
        let limits = match limits {
            Some(limits) => limits,
            None => None,
        };
        Ok(Settings {
            name,
            ids,
            limits,
            labels,
        })
    }
}

/// Settings as a map of `name` by `A`, `ids` by `B`, `limits` by `C` and `labels` by `D`, written in that order. Without
/// limits there are none; each other field is required, in that order. Other names are passed over with their values.
pub(crate) struct SettingsAs<A, B, C, D> {
    by: PhantomData<(A, B, C, D)>,
}

impl<
    A: SerializeAs<String>,
    B: SerializeAs<Vec<u32>>,
    C: SerializeAs<Option<(u32, u32)>>,
    D: SerializeAs<BTreeMap<String, String>>,
> SerializeAs<Settings> for SettingsAs<A, B, C, D> {
    ghost use Rattle.std.specs.Prelude.{[], ◌∷◌};
    ghost use Rattle.sw_core.specs.Record.{record_writes};
    ghost use Rattle.sw_tool.specs.Settings.{settings_names};

    ghost writes = { record_writes settings_names (A.writes ∷ B.writes ∷ C.writes ∷ D.writes ∷ []) };

    fn write_as<O: Builds>(
        alloc: Global,
        out: &mut O,
        source: &Settings,
        mode: Mode,
    ) -> Result<(), SerFail> {
        out.open_map(4)?;
        write_field::<String, A, O>(alloc, out, "name", &source.name, mode)?;
        write_field::<Vec<u32>, B, O>(alloc, out, "ids", &source.ids, mode)?;
        write_field::<Option<(u32, u32)>, C, O>(alloc, out, "limits", &source.limits, mode)?;
        write_field::<BTreeMap<String, String>, D, O>(alloc, out, "labels", &source.labels, mode)?;
        out.close()
    }
}

impl<
    A: DeserializeAs<String>,
    B: DeserializeAs<Vec<u32>>,
    C: DeserializeAs<Option<(u32, u32)>>,
    D: DeserializeAs<BTreeMap<String, String>>,
> DeserializeAs<Settings> for SettingsAs<A, B, C, D> {
    ghost use Rattle.std.specs.Prelude.{[], ◌∷◌, false, refl};
    ghost use Rattle.sw_core.specs.Parts.{reading};
    ghost use Rattle.sw_core.specs.Record.{record_reads, record_spot, record_skips};
    ghost use Rattle.sw_core.specs.Laws.Parts.{read_by};
    ghost use Rattle.sw_core.specs.Laws.Record.{record_lawful};
    ghost use Rattle.sw_tool.specs.Settings.{settings_fields};

    const FREE: bool = false;

    ghost FREE = { false };

    ghost reads = { record_reads false (settings_fields (reading A.reads A.spot A.skips) (reading B.reads B.spot B.skips) (reading C.reads C.spot C.skips) (reading D.reads D.spot D.skips)) };

    ghost spot = { record_spot false (settings_fields (reading A.reads A.spot A.skips) (reading B.reads B.spot B.skips) (reading C.reads C.spot C.skips) (reading D.reads D.spot D.skips)) };

    ghost skips = { record_skips false (settings_fields (reading A.reads A.spot A.skips) (reading B.reads B.spot B.skips) (reading C.reads C.spot C.skips) (reading D.reads D.spot D.skips)) };

    fn deserialize_as(
        alloc: Global,
        view: View<'_>,
        mode: Mode,
        log: &mut Skipped,
    ) -> Result<Settings, DeFail> {
        read_record::<Settings, SettingsFields<A, B, C, D>>(alloc, view, mode, log)
    }

    ghost lawful_reading = { record_lawful
        false
        (settings_fields (reading A.reads A.spot A.skips) (reading B.reads B.spot B.skips) (reading C.reads C.spot C.skips) (reading D.reads D.spot D.skips))
        (read_by A.skips A.lawful_reading ∷ read_by B.skips B.lawful_reading ∷ read_by C.skips C.lawful_reading ∷ read_by D.skips D.lawful_reading ∷ [])
        refl
        (tt, (tt, (tt, (tt, tt)))) };
}

impl<
    A: Adapter<String>,
    B: Adapter<Vec<u32>>,
    C: Adapter<Option<(u32, u32)>>,
    D: Adapter<BTreeMap<String, String>>,
> Adapter<Settings> for SettingsAs<A, B, C, D> {
    ghost use Rattle.std.specs.Prelude.{[], ◌∷◌, false, refl};
    ghost use Rattle.sw_check.specs.Form.{forms, fields};
    ghost use Rattle.sw_check.specs.declared.grade.Grade.TheVariants.{Exact};
    ghost use Rattle.sw_core.specs.Parts.{reading};
    ghost use Rattle.sw_core.specs.Record.{record_norm};
    ghost use Rattle.sw_core.specs.Laws.Parts.{kept};
    ghost use Rattle.sw_core.specs.Laws.Record.{record_keeps};
    ghost use Rattle.sw_tool.specs.Settings.{settings_fields};

    ghost expr = { fields (forms (A.expr ∷ B.expr ∷ C.expr ∷ D.expr ∷ [])) false Exact };

    ghost norm = { record_norm (A.norm ∷ B.norm ∷ C.norm ∷ D.norm ∷ []) };

    ghost assumes = { A.assumes × (B.assumes × (C.assumes × (D.assumes × Unit {0}))) };

    fn describe(alloc: Global) -> Result<Expr, AllocError> {
        let mut parts = ExprList::new(alloc);
        parts.push(A::describe(alloc)?)?;
        parts.push(B::describe(alloc)?)?;
        parts.push(C::describe(alloc)?)?;
        parts.push(D::describe(alloc)?)?;
        Ok(Expr::fields(parts, false, Grade::Exact))
    }

    ghost keeps = { record_keeps
        false
        (settings_fields (reading A.reads A.spot A.skips) (reading B.reads B.spot B.skips) (reading C.reads C.spot C.skips) (reading D.reads D.spot D.skips))
        refl
        (kept A.keeps ∷ kept B.keeps ∷ kept C.keeps ∷ kept D.keeps ∷ [])
        refl
        false
        Exact };
}
