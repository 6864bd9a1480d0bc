//! A record of a user's own: a person, each of whose fields is read and written by an adapter that the nest names.

use std::alloc::{AllocError, Global};
use std::marker::PhantomData;
use sw_check::expr::Expr;
use sw_check::exprs::ExprList;
use sw_check::grade::Grade;
use sw_core::adapter::{Adapter, DeserializeAs, SerializeAs};
use sw_core::fields::{Fields, read_field, write_field};
use sw_core::record::read_record;
use sw_elem::refuse::refused_at;
use sw_tree::builds::Builds;
use sw_tree::fail::{DeError, DeFail, SerFail};
use sw_tree::meant::{Meant, Named};
use sw_tree::mode::Mode;
use sw_tree::skipped::Skipped;
use sw_tree::view::View;

#[derive(Drop)]
pub(crate) struct Person {
    name: String,
    age: u8,
    tags: Vec<u32>,
}

/// A person means the row of what the fields mean.
impl Named for Person {
    ghost use Rattle.std.specs.Prelude.{[], ◌∷◌, ◌^◌};
    ghost use Rattle.sw_tree.specs.Meant.{row, text_meaning, unsigned_meaning, list_meaning, IsText, IsBelow, IsListOf, IsRowOf};

    ghost meaning = { λ p. row (text_meaning p.name ∷ unsigned_meaning p.age ∷ list_meaning unsigned_meaning p.tags.items ∷ []) };

    ghost is_meaning = { IsRowOf (IsText ∷ IsBelow (2 ^ 8) ∷ IsListOf (IsBelow (2 ^ 32)) ∷ []) };
}

impl Meant for Person {
    fn in_hand(&self) {
        self.name.in_hand();
        self.age.in_hand();
        self.tags.in_hand();
    }
}

/// What has been read of a person.
#[derive(Drop)]
struct PersonFields<A, B, C> {
    name: Option<String>,
    age: Option<u8>,
    tags: Option<Vec<u32>>,
    by: PhantomData<(A, B, C)>,
}

impl<A: DeserializeAs<String>, B: DeserializeAs<u8>, C: DeserializeAs<Vec<u32>>> Fields<Person>
    for PersonFields<A, B, C> {
    ghost use Rattle.std.specs.Prelude.{[], ◌∷◌, false, option_map};
    ghost use Rattle.sw_tree.specs.Meant.{text_meaning, unsigned_meaning, list_meaning};
    ghost use Rattle.sw_core.specs.Parts.{reading};
    ghost use Rattle.sw_examples.specs.Person.{person_fields};

    ghost known = { person_fields (reading A.reads A.spot A.skips) (reading B.reads B.spot B.skips) (reading C.reads C.spot C.skips) };

    ghost strict = { false };

    ghost FREE = { false };

    ghost slots = { λ f. option_map text_meaning f.name ∷ option_map unsigned_meaning f.age ∷ option_map (λ v. list_meaning unsigned_meaning v.items) f.tags ∷ [] };

    fn none() -> PersonFields<A, B, C> {
        PersonFields {
            name: None,
            age: None,
            tags: None,
            by: PhantomData,
        }
    }

    fn read(
        &mut self,
        alloc: Global,
        name: &str,
        key: View<'_>,
        value: View<'_>,
        mode: Mode,
        log: &mut Skipped,
    ) -> Result<(), DeFail> {
        match name {
            "name" => read_field::<String, A>(alloc, key, value, &mut self.name, mode, log),
            "age" => read_field::<u8, B>(alloc, key, value, &mut self.age, mode, log),
            "tags" => read_field::<Vec<u32>, C>(alloc, key, value, &mut self.tags, mode, log),
            _ => Ok(()),
        }
    }

    fn finish(self, alloc: Global, view: View<'_>) -> Result<Person, DeFail> {
        let (name, age, tags) = (self.name, self.age, self.tags);
        let Some(name) = name else {
            return Err(refused_at(view, DeError::MissingField(0)));
        };
        let Some(age) = age else {
            return Err(refused_at(view, DeError::MissingField(1)));
        };
        let tags = match tags {
            Some(tags) => tags,
            None => Vec::new(alloc),
        };
        Ok(Person { name, age, tags })
    }
}

/// A person as a map: the name by `A`, the age by `B`, the tags by `C`. Without tags there are none.
pub(crate) struct PersonAs<A, B, C> {
    by: PhantomData<(A, B, C)>,
}

impl<A: SerializeAs<String>, B: SerializeAs<u8>, C: SerializeAs<Vec<u32>>> SerializeAs<Person>
    for PersonAs<A, B, C> {
    ghost use Rattle.std.specs.Prelude.{[], ◌∷◌};
    ghost use Rattle.sw_core.specs.Record.{record_writes};
    ghost use Rattle.sw_examples.specs.Person.{person_names};

    ghost writes = { record_writes person_names (A.writes ∷ B.writes ∷ C.writes ∷ []) };

    fn write_as<O: Builds>(
        alloc: Global,
        out: &mut O,
        source: &Person,
        mode: Mode,
    ) -> Result<(), SerFail> {
        out.open_map(3)?;
        write_field::<String, A, O>(alloc, out, "name", &source.name, mode)?;
        write_field::<u8, B, O>(alloc, out, "age", &source.age, mode)?;
        write_field::<Vec<u32>, C, O>(alloc, out, "tags", &source.tags, mode)?;
        out.close()
    }
}

impl<A: DeserializeAs<String>, B: DeserializeAs<u8>, C: DeserializeAs<Vec<u32>>> DeserializeAs<
    Person,
> for PersonAs<A, B, C> {
    ghost use Rattle.std.specs.Prelude.{[], ◌∷◌, false, refl};
    ghost use Rattle.sw_core.specs.Parts.{reading};
    ghost use Rattle.sw_core.specs.Record.{record_reads, record_spot, record_skips};
    ghost use Rattle.sw_core.specs.Laws.Parts.{read_by};
    ghost use Rattle.sw_core.specs.Laws.Record.{record_lawful};
    ghost use Rattle.sw_examples.specs.Person.{person_fields};

    const FREE: bool = false;

    ghost FREE = { false };

    ghost reads = { record_reads false (person_fields (reading A.reads A.spot A.skips) (reading B.reads B.spot B.skips) (reading C.reads C.spot C.skips)) };

    ghost spot = { record_spot false (person_fields (reading A.reads A.spot A.skips) (reading B.reads B.spot B.skips) (reading C.reads C.spot C.skips)) };

    ghost skips = { record_skips false (person_fields (reading A.reads A.spot A.skips) (reading B.reads B.spot B.skips) (reading C.reads C.spot C.skips)) };

    fn deserialize_as(
        alloc: Global,
        view: View<'_>,
        mode: Mode,
        log: &mut Skipped,
    ) -> Result<Person, DeFail> {
        read_record::<Person, PersonFields<A, B, C>>(alloc, view, mode, log)
    }

    ghost lawful_reading = { record_lawful
        false
        (person_fields (reading A.reads A.spot A.skips) (reading B.reads B.spot B.skips) (reading C.reads C.spot C.skips))
        (read_by A.skips A.lawful_reading ∷ read_by B.skips B.lawful_reading ∷ read_by C.skips C.lawful_reading ∷ [])
        refl
        (tt, (tt, (tt, tt))) };
}

impl<A: Adapter<String>, B: Adapter<u8>, C: Adapter<Vec<u32>>> Adapter<Person>
    for PersonAs<A, B, C> {
    ghost use Rattle.std.specs.Prelude.{[], ◌∷◌, false, refl};
    ghost use Rattle.sw_check.specs.Form.{forms, fields};
    ghost use Rattle.sw_check.specs.declared.grade.Grade.TheVariants.{Exact};
    ghost use Rattle.sw_core.specs.Parts.{reading};
    ghost use Rattle.sw_core.specs.Record.{record_norm};
    ghost use Rattle.sw_core.specs.Laws.Parts.{kept};
    ghost use Rattle.sw_core.specs.Laws.Record.{record_keeps};
    ghost use Rattle.sw_examples.specs.Person.{person_fields};

    ghost expr = { fields (forms (A.expr ∷ B.expr ∷ C.expr ∷ [])) false Exact };

    ghost norm = { record_norm (A.norm ∷ B.norm ∷ C.norm ∷ []) };

    ghost assumes = { A.assumes × (B.assumes × (C.assumes × Unit {0})) };

    fn describe(alloc: Global) -> Result<Expr, AllocError> {
        let mut parts = ExprList::new(alloc);
        parts.push(A::describe(alloc)?)?;
        parts.push(B::describe(alloc)?)?;
        parts.push(C::describe(alloc)?)?;
        Ok(Expr::fields(parts, false, Grade::Exact))
    }

    ghost keeps = { record_keeps
        false
        (person_fields (reading A.reads A.spot A.skips) (reading B.reads B.spot B.skips) (reading C.reads C.spot C.skips))
        refl
        (kept A.keeps ∷ kept B.keeps ∷ kept C.keeps ∷ [])
        refl
        false
        Exact };
}
