//! The schemas of `OneOrMany`: what it writes is valid for its part's or for an array of it.

ghost use Rattle.std.specs.Prelude.{◌≡◌, IfOk, string_bytes};
ghost use Rattle.sw_policy.specs.Definitions.{one_or_many_name, one_or_many_schema};

use crate::one_or_many::OneOrMany;
use crate::preference::Preference;
use std::alloc::{AllocError, Global};
use std::boxed::BoxedSlice;
use std::collections::{BTreeSet, HashSet, LinkedList, VecDeque};
use std::hash::Hash;
use sw_schema::lists::SchemaList;
use sw_schema::schema::SchemaTree;
use sw_schemas::names::joined;
use sw_schemas::schema_as::{JsonSchemaAs, SchemaAdapter};
use sw_tree::meant::Meant;
use sw_tree::ranked::Ranked;

/// The name or id by the preference, from the part's. The one error is want of memory.
fn preferred<F: Preference>(alloc: Global, part: &str) -> Result<String, AllocError>
    ensures { IfOk result (λ s. string_bytes s ≡ one_or_many_name F.ALONE part.now) }
{
    let (start, end) = if F::ALONE {
        ("OneOrMany(", ",PreferOne)")
    } else {
        ("OneOrMany<", ", PreferMany>")
    };
    let mut text = joined(alloc, start, part)?;
    text.push_str(end)?;
    Ok(text)
}

/// Any of the part's schema, marked where a list is always written, and an array of it. The one error is want of memory.
fn one_or_many<T: Meant, A: JsonSchemaAs<T>, F: Preference>(
    alloc: Global,
    unique: bool,
) -> Result<SchemaTree, AllocError>
    ensures { IfOk result (λ s. s ≡ one_or_many_schema F.ALONE unique A.definition.schema) }
{
    let part = A::json_schema(alloc)?;
    let one = if F::ALONE {
        part
    } else {
        SchemaTree::write_only(alloc, part)?
    };
    let mut list = SchemaList::new(alloc);
    list.push(one)?;
    list.push(SchemaTree::array(alloc, A::json_schema(alloc)?, None, None, unique)?)?;
    Ok(SchemaTree::any_of(list))
}

/// Any of the part's schema and an array of it; the part's is marked where a list is always written.
impl<T: Meant, A: JsonSchemaAs<T>, F: Preference> JsonSchemaAs<Vec<T>> for OneOrMany<A, F> {
    ghost use Rattle.std.specs.Prelude.{false};
    ghost use Rattle.sw_policy.specs.Definitions.{one_or_many_definition};

    ghost definition = { one_or_many_definition F.ALONE false A.definition };

    fn inline_schema() -> bool {
        false
    }

    fn schema_name(alloc: Global) -> Result<String, AllocError> {
        preferred::<F>(alloc, A::schema_name(alloc)?.as_str())
    }

    fn schema_id(alloc: Global) -> Result<String, AllocError> {
        let name = preferred::<F>(alloc, A::schema_id(alloc)?.as_str())?;
        joined(alloc, "serde_with::", name.as_str())
    }

    fn json_schema(alloc: Global) -> Result<SchemaTree, AllocError> {
        one_or_many::<T, A, F>(alloc, false)
    }
}

impl<T: Meant, A: SchemaAdapter<T>, F: Preference> SchemaAdapter<Vec<T>> for OneOrMany<A, F> {
    ghost use Rattle.sw_policy.specs.Laws.ManySchema.{one_or_many_fits};

    ghost fits = { one_or_many_fits F.ALONE A.keeps A.fits };
}

/// As of a `Vec`.
impl<T: Meant, A: JsonSchemaAs<T>, F: Preference> JsonSchemaAs<VecDeque<T>> for OneOrMany<A, F> {
    ghost use Rattle.std.specs.Prelude.{false};
    ghost use Rattle.sw_policy.specs.Definitions.{one_or_many_definition};

    ghost definition = { one_or_many_definition F.ALONE false A.definition };

    fn inline_schema() -> bool {
        false
    }

    fn schema_name(alloc: Global) -> Result<String, AllocError> {
        preferred::<F>(alloc, A::schema_name(alloc)?.as_str())
    }

    fn schema_id(alloc: Global) -> Result<String, AllocError> {
        let name = preferred::<F>(alloc, A::schema_id(alloc)?.as_str())?;
        joined(alloc, "serde_with::", name.as_str())
    }

    fn json_schema(alloc: Global) -> Result<SchemaTree, AllocError> {
        one_or_many::<T, A, F>(alloc, false)
    }
}

impl<T: Meant, A: SchemaAdapter<T>, F: Preference> SchemaAdapter<VecDeque<T>> for OneOrMany<A, F> {
    ghost use Rattle.sw_policy.specs.Laws.ManySchema.{one_or_many_fits};

    ghost fits = { one_or_many_fits F.ALONE A.keeps A.fits };
}

/// As of a `Vec`.
impl<T: Meant, A: JsonSchemaAs<T>, F: Preference> JsonSchemaAs<LinkedList<T>> for OneOrMany<A, F> {
    ghost use Rattle.std.specs.Prelude.{false};
    ghost use Rattle.sw_policy.specs.Definitions.{one_or_many_definition};

    ghost definition = { one_or_many_definition F.ALONE false A.definition };

    fn inline_schema() -> bool {
        false
    }

    fn schema_name(alloc: Global) -> Result<String, AllocError> {
        preferred::<F>(alloc, A::schema_name(alloc)?.as_str())
    }

    fn schema_id(alloc: Global) -> Result<String, AllocError> {
        let name = preferred::<F>(alloc, A::schema_id(alloc)?.as_str())?;
        joined(alloc, "serde_with::", name.as_str())
    }

    fn json_schema(alloc: Global) -> Result<SchemaTree, AllocError> {
        one_or_many::<T, A, F>(alloc, false)
    }
}

impl<T: Meant, A: SchemaAdapter<T>, F: Preference> SchemaAdapter<LinkedList<T>>
    for OneOrMany<A, F> {
    ghost use Rattle.sw_policy.specs.Laws.ManySchema.{one_or_many_fits};

    ghost fits = { one_or_many_fits F.ALONE A.keeps A.fits };
}

/// As of a `Vec`.
impl<T: Meant, A: JsonSchemaAs<T>, F: Preference> JsonSchemaAs<BoxedSlice<T>> for OneOrMany<A, F> {
    ghost use Rattle.std.specs.Prelude.{false};
    ghost use Rattle.sw_policy.specs.Definitions.{one_or_many_definition};

    ghost definition = { one_or_many_definition F.ALONE false A.definition };

    fn inline_schema() -> bool {
        false
    }

    fn schema_name(alloc: Global) -> Result<String, AllocError> {
        preferred::<F>(alloc, A::schema_name(alloc)?.as_str())
    }

    fn schema_id(alloc: Global) -> Result<String, AllocError> {
        let name = preferred::<F>(alloc, A::schema_id(alloc)?.as_str())?;
        joined(alloc, "serde_with::", name.as_str())
    }

    fn json_schema(alloc: Global) -> Result<SchemaTree, AllocError> {
        one_or_many::<T, A, F>(alloc, false)
    }
}

impl<T: Meant, A: SchemaAdapter<T>, F: Preference> SchemaAdapter<BoxedSlice<T>>
    for OneOrMany<A, F> {
    ghost use Rattle.sw_policy.specs.Laws.ManySchema.{one_or_many_fits};

    ghost fits = { one_or_many_fits F.ALONE A.keeps A.fits };
}

/// As of a `Vec`, and no two items are the same.
impl<T: Ranked, A: JsonSchemaAs<T> + Ord, F: Preference> JsonSchemaAs<BTreeSet<T>>
    for OneOrMany<A, F> {
    ghost use Rattle.std.specs.Prelude.{true};
    ghost use Rattle.sw_policy.specs.Definitions.{one_or_many_definition};

    ghost definition = { one_or_many_definition F.ALONE true A.definition };

    fn inline_schema() -> bool {
        false
    }

    fn schema_name(alloc: Global) -> Result<String, AllocError> {
        preferred::<F>(alloc, A::schema_name(alloc)?.as_str())
    }

    fn schema_id(alloc: Global) -> Result<String, AllocError> {
        let name = preferred::<F>(alloc, A::schema_id(alloc)?.as_str())?;
        joined(alloc, "serde_with::", name.as_str())
    }

    fn json_schema(alloc: Global) -> Result<SchemaTree, AllocError> {
        one_or_many::<T, A, F>(alloc, true)
    }
}

impl<T: Ranked, A: SchemaAdapter<T> + Ord, F: Preference> SchemaAdapter<BTreeSet<T>>
    for OneOrMany<A, F> {
    ghost use Rattle.sw_policy.specs.Laws.ManySchema.{one_or_many_set_fits};

    ghost fits = { one_or_many_set_fits T.order T.ranks F.ALONE A.keeps A.fits };
}

/// As of a `Vec`, and no two items are the same.
impl<T: Ranked + Hash, A: JsonSchemaAs<T> + Eq + Hash, F: Preference> JsonSchemaAs<HashSet<T>>
    for OneOrMany<A, F> {
    ghost use Rattle.std.specs.Prelude.{true};
    ghost use Rattle.sw_policy.specs.Definitions.{one_or_many_definition};

    ghost definition = { one_or_many_definition F.ALONE true A.definition };

    fn inline_schema() -> bool {
        false
    }

    fn schema_name(alloc: Global) -> Result<String, AllocError> {
        preferred::<F>(alloc, A::schema_name(alloc)?.as_str())
    }

    fn schema_id(alloc: Global) -> Result<String, AllocError> {
        let name = preferred::<F>(alloc, A::schema_id(alloc)?.as_str())?;
        joined(alloc, "serde_with::", name.as_str())
    }

    fn json_schema(alloc: Global) -> Result<SchemaTree, AllocError> {
        one_or_many::<T, A, F>(alloc, true)
    }
}

impl<T: Ranked + Hash, A: SchemaAdapter<T> + Eq + Hash, F: Preference> SchemaAdapter<HashSet<T>>
    for OneOrMany<A, F> {
    ghost use Rattle.sw_policy.specs.Laws.ManySchema.{one_or_many_set_fits};

    ghost fits = { one_or_many_set_fits T.order T.ranks F.ALONE A.keeps A.fits };
}
