//! Which trees are valid for a schema, form by form.

ghost use Rattle.std.specs.Prelude.{◌≡◌, ◌&&◌, int_le};
ghost use Rattle.sw_tree.specs.Tree.{len_of};
ghost use Rattle.sw_schema.specs.Inner.Parts.{part_tree};
ghost use Rattle.sw_schema.specs.Schema.{schemas};
ghost use Rattle.sw_schema.specs.Field.{field_row};
ghost use Rattle.sw_schema.specs.Valid as valid;
ghost use Rattle.sw_schema.specs.Valid.{all_pass, passes_entries, valid_placed, valid_any, count_valid, valid_fields};

use crate::part::{Part, PartPairs, Parts};
use crate::pattern::Pattern;
use crate::schema::{SchemaField, SchemaTree, Shape};
use crate::{matching, same};
use sw_tree::mode::Kind;
use sw_tree::node::Node;
use sw_tree::whole::Whole;

/// Whether the node's tree is valid for the schema, by JSON Schema 2020-12:
///
/// | Form | Valid trees |
/// |---|---|
/// | `Any` | all |
/// | `Null`, `Boolean` | those of the kind |
/// | `Integer`, `Number` | numbers from the minimum to the maximum, both taken |
/// | `Text` | texts that the pattern matches |
/// | `Const` | that text |
/// | `Array` | lists whose items are valid, from `min` to `max` of them, pairwise different where they are unique |
/// | `Tuple` | lists of as many items as schemas, each valid by its place |
/// | `Object` | maps whose values are valid |
/// | `Fields` | maps in which the value of each entry of a listed name is valid for every field of that name, and each required name has an entry |
/// | `AnyOf`, `OneOf` | those that are valid for at least one, or for exactly one |
/// | `WriteOnly` | those that are valid for its part |
///
/// A byte string is valid for `Any` alone, and for `AnyOf`, `OneOf` and `WriteOnly` over it. Two maps whose entries stand in another order are
/// different items, as they are different trees.
///
/// It takes no memory, and stack for each level of the schema and of the tree. To put items in order would take memory, so unique
/// items are compared pair by pair: twice as many are four times the work.
pub fn valid(schema: &SchemaTree, node: &Node) -> bool
    ensures { result ≡ valid.valid schema.now node.now }
{
    is_valid(schema, Part::Node(node))
}

#[cycle(is_valid)]
fn is_valid(schema: &SchemaTree, part: Part<'_>) -> bool
    ensures { result ≡ valid.valid schema.now (part_tree part.entry) }
{
    match &schema.shape {
        Shape::Any => true,
        Shape::Null => is_null(part),
        Shape::Boolean => part.as_bool().is_some(),
        Shape::Integer(low, high) => is_within(*low, *high, part),
        Shape::Number(low, _) => is_within(*low, None, part),
        Shape::Text(pattern, _, _) => is_fitting(*pattern, part),
        Shape::Const(name) => is_constant(name.as_str(), part),
        Shape::Array(items, min, max, unique) => {
            items_valid(items, part) && has_count(*min, *max, part) && if_unique(*unique, part)
        }
        Shape::Tuple(parts) => match part.items() {
            Some(items) => placed_valid(parts.as_slice(), items),
            None => false,
        },
        Shape::Object(values) => match part.entries() {
            Some(entries) => values_valid(values, entries),
            None => false,
        },
        Shape::Fields(fields) => fields_valid(fields.as_slice(), part),
        Shape::AnyOf(options) => any_valid(options.as_slice(), part),
        Shape::OneOf(options) => count_valid(options.as_slice(), part) == 1,
        Shape::WriteOnly(inner) => is_valid(inner, part),
    }
}

/// Whether it is a list of which each item is valid.
#[cycle(is_valid)]
fn items_valid(schema: &SchemaTree, part: Part<'_>) -> bool
    ensures { result ≡ valid.passes_items (all_pass (valid.valid schema.now)) (part_tree part.entry) }
{
    match part.items() {
        Some(items) => all_valid(schema, items),
        None => false,
    }
}

/// Whether each item is valid.
#[cycle(is_valid)]
fn all_valid(schema: &SchemaTree, items: Parts<'_>) -> bool
    ensures { result ≡ all_pass (valid.valid schema.now) items.entry }
{
    for item in items {
        if !is_valid(schema, item) {
            return false;
        }
    }
    true
}

/// Whether each entry's value is valid.
#[cycle(is_valid)]
fn values_valid(schema: &SchemaTree, entries: PartPairs<'_>) -> bool
    ensures { result ≡ all_pass (λ e. valid.valid schema.now e.1) entries.entry }
{
    for (_key, value) in entries {
        if !is_valid(schema, value) {
            return false;
        }
    }
    true
}

/// Whether the items are valid by their places, and there are as many.
#[cycle(is_valid)]
fn placed_valid(parts: &[SchemaTree], items: Parts<'_>) -> bool
    ensures { result ≡ valid_placed (schemas parts.now) items.entry }
{
    let mut items = items;
    for part in parts {
        match items.next() {
            Some(item) => {
                if !is_valid(part, item) {
                    return false;
                }
            }
            None => return false,
        }
    }
    items.next().is_none()
}

/// Whether it is valid for one of these at least.
#[cycle(is_valid)]
fn any_valid(options: &[SchemaTree], part: Part<'_>) -> bool
    ensures { result ≡ valid_any (schemas options.now) (part_tree part.entry) }
{
    for option in options {
        if is_valid(option, part) {
            return true;
        }
    }
    false
}

/// For how many of these it is valid.
#[cycle(is_valid)]
fn count_valid(options: &[SchemaTree], part: Part<'_>) -> usize
    ensures { result ≡ count_valid (schemas options.now) (part_tree part.entry) }
{
    let mut count = 0;
    for option in options {
        if is_valid(option, part) {
            count += 1;
        }
    }
    count
}

/// Whether it is a map whose entries are valid for these fields.
#[cycle(is_valid)]
fn fields_valid(fields: &[SchemaField], part: Part<'_>) -> bool
    ensures { result ≡ passes_entries (valid_fields (field_row fields.now)) (part_tree part.entry) }
{
    if part.entries().is_none() {
        return false;
    }
    for field in fields {
        if !named_valid(field.name(), field.schema(), part) {
            return false;
        }
        if field.required() && !has_name(field.name(), part) {
            return false;
        }
    }
    true
}

/// Whether it is a map in which the value of each entry of that name is valid.
#[cycle(is_valid)]
fn named_valid(name: &str, schema: &SchemaTree, part: Part<'_>) -> bool
    ensures { result ≡ passes_entries (valid.named_pass name.now (valid.valid schema.now)) (part_tree part.entry) }
{
    match part.entries() {
        Some(entries) => all_named_valid(name, schema, entries),
        None => false,
    }
}

/// Whether each entry of that name has a valid value.
#[cycle(is_valid)]
fn all_named_valid(name: &str, schema: &SchemaTree, entries: PartPairs<'_>) -> bool
    ensures { result ≡ valid.named_pass name.now (valid.valid schema.now) entries.entry }
{
    for (key, value) in entries {
        if is_constant(name, key) && !is_valid(schema, value) {
            return false;
        }
    }
    true
}

/// Whether it is a map with an entry of that name.
fn has_name(name: &str, part: Part<'_>) -> bool
    ensures { result ≡ passes_entries (valid.has_name name.now) (part_tree part.entry) }
{
    match part.entries() {
        Some(entries) => some_named(name, entries),
        None => false,
    }
}

/// Whether some key is that name.
fn some_named(name: &str, entries: PartPairs<'_>) -> bool
    ensures { result ≡ valid.has_name name.now entries.entry }
{
    for (key, _value) in entries {
        if is_constant(name, key) {
            return true;
        }
    }
    false
}

fn is_null(part: Part<'_>) -> bool
    ensures { result ≡ valid.is_null (part_tree part.entry) }
{
    matches!(part.kind(), Kind::Null)
}

/// Whether it is that text.
fn is_constant(name: &str, part: Part<'_>) -> bool
    ensures { result ≡ valid.is_constant name.now (part_tree part.entry) }
{
    match part.as_text() {
        Some(text) => name == text,
        None => false,
    }
}

/// Whether it is a text that the pattern matches.
fn is_fitting(pattern: Option<Pattern>, part: Part<'_>) -> bool
    ensures { result ≡ valid.is_fitting pattern (part_tree part.entry) }
{
    match part.as_text() {
        Some(text) => fits(pattern, text),
        None => false,
    }
}

/// Whether it is a number between the bounds.
fn is_within(low: Option<Whole>, high: Option<Whole>, part: Part<'_>) -> bool
    ensures { result ≡ valid.is_within low high (part_tree part.entry) }
{
    match part.as_int() {
        Some(number) => is_at_least(low, number) && is_at_most(high, number),
        None => false,
    }
}

fn is_at_least(low: Option<Whole>, number: Whole) -> bool
    ensures { result ≡ valid.at_least low number }
{
    match low {
        Some(low) => in_order(low, number),
        None => true,
    }
}

fn is_at_most(high: Option<Whole>, number: Whole) -> bool
    ensures { result ≡ valid.at_most high number }
{
    match high {
        Some(high) => in_order(number, high),
        None => true,
    }
}

fn in_order(first: Whole, second: Whole) -> bool
    ensures { result ≡ int_le first second }
{
    first <= second
}

/// Whether there are enough items, and few enough.
fn has_count(min: Option<usize>, max: Option<usize>, part: Part<'_>) -> bool
    ensures { result ≡ (valid.no_fewer min (len_of (part_tree part.entry)) && valid.no_more max (len_of (part_tree part.entry))) }
{
    let count = part.len();
    let enough = match min {
        Some(min) => min <= count,
        None => true,
    };
    let few = match max {
        Some(max) => count <= max,
        None => true,
    };
    enough && few
}

/// Whether the pattern, where there is one, matches the text.
fn fits(pattern: Option<Pattern>, text: &str) -> bool
    ensures { result ≡ valid.fits pattern text.now }
{
    match pattern {
        Some(pattern) => matching::matches(pattern, text.as_bytes()),
        None => true,
    }
}

/// Whether it is a list whose items are pairwise different, where that is asked.
fn if_unique(unique: bool, part: Part<'_>) -> bool
    ensures { result ≡ (valid.passes_items (valid.if_unique unique) (part_tree part.entry)) }
{
    if unique {
        same::are_different(part)
    } else {
        matches!(part.kind(), Kind::List)
    }
}
