//! The JSON trees of schemas.
#![tactic(auto, using(crate::proofs::TreeLemmas::trees_added))]

ghost use Rattle.std.specs.Prelude.{◌≡◌, [], ◌∷◌, ◌++◌, IfOk, OnOk, codes};
ghost use Rattle.sw_schema.specs.Schema.{integer, number, text, constant, array, tuple, object, fields, any_of, one_of, write_only, schemas};
ghost use Rattle.sw_schema.specs.Field.{field_row};
ghost use Rattle.sw_schema.specs.SchemaTree as spec;
ghost use Rattle.sw_schema.specs.SchemaTree.{keyed, kind_entry, bound_entry, length_entry, mark_entry, list_of, map_of, schema_tree, schema_trees, properties, required_names};
ghost use Rattle.sw_schema.specs.ToNode.{IsToNode};
ghost use Rattle.sw_tree.specs.Tree as node;

use crate::pattern::Pattern;
use crate::schema::{SchemaField, SchemaTree, Shape};
use std::alloc::{AllocError, Global};
use sw_tree::{Node, Whole};

/// Why there is no node of a schema's tree.
#[derive(Clone, Copy, PartialEq, Eq)]
pub enum ToNodeFail {
    /// The tree has more than 128 levels.
    TooDeep,
    Memory,
}

impl From<AllocError> for ToNodeFail {
    ghost use Rattle.sw_schema.specs.declared.to_node.ToNodeFail.TheVariants.{Memory};

    ghost from_gives = { λ _ e. e ≡ Memory };

    fn from(_: AllocError) -> ToNodeFail {
        ToNodeFail::Memory
    }
}

impl SchemaTree {
    /// The schema as JSON, with the keys of its form in order:
    ///
    /// | Form | Tree |
    /// |---|---|
    /// | `Any` | `true` |
    /// | `Null`, `Boolean` | `{"type":"null"}`, `{"type":"boolean"}` |
    /// | `Integer` | `{"type":"integer","minimum":a,"maximum":b}` |
    /// | `Number` | `{"type":"number","minimum":a,"writeOnly":true}` |
    /// | `Text` | `{"type":"string","pattern":p,"contentEncoding":"base64","writeOnly":true}` |
    /// | `Const` | `{"type":"string","const":name}` |
    /// | `Array` | `{"type":"array","items":S,"minItems":a,"maxItems":b,"uniqueItems":true}` |
    /// | `Tuple` | `{"type":"array","prefixItems":[S],"minItems":n,"maxItems":n}` |
    /// | `Object` | `{"type":"object","additionalProperties":S}` |
    /// | `Fields` | `{"type":"object","properties":{name:S},"required":[name]}` |
    /// | `AnyOf`, `OneOf` | `{"anyOf":[S]}`, `{"oneOf":[S]}` |
    /// | `WriteOnly` | `{"writeOnly":true,"allOf":[S]}` |
    ///
    /// A bound, a length or a pattern that is absent is left out, and so is a mark that isn't set. `TooDeep` exactly where the tree has
    /// more than 128 levels.
    pub fn to_node(&self, alloc: Global) -> Result<Node, ToNodeFail>
        ensures { IsToNode result (schema_tree self.now) }
    {
        node_of(alloc, self)
    }
}

/// The tree of a schema.
#[cycle(node_of)]
fn node_of(alloc: Global, schema: &SchemaTree) -> Result<Node, ToNodeFail>
    ensures { IsToNode result (schema_tree schema.now) }
{
    match &schema.shape {
        Shape::Any => Ok(Node::bool(true)),
        Shape::Null => kind_node(alloc, "null"),
        Shape::Boolean => kind_node(alloc, "boolean"),
        Shape::Integer(minimum, maximum) => integer_node(alloc, *minimum, *maximum),
        Shape::Number(minimum, write_only) => number_node(alloc, *minimum, *write_only),
        Shape::Text(pattern, base64, write_only) => {
            text_node(alloc, *pattern, *base64, *write_only)
        }
        Shape::Const(name) => constant_node(alloc, name.as_str()),
        Shape::Array(items, min, max, unique) => array_node(alloc, items, *min, *max, *unique),
        Shape::Tuple(parts) => tuple_node(alloc, parts.as_slice()),
        Shape::Object(values) => object_node(alloc, values),
        Shape::Fields(fields) => fields_node(alloc, fields.as_slice()),
        Shape::AnyOf(options) => options_node(alloc, "anyOf", options.as_slice()),
        Shape::OneOf(options) => options_node(alloc, "oneOf", options.as_slice()),
        Shape::WriteOnly(part) => write_only_node(alloc, part),
    }
}

/// `{"type":kind}`
fn kind_node(alloc: Global, kind: &str) -> Result<Node, ToNodeFail>
    ensures { IsToNode result (map_of (kind_entry kind.now ∷ [])) }
{
    map_node(kind_entries(alloc, kind)?)
}

fn integer_node(
    alloc: Global,
    minimum: Option<Whole>,
    maximum: Option<Whole>,
) -> Result<Node, ToNodeFail>
    ensures { IsToNode result (schema_tree (integer minimum maximum)) }
{
    let mut entries = kind_entries(alloc, "integer")?;
    push_bound(alloc, &mut entries, "minimum", minimum)?;
    push_bound(alloc, &mut entries, "maximum", maximum)?;
    map_node(entries)
}

fn number_node(alloc: Global, minimum: Option<Whole>, write_only: bool) -> Result<Node, ToNodeFail>
    ensures { IsToNode result (schema_tree (number minimum write_only)) }
{
    let mut entries = kind_entries(alloc, "number")?;
    push_bound(alloc, &mut entries, "minimum", minimum)?;
    push_mark(alloc, &mut entries, "writeOnly", write_only)?;
    map_node(entries)
}

fn text_node(
    alloc: Global,
    pattern: Option<Pattern>,
    base64: bool,
    write_only: bool,
) -> Result<Node, ToNodeFail>
    ensures { IsToNode result (schema_tree (text pattern base64 write_only)) }
{
    let mut entries = kind_entries(alloc, "string")?;
    push_pattern(alloc, &mut entries, pattern)?;
    push_encoding(alloc, &mut entries, base64)?;
    push_mark(alloc, &mut entries, "writeOnly", write_only)?;
    map_node(entries)
}

fn constant_node(alloc: Global, name: &str) -> Result<Node, ToNodeFail>
    ensures { IsToNode result (schema_tree (constant name.now)) }
{
    let mut entries = kind_entries(alloc, "string")?;
    push_text(alloc, &mut entries, "const", name)?;
    map_node(entries)
}

#[cycle(node_of)]
fn array_node(
    alloc: Global,
    items: &SchemaTree,
    min: Option<usize>,
    max: Option<usize>,
    unique: bool,
) -> Result<Node, ToNodeFail>
    ensures { IsToNode result (schema_tree (array items.now min max unique)) }
{
    let items = node_of(alloc, items)?;
    let mut entries = kind_entries(alloc, "array")?;
    push(alloc, &mut entries, "items", items)?;
    push_length(alloc, &mut entries, "minItems", min)?;
    push_length(alloc, &mut entries, "maxItems", max)?;
    push_mark(alloc, &mut entries, "uniqueItems", unique)?;
    map_node(entries)
}

#[cycle(node_of)]
fn tuple_node(alloc: Global, parts: &[SchemaTree]) -> Result<Node, ToNodeFail>
    ensures { IsToNode result (schema_tree (tuple (schemas parts.now))) }
{
    let items = parts_node(alloc, parts)?;
    let mut entries = kind_entries(alloc, "array")?;
    push(alloc, &mut entries, "prefixItems", items)?;
    push_length(alloc, &mut entries, "minItems", Some(parts.len()))?;
    push_length(alloc, &mut entries, "maxItems", Some(parts.len()))?;
    map_node(entries)
}

#[cycle(node_of)]
fn object_node(alloc: Global, values: &SchemaTree) -> Result<Node, ToNodeFail>
    ensures { IsToNode result (schema_tree (object values.now)) }
{
    let values = node_of(alloc, values)?;
    let mut entries = kind_entries(alloc, "object")?;
    push(alloc, &mut entries, "additionalProperties", values)?;
    map_node(entries)
}

#[cycle(node_of)]
fn fields_node(alloc: Global, list: &[SchemaField]) -> Result<Node, ToNodeFail>
    ensures { IsToNode result (schema_tree (fields (field_row list.now))) }
{
    let properties = properties_node(alloc, list)?;
    let required = required_node(alloc, list)?;
    let mut entries = kind_entries(alloc, "object")?;
    push(alloc, &mut entries, "properties", properties)?;
    push(alloc, &mut entries, "required", required)?;
    map_node(entries)
}

/// The map of one entry, whose value is the list of these.
#[cycle(node_of)]
fn options_node(alloc: Global, key: &str, options: &[SchemaTree]) -> Result<Node, ToNodeFail>
    ensures { IsToNode result (map_of (keyed key.now (list_of (schema_trees (schemas options.now))) ∷ [])) }
{
    let options = parts_node(alloc, options)?;
    let mut entries = Vec::new(alloc);
    push(alloc, &mut entries, key, options)?;
    map_node(entries)
}

#[cycle(node_of)]
fn write_only_node(alloc: Global, part: &SchemaTree) -> Result<Node, ToNodeFail>
    ensures { IsToNode result (schema_tree (write_only part.now)) }
{
    let part = only_node(alloc, node_of(alloc, part)?)?;
    let mut entries = Vec::new(alloc);
    push_mark(alloc, &mut entries, "writeOnly", true)?;
    push(alloc, &mut entries, "allOf", part)?;
    map_node(entries)
}

/// The list of the trees of these.
#[cycle(node_of)]
fn parts_node(alloc: Global, parts: &[SchemaTree]) -> Result<Node, ToNodeFail>
    ensures { IsToNode result (list_of (schema_trees (schemas parts.now))) }
{
    let mut items = Vec::new(alloc);
    for part in parts {
        let item = node_of(alloc, part)?;
        push_item(&mut items, item)?;
    }
    list_node(items)
}

/// The map of the fields' names, each with the tree of its schema.
#[cycle(node_of)]
fn properties_node(alloc: Global, list: &[SchemaField]) -> Result<Node, ToNodeFail>
    ensures { IsToNode result (map_of (properties (field_row list.now))) }
{
    let mut entries = Vec::new(alloc);
    for field in list {
        let value = node_of(alloc, field.schema())?;
        push(alloc, &mut entries, field.name(), value)?;
    }
    map_node(entries)
}

/// The list of the required names.
fn required_node(alloc: Global, list: &[SchemaField]) -> Result<Node, ToNodeFail>
    ensures { IsToNode result (list_of (required_names (field_row list.now))) }
{
    let mut names = Vec::new(alloc);
    for field in list {
        if field.required() {
            push_item(
                &mut names,
                Node::text(String::from_str(alloc, field.name())?),
            )?;
        }
    }
    list_node(names)
}

/// The list of this one.
fn only_node(alloc: Global, item: Node) -> Result<Node, ToNodeFail>
    ensures { IsToNode result (list_of (item ∷ [])) }
{
    let mut items = Vec::new(alloc);
    push_item(&mut items, item)?;
    list_node(items)
}

fn list_node(items: Vec<Node>) -> Result<Node, ToNodeFail>
    ensures { IsToNode result (list_of items.items) }
{
    match Node::list(items) {
        Ok(node) => Ok(node),
        Err(_) => Err(ToNodeFail::TooDeep),
    }
}

fn map_node(entries: Vec<(Node, Node)>) -> Result<Node, ToNodeFail>
    ensures { IsToNode result (map_of entries.items) }
{
    match Node::map(entries) {
        Ok(node) => Ok(node),
        Err(_) => Err(ToNodeFail::TooDeep),
    }
}

fn push_item(items: &mut Vec<Node>, item: Node) -> Result<(), AllocError>
    ensures { OnOk result (items.new.items ≡ items.old.items ++ item ∷ []) }
{
    items.push(item)?;
    Ok(())
}

/// Appends an entry.
fn push(
    alloc: Global,
    entries: &mut Vec<(Node, Node)>,
    key: &str,
    value: Node,
) -> Result<(), AllocError>
    ensures { OnOk result (entries.new.items ≡ entries.old.items ++ keyed key.now value ∷ []) }
{
    let key = Node::text(String::from_str(alloc, key)?);
    entries.push((key, value))?;
    Ok(())
}

/// Appends an entry whose value is a text.
fn push_text(
    alloc: Global,
    entries: &mut Vec<(Node, Node)>,
    key: &str,
    value: &str,
) -> Result<(), AllocError>
    ensures { OnOk result (entries.new.items ≡ entries.old.items ++ keyed key.now (node.text value.now) ∷ []) }
{
    let value = Node::text(String::from_str(alloc, value)?);
    push(alloc, entries, key, value)
}

/// The entry that names the kind.
fn kind_entries(alloc: Global, kind: &str) -> Result<Vec<(Node, Node)>, AllocError>
    ensures { IfOk result (λ es. es.items ≡ kind_entry kind.now ∷ []) }
{
    let mut entries = Vec::new(alloc);
    push_text(alloc, &mut entries, "type", kind)?;
    Ok(entries)
}

/// Appends the bound, where there is one.
fn push_bound(
    alloc: Global,
    entries: &mut Vec<(Node, Node)>,
    key: &str,
    bound: Option<Whole>,
) -> Result<(), AllocError>
    ensures { OnOk result (entries.new.items ≡ entries.old.items ++ bound_entry key.now bound) }
{
    match bound {
        Some(number) => push(alloc, entries, key, Node::int(number)),
        None => Ok(()),
    }
}

/// Appends the length, where there is one.
fn push_length(
    alloc: Global,
    entries: &mut Vec<(Node, Node)>,
    key: &str,
    length: Option<usize>,
) -> Result<(), AllocError>
    ensures { OnOk result (entries.new.items ≡ entries.old.items ++ length_entry key.now length) }
{
    match length {
        Some(count) => push(
            alloc,
            entries,
            key,
            Node::int(Whole::from_u128(count as u128)),
        ),
        None => Ok(()),
    }
}

/// Appends the mark, where it is set.
fn push_mark(
    alloc: Global,
    entries: &mut Vec<(Node, Node)>,
    key: &str,
    mark: bool,
) -> Result<(), AllocError>
    ensures { OnOk result (entries.new.items ≡ entries.old.items ++ mark_entry key.now mark) }
{
    if mark {
        push(alloc, entries, key, Node::bool(true))
    } else {
        Ok(())
    }
}

/// Appends the regular expression, where there is one.
fn push_pattern(
    alloc: Global,
    entries: &mut Vec<(Node, Node)>,
    pattern: Option<Pattern>,
) -> Result<(), AllocError>
    ensures { OnOk result (entries.new.items ≡ entries.old.items ++ spec.pattern_entry pattern) }
{
    match pattern {
        Some(pattern) => push_text(alloc, entries, "pattern", pattern_text(pattern)),
        None => Ok(()),
    }
}

/// Appends that the text is base64, where it is marked so.
fn push_encoding(
    alloc: Global,
    entries: &mut Vec<(Node, Node)>,
    base64: bool,
) -> Result<(), AllocError>
    ensures { OnOk result (entries.new.items ≡ entries.old.items ++ spec.encoding_entry base64) }
{
    if base64 {
        push_text(alloc, entries, "contentEncoding", "base64")
    } else {
        Ok(())
    }
}

/// The regular expression of a pattern.
fn pattern_text(pattern: Pattern) -> &'static str
    ensures { result.now ≡ spec.pattern_text pattern }
{
    match pattern {
        Pattern::Hex => "^(?:[0-9A-Fa-f]{2})*$",
        Pattern::Time => "^[0-9]+(\\.[0-9]+)?([eE][+-]?[0-9]+)?$",
        Pattern::SignedTime => "^-?[0-9]+(\\.[0-9]+)?([eE][+-]?[0-9]+)?$",
    }
}
