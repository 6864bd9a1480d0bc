//! What the commands do, by the nest of each profile.

ghost use Rattle.std.specs.Prelude.{◌≡◌, ◌≢◌, ◌∷◌, [], None, string_bytes};
ghost use Rattle.sw_tree.specs.Mode.{plain};
ghost use Rattle.sw_tree.specs.declared.mode.WireKind.TheVariants.{Json};
ghost use Rattle.sw_check.specs.Blame.{blame};
ghost use Rattle.sw_check.specs.Grade.{grade};
ghost use Rattle.sw_tool.specs.Change.{Change};
ghost use Rattle.sw_schema.specs.SchemaTree.{schema_tree};
ghost use Rattle.sw_tool.specs.Nest.{Recoded, Graded, IsPut, IsTold, Published};
ghost use Rattle.sw_tool.specs.Nests.{blame_of, grade_of, answer_of, log_of, json_answer, json_log};
ghost use Rattle.sw_tool.specs.Output.{line};
ghost use Rattle.sw_tool.specs.Schemas.{schema_of};

use crate::command::Profile;
use crate::input::{ReadFail, read_all};
use crate::names::grade_name;
use crate::nest::{Nest, convert, vet};
use crate::nests::{
    AsItStands, AsideKeys, ByteTable, Flexible, NumberTexts, OneOrManyLists, OneOrManyMaps,
    OneOrManyTexts, SettingsNest,
};
use crate::outcome::Outcome;
use crate::output::write_line;
use crate::settings::Settings;
use crate::sink::Sink;
use crate::source::Source;
use std::alloc::Global;
use sw_core::adapter::Adapter;
use sw_elem::any::Any;
use sw_json::JsonWire;
use sw_schema::to_node::ToNodeFail;
use sw_schemas::schema_as::JsonSchemaAs;
use sw_tree::fail::{PrintError, SerError};
use sw_tree::meant::Meant;
use sw_tree::wire::Wire;

/// Recodes what the source gives through the profile's nest, into the sink. Where the nest isn't sound,
/// neither is touched.
#[tactic(auto, unfolding(crate::specs::Nests::answer_of, crate::specs::Nests::log_of, crate::specs::Nests::blame_of))]
pub(crate) fn recode<S: Source, K: Sink>(
    alloc: Global,
    profile: Profile,
    source: &mut S,
    sink: &mut K,
) -> Outcome
    ensures recoded { let from : Change = record { old = S.left source.old; new = S.left source.new; before = S.faults source.old; after = S.faults source.new } in
        let to : Change = record { old = K.taken sink.old; new = K.taken sink.new; before = K.faults sink.old; after = K.faults sink.new } in
        Recoded result from to (blame_of profile) (answer_of profile) (log_of profile) }
    ensures untouched { blame_of profile ≢ None → (source.new ≡ source.old) × (sink.new ≡ sink.old) }
{
    match profile {
        Profile::Ids => recode_by::<NumberTexts, S, K>(alloc, source, sink),
        Profile::Any => recode_by::<AsItStands<Any>, S, K>(alloc, source, sink),
        Profile::Table => recode_by::<ByteTable, S, K>(alloc, source, sink),
        Profile::Flex => recode_by::<Flexible, S, K>(alloc, source, sink),
        Profile::Names => recode_by::<OneOrManyTexts, S, K>(alloc, source, sink),
        Profile::Lists => recode_by::<OneOrManyLists, S, K>(alloc, source, sink),
        Profile::Keys => recode_by::<AsideKeys, S, K>(alloc, source, sink),
        Profile::Wrap => recode_by::<OneOrManyMaps, S, K>(alloc, source, sink),
        Profile::Settings => recode_through::<SettingsNest, Settings, S, K>(alloc, source, sink),
    }
}

/// Writes how faithful the profile's nest is.
#[tactic(auto, unfolding(crate::specs::Nests::grade_of, crate::specs::Nests::blame_of))]
pub(crate) fn check<K: Sink>(alloc: Global, profile: Profile, sink: &mut K) -> Outcome
    ensures { let to : Change = record { old = K.taken sink.old; new = K.taken sink.new; before = K.faults sink.old; after = K.faults sink.new } in
        Graded result to (blame_of profile) (grade_of profile) }
{
    match profile {
        Profile::Ids => check_by::<NumberTexts, K>(alloc, sink),
        Profile::Any => check_by::<AsItStands<Any>, K>(alloc, sink),
        Profile::Table => check_by::<ByteTable, K>(alloc, sink),
        Profile::Flex => check_by::<Flexible, K>(alloc, sink),
        Profile::Names => check_by::<OneOrManyTexts, K>(alloc, sink),
        Profile::Lists => check_by::<OneOrManyLists, K>(alloc, sink),
        Profile::Keys => check_by::<AsideKeys, K>(alloc, sink),
        Profile::Wrap => check_by::<OneOrManyMaps, K>(alloc, sink),
        Profile::Settings => check_through::<SettingsNest, Settings, K>(alloc, sink),
    }
}

/// Writes the schema of the profile's nest.
#[tactic(auto, unfolding(crate::specs::Schemas::schema_of))]
pub(crate) fn schema<K: Sink>(alloc: Global, profile: Profile, sink: &mut K) -> Outcome
    ensures { let to : Change = record { old = K.taken sink.old; new = K.taken sink.new; before = K.faults sink.old; after = K.faults sink.new } in
        Published result to (schema_tree (schema_of profile)) }
{
    match profile {
        Profile::Ids => schema_by::<NumberTexts, K>(alloc, sink),
        Profile::Any => schema_by::<AsItStands<Any>, K>(alloc, sink),
        Profile::Table => schema_by::<ByteTable, K>(alloc, sink),
        Profile::Flex => schema_by::<Flexible, K>(alloc, sink),
        Profile::Names => schema_by::<OneOrManyTexts, K>(alloc, sink),
        Profile::Lists => schema_by::<OneOrManyLists, K>(alloc, sink),
        Profile::Keys => schema_by::<AsideKeys, K>(alloc, sink),
        Profile::Wrap => schema_by::<OneOrManyMaps, K>(alloc, sink),
        Profile::Settings => schema_through::<SettingsNest, Settings, K>(alloc, sink),
    }
}

/// Recodes by the nest of that name.
fn recode_by<N: Nest, S: Source, K: Sink>(alloc: Global, source: &mut S, sink: &mut K) -> Outcome
    ensures recoded { let from : Change = record { old = S.left source.old; new = S.left source.new; before = S.faults source.old; after = S.faults source.new } in
        let to : Change = record { old = K.taken sink.old; new = K.taken sink.new; before = K.faults sink.old; after = K.faults sink.new } in
        Recoded result from to (blame N.Adapter.expr (plain Json)) (json_answer N.Adapter.reads N.Adapter.spot N.Adapter.writes) (json_log N.Adapter.skips) }
    ensures untouched { blame N.Adapter.expr (plain Json) ≢ None → (source.new ≡ source.old) × (sink.new ≡ sink.old) }
{
    recode_through::<N::Adapter, N::Value, S, K>(alloc, source, sink)
}

/// Recodes through the adapter: asks for the token of the nest, reads the source to its end, and
/// writes what the nest makes of the text.
fn recode_through<A: Adapter<T>, T: Meant, S: Source, K: Sink>(
    alloc: Global,
    source: &mut S,
    sink: &mut K,
) -> Outcome
    ensures recoded { let from : Change = record { old = S.left source.old; new = S.left source.new; before = S.faults source.old; after = S.faults source.new } in
        let to : Change = record { old = K.taken sink.old; new = K.taken sink.new; before = K.faults sink.old; after = K.faults sink.new } in
        Recoded result from to (blame A.expr (plain Json)) (json_answer A.reads A.spot A.writes) (json_log A.skips) }
    ensures untouched { blame A.expr (plain Json) ≢ None → (source.new ≡ source.old) × (sink.new ≡ sink.old) }
{
    let token = match vet::<A, T>(alloc) {
        Ok(token) => token,
        Err(outcome) => return outcome,
    };
    match read_all(alloc, source) {
        Ok(bytes) => match convert::<A, T>(alloc, &token, bytes.as_slice()) {
            Ok((text, log)) => put(sink, text.as_slice(), log),
            Err(outcome) => outcome,
        },
        Err(ReadFail::Fault) => Outcome::ReadFault,
        Err(ReadFail::TooLong) => Outcome::TooLong,
        Err(ReadFail::Memory) => Outcome::Memory,
    }
}

/// Writes the grade of the nest of that name.
fn check_by<N: Nest, K: Sink>(alloc: Global, sink: &mut K) -> Outcome
    ensures { let to : Change = record { old = K.taken sink.old; new = K.taken sink.new; before = K.faults sink.old; after = K.faults sink.new } in
        Graded result to (blame N.Adapter.expr (plain Json)) (grade N.Adapter.expr (plain Json)) }
{
    check_through::<N::Adapter, N::Value, K>(alloc, sink)
}

/// Writes the grade of the nest of the adapter.
fn check_through<A: Adapter<T>, T: Meant, K: Sink>(alloc: Global, sink: &mut K) -> Outcome
    ensures { let to : Change = record { old = K.taken sink.old; new = K.taken sink.new; before = K.faults sink.old; after = K.faults sink.new } in
        Graded result to (blame A.expr (plain Json)) (grade A.expr (plain Json)) }
{
    match vet::<A, T>(alloc) {
        Ok(token) => put(
            sink,
            grade_name(token.grade()).as_bytes(),
            String::new(alloc),
        ),
        Err(outcome) => outcome,
    }
}

/// Writes the schema of the nest of that name.
fn schema_by<N: Nest, K: Sink>(alloc: Global, sink: &mut K) -> Outcome
    ensures { let to : Change = record { old = K.taken sink.old; new = K.taken sink.new; before = K.faults sink.old; after = K.faults sink.new } in
        Published result to (schema_tree N.Adapter.definition.schema) }
{
    schema_through::<N::Adapter, N::Value, K>(alloc, sink)
}

/// Writes the schema of the nest of the adapter.
fn schema_through<A: JsonSchemaAs<T>, T: Meant, K: Sink>(alloc: Global, sink: &mut K) -> Outcome
    ensures { let to : Change = record { old = K.taken sink.old; new = K.taken sink.new; before = K.faults sink.old; after = K.faults sink.new } in
        Published result to (schema_tree A.definition.schema) }
{
    match schema_text::<A, T>(alloc) {
        Ok(text) => put(sink, text.as_slice(), String::new(alloc)),
        Err(outcome) => outcome,
    }
}

/// The JSON text of the adapter's schema, or why there is none.
fn schema_text<A: JsonSchemaAs<T>, T: Meant>(alloc: Global) -> Result<Vec<u8>, Outcome>
    ensures { IsTold result (schema_tree A.definition.schema) }
{
    let Ok(schema) = A::json_schema(alloc) else {
        return Err(Outcome::Memory);
    };
    let node = match schema.to_node(alloc) {
        Ok(node) => node,
        Err(ToNodeFail::TooDeep) => return Err(Outcome::Unwritable(SerError::TooDeep)),
        Err(ToNodeFail::Memory) => return Err(Outcome::Memory),
    };
    match JsonWire::print(alloc, &node) {
        Ok(text) => Ok(text),
        Err(PrintError::Key) => Err(Outcome::Unwritable(SerError::Key)),
        Err(PrintError::Memory) => Err(Outcome::Memory),
    }
}

/// Writes the text and a line feed. The outcome of all of that has the text of the log.
fn put<K: Sink>(sink: &mut K, text: &[u8], log: String) -> Outcome
    ensures { let to : Change = record { old = K.taken sink.old; new = K.taken sink.new; before = K.faults sink.old; after = K.faults sink.new } in
        IsPut result (string_bytes log) to (line (text.now ∷ [])) }
{
    match write_line(sink, &[text]) {
        Ok(()) => Outcome::Done(log),
        Err(_) => Outcome::WriteFault,
    }
}
