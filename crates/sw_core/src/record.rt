#![tactic(auto, using(sw_tree::specs::Laws::Logs::gains))]

ghost use Rattle.std.specs.Prelude.{◌≡◌, true, Some, None, MatchResult};
ghost use Rattle.sw_tree.specs.Placed.{placed, placed_notes};
ghost use Rattle.sw_tree.specs.Tree.{text_at, kind_of};
ghost use Rattle.sw_tree.specs.Inner.View.{seen, tree_of};
ghost use Rattle.sw_elem.specs.Answers.{IsRead, IsLogged, ReadsFreely};
ghost use Rattle.sw_core.specs.Fields.{no_slots};
ghost use Rattle.sw_core.specs.Inner.Record.{entry_reads, entry_logs, all_made, all_logs};
ghost use Rattle.sw_core.specs.Record.{record_reads, record_spot, record_skips};

use crate::fields::Fields;
use std::alloc::Global;
use sw_elem::refuse::refused_at;
use sw_tree::fail::{DeError, DeFail};
use sw_tree::meant::Meant;
use sw_tree::mode::Mode;
use sw_tree::skipped::Skipped;
use sw_tree::view::{Entries, View};

/// Reads a map as a record with those fields, each value in value place. A node of another kind is
/// refused as `InvalidType` of that kind.
///
/// Entries are taken in order. A key that is no text is refused as `InvalidType` of its kind, the name
/// of a field that has its value already as `DuplicateField`, and in a strict record a name of no
/// field as `UnknownField`, each at the key; any other record passes such a name over with its value.
/// Else the value is read, and its refusal is the record's. Behind all entries the first field in the
/// order of declaration without a value, whose absence has none either, is refused at the map as
/// `MissingField` of its number, from 0.
pub fn read_record<T: Meant, R: Fields<T>>(
    alloc: Global,
    view: View<'_>,
    mode: Mode,
    log: &mut Skipped,
) -> Result<T, DeFail>
    ensures answer { IsRead T.meaning result (placed (record_reads R.strict R.known mode) (record_spot R.strict R.known mode) (seen view.entry)) }
    ensures logs { IsLogged result log.old (placed_notes (seen view.entry) (record_skips R.strict R.known mode (tree_of view.entry))) log.new }
    ensures free { R.FREE ≡ true → ReadsFreely result }
{
    match view.entries() {
        None => Err(refused_at(view, DeError::InvalidType(view.kind()))),
        Some(entries) => read_values::<T, R>(alloc, view, entries, mode.value(), log),
    }
}

/// Reads each entry, and makes the record of the view's map.
fn read_values<T: Meant, R: Fields<T>>(
    alloc: Global,
    view: View<'_>,
    entries: Entries<'_>,
    mode: Mode,
    log: &mut Skipped,
) -> Result<T, DeFail>
    ensures answer { IsRead T.meaning result (all_made (seen view.entry) R.strict R.known mode (no_slots R.known) entries.entry) }
    ensures logs { IsLogged result log.old (all_logs R.strict R.known mode (no_slots R.known) entries.entry) log.new }
    ensures free { R.FREE ≡ true → ReadsFreely result }
{
    let mut fields = R::none();
    for (key, value) in entries {
        match read_value::<T, R>(alloc, key, value, &mut fields, mode, log) {
            Ok(_) => {}
            Err(DeFail::Refused(refusal)) => return Err(DeFail::Refused(refusal)),
            Err(DeFail::Memory) => return Err(DeFail::Memory),
        }
    }
    match fields.finish(alloc, view) {
        Ok(record) => Ok(record),
        Err(DeFail::Refused(refusal)) => Err(DeFail::Refused(refusal)),
        Err(DeFail::Memory) => Err(DeFail::Memory),
    }
}

/// The name that a record's key is: its text. A key of another kind is refused as `InvalidType` of that
/// kind.
pub fn key_name<'a>(key: View<'a>) -> Result<&'a str, DeError>
    ensures { MatchResult
        result
        (λ name. text_at (tree_of key.entry) ≡ Some name.now)
        (λ e. (text_at (tree_of key.entry) ≡ None) × (e ≡ DeError.InvalidType (kind_of (tree_of key.entry)))) }
{
    match key.as_text() {
        Some(name) => Ok(name),
        None => Err(DeError::InvalidType(key.kind())),
    }
}

/// Reads one entry.
fn read_value<T: Meant, R: Fields<T>>(
    alloc: Global,
    key: View<'_>,
    value: View<'_>,
    fields: &mut R,
    mode: Mode,
    log: &mut Skipped,
) -> Result<(), DeFail>
    ensures answer { IsRead (λ _. R.slots fields.new) result (entry_reads R.strict R.known mode (R.slots fields.old) (seen key.entry, seen value.entry)) }
    ensures logs { IsLogged result log.old (entry_logs R.known mode (R.slots fields.old) (seen key.entry, seen value.entry)) log.new }
    ensures free { R.FREE ≡ true → ReadsFreely result }
{
    match key_name(key) {
        Err(error) => Err(refused_at(key, error)),
        Ok(name) => fields.read(alloc, name, key, value, mode, log),
    }
}
