#![tactic(auto)]

ghost use Rattle.std.specs.Prelude.{◌≡◌, option_map, true};
ghost use Rattle.sw_tree.specs.Mode.{at_value};
ghost use Rattle.sw_tree.specs.Inner.View.{seen};
ghost use Rattle.sw_elem.specs.Answers.{IsRead, IsLogged, ReadsFreely};
ghost use Rattle.sw_core.specs.Fields.{slot_reads, slot_logs, IsFieldPut};
ghost use Rattle.sw_core.specs.Parts.{reading};

use crate::adapter::{DeserializeAs, SerializeAs};
use std::alloc::Global;
use sw_elem::refuse::refused_at;
use sw_tree::builds::Builds;
use sw_tree::fail::{DeError, DeFail, SerFail};
use sw_tree::meant::Meant;
use sw_tree::mode::Mode;
use sw_tree::skipped::Skipped;
use sw_tree::view::View;

/// The fields of a record that is a `T`, as far as they have been read: an `Option` for each.
///
/// It names the fields in the order of their declaration, whether the record is strict, which is to
/// say that a name of no field is refused, and whether reading takes no memory. `read_record` reads
/// by it.
pub trait Fields<T: Meant>: Sized + Drop {
    ghost use Rattle.std.specs.Prelude.{◌≡◌, Bool, true, List};
    ghost use Rattle.sw_tree.specs.Placed.{placed_at};
    ghost use Rattle.sw_tree.specs.Inner.View.{seen};
    ghost use Rattle.sw_elem.specs.Answers.{IsRead, IsLogged, ReadsFreely};
    ghost use Rattle.sw_core.specs.Fields.{Field, Slots, no_slots, fields_reads, fields_logs, fields_make};

    ghost known: { List Field };

    ghost strict: { Bool };

    ghost FREE: { Bool };

    /// What the fields mean so far.
    ghost slots: { Self → Slots };

    /// None has a value.
    fn none() -> Self
        ensures { slots result ≡ no_slots known };

    /// Reads the value of the entry with that name in that mode, by `read_field` of the field that has
    /// the name. A name of no field is passed over, or refused at the key as `UnknownField` where the
    /// record is strict.
    fn read(
        &mut self,
        alloc: Global,
        name: &str,
        key: View<'_>,
        value: View<'_>,
        mode: Mode,
        log: &mut Skipped,
    ) -> Result<(), DeFail>
        ensures answer { IsRead (λ _. slots self.new) result (fields_reads strict known mode (slots self.old) name.now (seen key.entry, seen value.entry)) }
        ensures logs { IsLogged result log.old (fields_logs known mode (slots self.old) name.now (seen key.entry, seen value.entry)) log.new }
        ensures free { FREE ≡ true → ReadsFreely result };

    /// The record of the view's map. The first field without a value, whose absence has none either, is
    /// refused at the view as `MissingField` of its number.
    fn finish(self, alloc: Global, view: View<'_>) -> Result<T, DeFail>
        ensures answer { IsRead T.meaning result (placed_at (seen view.entry) 0 (fields_make known (slots self))) }
        ensures free { FREE ≡ true → ReadsFreely result };
}

/// Reads a field's value by `A` in that mode. Where it has one already, the key is refused as
/// `DuplicateField`, and the value isn't read.
pub fn read_field<T: Meant, A: DeserializeAs<T>>(
    alloc: Global,
    key: View<'_>,
    value: View<'_>,
    slot: &mut Option<T>,
    mode: Mode,
    log: &mut Skipped,
) -> Result<(), DeFail>
    ensures answer { IsRead (λ _. option_map T.meaning slot.new) result (slot_reads (reading A.reads A.spot A.skips) mode (option_map T.meaning slot.old) (seen key.entry, seen value.entry)) }
    ensures logs { IsLogged result log.old (slot_logs (reading A.reads A.spot A.skips) mode (option_map T.meaning slot.old) (seen key.entry, seen value.entry)) log.new }
    ensures free { A.FREE ≡ true → ReadsFreely result }
{
    if slot.is_some() {
        return Err(refused_at(key, DeError::DuplicateField));
    }
    match A::deserialize_as(alloc, value, mode, log) {
        Ok(read) => {
            *slot = Some(read);
            Ok(())
        }
        Err(DeFail::Refused(refusal)) => Err(DeFail::Refused(refusal)),
        Err(DeFail::Memory) => Err(DeFail::Memory),
    }
}

/// Puts in a field's name, then its value by `A` in value place. A record is written so: its map is
/// opened, this is called for each field in the order of declaration, and it is closed.
pub fn write_field<T: Meant, A: SerializeAs<T>, B: Builds>(
    alloc: Global,
    out: &mut B,
    name: &str,
    value: &T,
    mode: Mode,
) -> Result<(), SerFail>
    ensures { IsFieldPut B.put name.now result (A.writes (at_value mode) (T.meaning value.now)) out.old out.new }
{
    out.text(name)?;
    A::write_as(alloc, out, value, mode.value())
}
