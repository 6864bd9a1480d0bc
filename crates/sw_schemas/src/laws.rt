//! What the law of schemas says of a value in hand, under the token of a sound nest.

ghost use Rattle.std.specs.Prelude.{◌≡◌, true, Ok, Some, IfOk};
ghost use Rattle.sw_schema.specs.Valid.{valid};
ghost use Rattle.sw_schemas.specs.Shown.{shown, IsShownValid};
ghost use Rattle.sw_tree.specs.Image.{value_image};
ghost use Rattle.sw_tree.specs.Mode.{plain};
ghost use Rattle.sw_tree.specs.Tree.{Tree};
ghost use Rattle.sw_tree.specs.declared.mode.WireKind.TheVariants.{Json};

use crate::schema_as::SchemaAdapter;
use std::alloc::Global;
use sw_core::as_::As;
use sw_core::token::Faithful;
use sw_schema::valid;
use sw_tree::fail::{PrintError, SerError, SerFail};
use sw_tree::images::image;
use sw_tree::meant::Meant;
use sw_tree::mode::{Mode, WireKind};
use sw_tree::wire::Wire;

/// Does nothing. Its contract is the promise that what is published rests on: where `W` is JSON, the image of what
/// `As::<A>::serialize` answers for this value in its plain mode, which its printed bytes spell, is valid for the schema of `A`,
/// under what `A` assumes.
pub fn keeps_schema<A: SchemaAdapter<T>, T: Meant, W: Wire>(token: &Faithful<A, T, W>, value: &T)
    ensures { W.ID ≡ Json → A.assumes
        → (t i : Tree) → A.writes (plain Json) (T.meaning value.now) ≡ Ok t → value_image t ≡ Some i → valid A.definition.schema i ≡ true }
{
    let _kept = token.grade();
    value.in_hand();
}

/// Whether the image on JSON of what `As::<A>::serialize` answers for this value is valid for the schema of `A`. Where `W` is JSON
/// it is, under what `A` assumes.
///
/// `Unwritable` exactly where the value isn't written, with its reason, or, as `Key`, where its tree has no image on JSON. `Memory` may
/// come at any step.
pub fn is_shown_valid<A: SchemaAdapter<T>, T: Meant, W: Wire>(
    alloc: Global,
    token: &Faithful<A, T, W>,
    value: &T,
) -> Result<bool, SerFail>
    ensures answer { IsShownValid result (shown A.writes (T.meaning value.now)) A.definition.schema }
    ensures holds { W.ID ≡ Json → A.assumes → IfOk result (λ b. b ≡ true) }
{
    keeps_schema(token, value);
    let node = As::<A>::serialize(alloc, value, Mode::plain(WireKind::Json))?;
    let shown = match image(alloc, &node, WireKind::Json) {
        Ok(shown) => shown,
        Err(PrintError::Key) => return Err(SerFail::Unwritable(SerError::Key)),
        Err(PrintError::Memory) => return Err(SerFail::Memory),
    };
    let schema = A::json_schema(alloc)?;
    Ok(valid(&schema, &shown))
}
