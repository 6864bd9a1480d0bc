ghost use Rattle.std.specs.Prelude.{◌≡◌};
ghost use Rattle.std.specs.Option.{option_copied};
ghost use Rattle.sw_tree.specs.Inner.View.{tree_of};
ghost use Rattle.sw_elem.specs.KeyPlace as key_place;

use sw_tree::mode::{Mode, Place, WireKind};
use sw_tree::view::View;

/// Whether a text may stand for a number or a truth value: as the key of a JSON map, where the
/// map is read from the wire's own tree. One that was set aside before is the text that it is.
fn is_plain_key(mode: Mode) -> bool
    ensures { result ≡ key_place.is_plain_key mode }
{
    match (mode.wire, mode.place) {
        (WireKind::Json, Place::Key) => !mode.buffered,
        _ => false,
    }
}

/// The node's text, where it may stand for a number or a truth value.
#[tactic(auto, using(crate::proofs::KeyTexts::key_texts))]
pub(crate) fn key_text<'a>(view: View<'a>, mode: Mode) -> Option<&'a str>
    ensures { option_copied result ≡ key_place.key_text mode (tree_of view.entry) }
{
    if is_plain_key(mode) {
        view.as_text()
    } else {
        None
    }
}
