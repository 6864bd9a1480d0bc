ghost use Rattle.std.specs.Prelude.{◌≡◌};
ghost use Rattle.sw_tree.specs.Inner.View.{place_of};

use sw_tree::fail::{DeError, DeFail, Refusal};
use sw_tree::view::View;

/// The refusal of the view's own node for that reason.
pub fn refused_at(view: View<'_>, error: DeError) -> DeFail
    ensures { result ≡ DeFail.Refused (record { error = error; place = place_of view.entry 0 }) }
{
    DeFail::Refused(refusal_at(view, error))
}

/// The same, where a reading fails in no other way.
pub(crate) fn refusal_at(view: View<'_>, error: DeError) -> Refusal
    ensures { result ≡ record { error = error; place = place_of view.entry 0 } }
{
    Refusal {
        error,
        place: view.place(),
    }
}
