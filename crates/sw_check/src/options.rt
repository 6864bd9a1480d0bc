ghost use Rattle.std.specs.Prelude.{◌≡◌};
ghost use Rattle.sw_check.specs.Inner.Options.{mode_of};

use crate::expr::Expr;
use sw_tree::Mode;

/// The mode in which options are read and written: buffered where there are several.
#[tactic(auto, using(crate::proofs::Modes::modes))]
pub(crate) fn mode_of(options: &[Expr], mode: Mode) -> Mode
    ensures { result ≡ mode_of options.now mode }
{
    if options.len() > 1 {
        mode.buffer()
    } else {
        mode
    }
}
