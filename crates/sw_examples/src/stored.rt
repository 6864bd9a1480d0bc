//! A store, which rests on the token alone and on what the wire prints.

ghost use Rattle.std.specs.Prelude.{◌≡◌, ◌≢◌, IfOk};
ghost use Rattle.sw_tree.specs.Mode.{plain};
ghost use Rattle.sw_tree.specs.declared.fail.SerError.TheVariants.{Key};
ghost use Rattle.sw_core.specs.Again.{ReadsAgain};
ghost use Rattle.sw_core.specs.declared.recode.RecodeError.TheVariants.{Unwritable};

use std::alloc::Global;
use sw_core::adapter::Adapter;
use sw_core::as_::As;
use sw_core::recode::RecodeError;
use sw_core::token::Faithful;
use sw_tree::meant::Meant;
use sw_tree::mode::Mode;
use sw_tree::wire::Wire;

/// The bytes of a value, as a store keeps them: they read back as the norm of the value.
pub(crate) fn stored<A: Adapter<T>, T: Meant, W: Wire>(
    alloc: Global,
    token: &Faithful<A, T, W>,
    value: &T,
) -> Result<Vec<u8>, RecodeError>
    ensures again { A.assumes
        → IfOk result (λ b. ReadsAgain A.writes A.reads W.ID W.spelled b.items (T.meaning value.now) (A.norm (plain W.ID) (T.meaning value.now))) }
    ensures never_key { result ≢ Err (Unwritable Key) }
{
    token.keeps(value);
    let node = As::<A>::serialize(alloc, value, Mode::plain(W::ID))?;
    let _kind = node.kind();
    match W::print(alloc, &node) {
        Ok(bytes) => Ok(bytes),
        Err(error) => Err(RecodeError::from(error)),
    }
}
