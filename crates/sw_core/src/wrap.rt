//! Values that write and read themselves by an adapter.
#![tactic(auto)]

ghost use Rattle.std.specs.Prelude.{◌≡◌};

use crate::adapter::{DeserializeAs, SerializeAs};
use std::alloc::Global;
use std::marker::PhantomData;
use sw_elem::serialize::{Deserialize, Serialize};
use sw_tree::builds::Builds;
use sw_tree::fail::{DeFail, SerFail};
use sw_tree::meant::{Meant, Named};
use sw_tree::mode::Mode;
use sw_tree::skipped::Skipped;
use sw_tree::view::View;

/// A borrowed value that writes itself by `A`, as serde_with's `SerializeAsWrap`. It means what the value means.
#[derive(Drop)]
pub struct SerializeAsWrap<'a, T, A> {
    value: &'a T,
    by: PhantomData<A>,
}

impl<'a, T: Meant, A> SerializeAsWrap<'a, T, A> {
    /// The value, to be written by `A`.
    pub fn new(value: &'a T) -> SerializeAsWrap<'a, T, A>
        ensures { result.value.now ≡ value.now }
    {
        SerializeAsWrap {
            value,
            by: PhantomData,
        }
    }
}

impl<'a, T: Meant, A> From<&'a T> for SerializeAsWrap<'a, T, A> {
    fn from(value: &'a T) -> SerializeAsWrap<'a, T, A>
        ensures { result.value.now ≡ value.now }
    {
        SerializeAsWrap::new(value)
    }
}

impl<'a, T: Named, A> Named for SerializeAsWrap<'a, T, A> {
    ghost meaning = { λ w. T.meaning w.value.now };

    ghost is_meaning = { T.is_meaning };
}

impl<'a, T: Meant, A> Meant for SerializeAsWrap<'a, T, A> {
    fn in_hand(&self) {
        self.value.in_hand();
    }
}

/// What `A` writes of the value.
impl<'a, T: Meant, A: SerializeAs<T>> Serialize for SerializeAsWrap<'a, T, A> {
    ghost writes = { A.writes };

    fn write<B: Builds>(&self, alloc: Global, out: &mut B, mode: Mode) -> Result<(), SerFail> {
        A::write_as(alloc, out, self.value, mode)
    }
}

/// A value that was read by `A`, as serde_with's `DeserializeAsWrap`. It means what the value means.
#[derive(Drop)]
pub struct DeserializeAsWrap<T, A> {
    value: T,
    by: PhantomData<A>,
}

impl<T: Meant, A> DeserializeAsWrap<T, A> {
    /// The value that was read.
    pub fn into_inner(self) -> T
        ensures { result ≡ self.value }
    {
        self.value
    }
}

impl<T: Named, A> Named for DeserializeAsWrap<T, A> {
    ghost meaning = { λ w. T.meaning w.value };

    ghost is_meaning = { T.is_meaning };
}

impl<T: Meant, A> Meant for DeserializeAsWrap<T, A> {
    fn in_hand(&self) {
        self.value.in_hand();
    }
}

/// What `A` reads. It is refused exactly where `A` refuses, at the same node.
impl<T: Meant, A: DeserializeAs<T>> Deserialize for DeserializeAsWrap<T, A> {
    const FREE: bool = A::FREE;

    ghost FREE = { A.FREE };

    ghost reads = { A.reads };

    ghost spot = { A.spot };

    ghost skips = { A.skips };

    fn deserialize(
        alloc: Global,
        view: View<'_>,
        mode: Mode,
        log: &mut Skipped,
    ) -> Result<DeserializeAsWrap<T, A>, DeFail> {
        match A::deserialize_as(alloc, view, mode, log) {
            Ok(value) => Ok(DeserializeAsWrap {
                value,
                by: PhantomData,
            }),
            Err(fail) => Err(fail),
        }
    }

    ghost lawful_reading = { A.lawful_reading };
}
