//! An element that a user writes for a type of their own: a port, which is written and read as its number.

use crate::element::Element;
use crate::facts;
use crate::serialize::{Deserialize, Serialize};
use std::alloc::{AllocError, Global};
use sw_check::facts::Facts;
use sw_tree::builds::Builds;
use sw_tree::doc::Doc;
use sw_tree::fail::{DeFail, SerFail};
use sw_tree::meant::{Meant, Named};
use sw_tree::mode::{Mode, WireKind};
use sw_tree::node::Node;
use sw_tree::skipped::Skipped;
use sw_tree::view::View;
use sw_tree::whole::Whole;

#[derive(Drop)]
struct Port {
    number: u16,
}

impl Named for Port {
    ghost use Rattle.std.specs.Prelude.{◌^◌};
    ghost use Rattle.sw_tree.specs.Meant.{unsigned_meaning, IsBelow};

    ghost meaning = { λ p. unsigned_meaning p.number };

    ghost is_meaning = { IsBelow (2 ^ 16) };
}

impl Meant for Port {
    fn in_hand(&self) {
        let _number = self.number;
    }
}

impl Serialize for Port {
    ghost use Rattle.sw_elem.specs.Numbers.{number_writes};

    ghost writes = { number_writes };

    fn write<B: Builds>(&self, alloc: Global, out: &mut B, mode: Mode) -> Result<(), SerFail> {
        self.number.write(alloc, out, mode)
    }
}

impl Deserialize for Port {
    ghost use Rattle.std.specs.Prelude.{◌^◌, true};
    ghost use Rattle.std.proofs.Common.{lit≤};
    ghost use Rattle.sw_tree.specs.Meant.{IsBelow};
    ghost use Rattle.sw_elem.specs.Equations.{own_spot, no_skips};
    ghost use Rattle.sw_elem.specs.Numbers.{is_below, number_reads};
    ghost use Rattle.sw_elem.specs.Laws.Numbers.{number_lawful, unsigned_integer};

    const FREE: bool = true;

    ghost FREE = { true };

    ghost reads = { number_reads (is_below (2 ^ 16)) };

    ghost spot = { own_spot };

    ghost skips = { no_skips };

    fn deserialize(
        alloc: Global,
        view: View<'_>,
        mode: Mode,
        log: &mut Skipped,
    ) -> Result<Port, DeFail> {
        match u16::deserialize(alloc, view, mode, log) {
            Ok(number) => Ok(Port { number }),
            Err(fail) => Err(fail),
        }
    }

    ghost lawful_reading = { number_lawful _ (is_below (2 ^ 16)) (IsBelow (2 ^ 16)) (unsigned_integer (2 ^ 16) (lit≤ tt)) };
}

impl Element for Port {
    ghost use Rattle.std.specs.Prelude.{refl, ◌^◌};
    ghost use Rattle.std.proofs.Common.{lit≤};
    ghost use Rattle.sw_tree.specs.Meant.{IsBelow};
    ghost use Rattle.sw_elem.specs.Facts.{number_facts};
    ghost use Rattle.sw_elem.specs.Laws.KeyedLeaf.{number_keeps};
    ghost use Rattle.sw_elem.specs.Numbers.{is_below};
    ghost use Rattle.sw_elem.specs.Laws.Numbers.{unsigned_integer};

    ghost known = { number_facts };

    fn facts() -> Facts {
        facts::number_facts()
    }

    ghost keeps = { number_keeps _ (is_below (2 ^ 16)) (IsBelow (2 ^ 16)) (unsigned_integer (2 ^ 16) (lit≤ tt)) };

    ghost passes_nothing = { λ _ _. refl };
}

/// What an element reads of that number.
fn of_number<T: Element>(alloc: Global, number: u128) -> Result<Option<T>, AllocError> {
    let node = Node::int(Whole::from_u128(number));
    let doc = Doc::from_node(alloc, &node)?;
    let mut log = Skipped::new(alloc);
    match T::deserialize(alloc, doc.view(), Mode::plain(WireKind::Compact), &mut log) {
        Ok(value) => Ok(Some(value)),
        Err(DeFail::Refused(_)) => Ok(None),
        Err(DeFail::Memory) => Err(AllocError),
    }
}

#[test]
fn a_type_of_a_users_own_is_an_element(rt: HostRuntime) -> Result<(), AllocError> {
    let alloc = rt.alloc();
    let port = of_number::<Port>(alloc, 8080)?;
    assert!(rt; matches!(port, Some(Port { number: 8080 })));
    let beyond = of_number::<Port>(alloc, 65536)?;
    assert!(rt; beyond.is_none());
    Ok(())
}
