use crate::meant::Meant;
use std::hash::Hash;

/// The order of two values is a named function of their meanings, which orders the
/// meanings of the type: each compares equal with itself, exchanging two turns the answer
/// round, and less or equal is transitive.
pub trait Ranked: Meant + Ord {
    ghost use Rattle.sw_tree.specs.Ranks.{Order, Ranks, IsOrderOf};

    ghost order: { Order };

    ghost order_is: { IsOrderOf Self.cmp Self.meaning order };

    ghost ranks: { Ranks Self.is_meaning order };
}

/// Meanings of the type that compare equal are the same; `==` holds of two values in hand exactly where their
/// meanings are the same; and values in hand of one meaning hash alike.
pub trait Keyed: Ranked + Hash {
    ghost use Rattle.sw_tree.specs.Ranks.{TellsApart};
    ghost use Rattle.sw_tree.specs.SameMeaning.{TellsSame, HashesAlike};

    ghost apart: { TellsApart Self.is_meaning Self.order };

    ghost same: { TellsSame Self.is_meaning Self.meaning Self.eq };

    ghost alike: { HashesAlike Self.is_meaning Self.meaning Self.hash_input };
}
