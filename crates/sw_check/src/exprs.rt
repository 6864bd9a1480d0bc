ghost use Rattle.std.specs.Prelude.{◌≡◌, ◌<◌, ◌≤◌, [], ◌∷◌, ◌++◌, length, is_ok, if◌then◌else◌};

use crate::expr::Expr;
use std::alloc::{AllocError, Global};
use std::marker::Model;

/// A row of parts, at most 65,535.
#[derive(Drop)]
pub struct ExprList {
    parts: Vec<Expr>,
}

impl Model for ExprList {
    ghost use Rattle.std.specs.Prelude.{List, ◌≤◌, length};
    ghost use Rattle.sw_check.specs.Form.{Form};
    ghost use Rattle.sw_check.specs.Laws.FormCode.{coded_form};
    ghost use Rattle.std.specs.Coded.{coded_list};

    ghost Value = { List Form };

    ghost coded = { coded_list coded_form };

    ghost view = { λ a. a.parts.items };

    ghost invariant = { λ a. length a.parts.items ≤ 65535 };
}

impl ExprList {
    /// No parts. It takes no memory.
    pub fn new(alloc: Global) -> ExprList
        ensures { result ≡ [] }
    {
        ExprList {
            parts: Vec::new(alloc),
        }
    }

    /// Appends a part. After want of memory the list is unchanged, and the part is given up.
    pub fn push(&mut self, part: Expr) -> Result<(), AllocError>
        requires room { length self.old < 65535 }
        ensures { self.new ≡ (if is_ok result then self.old ++ part ∷ [] else self.old) }
    {
        self.parts.push(part)?;
        Ok(())
    }

    /// The parts in order.
    pub(crate) fn into_parts(self) -> Vec<Expr>
        ensures parts { result.items ≡ self }
        ensures few { length self ≤ 65535 }
    {
        self.parts
    }
}
