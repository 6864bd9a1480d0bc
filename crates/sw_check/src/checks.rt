ghost use Rattle.std.specs.Prelude.{◌≡◌, ◌≤◌, length, reverse, OnOk, IfOk, IfErr};
ghost use Rattle.sw_tree.specs.Kinds.{has};
ghost use Rattle.sw_tree.specs.declared.mode.Kind.{Kind};
ghost use Rattle.sw_check.specs.declared.blame.Blame.{Blame};
ghost use Rattle.sw_check.specs.Form.{forms};
ghost use Rattle.sw_check.specs.Kinds.{kinds_written, kinds_read, any_reads};
ghost use Rattle.sw_check.specs.Grade.{grade, worst_of};
ghost use Rattle.sw_check.specs.Blame.{blame, row_blame, first_blame, under, IsSound};
ghost use Rattle.sw_check.specs.Checked.{checked};
ghost use Rattle.sw_check.specs.Inner.Parts.{others, first_written, first_read, others_read, first_grade, second_grade};
ghost use Rattle.sw_check.specs.Answers.{IsBlamed};
ghost use Rattle.sw_check.specs.Preorder.{NothingFails, BlamesFirst};
ghost use Rattle.sw_check.specs.Inner.Found.{FindsFirst};

use crate::blame::{Blame, CheckFail, Path};
use crate::children::{Children, children_of};
use crate::expr::Expr;
use crate::found::{Fault, Found};
use crate::grade::Grade;
use crate::parts::{Parts, Row, Summary};
use crate::rules::fault;
use std::alloc::Global;
use sw_tree::{Kinds, Mode};

/// The grade of the expression in the mode, exactly where nothing is blamed. Else the blame: the first failing
/// subexpression in preorder, and there the first rule that fails, S2 tried before S1 and the others
/// in order.
///
/// Each subexpression is looked at once, so the time grows with the size of the expression alone. The check
/// takes stack for each level of the expression, and memory only for the paths to what fails; `Memory` comes
/// only where there is a blame and its path has a step.
#[tactic(auto, using(crate::proofs::Preorder::preorder))]
pub fn check(alloc: Global, expr: &Expr, mode: Mode) -> Result<Grade, CheckFail>
    ensures sound { IfOk result (λ g. IsSound expr.now mode × (g ≡ grade expr.now mode)) }
    ensures blamed { IfErr result (λ fail. IsBlamed fail (blame expr.now mode)) }
    ensures nothing_fails { OnOk result (NothingFails expr.now mode) }
    ensures first { IfErr result (λ fail. BlamesFirst fail expr.now mode) }
{
    graded(alloc, expr, mode)
}

/// The grade, or the blame.
fn graded(alloc: Global, expr: &Expr, mode: Mode) -> Result<Grade, CheckFail>
    ensures sound { IfOk result (λ g. IsSound expr.now mode × (g ≡ grade expr.now mode)) }
    ensures blamed { IfErr result (λ fail. IsBlamed fail (blame expr.now mode)) }
{
    let mut found = Found::Nothing;
    let summary = inspect(alloc, expr, mode, &mut found);
    match found {
        Found::Nothing => Ok(summary.grade),
        Found::Fault(fault) => Err(CheckFail::Blame(turned(fault))),
        Found::Memory => Err(CheckFail::Memory),
    }
}

/// The blame, with its path in order.
fn turned(fault: Fault) -> Blame
    ensures { result ≡ record { path = reverse fault.steps.items; rule = fault.rule } }
{
    let mut steps = fault.steps;
    steps.reverse();
    Blame {
        path: Path { steps },
        rule: fault.rule,
    }
}

/// What a pass tells of the expression: its parts are looked at, each once, and then it by what they told.
#[cycle(inspect)]
fn inspect(alloc: Global, expr: &Expr, mode: Mode, found: &mut Found) -> Summary
    ensures written { (k : Kind) → has result.written k ≡ kinds_written expr.now mode k }
    ensures read { (k : Kind) → has result.read k ≡ kinds_read expr.now mode k }
    ensures grade { result.grade ≡ grade expr.now mode }
    ensures found { FindsFirst found.old found.new (blame expr.now mode) }
{
    let nothing_before = found.is_nothing();
    let parts = parts_of(alloc, expr, mode, found);
    let written = expr.kinds_written(mode, &parts);
    found.own(alloc, nothing_before, fault(expr, mode, written, &parts));
    Summary {
        written,
        read: expr.kinds_read(mode, &parts),
        grade: expr.grade(mode, &parts),
    }
}

/// What a pass tells of the expression's parts.
#[cycle(inspect)]
fn parts_of(alloc: Global, expr: &Expr, mode: Mode, found: &mut Found) -> Parts
    ensures written { (k : Kind) → has result.written k ≡ first_written (checked expr.now mode) k }
    ensures read { (k : Kind) → has result.read k ≡ first_read (checked expr.now mode) k }
    ensures others { (k : Kind) → has result.others k ≡ others_read (checked expr.now mode) (others expr.now) k }
    ensures first { result.grade ≡ first_grade (checked expr.now mode) }
    ensures second { result.second ≡ second_grade (checked expr.now mode) }
    ensures found { FindsFirst found.old found.new (first_blame blame (checked expr.now mode)) }
{
    match children_of(expr, mode) {
        Children::None => Parts::row(Grade::Exact),
        Children::One(number, part, mode) => {
            Parts::one(child(alloc, number, part, mode, found), Kinds::none())
        }
        Children::First(first, others, mode) => {
            let first = child(alloc, 0, first, mode, found);
            Parts::one(first, read_by(alloc, others, mode))
        }
        Children::Two(first, first_mode, second, second_mode) => {
            let first = child(alloc, 0, first, first_mode, found);
            let second = child(alloc, 1, second, second_mode, found);
            Parts::two(first, second)
        }
        Children::Each(parts, mode) => Parts::row(row(alloc, parts, mode, found).grade),
    }
}

/// What a pass tells of the child of that number.
#[cycle(inspect)]
fn child(alloc: Global, number: u16, part: &Expr, mode: Mode, found: &mut Found) -> Summary
    ensures written { (k : Kind) → has result.written k ≡ kinds_written part.now mode k }
    ensures read { (k : Kind) → has result.read k ≡ kinds_read part.now mode k }
    ensures grade { result.grade ≡ grade part.now mode }
    ensures found { FindsFirst found.old found.new (under number (blame part.now mode)) }
{
    let nothing_before = found.is_nothing();
    let summary = inspect(alloc, part, mode, found);
    found.above(nothing_before, number);
    summary
}

/// What a pass tells of the parts in a row.
#[cycle(inspect)]
fn row(alloc: Global, parts: &[Expr], mode: Mode, found: &mut Found) -> Row
    requires { length parts.now ≤ 65535 }
    ensures read { (k : Kind) → has result.read k ≡ any_reads (forms parts.now) mode k }
    ensures grade { result.grade ≡ worst_of (forms parts.now) mode }
    ensures found { FindsFirst found.old found.new (row_blame blame (forms parts.now) 0 mode) }
{
    let mut row = Row {
        read: Kinds::none(),
        grade: Grade::Exact,
    };
    for (number, part) in parts.iter().enumerate() {
        row = row.with(child(alloc, number as u16, part, mode, found));
    }
    row
}

/// The kinds that one of the options reads. What fails in them isn't looked for: no failure comes before
/// one that was found.
#[cycle(inspect)]
fn read_by(alloc: Global, options: &[Expr], mode: Mode) -> Kinds
    requires { length options.now ≤ 65535 }
    ensures { (k : Kind) → has result k ≡ any_reads (forms options.now) mode k }
{
    let mut unsought = Found::Memory;
    row(alloc, options, mode, &mut unsought).read
}
