ghost use Rattle.std.specs.Prelude.{◌≡◌, ◌||◌, false};
ghost use Rattle.sw_tree.specs.Kinds.{has};
ghost use Rattle.sw_tree.specs.declared.mode.Kind.{Kind};
ghost use Rattle.sw_check.specs.Grade.{worst};

use crate::grade::Grade;
use sw_tree::Kinds;

/// What a pass tells of a subexpression in its mode: the kinds that it writes and reads, and its grade.
#[derive(Clone, Copy)]
pub(crate) struct Summary {
    pub(crate) written: Kinds,
    pub(crate) read: Kinds,
    pub(crate) grade: Grade,
}

/// What a pass tells of parts in a row: the kinds that one of them reads, and the worst grade.
#[derive(Clone, Copy)]
pub(crate) struct Row {
    pub(crate) read: Kinds,
    pub(crate) grade: Grade,
}

impl Row {
    /// The row with one more part.
    pub(crate) fn with(self, part: Summary) -> Row
        ensures read { (k : Kind) → has result.read k ≡ (has self.read k || has part.read k) }
        ensures grade { result.grade ≡ worst self.grade part.grade }
    {
        Row {
            read: self.read.union(part.read),
            grade: self.grade.worst(part.grade),
        }
    }
}

/// What a pass keeps of an expression's parts: the kinds that the first writes and reads, those that the
/// options behind it read, the first one's grade (of a row, the worst), and the second one's.
#[derive(Clone, Copy)]
pub(crate) struct Parts {
    pub(crate) written: Kinds,
    pub(crate) read: Kinds,
    pub(crate) others: Kinds,
    pub(crate) grade: Grade,
    pub(crate) second: Grade,
}

impl Parts {
    /// Of no part, or of a row of this grade.
    pub(crate) fn row(grade: Grade) -> Parts
        ensures written { (k : Kind) → has result.written k ≡ false }
        ensures read { (k : Kind) → has result.read k ≡ false }
        ensures others { (k : Kind) → has result.others k ≡ false }
        ensures grade { result.grade ≡ grade }
        ensures second { result.second ≡ Grade.Exact }
    {
        Parts {
            written: Kinds::none(),
            read: Kinds::none(),
            others: Kinds::none(),
            grade,
            second: Grade::Exact,
        }
    }

    /// Of one part, beside which options stand that read these kinds.
    pub(crate) fn one(part: Summary, others: Kinds) -> Parts
        ensures { result ≡ record { written = part.written; read = part.read; others = others; grade = part.grade; second = Grade.Exact } }
    {
        Parts {
            written: part.written,
            read: part.read,
            others,
            grade: part.grade,
            second: Grade::Exact,
        }
    }

    /// Of two parts.
    pub(crate) fn two(first: Summary, second: Summary) -> Parts
        ensures written { result.written ≡ first.written }
        ensures read { result.read ≡ first.read }
        ensures others { (k : Kind) → has result.others k ≡ false }
        ensures grade { result.grade ≡ first.grade }
        ensures second { result.second ≡ second.grade }
    {
        Parts {
            written: first.written,
            read: first.read,
            others: Kinds::none(),
            grade: first.grade,
            second: second.grade,
        }
    }
}
