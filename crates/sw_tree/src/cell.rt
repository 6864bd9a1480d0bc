/// A part of the input, or of the text beside it.
#[derive(Clone, Copy)]
pub struct Span {
    pub start: u32,
    pub end: u32,
}

/// How many items or entries there are, and how many cells are below.
#[derive(Clone, Copy)]
pub struct Extent {
    pub count: u32,
    pub below: u32,
}

/// A number of 64 bits, in two halves, so that a cell is aligned to 4 bytes.
#[derive(Clone, Copy)]
pub struct Halves {
    pub low: u32,
    pub high: u32,
}

impl Halves {
    ghost use Rattle.std.specs.Prelude.{◌≡◌};
    ghost use Rattle.sw_tree.specs.Inner.Cells.{halves_number};

    /// The halves of that number.
    #[inline]
    fn of(number: u64) -> Halves
        ensures { halves_number result ≡ number }
    {
        Halves {
            low: (number % (1 << 32)) as u32,
            high: (number / (1 << 32)) as u32,
        }
    }

    /// The number that they make.
    #[inline]
    pub(crate) fn number(self) -> u64
        ensures { result ≡ halves_number self }
    {
        u64::from(self.high) * (1 << 32) + u64::from(self.low)
    }
}

/// A node of a document, in 12 bytes: places and counts have 32 bits. A number beyond 64
/// bits stands in a list beside the cells, a text that isn't a part of the input in the
/// text beside it.
#[derive(Clone, Copy)]
pub enum Cell {
    Null,
    Bool(bool),
    /// A number from 0 up.
    Natural(Halves),
    /// A number below 0, by how far it is below -1.
    Negative(Halves),
    Wide(u32),
    Text(Span),
    Copied(Span),
    Bytes(Span),
    CopiedBytes(Span),
    List(Extent),
    Map(Extent),
}

const _: () = prove!(size_of::<Cell>() == 12);

impl Cell {
    ghost use Rattle.std.specs.Prelude.{◌≡◌, List};
    ghost use Rattle.sw_tree.specs.Tree as tree;
    ghost use Rattle.sw_tree.specs.Tree.{Tree};
    ghost use Rattle.sw_tree.specs.Inner.Cells.{Store, IsFine, arity, below, tree_at};

    /// The cell of that number.
    #[inline]
    pub(crate) fn of_number(value: i64) -> Cell
        ensures fine { (s : Store) → IsFine s result }
        ensures none { arity result ≡ 0 }
        ensures low { below result ≡ 0 }
        ensures tree { (s : Store) (ts : List Tree) → tree_at s result ts ≡ tree.int value }
    {
        if value >= 0 {
            Cell::Natural(Halves::of(value as u64))
        } else {
            Cell::Negative(Halves::of((-1 - value) as u64))
        }
    }

    /// How many cells are below this one.
    pub(crate) fn below(self) -> u32
        ensures { result ≡ below self }
    {
        match self {
            Cell::List(extent) => extent.below,
            Cell::Map(extent) => extent.below,
            _ => 0,
        }
    }
}
