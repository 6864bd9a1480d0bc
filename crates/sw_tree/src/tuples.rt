//! The meanings of tuples: rows of those of their parts. That of a pair stands in `containers`.

use crate::meant::{Meant, Named};

impl<A: Named> Named for (A,) {
    ghost use Rattle.std.specs.Prelude.{[], ◌∷◌};
    ghost use Rattle.sw_tree.specs.Meant.{row, IsRowOf};

    ghost meaning = { λ x. row (A.meaning x.0 ∷ []) };

    ghost is_meaning = { IsRowOf (A.is_meaning ∷ []) };
}

impl<A: Meant> Meant for (A,) {
    fn in_hand(&self) {
        self.0.in_hand();
    }
}

impl<A: Named, B: Named, C: Named> Named for (A, B, C) {
    ghost use Rattle.std.specs.Prelude.{[], ◌∷◌};
    ghost use Rattle.sw_tree.specs.Meant.{row, IsRowOf};

    ghost meaning = { λ x. row (A.meaning x.0 ∷ B.meaning x.1 ∷ C.meaning x.2 ∷ []) };

    ghost is_meaning = { IsRowOf (A.is_meaning ∷ B.is_meaning ∷ C.is_meaning ∷ []) };
}

impl<A: Meant, B: Meant, C: Meant> Meant for (A, B, C) {
    fn in_hand(&self) {
        self.0.in_hand();
        self.1.in_hand();
        self.2.in_hand();
    }
}

impl<A: Named, B: Named, C: Named, D: Named> Named for (A, B, C, D) {
    ghost use Rattle.std.specs.Prelude.{[], ◌∷◌};
    ghost use Rattle.sw_tree.specs.Meant.{row, IsRowOf};

    ghost meaning = { λ x. row (A.meaning x.0 ∷ B.meaning x.1 ∷ C.meaning x.2 ∷ D.meaning x.3 ∷ []) };

    ghost is_meaning = { IsRowOf (A.is_meaning ∷ B.is_meaning ∷ C.is_meaning ∷ D.is_meaning ∷ []) };
}

impl<A: Meant, B: Meant, C: Meant, D: Meant> Meant for (A, B, C, D) {
    fn in_hand(&self) {
        self.0.in_hand();
        self.1.in_hand();
        self.2.in_hand();
        self.3.in_hand();
    }
}

impl<A: Named, B: Named, C: Named, D: Named, E: Named> Named for (A, B, C, D, E) {
    ghost use Rattle.std.specs.Prelude.{[], ◌∷◌};
    ghost use Rattle.sw_tree.specs.Meant.{row, IsRowOf};

    ghost meaning = { λ x. row (A.meaning x.0 ∷ B.meaning x.1 ∷ C.meaning x.2 ∷ D.meaning x.3 ∷ E.meaning x.4 ∷ []) };

    ghost is_meaning = { IsRowOf (A.is_meaning ∷ B.is_meaning ∷ C.is_meaning ∷ D.is_meaning ∷ E.is_meaning ∷ []) };
}

impl<A: Meant, B: Meant, C: Meant, D: Meant, E: Meant> Meant for (A, B, C, D, E) {
    fn in_hand(&self) {
        self.0.in_hand();
        self.1.in_hand();
        self.2.in_hand();
        self.3.in_hand();
        self.4.in_hand();
    }
}

impl<A: Named, B: Named, C: Named, D: Named, E: Named, F: Named> Named for (A, B, C, D, E, F) {
    ghost use Rattle.std.specs.Prelude.{[], ◌∷◌};
    ghost use Rattle.sw_tree.specs.Meant.{row, IsRowOf};

    ghost meaning = { λ x. row (A.meaning x.0 ∷ B.meaning x.1 ∷ C.meaning x.2 ∷ D.meaning x.3 ∷ E.meaning x.4 ∷ F.meaning x.5 ∷ []) };

    ghost is_meaning = { IsRowOf (A.is_meaning ∷ B.is_meaning ∷ C.is_meaning ∷ D.is_meaning ∷ E.is_meaning ∷ F.is_meaning ∷ []) };
}

impl<A: Meant, B: Meant, C: Meant, D: Meant, E: Meant, F: Meant> Meant for (A, B, C, D, E, F) {
    fn in_hand(&self) {
        self.0.in_hand();
        self.1.in_hand();
        self.2.in_hand();
        self.3.in_hand();
        self.4.in_hand();
        self.5.in_hand();
    }
}

impl<A: Named, B: Named, C: Named, D: Named, E: Named, F: Named, G: Named> Named
    for (A, B, C, D, E, F, G) {
    ghost use Rattle.std.specs.Prelude.{[], ◌∷◌};
    ghost use Rattle.sw_tree.specs.Meant.{row, IsRowOf};

    ghost meaning = { λ x. row (A.meaning x.0 ∷ B.meaning x.1 ∷ C.meaning x.2 ∷ D.meaning x.3 ∷ E.meaning x.4 ∷ F.meaning x.5 ∷ G.meaning x.6 ∷ []) };

    ghost is_meaning = { IsRowOf (A.is_meaning ∷ B.is_meaning ∷ C.is_meaning ∷ D.is_meaning ∷ E.is_meaning ∷ F.is_meaning ∷ G.is_meaning ∷ []) };
}

impl<A: Meant, B: Meant, C: Meant, D: Meant, E: Meant, F: Meant, G: Meant> Meant
    for (A, B, C, D, E, F, G) {
    fn in_hand(&self) {
        self.0.in_hand();
        self.1.in_hand();
        self.2.in_hand();
        self.3.in_hand();
        self.4.in_hand();
        self.5.in_hand();
        self.6.in_hand();
    }
}

impl<A: Named, B: Named, C: Named, D: Named, E: Named, F: Named, G: Named, H: Named> Named
    for (A, B, C, D, E, F, G, H) {
    ghost use Rattle.std.specs.Prelude.{[], ◌∷◌};
    ghost use Rattle.sw_tree.specs.Meant.{row, IsRowOf};

    ghost meaning = { λ x. row (A.meaning x.0 ∷ B.meaning x.1 ∷ C.meaning x.2 ∷ D.meaning x.3 ∷ E.meaning x.4 ∷ F.meaning x.5 ∷ G.meaning x.6 ∷ H.meaning x.7 ∷ []) };

    ghost is_meaning = { IsRowOf (A.is_meaning ∷ B.is_meaning ∷ C.is_meaning ∷ D.is_meaning ∷ E.is_meaning ∷ F.is_meaning ∷ G.is_meaning ∷ H.is_meaning ∷ []) };
}

impl<A: Meant, B: Meant, C: Meant, D: Meant, E: Meant, F: Meant, G: Meant, H: Meant> Meant
    for (A, B, C, D, E, F, G, H) {
    fn in_hand(&self) {
        self.0.in_hand();
        self.1.in_hand();
        self.2.in_hand();
        self.3.in_hand();
        self.4.in_hand();
        self.5.in_hand();
        self.6.in_hand();
        self.7.in_hand();
    }
}
