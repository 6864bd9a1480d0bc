use crate::source::Failed;

/// Where bytes go.
///
/// It means the bytes that it took, where they are told, and a count of faults that never
/// falls. Each call keeps whether the bytes are told.
pub trait Sink {
    ghost use Rattle.std.specs.Prelude.{◌≡◌, ℕ, ◌<◌, ◌≤◌, List, Option, length, take, IfOk, OnErr};
    ghost use Rattle.std.specs.Io.KnownBytes.{append_known};
    ghost use Rattle.sw_tool.specs.Faults.{HasRisen};

    ghost taken: { Self → Option (List ℕ) };

    ghost faults: { Self → ℕ };

    /// Takes a front of the piece.
    ///
    /// Ok(n): the first n bytes were taken, at least 1 of a piece that isn't empty. `Failed`:
    /// none were taken; it is answered only where the count rose, and wherever nothing of a
    /// piece that isn't empty can be taken.
    fn write(&mut self, piece: &[u8]) -> Result<usize, Failed>
        ensures within { IfOk result (λ n. n ≤ length piece.now) }
        ensures some { IfOk result (λ n. 0 < length piece.now → 0 < n) }
        ensures taken { IfOk result (λ n. taken self.new ≡ append_known (taken self.old) (take n piece.now)) }
        ensures failed { OnErr result (taken self.new ≡ taken self.old) }
        ensures fault { OnErr result (HasRisen (faults self.old) (faults self.new)) }
        ensures counts { faults self.old ≤ faults self.new };
}
