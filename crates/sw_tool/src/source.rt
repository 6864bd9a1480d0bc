/// A read or a write that failed.
#[derive(Clone, Copy, PartialEq, Eq)]
pub struct Failed;

/// Where bytes come from.
///
/// It means the bytes that are left, where they are told, and a count of faults that never
/// falls. Each call keeps whether the bytes are told.
pub trait Source {
    ghost use Rattle.std.specs.Prelude.{◌≡◌, ℕ, ◌<◌, ◌≤◌, List, Option, length, take, IfOk, OnErr};
    ghost use Rattle.std.specs.Io.KnownBytes.{prepend_known, IsAtEnd};
    ghost use Rattle.sw_tool.specs.Faults.{HasRisen};

    ghost left: { Self → Option (List ℕ) };

    ghost faults: { Self → ℕ };

    /// Takes some of the bytes that are left, at most as many as the buffer has room for.
    ///
    /// Ok(n): n bytes came, and stand in order at the buffer's start. They were the first
    /// ones left. 0 for a buffer that isn't empty is the end. `Failed`: none came; it is
    /// answered only where the count rose.
    fn read(&mut self, buf: &mut [u8]) -> Result<usize, Failed>
        ensures within { IfOk result (λ n. n ≤ length buf.new) }
        ensures given { IfOk result (λ n. left self.old ≡ prepend_known (take n buf.new) (left self.new)) }
        ensures end { IfOk result (λ n. n ≡ 0 → 0 < length buf.new → IsAtEnd (left self.new)) }
        ensures failed { OnErr result (left self.new ≡ left self.old) }
        ensures fault { OnErr result (HasRisen (faults self.old) (faults self.new)) }
        ensures counts { faults self.old ≤ faults self.new };
}
