// The input: bytes that are taken in order.
ghost use Rattle.std.specs.Prelude.{◌≡◌, ◌↔◌, ◌<◌, ◌≤◌, ◌++◌, [], List, ℕ, length, take as first, IfOk, OnErr};
ghost use Rattle.dd_rig.specs.Counts.{plus_failure, Rose};

use crate::Failed;

/// Where a script comes from.
pub trait Source {
    /// Whether the source tells its bytes. Standard input doesn't.
    ghost tells: { Type 0 };

    /// The bytes that are not yet taken.
    ghost rest: { Self → List ℕ };

    /// How many takes failed, up to the last value of `u64`.
    ghost failures: { Self → ℕ };

    /// Puts the next bytes at the beginning of a slice, and answers how many: as few as one, where
    /// some are left. 0 of a slice that isn't empty is the end. Of a failed take nothing is said but
    /// its count.
    fn take(&mut self, into: &mut [u8]) -> Result<usize, Failed>
        ensures within { IfOk result (λ n. n ≤ length into.new) }
        ensures bytes { tells → IfOk result (λ n. rest self.old ≡ first n into.new ++ rest self.new) }
        ensures end { tells → IfOk result (λ n. 0 < length into.old → ((n ≡ 0) ↔ (rest self.old ≡ []))) }
        ensures counts { failures self.new ≡ plus_failure result (failures self.old) }
        ensures later { failures self.old ≤ failures self.new }
        ensures cause { OnErr result (Rose (failures self.old) (failures self.new)) };
}
