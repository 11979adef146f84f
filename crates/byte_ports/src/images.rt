//! Stores that keep images under names. Loading changes no image, and saving changes no other name, also where it is refused.

ghost use Rattle.std.specs.Prelude.{◌≡◌, ℕ, ◌≤◌, Option, IfOk, OnOk, OnErr, IsErrOf, option_map};
ghost use Rattle.byte_ports.specs.Causes.{Rose};
ghost use Rattle.byte_ports.specs.Images.{Named, Finds, SetsName, OthersSame};

use crate::refusal::StoreRefusal;
use std::alloc::Global;

/// Something that keeps images under names.
pub trait Images {
    ghost kept: { Self → Option Named };

    ghost count: { Self → ℕ };

    /// How many calls have failed. It stands still at `u64::MAX`.
    fn faults(&self) -> u64
        ensures { result ≡ count self.now };

    /// The bytes under this name; None exactly where there is no such name.
    fn load(&mut self, alloc: Global, name: &str) -> Result<Option<Vec<u8>>, StoreRefusal>
        ensures found { IfOk result (λ found. Finds (kept self.old) name.now (option_map (λ bytes. bytes.items) found)) }
        ensures same { kept self.new ≡ kept self.old }
        ensures later { count self.old ≤ count self.new }
        ensures failed { IsErrOf result StoreRefusal.Failed → Rose (count self.old) (count self.new) };

    /// Sets this name to these bytes. After a refusal what is under this name is open: nothing, the old bytes, or a part of the new ones.
    fn save(&mut self, name: &str, bytes: &[u8]) -> Result<(), StoreRefusal>
        ensures ok { OnOk result (SetsName (kept self.old) (kept self.new) name.now bytes.now) }
        ensures refused { OnErr result (OthersSame (kept self.old) (kept self.new) name.now) }
        ensures later { count self.old ≤ count self.new }
        ensures failed { IsErrOf result StoreRefusal.Failed → Rose (count self.old) (count self.new) };
}
