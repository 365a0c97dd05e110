ghost use Rattle.std.specs.Prelude.{◌≡◌, ℕ, not, ◌≤◌, false};
ghost use Rattle.resh_luck.specs.Fates.{after_tries, loses, HasRisen, plus_count};

use crate::fate::Delivery;
use crate::luck::Luck;

/// Asks for deliveries until one isn't lost, at most 64 times. False where all were.
pub fn delivered<L: Luck>(luck: &mut L) -> bool
    ensures answer { result ≡ not (loses 64 (L.told luck.old)) }
    ensures told { L.told luck.new ≡ after_tries 64 (L.told luck.old) }
    ensures counts { HasRisen (L.counts luck.old) (L.counts luck.new) }
    ensures rose { result ≡ false → plus_count (L.counts luck.old).losses 64 ≤ (L.counts luck.new).losses }
{
    for tried in 0..64u64 {
        match luck.deliver() {
            Delivery::Lost => {}
            _ => return true,
        }
    }
    false
}
