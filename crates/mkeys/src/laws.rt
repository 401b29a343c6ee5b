//! What holds of keys however they are registered and dropped.
ghost use Rattle.std.specs.Prelude.{ℕ, ◌≢◌, ◌↔◌, List};
ghost use Rattle.mkeys.specs.Events.{KeyEvent, IsLegal, keys_after, IsRegistered};
ghost use Rattle.mkeys.specs.Keys.{variant_of, Lives, Permits};
ghost use Rattle.mkeys.specs.Region.{Allows};
ghost use Rattle.mkeys.specs.declared.region.KeyRegion.{KeyRegion};
ghost use Rattle.mkeys.specs.declared.region.Right.{Right};

/// After any registrations and drops, a key permits exactly what lies in a region that was registered under
/// that key and not dropped since: for that region's protection domain, and with a right that it has.
pub fn permits_what_is_registered()
    ensures { (events : List KeyEvent) → IsLegal events → (key pd addr len : ℕ) (right : Right) →
        (Permits (keys_after events) key pd addr len right)
        ↔ ((region : KeyRegion) × IsRegistered events key region × Allows region pd addr len right) }
{}

/// No live key has the variant 0. So the key 0x100, with which the rdma-core mlx5 provider ends the list of a
/// receive entry's data segments, is never that of a region.
pub fn no_variant_is_zero()
    ensures { (events : List KeyEvent) → IsLegal events → (key : ℕ) → Lives (keys_after events) key → variant_of key ≢ 0 }
{}
