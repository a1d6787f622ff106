//! Laws of clocks and moments. Each law is the contract of a function that changes nothing: whoever calls it knows the law.
ghost use Rattle.std.specs.Prelude.{ℕ, ◌≤◌};
ghost use Rattle.dmc_types.specs.Clock.{IsLeastNanos, ticks_after};

/// A later clock gives no earlier moment.
pub fn clocks_keep_order()
    ensures { (hz a b : ℕ) → a ≤ b → ticks_after hz a ≤ ticks_after hz b }
{}

/// A clock that has counted the nanoseconds of a moment has reached that moment.
pub fn moments_are_reached()
    ensures { (hz ticks nanos : ℕ) → IsLeastNanos hz ticks nanos → ticks ≤ ticks_after hz nanos }
{}
