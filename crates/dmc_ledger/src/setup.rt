//! The type that names a set-up.
ghost use Rattle.std.specs.Prelude.{ℕ};

use std::marker::Brand;

/// Names one set-up: a mint with the books that it opened and their tills. A function that works in a set-up is generic in this
/// type. To open a set-up, call that function at `std::marker::Brand`.
pub trait Setup {
    ghost name: { ℕ };
}

impl Setup for Brand {
    ghost name = { 0 };
}
