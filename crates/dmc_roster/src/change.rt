//! Rules and tests for each record of a roster.
ghost use Rattle.std.specs.Prelude.{◌≡◌, ℕ, Bool};
ghost use Rattle.dmc_client.specs.Record.{Rec, IsRecord};

use dmc_client::record::ClientRec;
use dmc_tag::tag::Tag;

/// A rule that keeps or erases each client, and changes the records of those that it keeps.
pub trait RecordRule<T: Tag> {
    /// Whether the client under a key stays.
    ghost keeps: { Self → ℕ → Rec T → Bool };

    /// What its record becomes.
    ghost changed: { Self → ℕ → Rec T → Rec T };

    /// Changes the record under a key, and returns whether it stays.
    fn apply(&self, key: usize, rec: &mut ClientRec<T>) -> bool
        ensures keeps { result ≡ keeps self.now key rec.old }
        ensures changed { rec.new ≡ changed self.now key rec.old }
        ensures kept { IsRecord T.ops rec.new };
}

/// A test of records.
pub trait RecordTest<T: Tag> {
    /// Whether a record passes.
    ghost passes: { Self → Rec T → Bool };

    /// Whether the record passes.
    fn test(&self, rec: &ClientRec<T>) -> bool
        ensures { result ≡ passes self.now rec.now };
}
