//! What a list in segments keeps its records in.
ghost use Rattle.std.specs.Prelude.{◌≡◌, ◌↔◌, ◌+◌, ◌<◌, ◌≤◌, [], ◌∷◌, ◌++◌, length, IsErrOf, OnOk};
ghost use Rattle.dmc_types.specs.Limits.{max_events};
ghost use Rattle.dmc_history.specs.Log.{FillBlocks, Log};

use dmc_history::{History, ReserveFault};

/// A list that keeps a limited number of records, oldest first. A record is added in a reserved place.
pub trait KeptList {
    /// What it keeps.
    type Record;

    /// Its records, how many it may keep, and how many places are reserved.
    ghost log: { Self → Log Self.Record };

    /// How many records it keeps.
    fn count(&self) -> usize
        ensures value { result ≡ length (log self.now).events }
        ensures within { result ≤ (log self.now).most };

    /// Reserves a place: refused `HistoryFull` exactly if it keeps as many records as it may, then `Memory` if an
    /// allocation failed, which comes only if the records fill their blocks.
    fn reserve_place(&mut self) -> Result<(), ReserveFault>
        ensures ok { OnOk result (0 < (log self.new).room) }
        ensures fewer { OnOk result (length (log self.old).events < (log self.old).most) }
        ensures full { IsErrOf result ReserveFault.HistoryFull ↔ (length (log self.old).events ≡ (log self.old).most) }
        ensures memory { IsErrOf result ReserveFault.Memory → FillBlocks (length (log self.old).events) }
        ensures events { (log self.new).events ≡ (log self.old).events }
        ensures most { (log self.new).most ≡ (log self.old).most };

    /// Takes out all records, and with them the places that are reserved. It does not allocate.
    fn take_all(&mut self) -> Self
        ensures value { result ≡ self.old }
        ensures limit { length (log result).events ≤ max_events }
        ensures empty { log self.new ≡ record { events = []; most = (log self.old).most; room = 0 } };
}

/// A kept list that is given records in this form.
pub trait Takes<P>: KeptList {
    /// The record that is kept.
    ghost taken: { P → Self.Record };

    /// Adds a record at the end, in a reserved place.
    fn put(&mut self, next: P)
        requires { 0 < (Self.log self.old).room }
        ensures events { (Self.log self.new).events ≡ (Self.log self.old).events ++ taken next ∷ [] }
        ensures most { (Self.log self.new).most ≡ (Self.log self.old).most }
        ensures used { (Self.log self.new).room + 1 ≡ (Self.log self.old).room };
}

impl<E: Drop> KeptList for History<E> {
    type Record = E;

    ghost log = { λ history. history };

    fn count(&self) -> usize {
        self.len()
    }

    fn reserve_place(&mut self) -> Result<(), ReserveFault> {
        self.reserve_one()
    }

    fn take_all(&mut self) -> History<E> {
        self.take()
    }
}

impl<E: Drop> Takes<E> for History<E> {
    ghost taken = { λ next. next };

    #[inline(always)]
    fn put(&mut self, next: E) {
        self.push_reserved(next);
    }
}
