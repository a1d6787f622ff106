//! What a lock's book keeps of the book that was put behind the lock.
ghost use Rattle.std.specs.Prelude.{⊤};

/// A book that can be behind a lock.
pub trait Lasting {
    /// What each call that a lock offers beside any witness keeps of the book.
    ghost later: { Self → Self → Type 0 };

    /// What a call that releases events (`rotate`) keeps of it.
    ghost released: { Self → Self → Type 0 };
}

/// Lies beside a book behind its lock, and says something of it that no call through the lock changes. So it is still true of
/// the book that the lock gives back with it.
///
/// It may say how many events were released: a lock offers `rotate` only beside a `ReleaseWitness`.
pub trait Witness<B: Lasting> {
    /// What it says.
    ghost holds: { Self → B → Type 0 };

    /// It is true of every later state too, if no events were released between.
    ghost stays: { (witness : Self) (old new : B) → B.later old new → holds witness old → holds witness new };
}

/// A witness that is still true once events were released. Only a lock with such a witness offers `rotate`.
pub trait ReleaseWitness<B: Lasting>: Witness<B> {
    /// It is true of the book whose events were released.
    ghost stays_released: { (witness : Self) (old new : B) → B.released old new → Self.holds witness old → Self.holds witness new };
}

/// Says nothing of a book.
#[derive(Clone, Copy, Debug, PartialEq, Eq)]
pub struct NoWitness;

impl<B: Lasting> Witness<B> for NoWitness {
    ghost holds = { λ _ _. ⊤ };

    ghost stays = { λ _ _ _ _ same. same };
}

impl<B: Lasting> ReleaseWitness<B> for NoWitness {
    ghost stays_released = { λ _ _ _ _ same. same };
}
