//! Lists that contracts alone see. They have no bytes, and what makes one does nothing at run time, so that is proved by hand.
ghost use Rattle.std.specs.Prelude.{◌≡◌, List, [], ◌∷◌, ◌++◌};
ghost use Rattle.std.specs.Borrow.{ftrue};

use std::marker::{Model, PhantomData};

/// What was put into a list, in order.
#[derive(Drop)]
pub(crate) struct GhostList<E> {
    marker: PhantomData<E>,
    pub(crate) ghost items: { List E },
}

impl<E> Model for GhostList<E> {
    ghost also_owns = { λ _. ftrue };
}

impl<E> GhostList<E> {
    /// An empty list.
    pub(crate) fn new() -> GhostList<E>
        ensures { result.items ≡ [] }
    {
        GhostList {
            marker: PhantomData,
        }
    }

    /// The list with one more value at its end.
    pub(crate) fn with(&self, next: &E) -> GhostList<E>
        ensures { result.items ≡ self.now.items ++ next.now ∷ [] }
    {
        GhostList {
            marker: PhantomData,
        }
    }
}

unsafe impl<E> Send for GhostList<E> {}
