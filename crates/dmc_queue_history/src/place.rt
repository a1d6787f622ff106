//! If an event is: in which list, and at which index there.
ghost use Rattle.std.specs.Prelude.{◌≡◌, ◌<◌, ◌^◌};
ghost use Rattle.dmc_queue_history.specs.Kept.{index_of, list_count, list_of};
ghost use Rattle.dmc_queue_history.specs.internal.Kept.{place_in};

/// The numbers of the lists.
pub(crate) const BY_WEIGHT: u32 = 0;

pub(crate) const QUEUED: u32 = 1;

pub(crate) const GRANTED: u32 = 2;

pub(crate) const OTHERS: u32 = 3;

/// How many lists there are.
const LISTS: u32 = 4;

/// The place of an index in a list: the index times the number of lists, plus the number of the list.
pub(crate) fn place_in(list: u32, index: usize) -> u32
    requires list { list < list_count }
    requires index { index < 2 ^ 30 }
    ensures { result ≡ place_in list index }
{
    LISTS * index as u32 + list
}

/// The list of a place.
pub(crate) fn list_of(place: u32) -> u32
    ensures { result ≡ list_of place }
{
    place % LISTS
}

/// The index of a place in its list.
pub(crate) fn index_of(place: u32) -> usize
    ensures { result ≡ index_of place }
{
    (place / LISTS) as usize
}
