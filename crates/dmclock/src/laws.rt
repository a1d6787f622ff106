//! What is proved of every queue, tracker and history, as laws that a caller cites. A law is the contract of a function that
//! changes nothing: whoever calls it knows the law from there on.

/// Of clocks and moments: a later clock gives no earlier moment, and a sleep by `nanos_until` reaches its moment.
pub use dmc_types::laws as clocks;
/// Of every queue's book, wherever it came from: its history replays, its three indexes hold exactly the clients with a queued
/// request, its counts are those of the history, and the history keeps to limits and reservations.
pub use dmc_book::laws as queue_books;
/// Of every history that replays: the bounds of limits and reservations, and that requests leave in order of arrival.
pub use dmc_history_laws::laws as histories;
/// Of every segment of a queue's history: the history up to its end replays.
pub use dmc_queue_history::laws as segments;
/// Of the rules themselves: the granted request is the best of its set, the moment of a Future is exact, a refusal changes
/// nothing.
pub use dmc_tag::laws as rules;
/// Of every tracker's book: what was sent to a server and what is pending there are what the client's completions demand. Of
/// every segment of its list: the stamps up to its end carry what the list demands.
pub use dmc_tlock::laws as tracker_books;
/// Of the list of a tracker's stamps and responses alone.
pub use dmc_tracker::laws as trackers;
