//! The limits that a back end meets, by name (`docs/RULES.md` has them as a table).

/// The last moment, in ticks.
pub const MAX_MOMENT: u64 = 1 << 62;

/// The greatest age of a configuration, in ticks.
pub const MAX_AGE: u64 = MAX_MOMENT;

/// The most ticks a second.
pub const MAX_HZ: u64 = 1_000_000_000;

/// The most clients of a queue.
pub const MAX_CLIENTS: u32 = 65_536;

/// The most queued requests of a queue.
pub const MAX_REQUESTS: u32 = 1 << 20;

/// The most servers of a tracker, and of a scene.
pub const MAX_SERVERS: u32 = 64;

/// The most completions that a tracker counts.
pub const MAX_COMPLETIONS: u64 = 1 << 62;

/// The greatest delta and the greatest rho that a stamp carries.
pub const MAX_COUNT: u32 = u32::MAX;

/// The most events of a history.
pub const MAX_EVENTS: u32 = 1 << 30;
