//! The limits of the product. Code and clauses cite them by these names.

/// The most bytes of a day file: 64 GiB.
pub const LONGEST_FILE: u64 = 68_719_476_736;

const _: () = prove!(LONGEST_FILE == 1 << 36);

/// More trades than a day file has room for: each takes 33 bytes or more of it.
pub const TRADE_LIMIT: u64 = 2_147_483_648;

const _: () = prove!(TRADE_LIMIT == 1 << 31);

/// Each time is below this, in nanoseconds since midnight: a message has six bytes for it.
pub const TIME_LIMIT: u64 = 281_474_976_710_656;

const _: () = prove!(TIME_LIMIT == 1 << 48);

/// The nanoseconds of a second.
pub const NANOSECONDS: u64 = 1_000_000_000;

const _: () = prove!(NANOSECONDS == 1_000 * 1_000 * 1_000);

/// The seconds of a day.
pub const SECONDS_OF_DAY: u32 = 86_400;

const _: () = prove!(SECONDS_OF_DAY == 24 * 60 * 60);

/// The most tasks of a pipeline.
pub const MOST_TASKS: u32 = 65_536;

const _: () = prove!(MOST_TASKS == 1 << 16);

/// The most morsels that a day file is cut into.
pub const MOST_MORSELS: u32 = 65_536;

const _: () = prove!(MOST_MORSELS == 1 << 16);

/// The greatest target of a morsel, in bytes.
pub const LARGEST_MORSEL: u64 = 1_073_741_824;

const _: () = prove!(LARGEST_MORSEL == 1 << 30);

/// The most partitions of a day's order references.
pub const MOST_PARTITIONS: u32 = 256;

const _: () = prove!(MOST_PARTITIONS == 1 << 8);

/// The most seats of a dispatcher.
pub const MOST_SEATS: u32 = 256;

const _: () = prove!(MOST_SEATS == 1 << 8);

/// The most worker threads of a pipeline.
pub const MOST_WORKERS: u32 = 64;

const _: () = prove!(MOST_WORKERS == 1 << 6);

/// The most gatherers of a pipeline.
pub const MOST_GATHERERS: u32 = 8;

const _: () = prove!(MOST_GATHERERS == 1 << 3);
