//! The limits of the product. A text or a scenario past one of them is refused by name; nothing else bounds them.

/// The bytes of one file, driver or scenario.
pub const FILE_BYTES: usize = 1_048_576;
/// The drivers of one run.
pub const DRIVERS: usize = 4;
/// The owners of what the kernel's tables have: the kernel, which is 0, and the drivers.
pub const OWNERS: usize = DRIVERS + 1;
/// The bytes of a driver's arena.
pub const ARENA_BYTES: u32 = 1_048_576;
/// The first bytes of an arena, which are never granted, so that no object stands at null.
pub const NULL_BYTES: u32 = 16;
/// The blocks of one owner, those of its load image included.
pub const BLOCKS: usize = 4_096;
/// The tasks, numbered from 1; number 0 stands for handlers.
pub const TASKS: u8 = 8;
/// The frames of one activity.
pub const FRAMES: usize = 64;
/// The locals of one function, its parameters and hidden bounds included.
pub const LOCALS: usize = 128;
/// The words of one driver text.
pub const WORDS: usize = 200_000;
/// The words between two of `;`, `{` and `}`.
pub const RUN_WORDS: usize = 1_000;
/// How deep brackets nest.
pub const NESTING: usize = 64;
/// The unary operator words in a row.
pub const UNARY_WORDS: usize = 16;
/// The bytes of a name.
pub const NAME_BYTES: usize = 63;
/// The structs of one text.
pub const STRUCTS: usize = 256;
/// The fields of one struct; a union counts as one.
pub const FIELDS: usize = 64;
/// The functions of one text.
pub const FUNCTIONS: usize = 4_096;
/// The globals and string literals of one text together.
pub const GLOBALS: usize = 1_024;
/// The bytes of a struct.
pub const STRUCT_BYTES: u32 = 65_536;
/// The address at which a load image ends at the latest.
pub const IMAGE_END: u32 = 524_288;
/// The interrupt lines, numbered from 0.
pub const LINES: i32 = 64;
/// The ports, numbered from 0.
pub const PORTS: u32 = 65_536;
/// The numbers that a device may have, from 0.
pub const DEVICE_NUMBERS: u16 = 1_024;
/// The numbers that a parameter may have, from 0.
pub const PARAMETER_NUMBERS: u16 = 256;
/// The numbers that an owner's timer may have, from 0.
pub const TIMER_NUMBERS: u16 = 256;
/// The locks, numbered from 0.
pub const LOCKS: i32 = 64;
/// The power domains, numbered from 0.
pub const DOMAINS: i32 = 64;
/// The live timers of one owner.
pub const TIMERS: usize = 64;
/// The queued work items of one owner.
pub const WORK_ITEMS: usize = 64;
/// The port ranges of one owner.
pub const PORT_RANGES: usize = 32;
/// The devices of one owner.
pub const DEVICES: usize = 32;
/// The parameters that one owner overrides.
pub const PARAMETERS: usize = 32;
/// The holds of one owner on one power domain.
pub const HOLDS: usize = 8;
/// The lines of a scenario.
pub const SCENARIO_LINES: usize = 65_536;
/// The scripted device answers of a scenario.
pub const ANSWERS: usize = 262_144;
/// The greatest bound on the steps of a run.
pub const STEP_BOUND: u32 = 10_000_000;
/// The bytes of a printed line, without its line feed.
pub const LINE_BYTES: usize = 200;
