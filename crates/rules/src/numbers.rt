// The numbers of document 01, and of the wishes of 02, for code. Each has the name that specs/Numbers.antt gives it.

// ---- limits
pub const MOST_ROWS: usize = 64;

pub const MOST_TOKENS: usize = 256;

pub const LONGEST_SIDE: u32 = 16384;

pub const MOST_LAYERS: u32 = 256;

pub const MOST_FLAGS: u32 = 7;

// ---- magics and the version
pub const RING_MAGIC: u32 = 0x474e5241;

pub const TABLE_MAGIC: u32 = 0x434f4c41;

pub const STREAM_MAGIC: u32 = 0x444d4341;

pub const PAGE_MAGIC: u32 = 0x434e4546;

pub const DEVICE_MAGIC: u32 = 0x55504741;

pub const VERSION: u32 = 65539;

pub const FEATURES: u32 = 7;

// What a version is divided by to give its major, and the major that is good.
pub const MINORS: u32 = 65536;

pub const GOOD_MAJOR: u32 = 1;

// ---- the bytes of each header, and of what a guest's table holds
pub const RING_HEADER_SIZE: u32 = 64;

pub const DESCRIPTOR_SIZE: u32 = 64;

pub const TABLE_HEADER_SIZE: u32 = 24;

pub const ENTRY_SIZE: u32 = 32;

pub const STREAM_HEADER_SIZE: u32 = 24;

pub const PACKET_HEADER_SIZE: u32 = 8;

// ---- opcodes
pub const CREATE_BUFFER: u32 = 256;

pub const CREATE_TEXTURE: u32 = 257;

pub const DESTROY: u32 = 258;

pub const DIRTY_RANGE: u32 = 259;

pub const COPY_BUFFER: u32 = 261;

pub const SET_TARGET: u32 = 1024;

pub const SET_VIEWPORT: u32 = 1025;

pub const SET_SCISSOR: u32 = 1026;

pub const CLEAR: u32 = 1536;

pub const EXPORT_SURFACE: u32 = 1808;

pub const IMPORT_SURFACE: u32 = 1809;

pub const RELEASE_TOKEN: u32 = 1810;

// ---- the bytes of each packet that we know
pub const CREATE_BUFFER_SIZE: u32 = 40;

pub const CREATE_TEXTURE_SIZE: u32 = 56;

pub const DESTROY_SIZE: u32 = 16;

pub const DIRTY_RANGE_SIZE: u32 = 32;

pub const COPY_BUFFER_SIZE: u32 = 48;

pub const SET_TARGET_SIZE: u32 = 16;

pub const SET_VIEWPORT_SIZE: u32 = 32;

pub const SET_SCISSOR_SIZE: u32 = 24;

pub const CLEAR_SIZE: u32 = 36;

pub const EXPORT_SURFACE_SIZE: u32 = 24;

pub const IMPORT_SURFACE_SIZE: u32 = 24;

pub const RELEASE_TOKEN_SIZE: u32 = 16;

// ---- kinds of record
pub const BACKS: u32 = 1;

pub const READS: u32 = 2;

pub const WRITES: u32 = 3;

pub const CLIPS: u32 = 4;

// ---- call answers
pub const DONE: u32 = 0;

pub const OTHER_MEMORY: u32 = 1;

pub const NO_REGISTER: u32 = 2;

pub const NOTHING_WAITS: u32 = 3;

pub const NO_RECORD: u32 = 4;

pub const IN_WORK: u32 = 5;

pub const TOO_SHORT: u32 = 6;

pub const BAD_FILE: u32 = 7;

pub const NOT_IN_FORM: u32 = 8;

pub const TOO_MUCH: u32 = 9;

pub const BAD_FEED: u32 = 10;

// ---- kinds of a saved resource
pub const BUFFER_KIND: u32 = 1;

pub const TEXTURE_KIND: u32 = 2;
