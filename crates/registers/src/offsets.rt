// Where each register stands, by the rule book's map: `read` and `write` match on these.
// Of a number of eight bytes the lower half stands first.

// ---- read only
pub const MAGIC: u32 = 0x000;

pub const VERSION: u32 = 0x004;

pub const FEATURES_LOW: u32 = 0x008;

pub const FEATURES_HIGH: u32 = 0x00c;

pub const COMPLETED_LOW: u32 = 0x130;

pub const COMPLETED_HIGH: u32 = 0x134;

pub const IRQ_STATUS: u32 = 0x300;

pub const ERROR_CODE: u32 = 0x310;

pub const ERROR_FENCE_LOW: u32 = 0x314;

pub const ERROR_FENCE_HIGH: u32 = 0x318;

pub const ERROR_COUNT: u32 = 0x31c;

pub const ERROR_DETAIL: u32 = 0x320;

// ---- both ways
pub const RING_LOW: u32 = 0x100;

pub const RING_HIGH: u32 = 0x104;

pub const RING_SIZE: u32 = 0x108;

pub const CONTROL: u32 = 0x10c;

pub const PAGE_LOW: u32 = 0x120;

pub const PAGE_HIGH: u32 = 0x124;

pub const IRQ_ENABLE: u32 = 0x304;

// ---- write only
pub const DOORBELL: u32 = 0x200;

pub const IRQ_ACK: u32 = 0x308;
