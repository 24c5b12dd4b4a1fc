// The state line: every register that can be read, and the FNV-1a hash of the memory's bytes.
use device::Device;
use std::fmt;

// As many registers of four bytes as there is room for below the end of the last one.
const REGISTERS: u32 = 201;

const HASH_START: u64 = 14695981039346656037;

// 2^40 + 435
const HASH_PRIME: u64 = 1099511628211;

// The FNV-1a hash of some bytes.
pub fn hash(bytes: &[u8]) -> u64 {
    bytes.iter().fold(HASH_START, |h, byte| {
        (h ^ u64::from(*byte)).wrapping_mul(HASH_PRIME)
    })
}

// What the line `state` shows: a device, and the memory that it is lent.
#[derive(Clone, Copy)]
pub struct State<'a> {
    pub device: &'a Device,
    pub memory: &'a [u8],
}

impl fmt::Display for State<'_> {
    fn fmt<W: fmt::Write>(&self, f: &mut fmt::Formatter<W>) -> fmt::Result {
        write!(f, "state")?;
        for register in 0..REGISTERS {
            let offset = 4 * register;
            if let Ok(value) = self.device.read(offset) {
                write!(f, " {offset:x}={value}")?;
            }
        }
        write!(f, " memory={}", hash(self.memory))
    }
}
