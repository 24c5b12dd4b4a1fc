// The table of opcodes: which packet an opcode is, its least size, and what its part says.
// What each packet passes is inlined, so that its enums stay in registers.
#![tactic(auto)]

ghost use Rattle.std.specs.Prelude.{◌≡◌};
ghost use Rattle.stream_opcodes.specs.Opcodes.{reading};

use rules::Packet;
use rules::numbers::{
    CLEAR, COPY_BUFFER, CREATE_BUFFER, CREATE_TEXTURE, DESTROY, DIRTY_RANGE, EXPORT_SURFACE,
    IMPORT_SURFACE, RELEASE_TOKEN, SET_SCISSOR, SET_TARGET, SET_VIEWPORT,
};
use stream_fields::fields::{
    buffer_fields, clear_packet, copy_fields, destroy_fields, dirty_fields, export_fields,
    import_fields, release_fields, scissor_fields, target_fields, texture_fields, viewport_packet,
};

// The least bytes of each packet that we know.
const CREATE_BUFFER_SIZE: usize = rules::numbers::CREATE_BUFFER_SIZE as usize;

const CREATE_TEXTURE_SIZE: usize = rules::numbers::CREATE_TEXTURE_SIZE as usize;

const DESTROY_SIZE: usize = rules::numbers::DESTROY_SIZE as usize;

const DIRTY_RANGE_SIZE: usize = rules::numbers::DIRTY_RANGE_SIZE as usize;

const COPY_BUFFER_SIZE: usize = rules::numbers::COPY_BUFFER_SIZE as usize;

const SET_TARGET_SIZE: usize = rules::numbers::SET_TARGET_SIZE as usize;

const SET_VIEWPORT_SIZE: usize = rules::numbers::SET_VIEWPORT_SIZE as usize;

const SET_SCISSOR_SIZE: usize = rules::numbers::SET_SCISSOR_SIZE as usize;

const CLEAR_SIZE: usize = rules::numbers::CLEAR_SIZE as usize;

const EXPORT_SURFACE_SIZE: usize = rules::numbers::EXPORT_SURFACE_SIZE as usize;

const IMPORT_SURFACE_SIZE: usize = rules::numbers::IMPORT_SURFACE_SIZE as usize;

const RELEASE_TOKEN_SIZE: usize = rules::numbers::RELEASE_TOKEN_SIZE as usize;

// The table of opcodes: what a packet with an opcode says, from the beginning of its own part of the stream. Newer drivers append
// fields, which are not read. A packet whose opcode we do not know is skipped, whatever its size.
#[inline(always)]
pub fn read_part(op: u32, part: &[u8]) -> Option<Packet>
    ensures { result ≡ reading op part.now }
{
    let size = part.len();
    match op {
        CREATE_BUFFER => {
            if size < CREATE_BUFFER_SIZE {
                return None;
            }
            Some(Packet::Buffer(buffer_fields(part)))
        }
        CREATE_TEXTURE => {
            if size < CREATE_TEXTURE_SIZE {
                return None;
            }
            Some(Packet::Texture(texture_fields(part)))
        }
        DESTROY => {
            if size < DESTROY_SIZE {
                return None;
            }
            Some(Packet::Destroy(destroy_fields(part)))
        }
        DIRTY_RANGE => {
            if size < DIRTY_RANGE_SIZE {
                return None;
            }
            Some(Packet::Dirty(dirty_fields(part)))
        }
        COPY_BUFFER => {
            if size < COPY_BUFFER_SIZE {
                return None;
            }
            Some(Packet::Copy(copy_fields(part)))
        }
        SET_TARGET => {
            if size < SET_TARGET_SIZE {
                return None;
            }
            Some(Packet::Target(target_fields(part)))
        }
        SET_VIEWPORT => {
            if size < SET_VIEWPORT_SIZE {
                return None;
            }
            Some(viewport_packet(part))
        }
        SET_SCISSOR => {
            if size < SET_SCISSOR_SIZE {
                return None;
            }
            Some(Packet::Scissor(scissor_fields(part)))
        }
        CLEAR => {
            if size < CLEAR_SIZE {
                return None;
            }
            Some(clear_packet(part))
        }
        EXPORT_SURFACE => {
            if size < EXPORT_SURFACE_SIZE {
                return None;
            }
            Some(Packet::Export(export_fields(part)))
        }
        IMPORT_SURFACE => {
            if size < IMPORT_SURFACE_SIZE {
                return None;
            }
            Some(Packet::Import(import_fields(part)))
        }
        RELEASE_TOKEN => {
            if size < RELEASE_TOKEN_SIZE {
                return None;
            }
            Some(Packet::Release(release_fields(part)))
        }
        _ => Some(Packet::Unknown),
    }
}
