// The vocabulary of document 01 and of the wishes of 02: the things they speak of, by value, of plain numbers. No function stands here;
// what the rules say of these things is in specs/, a file for each heading.
#![tactic(auto)]

pub mod numbers;

// ---- Layouts: what is read of guest memory, each once

// The ring's header; `head` and `tail` count submissions and wrap.
#[derive(Clone, Copy)]
pub struct RingHeader {
    pub magic: u32,
    pub version: u32,
    pub size: u32,
    pub count: u32,
    pub stride: u32,
    pub head: u32,
    pub tail: u32,
}

// A submission, as its slot of the ring describes it.
#[derive(Clone, Copy)]
pub struct Descriptor {
    pub size: u32,
    pub flags: u32,
    pub cmd: u64,
    pub cmdsize: u32,
    pub table: u64,
    pub tablesize: u32,
    pub signal: u64,
}

// The header of an allocation table.
#[derive(Clone, Copy)]
pub struct TableHeader {
    pub magic: u32,
    pub version: u32,
    pub size: u32,
    pub count: u32,
    pub stride: u32,
}

// One entry of an allocation table: a range of guest memory under an id.
#[derive(Clone, Copy)]
pub struct Entry {
    pub id: u32,
    pub flags: u32,
    pub gpa: u64,
    pub size: u64,
}

// The header of a command stream.
#[derive(Clone, Copy)]
pub struct StreamHeader {
    pub magic: u32,
    pub version: u32,
    pub size: u32,
}

// ---- Packets

// The shape of a texture.
#[derive(Clone, Copy)]
pub struct Shape {
    pub format: u32,
    pub width: u32,
    pub height: u32,
    pub mips: u32,
    pub layers: u32,
}

// A new buffer, of so many bytes, in an entry of the table or host-backed.
#[derive(Clone, Copy)]
pub struct CreateBuffer {
    pub handle: u32,
    pub size: u64,
    pub backing: u32,
    pub offset: u32,
}

// A new texture of a shape, in an entry of the table or host-backed.
#[derive(Clone, Copy)]
pub struct CreateTexture {
    pub handle: u32,
    pub shape: Shape,
    pub pitch: u32,
    pub backing: u32,
    pub offset: u32,
}

// A name that is to go; its resource goes with the last (02, wish 5).
#[derive(Clone, Copy)]
pub struct DestroyResource {
    pub handle: u32,
}

// A range of a resource that the host is to read again.
#[derive(Clone, Copy)]
pub struct DirtyRange {
    pub handle: u32,
    pub offset: u64,
    pub size: u64,
}

// Bytes of one buffer into another; flag bit 0 asks for writeback.
#[derive(Clone, Copy)]
pub struct CopyBuffer {
    pub dst: u32,
    pub src: u32,
    pub dstoffset: u64,
    pub srcoffset: u64,
    pub size: u64,
    pub flags: u32,
}

// The texture that later scissors are clipped to (02, wish 7).
#[derive(Clone, Copy)]
pub struct SetTarget {
    pub handle: u32,
}

// A rectangle and a range of depths. It is judged, and kept nowhere.
#[derive(Clone, Copy)]
pub struct SetViewport {
    pub x: f32,
    pub y: f32,
    pub width: f32,
    pub height: f32,
    pub near: f32,
    pub far: f32,
}

// A rectangle, to be clipped to the target.
#[derive(Clone, Copy)]
pub struct SetScissor {
    pub x: i32,
    pub y: i32,
    pub width: i32,
    pub height: i32,
}

// Flags, a colour, a depth and a stencil. They are judged, and kept nowhere.
#[derive(Clone, Copy)]
pub struct ClearValues {
    pub flags: u32,
    pub red: f32,
    pub green: f32,
    pub blue: f32,
    pub alpha: f32,
    pub depth: f32,
    pub stencil: u32,
}

// A texture that other programs may reach by a token (02, wish 5).
#[derive(Clone, Copy)]
pub struct ExportSurface {
    pub handle: u32,
    pub token: u64,
}

// Another name for the texture that a token is bound to.
#[derive(Clone, Copy)]
pub struct ImportSurface {
    pub handle: u32,
    pub token: u64,
}

// A token that nobody may use any more.
#[derive(Clone, Copy)]
pub struct ReleaseToken {
    pub token: u64,
}

// A packet that is framed well. One whose opcode we do not know is skipped. A viewport or clear with a NaN among its floats is a case of its
// own, since no f32 is made of a NaN's bits.
#[derive(Clone, Copy)]
pub enum Packet {
    Buffer(CreateBuffer),
    Texture(CreateTexture),
    Destroy(DestroyResource),
    Dirty(DirtyRange),
    Copy(CopyBuffer),
    Target(SetTarget),
    Viewport(SetViewport),
    Scissor(SetScissor),
    Clear(ClearValues),
    Export(ExportSurface),
    Import(ImportSurface),
    Release(ReleaseToken),
    NotANumber,
    Unknown,
}

// ---- Resources and records

// What a resource is.
#[derive(Clone, Copy)]
pub enum Kind {
    Buffer,
    Texture(Shape),
}

// A live resource under one of its names, `handle`. Where it has several, each has the same numbers, and `lowest`, the lowest of them, tells which
// resource it is. `bytes` is a buffer's size, a backed texture's packed size, and 0 for a host-backed texture, which takes
// no guest memory. `backing` 0 is host-backed: pitch and offset are then 0.
#[derive(Clone, Copy)]
pub struct Resource {
    pub handle: u32,
    pub kind: Kind,
    pub bytes: u64,
    pub pitch: u32,
    pub backing: u32,
    pub offset: u32,
    pub lowest: u32,
}

// A token that was used since the last reset. `name` is the lowest name of the resource that it is bound to, or 0 once it is spent.
#[derive(Clone, Copy)]
pub struct Token {
    pub name: u32,
    pub token: u64,
}

// What is handed to the host: a range of guest memory, of kind 1 a backing, 2 to be read, 3 to be written; or, of kind 4, a clipped
// rectangle, with left, top, width and height in the places of handle, id, gpa and length.
#[derive(Clone, Copy)]
pub struct Record {
    pub kind: u32,
    pub handle: u32,
    pub id: u32,
    pub gpa: u64,
    pub length: u64,
}

// ---- Judgement

// The rule that was broken, with its number.
#[derive(Clone, Copy, Debug, PartialEq, Eq)]
pub enum Refusal {
    BadRing = 10,
    BadDescriptor = 11,
    OutsideMemory = 12,
    BadTable = 13,
    BadEntry = 14,
    TwiceInTable = 15,
    BadStream = 16,
    BadPacket = 17,
    BadHandle = 18,
    TooMany = 19,
    BadShape = 20,
    NotInTable = 21,
    PastEntry = 22,
    ReadOnly = 23,
    PastResource = 24,
    HostBacked = 25,
    BadCopy = 26,
    HostFailed = 27,
    BadToken = 28,
    UnboundToken = 29,
    BadState = 30,
}

// A broken rule by its number, and where it broke: the index of an entry, the offset of a packet in the stream, or 0.
#[derive(Clone, Copy)]
pub struct Fault {
    pub code: u32,
    pub place: u32,
}

// ---- A submission in work

// What settling needs: the opened ring and the head read from it, the fence to signal, whether it is silent (no-IRQ).
#[derive(Clone, Copy)]
pub struct Job {
    pub ring: u64,
    pub head: u32,
    pub signal: u64,
    pub silent: bool,
}

// The numbers kept of a checked table header; without a table the count is 0.
#[derive(Clone, Copy)]
pub struct Table {
    pub gpa: u64,
    pub count: u32,
    pub stride: u32,
}

// The numbers kept of a checked stream header; without a stream the size is 0.
#[derive(Clone, Copy)]
pub struct Stream {
    pub gpa: u64,
    pub size: u32,
}

// A submission that was opened: all that later steps use of what was read at opening.
#[derive(Clone, Copy)]
pub struct Opened {
    pub job: Job,
    pub table: Table,
    pub stream: Stream,
}

// How an opening ends.
#[derive(Clone, Copy)]
pub enum Opening {
    BadRing,
    NoWork,
    Refused(Job, Refusal),
    Started(Opened),
}

// ---- Registers and answers

// The last error: its code, the signal fence of its submission, how many there were, and where it broke. They change together.
#[derive(Clone, Copy)]
pub struct LastError {
    pub code: u32,
    pub fence: u64,
    pub count: u32,
    pub detail: u32,
}

// The registers' numbers, and the doorbell flag. IRQ status is its two bits.
#[derive(Clone, Copy)]
pub struct Registers {
    pub ring: u64,
    pub ringsize: u32,
    pub enabled: bool,
    pub fencepage: u64,
    pub completed: u64,
    pub fenced: bool,
    pub failed: bool,
    pub irqenable: u32,
    pub error: LastError,
    pub doorbell: bool,
}

// How a run ended.
#[derive(Clone, Copy)]
pub enum Ended {
    Idle,
    Waiting,
    Paused,
}

// ---- Saved desks (02, wishes 1 and 11)

// A form of a saved desk, by its number.
#[derive(Clone, Copy)]
pub enum Form {
    One,
    Two,
}

// ---- What differs between two dumps (02, wish 8)

// A stream that breaks a rule, and which of the two it is, 1 or 2.
#[derive(Clone, Copy, Debug, PartialEq, Eq)]
pub struct RefusedStream {
    pub why: Refusal,
    pub which: u32,
}

// How the packets with one index compare.
#[derive(Clone, Copy, Debug, PartialEq, Eq)]
pub enum Class {
    Equal,
    SameOpcode,
    OtherOpcode,
    OnlyFirst,
    OnlySecond,
    Neither,
}

// A place in each of two streams: that of the packets with one index.
#[derive(Clone, Copy)]
pub struct Cursor {
    pub first: usize,
    pub second: usize,
}

// The packets at a cursor: how they compare, where each is and its size, 0 where there is none.
#[derive(Clone, Copy)]
pub struct Pair {
    pub class: Class,
    pub first: usize,
    pub firstsize: usize,
    pub second: usize,
    pub secondsize: usize,
}
