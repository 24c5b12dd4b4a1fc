// Plays a desk script on the device and prints the transcript, a line an operation: a script is the same on every desk.
// What cannot be played on ends the transcript with a line that says why.
#![tactic(auto)]

mod operations;
mod script;
mod state;

ghost use Rattle.std.specs.Prelude.{◌≡◌};

use crate::operations::operate;
use crate::script::{LONGEST_SCRIPT, Script, ScriptError};
use device::Device;
use program_lines::read_front;
use std::alloc::AllocError;
use std::io;

// Why a script is played no further: it cannot be, or memory runs out.
#[derive(Clone, Copy)]
enum Stop {
    Script(ScriptError),
    Memory(AllocError),
}

impl From<ScriptError> for Stop {
    fn from(e: ScriptError) -> Stop {
        Stop::Script(e)
    }
}

impl From<AllocError> for Stop {
    fn from(e: AllocError) -> Stop {
        Stop::Memory(e)
    }
}

// Plays every operation of a script on a new device, which is lent a memory of zeros.
fn play(rt: &(impl Print + AllocGlobal), bytes: &[u8]) -> Result<(), Stop> {
    let (script, length) = Script::open(bytes)?;
    let mut memory = vec![in rt.alloc(); 0u8; length]?;
    let mut device = Device::new(length);
    for operation in script {
        operate(rt, operation?, &mut device, memory.as_mut_slice())?;
    }
    Ok(())
}

// The transcript of a script. A line that cannot be printed is passed over; the run goes on to its end, and the status is 0 all the same.
fn replay(rt: &(impl Print + AllocGlobal), bytes: &[u8]) -> Result<(), AllocError> {
    match play(rt, bytes) {
        Ok(()) => (),
        Err(Stop::Script(e)) => {
            let _ = println!(rt; "{e}");
        }
        Err(Stop::Memory(e)) => return Err(e),
    }
    Ok(())
}

// Room for the longest script, and a byte more, to tell one that is too long.
fn script_room() -> u64
    ensures { 1048577 ≡ result }
{
    LONGEST_SCRIPT as u64 + 1
}

fn main(rt: HostRuntime) -> io::Result<()> {
    let bytes = read_front(rt.alloc(), rt.reader(), script_room())?;
    replay(&rt, bytes.as_slice())?;
    Ok(())
}
