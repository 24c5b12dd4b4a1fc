// Example 5: the completed fence never falls, and the IRQ comes only where it rises.

// What a good submission with this signal fence leaves, of a completed fence and a clear IRQ status.
fn signal_line(rt: &impl Print, completed: u64, signal: u64) {
    let after = settle_registers::completed_after(completed, signal);
    let raised = settle_registers::fenced_after(false, completed, signal, false);
    let irq = if raised { "IRQ" } else { "no IRQ" };
    let _ = println!(rt;
        "example 5: completed {completed}, signal {signal}: completed {after}, {irq}"
    );
}

// A fence below the completed one, the same again, and one above it.
pub fn example_5(rt: &impl Print) {
    signal_line(rt, 9, 7);
    signal_line(rt, 9, 9);
    signal_line(rt, 9, 10);
}
