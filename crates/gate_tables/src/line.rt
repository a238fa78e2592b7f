// An entry's line, as it stands in the source: its value, and in a comment the gate and its inputs' values.
use crate::rule::gate;
use lent::Writer;
use level::Level;

fn value_name(value: u8) -> &'static [u8] {
    match value {
        Level::LOW => b"LOW",
        Level::HIGH => b"HIGH",
        Level::UNKNOWN => b"UNKNOWN",
        _ => b"NONE",
    }
}

// A kind is a byte, as `gate` has it.
fn gate_name(kind: u8) -> &'static [u8] {
    match kind {
        1 => b"buffer",
        2 => b"inverter",
        3 | 10 => b"AND",
        4 | 11 => b"OR",
        5 | 12 => b"XOR",
        6 | 13 => b"NAND",
        7 | 14 => b"NOR",
        8 => b"clocked inverter",
        _ => b"multiplexer",
    }
}

// Puts the inputs' values, divided by commas.
fn put_inputs(out: &mut Writer, inputs: &[u8]) {
    for (i, value) in inputs.iter().enumerate() {
        if i > 0 {
            out.put_all(b", ");
        }
        out.put(Level::printed(*value));
    }
}

// Puts the line of a gate's entry.
pub(crate) fn put_line(out: &mut Writer, kind: u8, inputs: &[u8]) {
    out.put_all(b"    Level::");
    out.put_all(value_name(gate(kind, inputs)));
    out.put_all(b", // ");
    out.put_all(gate_name(kind));
    out.put(b'(');
    put_inputs(out, inputs);
    out.put_all(b")\n");
}
