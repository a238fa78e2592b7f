// Prints the source of the gates' constant tables, crates/level/src/tables.rt, each entry worked out from its gate's rule.
#![tactic(auto)]

mod line;
mod rule;

ghost use Rattle.std.specs.Prelude.{◌≤◌};

use crate::line::put_line;
use lent::Writer;
use level::{LAST_KIND, MEMORY};

// Room for the text: 488 lines of at most 50 bytes, and what stands before and after them. A longer one would be cut off.
// It is an array, since there is no heap.
const TEXT: usize = 26000;

// The entries of a table, by how many inputs its kind has.
fn entries(inputs: usize) -> u8
    ensures { result ≤ 64 }
{
    match inputs {
        1 => 4,
        2 => 16,
        _ => 64,
    }
}

// Puts what stands before the entries.
fn put_head(out: &mut Writer) {
    out.put_all(
        b"// The gates' tables, kind after kind, as the program of crates/gate_tables prints this file.\n",
    );
    out.put_all(
        b"// Kinds 1 and 2 have 4 entries each, by the input's value; kinds 3 to 8 have 16, by the first\n",
    );
    out.put_all(
        b"// input's value and then the second's; kinds 10 to 15 have 64, by the third's after these.\n",
    );
    out.put_all(b"use crate::Level;\nuse crate::TABLE_ENTRIES;\n\n");
    out.put_all(b"pub(crate) const TABLES: [u8; TABLE_ENTRIES] = [\n");
}

// Puts the entries of a kind, the first input's value counting most.
fn put_entries(out: &mut Writer, kind: u8) {
    let n = level::inputs(kind) as usize;
    for place in 0..entries(n) {
        let inputs = [place / 16 % 4, place / 4 % 4, place % 4];
        put_line(out, kind, &inputs[3 - n..]);
    }
}

// Puts the whole text: the table of each kind that has one.
fn put_tables(out: &mut Writer) {
    put_head(out);
    for kind in 1..=LAST_KIND {
        if kind != MEMORY {
            put_entries(out, kind);
        }
    }
    out.put_all(b"];\n");
}

fn main(rt: HostRuntime) {
    let mut text = [0u8; TEXT];
    let mut out = Writer::new(&mut text);
    put_tables(&mut out);
    let n = out.at;
    if n <= TEXT {
        if rt.stdout().write_all(&text[..n]).is_err() {
            let _ = eprintln!(rt; "gate_tables: standard output did not take the whole text");
        }
    }
}
