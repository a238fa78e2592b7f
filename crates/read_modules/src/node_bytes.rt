// After the modules, each node's byte: an initial value for a driven node, and 4 for an input.
ghost use Rattle.std.specs.Prelude.{false, not, ◌&&◌, ◌||◌, ◌≡◌, ◌≤◌, eqb, ltb, get_or, length};
ghost use Rattle.sheet.specs.Limits.{input_byte, most_nodes};
ghost use Rattle.sheet.specs.Enumerate.{each};
ghost use Rattle.sheet.specs.Refusal.{first};
ghost use Rattle.sheet.specs.Told.{refusal_in};
ghost use Rattle.read_modules.specs.Record.{byte_rows};

use sheet::{INPUT, NODES, Refusal};

// Whether a node's byte is wrong: 4 where it is driven, or 0 to 3 where it is not.
fn wrong_byte(byte: u8, driven: bool) -> bool
    ensures { result ≡ (driven && eqb byte input_byte || not driven && ltb byte input_byte) }
{
    if driven { byte == INPUT } else { byte < INPUT }
}

// The refusal met at a node.
#[tactic(auto, unfolding(sheet::specs::Refusal::first))]
fn byte_refusal(v: u32, byte: u8, driven: bool) -> Result<(), Refusal>
    ensures { refusal_in result ≡ first (byte_rows v byte driven) }
{
    if wrong_byte(byte, driven) {
        return Err(Refusal::NodeUse(v));
    }
    Ok(())
}

// The first refusal met at a node's byte.
pub(crate) fn first_byte_refusal(nodes: &[u8], driven: &[bool; NODES]) -> Result<(), Refusal>
    requires { length nodes.now ≤ most_nodes }
    ensures { refusal_in result
        ≡ first (each (length nodes.now) (λ v. byte_rows v (get_or nodes.now v 0) (get_or driven.now v false))) }
{
    for (v, byte) in nodes.iter().enumerate() {
        byte_refusal(v as u32, *byte, driven[v])?;
    }
    Ok(())
}
