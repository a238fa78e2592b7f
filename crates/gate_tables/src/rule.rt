// The gates' rules, each worked out over the list of its inputs' values as its definition says it.
ghost use Rattle.std.specs.Prelude.{◌≡◌, map, take, if◌then◌else◌};
ghost use Rattle.level.specs.Level.{unknown};
ghost use Rattle.level.specs.Gate.{counted, input_at, some, every, odd_ones, inverse, common, buffer, inverter, and, or, xor};
ghost use Rattle.level.specs.Gate.{nand, nor, clocked_inverter, multiplexer};
ghost use Rattle.level.specs.Rule.{comes_to};
ghost use Rattle.level.specs.Kind.{rule_of};

use level::Level;

// An input of Z counts as X.
fn counted(a: u8) -> u8
    ensures { result ≡ counted a }
{
    if a == Level::NONE { Level::UNKNOWN } else { a }
}

// The value of the input at a place, and X where there is none.
fn input_at(inputs: &[u8], i: usize) -> u8
    ensures { result ≡ input_at inputs.now i }
{
    inputs.get(i).copied().unwrap_or(Level::UNKNOWN)
}

// Whether one of the inputs has the value.
fn some(v: u8, inputs: &[u8]) -> bool
    ensures { result ≡ some v inputs.now }
{
    inputs.iter().any(|a| *a == v)
}

// Whether one of the inputs counts as X.
#[tactic(auto, using(crate::proofs::Passed::counted_unknown))]
fn some_unknown(inputs: &[u8]) -> bool
    ensures { result ≡ some unknown (map counted inputs.now) }
{
    some(Level::UNKNOWN, inputs) || some(Level::NONE, inputs)
}

// Whether every one has a value.
fn every(v: u8, inputs: &[u8]) -> bool
    ensures { result ≡ every v inputs.now }
{
    inputs.iter().all(|a| *a == v)
}

// Whether an odd count of the inputs are 1.
fn odd_ones(inputs: &[u8]) -> bool
    ensures { result ≡ odd_ones inputs.now }
{
    inputs.iter().filter(|a| **a == Level::HIGH).count() % 2 == 1
}

// 0 gives 1, 1 gives 0, X gives X.
fn inverse(a: u8) -> u8
    ensures { result ≡ inverse a }
{
    if a == Level::LOW {
        Level::HIGH
    } else if a == Level::HIGH {
        Level::LOW
    } else {
        Level::UNKNOWN
    }
}

// Each gate stands under its own name, as in the definitions: one function for two of them would take the other function.
fn buffer(inputs: &[u8]) -> u8
    ensures { result ≡ buffer inputs.now }
{
    counted(input_at(inputs, 0))
}

fn inverter(inputs: &[u8]) -> u8
    ensures { result ≡ inverter inputs.now }
{
    inverse(input_at(inputs, 0))
}

// The first value if one input has it, the second if every one has, and X else.
fn decided(one: u8, all: u8, inputs: &[u8]) -> u8
    ensures { result ≡ (if some one inputs.now then one else if every all inputs.now then all else unknown) }
{
    if some(one, inputs) {
        one
    } else if every(all, inputs) {
        all
    } else {
        Level::UNKNOWN
    }
}

fn and(inputs: &[u8]) -> u8
    ensures { result ≡ and inputs.now }
{
    decided(Level::LOW, Level::HIGH, inputs)
}

fn or(inputs: &[u8]) -> u8
    ensures { result ≡ or inputs.now }
{
    decided(Level::HIGH, Level::LOW, inputs)
}

// X or Z among the inputs gives X.
fn xor(inputs: &[u8]) -> u8
    ensures { result ≡ xor inputs.now }
{
    if some_unknown(inputs) {
        Level::UNKNOWN
    } else if odd_ones(inputs) {
        Level::HIGH
    } else {
        Level::LOW
    }
}

fn nand(inputs: &[u8]) -> u8
    ensures { result ≡ nand inputs.now }
{
    inverse(and(inputs))
}

fn nor(inputs: &[u8]) -> u8
    ensures { result ≡ nor inputs.now }
{
    inverse(or(inputs))
}

fn clocked_inverter(inputs: &[u8]) -> u8
    ensures { result ≡ clocked_inverter inputs.now }
{
    let clock = input_at(inputs, 1);
    if clock == Level::HIGH {
        inverter(inputs)
    } else if clock == Level::LOW {
        Level::NONE
    } else {
        Level::UNKNOWN
    }
}

// The first two inputs.
fn first_two(inputs: &[u8]) -> &[u8]
    ensures { result.now ≡ take 2 inputs.now }
{
    &inputs[..inputs.len().min(2)]
}

// The value that all have, where all are 0 or all are 1, and X else. Here no one input decides, so this is not `decided`.
fn common(inputs: &[u8]) -> u8
    ensures { result ≡ common inputs.now }
{
    if every(Level::LOW, inputs) {
        Level::LOW
    } else if every(Level::HIGH, inputs) {
        Level::HIGH
    } else {
        Level::UNKNOWN
    }
}

fn multiplexer(inputs: &[u8]) -> u8
    ensures { result ≡ multiplexer inputs.now }
{
    let choice = input_at(inputs, 2);
    if choice == Level::HIGH {
        counted(input_at(inputs, 1))
    } else if choice == Level::LOW {
        counted(input_at(inputs, 0))
    } else {
        common(first_two(inputs))
    }
}

// What a kind's rule comes to at its inputs' values, with parameter 0 and held value 0. Kinds are document 01's numbers, and its tables are
// read at them.
pub(crate) fn gate(kind: u8, inputs: &[u8]) -> u8
    ensures { result ≡ comes_to (rule_of kind 0) inputs.now 0 }
{
    match kind {
        0 | 9 => Level::LOW,
        1 => buffer(inputs),
        2 => inverter(inputs),
        3 | 10 => and(inputs),
        4 | 11 => or(inputs),
        5 | 12 => xor(inputs),
        6 | 13 => nand(inputs),
        7 | 14 => nor(inputs),
        8 => clocked_inverter(inputs),
        15 => multiplexer(inputs),
        _ => Level::UNKNOWN,
    }
}
