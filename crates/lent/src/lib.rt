// A lent text: bytes and numbers, each put after what is printed so far.
#![tactic(auto)]

ghost use Rattle.std.specs.Prelude.{[], ◌∷◌, ◌≡◌};
ghost use Rattle.lent.specs.Decimal.{decimal};
ghost use Rattle.lent.specs.Lent.{Prints, Puts};

// A lent text, and the place of its next byte. A byte that does not fit is cut off.
#[derive(Drop)]
pub struct Writer<'a> {
    pub text: &'a mut [u8],
    pub at: usize,
}

// Prints a byte at a place of the text. Answers the place after it; a byte that does not fit is cut off.
fn print(text: &mut [u8], at: usize, byte: u8) -> usize
    ensures { Prints (byte ∷ []) text.old at text.new result }
{
    if at < text.len() {
        text[at] = byte;
        return at + 1;
    }
    at
}

// Prints all of the bytes, one after the other: a copy of them at once asks the C library for memmove, which the header does not name. The place is a
// local of the loop: behind the writer it was read and written anew for each byte, and a sentence took about twice as long.
fn print_all(text: &mut [u8], at: usize, bytes: &[u8]) -> usize
    ensures { Prints bytes.now text.old at text.new result }
{
    let mut to = at;
    for byte in bytes {
        to = print(text, to, *byte);
    }
    to
}

// Prints a number in decimal: the digits of a tenth, if it has one, and then the last digit.
fn print_decimal(text: &mut [u8], at: usize, n: u32) -> usize
    ensures { Prints (decimal n) text.old at text.new result }
{
    if n < 10 {
        return print(text, at, b'0' + n as u8);
    }
    let last = print_decimal(text, at, n / 10);
    print(text, last, b'0' + (n % 10) as u8)
}

impl<'a> Writer<'a> {
    // A lent text, to be written from its start.
    pub fn new(text: &'a mut [u8]) -> Writer<'a>
        ensures lent { result.text.ghost_name ≡ text.entry.ghost_name }
        ensures as_it_was { result.text.now ≡ text.old }
        ensures start { result.at ≡ 0 }
    {
        Writer { text, at: 0 }
    }

    // Puts a byte.
    pub fn put(&mut self, byte: u8)
        ensures { Puts (byte ∷ []) self.old self.new }
    {
        self.at = print(self.text, self.at, byte);
    }

    // Puts all of the bytes.
    pub fn put_all(&mut self, bytes: &[u8])
        ensures { Puts bytes.now self.old self.new }
    {
        self.at = print_all(self.text, self.at, bytes);
    }

    // Puts a number in decimal.
    pub fn put_decimal(&mut self, n: u32)
        ensures { Puts (decimal n) self.old self.new }
    {
        self.at = print_decimal(self.text, self.at, n);
    }
}
