// Text in a lent byte buffer, piece by piece. What does not fit is passed over and only counted, so that the place
// behind the last piece is the length that the whole text needs.
#![tactic(auto)]

ghost use Rattle.std.specs.Prelude.{[], ◌∷◌, ◌+◌, ◌<◌, length};
ghost use Rattle.text.specs.Decimal.{decimal};
ghost use Rattle.text.specs.Putting.{Put};

// Puts one byte at a place, if the buffer reaches there.
pub fn put_byte(text: &mut [u8], at: usize, byte: u8) -> usize
    requires { at < 4294967296 }
    ensures { Put (byte ∷ []) text.old at text.new result }
{
    if at < text.len() {
        text[at] = byte;
    }
    at + 1
}

// Puts some bytes from a place on.
pub fn put_bytes(text: &mut [u8], at: usize, bytes: &[u8]) -> usize
    requires { at + length bytes.now < 4294967296 }
    ensures { Put bytes.now text.old at text.new result }
{
    for (k, byte) in bytes.iter().enumerate() {
        put_byte(text, at + k, *byte);
    }
    at + bytes.len()
}

// Puts a number in decimal, without leading zeros.
pub fn put_number(text: &mut [u8], at: usize, number: u64) -> usize
    requires { at < 4294967000 }
    ensures { Put (decimal number) text.old at text.new result }
{
    let mut digits = [0u8; 20];
    let count = io::decimal(number, &mut digits);
    put_bytes(text, at, &digits[..count])
}
