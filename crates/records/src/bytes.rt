// Numbers in bytes, the low byte first.
ghost use Rattle.std.specs.Prelude.{◌≡◌, ◌+◌, ◌<◌, length};
ghost use Rattle.records.specs.Bytes.{word, word_at, signed_at};

// Two bytes.
pub(crate) fn figure(low: u8, high: u8) -> u16
    ensures is_the_word { result ≡ word low high }
{
    u16::from_le_bytes([low, high])
}

// The two bytes at a place.
pub(crate) fn figure_at(bytes: &[u8], i: usize) -> u16
    requires { i + 1 < length bytes.now }
    ensures is_the_word_there { result ≡ word_at bytes.now i }
{
    figure(bytes[i], bytes[i + 1])
}

// The four bytes at a place, signed.
pub(crate) fn price_at(bytes: &[u8], i: usize) -> i32
    requires { i + 3 < length bytes.now }
    ensures is_the_number_there { result ≡ signed_at bytes.now i }
{
    i32::from_le_bytes([bytes[i], bytes[i + 1], bytes[i + 2], bytes[i + 3]])
}
