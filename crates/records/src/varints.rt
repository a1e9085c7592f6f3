//! Variable-length integers.
ghost use Rattle.std.specs.Prelude.{◌≡◌, ◌↔◌, ℕ, ℤ, Some, IsNone, IfSome};
ghost use Rattle.records.specs.Varint.{BeginsVarint, EndsInside};

/// The value of the varint with which the bytes begin, and its length, byte by byte.
#[inline(never)]
fn varint_by_bytes(bytes: &[u8]) -> Option<(i64, usize)>
    ensures found { IfSome result (λ found. BeginsVarint bytes.now found.0 found.1) }
    ensures only { (value : ℤ) (len : ℕ) → BeginsVarint bytes.now value len → result ≡ Some (value, len) }
    ensures none { IsNone result ↔ EndsInside bytes.now }
{
    let mut bits: u64 = 0;
    for (read, byte) in bytes.iter().enumerate() {
        let byte = u64::from(*byte);
        if read == 8 {
            return Some(((bits * 256 + byte).cast_signed(), 9));
        }
        bits = bits * 128 + byte % 128;
        if byte < 128 {
            return Some((bits.cast_signed(), read + 1));
        }
    }
    None
}

/// The value of the varint with which the bytes begin, and its length, 1 to 9; `None` where the bytes end inside it. One
/// that is longer than its value needs is read too. (Database File Format, section 1.6)
#[inline(always)]
pub fn varint(bytes: &[u8]) -> Option<(i64, usize)>
    // What is read is a front of the bytes.
    ensures found { IfSome result (λ found. BeginsVarint bytes.now found.0 found.1) }
    // A front of the bytes that is a varint is read.
    ensures only { (value : ℤ) (len : ℕ) → BeginsVarint bytes.now value len → result ≡ Some (value, len) }
    ensures none { IsNone result ↔ EndsInside bytes.now }
{
    // Most are of one byte, and the rowids of most tables of two or three.
    match bytes {
        [byte, ..] if *byte < 128 => Some((i64::from(*byte), 1)),
        [first, last, ..] if *last < 128 => {
            Some((i64::from(*first % 128) * 128 + i64::from(*last), 2))
        }
        [first, second, last, ..] if *last < 128 => {
            let front = u64::from(*first % 128) * 128 + u64::from(*second % 128);
            Some(((front * 128 + u64::from(*last)).cast_signed(), 3))
        }
        _ => varint_by_bytes(bytes),
    }
}
