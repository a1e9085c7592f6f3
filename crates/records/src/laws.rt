//! What holds of the definitions alone, and examples of them.
ghost use Rattle.std.specs.Prelude.{◌≡◌, ◌≤◌, List, ℕ, ℤ, pos, negsuc, [], ◌∷◌, ◌++◌, length, replicate};
ghost use Rattle.values.specs.Datum.{Datum, int, text};
ghost use Rattle.records.specs.Varint.{IsVarint, EndsInside};
ghost use Rattle.records.specs.Record.{IsRecord, Breaks};
ghost use Rattle.records.specs.declared.fault.RecordFault.{RecordFault};
ghost use Rattle.records.specs.declared.fault.RecordFault.TheVariants.{Bad, Float, Text, NoMemory};

/// No varint begins another, so bytes begin with one at most.
pub fn one_varint()
    ensures { (a x b y : List ℕ) (v w : ℤ) → IsVarint a v → IsVarint b w → a ++ x ≡ b ++ y
        → (a ≡ b) × (v ≡ w) }
{}

/// A varint has one to nine bytes.
pub fn varint_length()
    ensures { (bytes : List ℕ) (value : ℤ) → IsVarint bytes value → (1 ≤ length bytes) × (length bytes ≤ 9) }
{}

/// Bytes are one record at most.
pub fn one_record()
    ensures { (bytes : List ℕ) (first second : List Datum) → IsRecord bytes first → IsRecord bytes second
        → first ≡ second }
{}

/// Bytes in which a fault's condition stands are no record, but for want of memory, which says nothing of them.
pub fn no_record_is_broken()
    ensures { (fault : RecordFault) (bytes : List ℕ) (values : List Datum) → Breaks fault bytes → IsRecord bytes values
        → fault ≡ NoMemory }
{}

/// Varints of the format, and bytes that end inside one.
pub fn varint_examples()
    ensures two_bytes { IsVarint (0x81 ∷ 0x00 ∷ []) (pos 128) }
    ensures padded { IsVarint (0x80 ∷ 0x01 ∷ []) (pos 1) }
    ensures nine_bytes { IsVarint (replicate 9 0xff) (negsuc 0) }
    ensures cut { EndsInside (0x81 ∷ []) }
{}

/// Records of the format.
pub fn record_examples()
    ensures number_and_text { IsRecord (0x03 ∷ 0x01 ∷ 0x13 ∷ 0x2a ∷ 0x61 ∷ 0x62 ∷ 0x63 ∷ [])
        (int (pos 42) ∷ text (0x61 ∷ 0x62 ∷ 0x63 ∷ []) ∷ []) }
    ensures zero_and_one { IsRecord (0x03 ∷ 0x08 ∷ 0x09 ∷ []) (int (pos 0) ∷ int (pos 1) ∷ []) }
    ensures no_values { IsRecord (0x01 ∷ []) [] }
{}

/// Bytes that are no record, and why.
pub fn broken_examples()
    ensures past_the_end { Breaks Bad (0x02 ∷ []) }
    ensures one_byte_less { Breaks Bad (0x03 ∷ 0x01 ∷ 0x13 ∷ 0x2a ∷ 0x61 ∷ 0x62 ∷ []) }
    ensures type_ten { Breaks Bad (0x02 ∷ 0x0a ∷ []) }
    ensures type_seven { Breaks Float (0x02 ∷ 0x07 ∷ replicate 8 0) }
    ensures not_utf8 { Breaks Text (0x02 ∷ 0x0f ∷ 0xff ∷ []) }
{}
