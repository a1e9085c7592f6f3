//! The position of a column in a record.
ghost use Rattle.std.specs.Prelude.{◌≡◌, ◌<◌, ◌++◌, [], true, false, All, IfErr, IfOk, length};
ghost use Rattle.std.specs.List.{range_with_len};
ghost use Rattle.records_tables.specs.primary_rows.Firsts.{firsts, has_number, place_of};

/// Where a column stands among those of a key, each of which counts once; the error is how many there are, where it is none of
/// them.
fn place_in_key(key: &[usize], column: usize) -> Result<usize, usize>
    ensures found { IfOk result (λ place. (has_number key.now column ≡ true) × (place ≡ place_of (firsts [] key.now) column)) }
    ensures none { IfErr result (λ count. (has_number key.now column ≡ false) × (count ≡ length (firsts [] key.now))) }
{
    let mut count = 0;
    for (at, other) in key.iter().enumerate() {
        if *other == column {
            return Ok(count);
        }
        if !key[..at].contains(other) {
            count += 1;
        }
    }
    Err(count)
}

/// The place in a record of a column of its table, which has so many: the columns of the key come first, each once, and then the
/// others in their order. (Database File Format, section 2.4 "Representation Of WITHOUT ROWID Tables")
pub(crate) fn record_place(key: &[usize], width: usize, column: usize) -> usize
    requires key { All (λ place. place < width) key.now }
    requires within { column < width }
    ensures place { result ≡ place_of (firsts [] (key.now ++ range_with_len 0 width)) column }
    ensures within { result < width }
{
    let mut place = match place_in_key(key, column) {
        Ok(place) => return place,
        Err(count) => count,
    };
    for other in 0..column {
        if !key.contains(&other) {
            place += 1;
        }
    }
    place
}
