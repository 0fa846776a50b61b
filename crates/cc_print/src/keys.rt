//! Keys, as they are read.
ghost use Rattle.std.specs.Prelude.{◌≡◌, ◌==◌, IfOk};
ghost use Rattle.std.specs.List.{slice_split};
ghost use Rattle.cc_print.specs.Keys.{IsReadAsKey, number_read, numbers_read, row_read};

use cc_defs::{Key, OutOfMemory, Row, is_numeral, number_of_digits};
use std::alloc::Global;

/// A key as `--after` takes it: the horizon, `:`, and the indexes of the row with `,` between them, each number of one to
/// nine digits. Nothing where the text is that of no key.
pub fn read_key(alloc: Global, text: &str) -> Result<Option<Key>, OutOfMemory>
    ensures { IfOk result (λ found. IsReadAsKey text.now found) }
{
    let Some((horizon, row)) = text.split_once(':') else {
        return Ok(None);
    };
    let Some(horizon) = read_number(horizon) else {
        return Ok(None);
    };
    match read_row(alloc, row)? {
        Some(row) => Ok(Some(Key { horizon, row })),
        None => Ok(None),
    }
}

/// The row of a text of indexes; a row without positions has the empty text.
fn read_row(alloc: Global, text: &str) -> Result<Option<Row>, OutOfMemory>
    ensures { IfOk result (λ found. found ≡ row_read text.now) }
{
    if text.is_empty() {
        Ok(Some(Row::of(Vec::new(alloc))))
    } else {
        read_indexes(alloc, text)
    }
}

/// The indexes between the commas of a text.
fn read_indexes(alloc: Global, text: &str) -> Result<Option<Row>, OutOfMemory>
    ensures { IfOk result (λ found. found ≡ numbers_read (slice_split (λ b. b == 44) text.now)) }
{
    let mut row = Vec::new(alloc);
    for part in text.split(',') {
        let Some(index) = read_number(part) else {
            return Ok(None);
        };
        row.push(index)?;
    }
    Ok(Some(Row::of(row)))
}

/// The number of one to nine digits.
fn read_number(text: &str) -> Option<u32>
    ensures { result ≡ number_read text.now }
{
    if is_numeral(text.as_bytes()) && text.len() <= 9 {
        Some(number_of_digits(text))
    } else {
        None
    }
}
