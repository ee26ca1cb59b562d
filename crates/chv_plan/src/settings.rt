// The settings of an INSERT.
ghost use Rattle.std.specs.Prelude.{◌≡◌, ◌≤◌, Ok, Err, IfOk, IfErr};
ghost use Rattle.chv_query.specs.Plans.{is_long, setting_in, sizes_for};

use chv_ast::{Digits, Quoted, Refusal, Settings};
use chv_block::Sizes;
use chv_catalog::number_within;

// The most rows of a piece, and of the least group.
const MOST_ROWS: u64 = 1_048_576;

// The most bytes of the least group.
const MOST_BYTES: u64 = 1_073_741_824;

// The longest token.
const MAX_TOKEN: usize = 255;

/// How large the blocks of an insert are to be, by its settings.
pub fn sizes_for(settings: &Settings) -> Result<Sizes, Refusal>
    ensures sizes { IfOk result (λ sizes. (sizes_for settings.now ≡ Ok sizes) × (1 ≤ sizes.max_rows)) }
    ensures refused { IfErr result (λ refusal. sizes_for settings.now ≡ Err refusal) }
{
    Ok(Sizes {
        max_rows: setting_in(1, MOST_ROWS, 65_536, &settings.max_rows)?,
        min_rows: setting_in(0, MOST_ROWS, 65_536, &settings.min_rows)?,
        min_bytes: setting_in(0, MOST_BYTES, 16_777_216, &settings.min_bytes)?,
    })
}

// The number of a setting, from the least to the most that it may be, or its default.
fn setting_in(
    least: u64,
    most: u64,
    otherwise: u64,
    digits: &Option<Digits>,
) -> Result<u64, Refusal>
    requires default { (least ≤ otherwise) × (otherwise ≤ most) }
    ensures number { result ≡ setting_in least most otherwise digits.now }
    ensures within { IfOk result (λ number. (least ≤ number) × (number ≤ most)) }
{
    match digits {
        Some(digits) => number_within(least, most, digits.as_slice()),
        None => Ok(otherwise),
    }
}

/// Whether a token is longer than 255 bytes.
pub fn is_long(token: &Option<Quoted>) -> bool
    ensures { result ≡ is_long token.now }
{
    match token {
        Some(token) => token.len() > MAX_TOKEN,
        None => false,
    }
}
