// Numbers within bounds.
ghost use Rattle.std.specs.Prelude.{◌≡◌, ◌≤◌, IfOk};
ghost use Rattle.chv_catalog.specs.Checks.{number_within};

use chv_ast::Refusal;
use chv_types::whole_number;

/// The number that digits write, from the least to the most that it may be.
pub fn number_within(least: u64, most: u64, digits: &[u8]) -> Result<u64, Refusal>
    ensures number { result ≡ number_within least most digits.now }
    ensures within { IfOk result (λ number. (least ≤ number) × (number ≤ most)) }
{
    match whole_number(digits) {
        Some(number) if number >= least && number <= most => Ok(number),
        _ => Err(Refusal::LimitPassed),
    }
}
