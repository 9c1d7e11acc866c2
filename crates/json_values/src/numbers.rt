ghost use Rattle.std.specs.Prelude.{◌≡◌, ◌≤◌, IfSome};
ghost use Rattle.serde_json.specs.View.{view};
ghost use Rattle.json_values.specs.Numbers.{number_between, u32_of, u16_of};

use serde_json::Value;

/// The value as a whole number between these two, both included.
///
/// A number that is written with a fraction or an exponent isn't whole.
pub fn number(v: &Value, low: u32, high: u32) -> Option<u32>
    ensures is { result ≡ number_between low high (view v.now) }
    ensures within { IfSome result (λ n. (low ≤ n) × (n ≤ high)) }
{
    // serde_json gives no u64 for a number that is written with a fraction, an exponent or a minus sign.
    match v.as_u64() {
        Some(n) if low as u64 <= n && n <= high as u64 => Some(n as u32),
        _ => None,
    }
}

/// The value as a whole number of 32 bits.
pub fn u32_of(v: &Value) -> Option<u32>
    ensures { result ≡ u32_of (view v.now) }
{
    number(v, 0, u32::MAX)
}

/// The value as a whole number of 16 bits.
pub fn u16_of(v: &Value) -> Option<u16>
    ensures { result ≡ u16_of (view v.now) }
{
    match number(v, 0, u16::MAX as u32) {
        Some(n) => Some(n as u16),
        None => None,
    }
}
