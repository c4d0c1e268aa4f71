//! Reads numbers of JSON.

ghost use Rattle.std.specs.Prelude.{◌≡◌, option_map, true, false};
ghost use Rattle.serde_json.specs.Read.{number_of, number_from};
ghost use Rattle.serde_json.specs.View.{number_view};

use fast_float::Numeral;
use serde_json::Number;

/// The number that a token of JSON writes, if it is in range.
pub(crate) fn number_of(text: &str) -> Option<Number>
    ensures { option_map number_view result ≡ number_of text.now }
{
    let bytes = text.as_bytes();
    match bytes.first() {
        Some(b'-') => negative(&Numeral::scan(&bytes[1..])),
        _ => unsigned(&Numeral::scan(bytes)),
    }
}

fn unsigned(numeral: &Numeral<'_>) -> Option<Number>
    ensures { option_map number_view result ≡ number_from false numeral.now }
{
    match numeral.to_u64() {
        Some(number) => Number::from_u128(u128::from(number)),
        None => Number::from_f64(numeral.to_float::<f64>(false)),
    }
}

fn negative(numeral: &Numeral<'_>) -> Option<Number>
    ensures { option_map number_view result ≡ number_from true numeral.now }
{
    match numeral.to_i64(true) {
        Some(number) if number < 0 => Number::from_i128(i128::from(number)),
        _ => Number::from_f64(numeral.to_float::<f64>(true)),
    }
}
