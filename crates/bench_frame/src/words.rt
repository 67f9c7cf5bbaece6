//! Numbers among the words with which a bench is called.
ghost use Rattle.std.specs.Prelude.{◌≡◌};
ghost use Rattle.bench_frame.specs.Numbers.{number_in};

/// The number that the text writes in decimal digits; zeros may stand in front. None where the text is
/// empty or has another character, as a sign, or where the number is below `least` or above `most`.
pub fn number_in(text: &str, least: u64, most: u64) -> Option<u64>
    ensures { result ≡ number_in text.now least most }
{
    let first = text.as_bytes().first()?;
    if !first.is_ascii_digit() {
        return None;
    }
    let Ok(number) = text.parse::<u64>() else {
        return None;
    };
    if least <= number && number <= most {
        Some(number)
    } else {
        None
    }
}
