//! Numbers in the words of commands.

/// The number that the text writes in decimal digits; zeros may stand in front. None where it is empty, has
/// another character, as a sign, or the number is 2^64 or more.
pub fn number_of(text: &str) -> Option<u64> {
    if !text.as_bytes().iter().all(u8::is_ascii_digit) {
        return None;
    }
    text.parse::<u64>().ok()
}
