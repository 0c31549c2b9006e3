// Decimal numbers without a sign.
use std::str::FromStr;

// The number that a word writes with digits alone, where it fits.
pub(crate) fn number<T: FromStr>(word: &str) -> Option<T>
where
    T::Err: Drop,
{
    // parse takes a plus sign too
    if word.starts_with('+') {
        return None;
    }
    word.parse().ok()
}
