//! Sizes, times, and how long something lasts, as text.

ghost use Rattle.std.specs.Prelude.{◌≡◌};
ghost use Rattle.access_logs.specs.Numerals.{size_of_field, time_of_field, ttl_of_field};

/// The size that a field gives: decimal digits, as `parse` takes them, so zeros may lead, and one `+` before them. Nothing
/// where it is no such number, or more than 4,294,967,295.
pub fn size_of_field(field: &[u8]) -> Option<u32>
    ensures { result ≡ size_of_field field.now }
{
    match str::from_utf8(field) {
        Ok(text) => text.parse::<u32>().ok(),
        Err(_) => None,
    }
}

/// The time that a field gives: decimal digits as a size's. Nothing where it is no such number, or more than
/// 18,446,744,073,709,551,615.
pub fn time_of_field(field: &[u8]) -> Option<u64>
    ensures { result ≡ time_of_field field.now }
{
    match str::from_utf8(field) {
        Ok(text) => text.parse::<u64>().ok(),
        Err(_) => None,
    }
}

/// How long something lasts by a field: decimal digits as a time's, up to the same number.
pub fn ttl_of_field(field: &[u8]) -> Option<u64>
    ensures { result ≡ ttl_of_field field.now }
{
    time_of_field(field)
}
