//! Values of options.
ghost use Rattle.std.specs.Prelude.{◌≡◌, ◌≤◌, ◌^◌, nat_lt, IfSome, IsTrue};
ghost use Rattle.std.specs.List.{list_all};
ghost use Rattle.std.specs.Char.{is_ascii_digit};
ghost use Rattle.page_access.specs.Pages.{is_page_size};
ghost use Rattle.command_line.specs.Numbers.{has_leading_zero, number_of, page_size_of, reserved_of, rows_of, where_true};

// The most rows of a trial.
const MOST_ROWS: u32 = 100000;

const PAGE_SIZES: [u32; 8] = [512, 1024, 2048, 4096, 8192, 16384, 32768, 65536];

/// The page size in bytes that the text writes.
pub(crate) fn page_size_in(text: &str) -> Option<u32>
    ensures value { result ≡ page_size_of text.now }
    ensures valid { IfSome result (λ s. IsTrue (is_page_size s)) }
{
    let size = number_in(text)?;
    if PAGE_SIZES.contains(&size) {
        Some(size)
    } else {
        None
    }
}

/// The number of rows that the text writes, at most 100000.
pub(crate) fn rows_in(text: &str) -> Option<u32>
    ensures value { result ≡ rows_of text.now }
    ensures few { IfSome result (λ n. n ≤ 100000) }
{
    let rows = number_in(text)?;
    if rows <= MOST_ROWS { Some(rows) } else { None }
}

/// The number of reserved bytes that the text writes, from 0 to 255.
pub(crate) fn reserved_in(text: &str) -> Option<u8>
    ensures { result ≡ reserved_of text.now }
{
    u8::try_from(number_in(text)?).ok()
}

// The number below 2^32 that the text writes.
#[tactic(auto, unfolding(crate::specs::Numbers::number_of))]
fn number_in(text: &str) -> Option<u32>
    ensures { result ≡ where_true (λ n. nat_lt n (2 ^ 32)) (number_of text.now) }
{
    let digits = text.as_bytes();
    if digits.is_empty() {
        return None;
    }
    if !are_digits(digits) {
        return None;
    }
    if has_leading_zero(digits) {
        return None;
    }
    text.parse::<u32>().ok()
}

// A zero that other digits follow.
fn has_leading_zero(digits: &[u8]) -> bool
    ensures { result ≡ has_leading_zero digits.now }
{
    matches!(digits, [b'0', _, ..])
}

fn are_digits(bytes: &[u8]) -> bool
    ensures { result ≡ list_all is_ascii_digit bytes.now }
{
    bytes.iter().all(|byte| byte.is_ascii_digit())
}
