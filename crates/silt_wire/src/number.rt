// Numbers in words.
ghost use Rattle.std.specs.Prelude.{◌≡◌, ◌≤◌, length, true};
ghost use Rattle.std.specs.Char.{is_ascii_digit};
ghost use Rattle.std.specs.List.{list_all};
ghost use Rattle.std.specs.Str.Parse.{digits_value};
ghost use Rattle.silt_wire.specs.Numbers.{is_numeral, number_of};

/// The most digits that a number may have.
const MOST_DIGITS: usize = 10;

fn has_digits(word: &[u8]) -> bool
    ensures { result ≡ list_all is_ascii_digit word.now }
{
    word.iter().all(|byte| byte.is_ascii_digit())
}

// Whether a word has one to ten decimal digits and nothing else.
fn is_numeral(word: &[u8]) -> bool
    ensures { result ≡ is_numeral word.now }
{
    1 <= word.len() && word.len() <= MOST_DIGITS && has_digits(word)
}

// The number that up to ten digits write.
fn digits_value(digits: &[u8]) -> u64
    requires digits { list_all is_ascii_digit digits.now ≡ true }
    requires short { length digits.now ≤ 10 }
    ensures { result ≡ digits_value 10 digits.now }
{
    let mut value = 0u64;
    for digit in digits {
        value = value * 10 + (*digit - b'0') as u64;
    }
    value
}

/// The number that a word spells: one to ten decimal digits and nothing else, and at most 4,294,967,295.
pub fn number_of(word: &[u8]) -> Option<u32>
    ensures { result ≡ number_of word.now }
{
    if !is_numeral(word) {
        return None;
    }
    let value = digits_value(word);
    if value <= 4_294_967_295 {
        Some(value as u32)
    } else {
        None
    }
}
