// Reading numbers.
ghost use Rattle.std.specs.Prelude.{◌≡◌, ℕ, ◌+◌, ◌*◌, ◌<◌, ◌≤◌, ◌^◌, ◌↔◌, ◌⊎◌, IfNone, IfSome, IsTrue, length};
ghost use Rattle.std.specs.Prelude.{slice_index, List, ◌∷◌, ◌++◌};
ghost use Rattle.std.specs.Char.{digit_char, digit_value};
ghost use Rattle.std.specs.Fmt.{decimal};
ghost use Rattle.action_tables.specs.Cuts.{AreLeadingDigits};

/// The number that a word spells: decimal digits, without leading zeros, at most 4294967295.
pub fn read_number(word: &[u8]) -> Option<u32>
    ensures found { IfSome result (λ n. word.now ≡ decimal n) }
    ensures small { IfSome result (λ n. n < 2 ^ 32) }
    ensures only { IfNone result ((n : ℕ) → n < 2 ^ 32 → word.now ≡ decimal n → ⊥) }
{
    let (value, rest) = leading_value(word)?;
    if is_empty_or_padded(word) {
        return None;
    }
    if !rest.is_empty() {
        return None;
    }
    Some(value)
}

/// The number that a text begins with, as a word that this byte ends, and what follows the byte. It is no digit.
#[inline(always)]
pub fn split_number(text: &[u8], end: u8) -> Option<(u32, &[u8])>
    requires { 10 ≤ digit_value end }
    ensures found { IfSome result (λ r. text.now ≡ decimal r.0 ++ end ∷ r.1.now) }
    ensures small { IfSome result (λ r. r.0 < 2 ^ 32) }
    ensures only { IfNone result
        ((n : ℕ) (rest : List ℕ) → n < 2 ^ 32 → text.now ≡ decimal n ++ end ∷ rest → ⊥) }
{
    let [first, rest @ ..] = text else {
        return None;
    };
    let digit = digit_of(*first)?;
    // Most numbers have one digit.
    if let Some(after) = after_byte(rest, end) {
        return Some((digit as u32, after));
    }
    // A zero is all of its number.
    if digit == 0 {
        return None;
    }
    let (value, left) = value_from(digit, rest)?;
    let after = after_byte(left, end)?;
    Some((value, after))
}

// The value of the digits that a text begins with, if it has 32 bits, and what follows them. `parse` takes a text,
// would look at each byte twice, and takes a sign.
#[inline(always)]
fn leading_value(text: &[u8]) -> Option<(u32, &[u8])>
    ensures found { IfSome result (λ r. AreLeadingDigits text.now r.0 r.1.now) }
    ensures small { IfSome result (λ r. r.0 < 2 ^ 32) }
    ensures only { IfNone result
        ((n : ℕ) (rest : List ℕ) → n < 2 ^ 32 → AreLeadingDigits text.now n rest → ⊥) }
{
    value_from(0, text)
}

// The value of a digit and of those that the text behind it begins with, if it has 32 bits, and what follows them.
#[inline(always)]
fn value_from(first: u64, text: &[u8]) -> Option<(u32, &[u8])>
    requires { first < 10 }
    ensures found { IfSome result (λ r. AreLeadingDigits (digit_char first ∷ text.now) r.0 r.1.now) }
    ensures small { IfSome result (λ r. r.0 < 2 ^ 32) }
    ensures only { IfNone result
        ((n : ℕ) (rest : List ℕ) → n < 2 ^ 32 → AreLeadingDigits (digit_char first ∷ text.now) n rest → ⊥) }
{
    let mut value = first;
    let mut rest = text;
    while let [byte, after @ ..] = rest {
        let Some(digit) = digit_of(*byte) else {
            return Some((value as u32, rest));
        };
        // Below a tenth of the greatest number there is room for any digit.
        if value >= 429_496_729 && value * 10 + digit > u64::from(u32::MAX) {
            return None;
        }
        value = value * 10 + digit;
        rest = after;
    }
    Some((value as u32, rest))
}

// What follows the byte that a text begins with, if it is this one.
#[inline(always)]
fn after_byte(text: &[u8], byte: u8) -> Option<&[u8]>
    ensures found { IfSome result (λ rest. text.now ≡ byte ∷ rest.now) }
    ensures only { IfNone result ((rest : List ℕ) → text.now ≡ byte ∷ rest → ⊥) }
{
    match text {
        [first, rest @ ..] if *first == byte => Some(rest),
        _ => None,
    }
}

// Whether a word is empty, or has a zero before its digits.
fn is_empty_or_padded(word: &[u8]) -> bool
    ensures { IsTrue result ↔ (length word.now ≡ 0) ⊎ ((slice_index word.now 0 ≡ 48) × (1 < length word.now)) }
{
    matches!(word, [] | [b'0', _, ..])
}

// The digit that a byte is.
#[inline(always)]
fn digit_of(byte: u8) -> Option<u64>
    ensures found { IfSome result (λ digit. (digit ≡ digit_value byte) × (digit < 10)) }
    ensures only { IfNone result (digit_value byte < 10 → ⊥) }
{
    let digit = u64::from(byte).wrapping_sub(u64::from(b'0'));
    if digit < 10 { Some(digit) } else { None }
}
