ghost use Rattle.std.specs.Prelude.{MatchOption};
ghost use Rattle.std.specs.Fmt.{signed_decimal};
ghost use Rattle.decimals.specs.Decimals.{text_of};
ghost use Rattle.proofgrammar.specs.Parts.{SmallNumber, SmallLiteral};
ghost use Rattle.proofwords.specs.Words.{ByteAt, NoByte, HasByte, NoWord, HasWord};

/// The largest number of a proof text.
const LARGEST: u64 = 2_147_483_647;

/// Whether the byte stands at the place.
pub fn stands(text: &[u8], at: usize, byte: u8) -> bool
    ensures { ByteAt byte text.now at result }
{
    text.get(at) == Some(&byte)
}

/// The text behind the byte that it begins with.
pub fn skip(text: &[u8], byte: u8) -> Option<&[u8]>
    ensures { MatchOption result (NoByte byte text.now) (λ rest. HasByte byte text.now rest.now) }
{
    // A pattern: `strip_prefix` compares slices, and takes longer.
    match text {
        [first, rest @ ..] if *first == byte => Some(rest),
        _ => None,
    }
}

/// The number that the text begins with, and the text behind it.
pub fn read_number(text: &[u8]) -> Option<(u32, &[u8])>
    ensures { MatchOption result (NoWord text_of SmallNumber text.now)
        (λ r. HasWord text_of SmallNumber text.now r.0 r.1.now) }
{
    // In one pass: the digits are counted as their value is worked out.
    let mut value = 0;
    let mut length = 0;
    'digits: for byte in text {
        if !byte.is_ascii_digit() {
            break;
        }
        value = value * 10 + u64::from(*byte - b'0');
        if value > LARGEST {
            return None;
        }
        length += 1;
    }
    match text.split_at(length) {
        ([] | [b'0', _, ..], _) => None,
        (_, rest) => Some((value as u32, rest)),
    }
}

/// The literal that the text begins with, or the 0 that ends a list, and the text behind it.
pub fn read_literal(text: &[u8]) -> Option<(i32, &[u8])>
    ensures { MatchOption result (NoWord signed_decimal SmallLiteral text.now)
        (λ r. HasWord signed_decimal SmallLiteral text.now r.0 r.1.now) }
{
    let Some(digits) = skip(text, b'-') else {
        let (value, rest) = read_number(text)?;
        return Some((value as i32, rest));
    };
    match read_number(digits)? {
        (0, _) => None,
        (value, rest) => Some((-(value as i32), rest)),
    }
}
