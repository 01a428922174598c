// The classes of the bytes of a CIF text.
ghost use Rattle.std.specs.Prelude.{◌≡◌};
ghost use Rattle.dpl_lex.specs.Classes as classes;
ghost use Rattle.dpl_lex.specs.Classes.{is_digit, is_upper, is_blank, is_separator, drop_while};

/// `0` to `9`.
pub fn is_digit_byte(b: u8) -> bool
    ensures { result ≡ is_digit b }
{
    b.is_ascii_digit()
}

/// `A` to `Z`.
pub fn is_upper_byte(b: u8) -> bool
    ensures { result ≡ is_upper b }
{
    b.is_ascii_uppercase()
}

/// Names are made of digits and upper-case letters.
pub fn is_name_byte(b: u8) -> bool
    ensures { result ≡ classes.is_name_byte b }
{
    is_digit_byte(b) || is_upper_byte(b)
}

/// Any other ASCII byte than the marks; no byte beyond ASCII.
pub fn is_blank_byte(b: u8) -> bool
    ensures { result ≡ is_blank b }
{
    b.is_ascii() && !matches!(b, b'0'..=b'9' | b'A'..=b'Z' | b'-' | b'(' | b')' | b';')
}

/// What follows the blanks at the front.
pub fn skip_blanks(bytes: &[u8]) -> &[u8]
    ensures { result.now ≡ drop_while is_blank bytes.now }
{
    let mut rest = bytes;
    'blanks: while let Some((first, others)) = rest.split_first()
        && is_blank_byte(*first)
    {
        rest = others;
    }
    rest
}

/// What follows the separators at the front.
pub fn skip_separators(bytes: &[u8]) -> &[u8]
    ensures { result.now ≡ drop_while is_separator bytes.now }
{
    let mut rest = bytes;
    'separators: while let Some((first, others)) = rest.split_first()
        && (is_upper_byte(*first) || is_blank_byte(*first))
    {
        rest = others;
    }
    rest
}
