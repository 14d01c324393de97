//! Runs of bytes of one class.

ghost use Rattle.std.specs.Prelude.{◌≡◌, ◌==◌, ◌≤◌, length};
ghost use Rattle.std.specs.List.{prefix_len};
ghost use Rattle.region_sql.specs.Lexing.{is_in_class, after_blanks, starts_with};

/// Bytes that stand together.
#[derive(Clone, Copy)]
pub(crate) enum ByteClass {
    /// Spaces and tabs.
    Blank,
    /// Letters, digits and _
    Word,
    /// Digits.
    Digit,
    /// Anything but "
    Quoted,
}

/// Whether the byte is of the class.
fn is_in_class(class: ByteClass, byte: u8) -> bool
    ensures { result ≡ is_in_class class byte }
{
    match class {
        ByteClass::Blank => byte == b' ' || byte == b'\t',
        ByteClass::Word => byte.is_ascii_alphanumeric() || byte == b'_',
        ByteClass::Digit => byte.is_ascii_digit(),
        ByteClass::Quoted => byte != b'"',
    }
}

#[tactic(auto, using(crate::proofs::Bytes::run_is))]
/// How many bytes of the class stand at the front.
pub(crate) fn run_len(class: ByteClass, bytes: &[u8]) -> usize
    ensures value { result ≡ prefix_len (is_in_class class) bytes.now }
    ensures within { result ≤ length bytes.now }
{
    for (i, byte) in bytes.iter().enumerate() {
        if !is_in_class(class, *byte) {
            return i;
        }
    }
    bytes.len()
}

/// What follows the blanks at the front.
#[tactic(auto, unfolding(crate::specs::Lexing::after_blanks))]
pub(crate) fn after_blanks(bytes: &[u8]) -> &[u8]
    ensures { result.now ≡ after_blanks bytes.now }
{
    let (_, rest) = bytes.split_at(run_len(ByteClass::Blank, bytes));
    rest
}

/// Whether the next token is `(`.
pub(crate) fn opens(bytes: &[u8]) -> bool
    ensures { result ≡ starts_with (λ b. b == 40) (after_blanks bytes.now) }
{
    matches!(after_blanks(bytes), [b'(', ..])
}
