//! Names, and the bytes that a line may have before its comment.

ghost use Rattle.std.specs.Prelude.{◌≡◌, not, position};
ghost use Rattle.std.specs.List.{list_all};
ghost use Rattle.lexical.specs.Name.{goes_on_name, is_name, is_plain, is_plain_text, is_code_byte};

// A table by byte: a byte that a name may have stands for itself, a comma for each other byte.
static NAME_BYTES: [u8; 256] = *b"\
    ,,,,,,,,,,,,,,,,,,,,,,,,,,,,,,,,\
    ,,,,,,,,,,,,,,.,0123456789,,,,,,\
    ,ABCDEFGHIJKLMNOPQRSTUVWXYZ,,,,_\
    ,abcdefghijklmnopqrstuvwxyz,,,,,\
    ,,,,,,,,,,,,,,,,,,,,,,,,,,,,,,,,\
    ,,,,,,,,,,,,,,,,,,,,,,,,,,,,,,,,\
    ,,,,,,,,,,,,,,,,,,,,,,,,,,,,,,,,\
    ,,,,,,,,,,,,,,,,,,,,,,,,,,,,,,,,";

// Whether a name may have this byte.
fn goes_on_name(b: u8) -> bool
    ensures { result ≡ goes_on_name b }
{
    NAME_BYTES[b as usize] != b','
}

fn all_go_on_name(text: &[u8]) -> bool
    ensures { result ≡ list_all goes_on_name text.now }
{
    text.iter().all(|b| goes_on_name(*b))
}

/// The place of the first byte that no name has.
pub fn end_of_name(text: &[u8]) -> Option<usize>
    ensures { result ≡ position (λ b. not (goes_on_name b)) text.now }
{
    text.iter().position(|b| !goes_on_name(*b))
}

/// Whether a text is the name of a label.
pub fn is_name(text: &[u8]) -> bool
    ensures { result ≡ is_name text.now }
{
    !text.is_empty() && !text[0].is_ascii_digit() && all_go_on_name(text)
}

/// Whether a byte may stand before a comment: a tab, or a printable ASCII byte.
pub fn is_plain(b: u8) -> bool
    ensures { result ≡ is_plain b }
{
    b == b'\t' || (b >= 0x20 && b <= 0x7e)
}

/// Whether each byte of a text may stand before a comment.
pub fn is_plain_text(text: &[u8]) -> bool
    ensures { result ≡ is_plain_text text.now }
{
    text.iter().all(|b| is_plain(*b))
}

// A table by byte: a byte of code stands for itself, a `#`, which begins a comment, for each other byte.
static CODE_BYTES: [u8; 256] = *b"\
    #########\t######################\
    \x20!\"#$%&'()*+,-./0123456789:;<=>?\
    @ABCDEFGHIJKLMNOPQRSTUVWXYZ[\\]^_\
    `abcdefghijklmnopqrstuvwxyz{|}~#\
    ################################\
    ################################\
    ################################\
    ################################";

// Whether a byte may stand before a comment and begins none.
fn is_code_byte(b: u8) -> bool
    ensures { result ≡ is_code_byte b }
{
    CODE_BYTES[b as usize] != b'#'
}

/// The place of the first byte that begins a comment or may not stand before one.
pub fn end_of_code(text: &[u8]) -> Option<usize>
    ensures { result ≡ position (λ b. not (is_code_byte b)) text.now }
{
    text.iter().position(|b| !is_code_byte(*b))
}
