//! How a line of a text begins: what may stand before a statement that prints or writes a file, and
//! the statement.
ghost use Rattle.std.specs.Prelude.{◌≡◌, ◌≤◌, length};
ghost use Rattle.std.specs.List.{prefix_len};
ghost use Rattle.output_lines.specs.Lines.{is_front, is_told, is_output};

/// Whether a byte may stand before such a statement: a blank, a tab, or what skip signs and sequence
/// numbers are written with.
fn is_front(byte: u8) -> bool
    ensures { result ≡ is_front byte }
{
    byte == b' ' || byte == b'\t' || byte == b'/' || byte == b'N' || byte.is_ascii_digit()
}

/// How many bytes stand before the statement of a line.
pub(crate) fn front_len(line: &[u8]) -> usize
    ensures count { result ≡ prefix_len is_front line.now }
    ensures within { result ≤ length line.now }
{
    line.iter().take_while(|byte| is_front(**byte)).count()
}

/// Whether a byte belongs to the statement: it opens no comment and is no carriage return.
fn is_told(byte: u8) -> bool
    ensures { result ≡ is_told byte }
{
    byte != b'(' && byte != b'\r'
}

/// How many bytes the statement has.
pub(crate) fn statement_len(rest: &[u8]) -> usize
    ensures count { result ≡ prefix_len is_told rest.now }
    ensures within { result ≤ length rest.now }
{
    rest.iter().take_while(|byte| is_told(**byte)).count()
}

/// Whether what stands on a line begins with one of the words of such statements.
pub(crate) fn is_output(rest: &[u8]) -> bool
    ensures { result ≡ is_output rest.now }
{
    rest.starts_with(b"DPRNT")
        || rest.starts_with(b"BPRNT")
        || rest.starts_with(b"POPEN")
        || rest.starts_with(b"PCLOS")
        || rest.starts_with(b"SETVN")
}
