//! The bytes of a tape by what they are, and what lies ahead of a byte on its line. steps.rt decides
//! by it. specs/Bytes.antt defines it.
ghost use Rattle.std.specs.Prelude.{◌≡◌, ◌∷◌, ◌||◌, ◌&&◌, ◌==◌, ◌<◌, ◌≤◌, ◌^◌, ◌+◌, not, false, length};
ghost use Rattle.std.specs.Char.{is_ascii_digit, to_ascii_uppercase};
ghost use Rattle.open_text.specs.Bytes.{is_gap, is_punch, is_switch, is_number_part, is_n, takes_index, is_feed_ahead, is_sign_ahead, is_other_ahead, switch_ahead, is_on, is_number_ahead, ends_number, counted, digits_ahead, is_long_ahead, is_index_ahead, number_behind, number_ahead, is_call, is_close_ahead, opens_name, is_name_ahead, begins, is_output, is_statement};

/// Whether a byte says nothing between others: a blank, a tab, a comma or a carriage return.
pub(crate) fn is_gap(byte: u8) -> bool
    ensures { result ≡ is_gap byte }
{
    (byte == b' ' || byte == b'\t') || (byte == b',' || byte == b'\r')
}

/// Whether a byte is what a control punches before a line: a carriage return or a zero byte.
pub(crate) fn is_punch(byte: u8) -> bool
    ensures { result ≡ is_punch byte }
{
    byte == b'\r' || byte == 0
}

/// Whether a byte is a digit from 1 to 9, which names a switch.
pub(crate) fn is_switch(byte: u8) -> bool
    ensures { result ≡ is_switch byte }
{
    b'1' <= byte && byte <= b'9'
}

/// Whether a byte can belong to a literal.
pub(crate) fn is_number_part(byte: u8) -> bool
    ensures { result ≡ is_number_part byte }
{
    byte.is_ascii_digit() || (byte == b'.' || (byte == b'+' || byte == b'-'))
}

/// Whether a byte is the letter N.
pub(crate) fn is_n(byte: u8) -> bool
    ensures { result ≡ is_n byte }
{
    byte.to_ascii_uppercase() == b'N'
}

/// Whether words of a letter may have an index before `=`: of each letter but G, L, M, N, O, P and Q,
/// on which the order of blocks may depend.
pub(crate) fn takes_index(byte: u8) -> bool
    ensures { result ≡ takes_index byte }
{
    let letter = byte.to_ascii_uppercase();
    letter.is_ascii_uppercase() && !(letter == b'G' || (b'L' <= letter && letter <= b'Q'))
}

/// Whether a line feed is ahead.
pub(crate) fn is_feed_ahead(rest: &[u8]) -> bool
    ensures { result ≡ is_feed_ahead rest.now }
{
    match rest {
        [] => false,
        [first, ..] => *first == b'\n',
    }
}

/// Whether a skip sign is ahead, but for gaps.
fn is_sign_ahead(rest: &[u8]) -> bool
    ensures { result ≡ is_sign_ahead rest.now }
{
    for byte in rest {
        if !is_gap(*byte) {
            return *byte == b'/';
        }
    }
    false
}

/// Whether after a skip sign and the digit of its switch, if it has one, another skip sign is ahead.
pub(crate) fn is_other_ahead(rest: &[u8]) -> bool
    ensures { result ≡ is_other_ahead rest.now }
{
    let mut left = rest;
    while let Some((first, behind)) = left.split_first() {
        if !is_gap(*first) {
            if is_switch(*first) {
                return is_sign_ahead(behind);
            }
            return *first == b'/';
        }
        left = behind;
    }
    false
}

/// The switch of a skip sign: that of the digit ahead, else 1.
pub(crate) fn switch_ahead(rest: &[u8]) -> u8
    ensures value { result ≡ switch_ahead rest.now }
    ensures range { result ≤ 9 }
{
    for byte in rest {
        if !is_gap(*byte) {
            return if is_switch(*byte) { *byte - b'0' } else { 1 };
        }
    }
    1
}

/// Whether a switch is on: bit n of skips is switch n.
pub(crate) fn is_on(skips: u16, switch: u8) -> bool
    requires { switch ≤ 9 }
    ensures { result ≡ is_on skips switch }
{
    (skips >> switch) % 2 == 1
}

/// Whether a number is ahead, but for gaps.
pub(crate) fn is_number_ahead(rest: &[u8]) -> bool
    ensures { result ≡ is_number_ahead rest.now }
{
    for byte in rest {
        if !is_gap(*byte) {
            return is_number_part(*byte);
        }
    }
    false
}

/// Whether a byte ends a number: it is neither a digit nor a gap.
fn ends_number(byte: u8) -> bool
    ensures { result ≡ ends_number byte }
{
    !(is_gap(byte) || byte.is_ascii_digit())
}

/// How many digits there are with this byte of a number, but for gaps and for zeros before the first
/// other digit.
fn counted(count: usize, byte: u8) -> usize
    requires { count < 2 ^ 63 }
    ensures value { result ≡ counted count byte }
    ensures near { result ≤ count + 1 }
{
    if is_gap(byte) || (count == 0 && byte == b'0') {
        count
    } else {
        count + 1
    }
}

/// How many digits are ahead, but for gaps and for zeros before the first other digit.
fn digits_ahead(rest: &[u8]) -> usize
    ensures { result ≡ digits_ahead 0 rest.now }
{
    let mut count = 0usize;
    for byte in rest {
        if ends_number(*byte) {
            return count;
        }
        count = counted(count, *byte);
    }
    count
}

/// Whether the sequence number ahead has six to eight digits, more than the reader of tapes takes.
pub(crate) fn is_long_ahead(rest: &[u8]) -> bool
    ensures { result ≡ is_long_ahead rest.now }
{
    let count = digits_ahead(rest);
    6 <= count && count <= 8
}

/// The number with this byte of it; a number of four digits and more counts as 1,000.
fn number_behind(number: u32, byte: u8) -> u32
    requires small { number ≤ 1000 }
    requires goes_on { ends_number byte ≡ false }
    ensures value { result ≡ number_behind number byte }
    ensures small { result ≤ 1000 }
{
    if is_gap(byte) {
        number
    } else {
        1_000u32.min(number * 10 + u32::from(byte - b'0'))
    }
}

/// The number ahead, but for gaps; a number of four digits and more counts as 1,000.
fn number_ahead(rest: &[u8]) -> u32
    ensures { result ≡ number_ahead 0 rest.now }
{
    let mut number = 0u32;
    for byte in rest {
        if ends_number(*byte) {
            return number;
        }
        number = number_behind(number, *byte);
    }
    number
}

/// Whether a byte begins a call of a program: M98 or G65.
pub(crate) fn is_call(byte: u8, rest: &[u8]) -> bool
    ensures { result ≡ is_call byte rest.now }
{
    let letter = byte.to_ascii_uppercase();
    (letter == b'M' && number_ahead(rest) == 98) || (letter == b'G' && number_ahead(rest) == 65)
}

/// Whether the end of a name is ahead on the line.
fn is_close_ahead(rest: &[u8]) -> bool
    ensures { result ≡ is_close_ahead rest.now }
{
    for byte in rest {
        if *byte == b'>' {
            return true;
        }
        if *byte == b'\n' {
            return false;
        }
    }
    false
}

/// Whether a byte opens the name of a program that is closed on the line.
pub(crate) fn opens_name(byte: u8, rest: &[u8]) -> bool
    ensures { result ≡ opens_name byte rest.now }
{
    byte == b'<' && is_close_ahead(rest)
}

/// Whether the byte after an O begins a name, or an O number of five to eight digits.
pub(crate) fn is_name_ahead(rest: &[u8]) -> bool
    ensures { result ≡ is_name_ahead rest.now }
{
    match rest {
        [] => false,
        [first, behind @ ..] => {
            let count = digits_ahead(rest);
            opens_name(*first, behind) || (5 <= count && count <= 8)
        }
    }
}

/// Whether digits are ahead and `=` after them.
pub(crate) fn is_index_ahead(rest: &[u8]) -> bool
    ensures { result ≡ is_index_ahead rest.now }
{
    for byte in rest {
        if !byte.is_ascii_digit() {
            return *byte == b'=';
        }
    }
    false
}

/// Whether a text begins with a word, in upper or lower case.
fn begins(word: &[u8], text: &[u8]) -> bool
    ensures { result ≡ begins word.now text.now }
{
    let mut rest = text;
    for letter in word {
        let Some((first, behind)) = rest.split_first() else {
            return false;
        };
        if first.to_ascii_uppercase() != *letter {
            return false;
        }
        rest = behind;
    }
    true
}

/// Whether a block of this text writes something out, and so says nothing of the order of blocks.
pub(crate) fn is_output(text: &[u8]) -> bool
    ensures { result ≡ is_output text.now }
{
    (begins(b"DPRNT", text) || begins(b"BPRNT", text))
        || (begins(b"POPEN", text) || (begins(b"PCLOS", text) || begins(b"SETVN", text)))
}

/// Whether a block of this text is a statement.
pub(crate) fn is_statement(text: &[u8]) -> bool
    ensures { result ≡ is_statement text.now }
{
    (begins(b"#", text) || (begins(b"IF", text) || begins(b"WHILE", text)))
        || (begins(b"GOTO", text) || (begins(b"DO", text) || begins(b"END", text)))
}
