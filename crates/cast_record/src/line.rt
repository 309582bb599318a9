//! What a line of a record is.
ghost use Rattle.std.specs.Prelude.{◌≡◌, ◌<◌, ◌≤◌, ◌==◌, bytes_eq, length, IfNone, IfSome};
ghost use Rattle.std.specs.List.{after_first, before_first, list_all, position, position_or_len};
ghost use Rattle.std.specs.Fmt.{decimal};
ghost use Rattle.cast_record.specs.Lines.{fifth_byte, first_word, is_comment};
ghost use Rattle.cast_record.specs.Lines.{is_digit, is_domain, is_event, is_for, is_for_all};
ghost use Rattle.cast_record.specs.Lines.{is_gap, is_gap_rest, is_head, is_space, names};
ghost use Rattle.cast_record.specs.Lines.{second_word};

use cast_types::DomainNo;
use itoa::Buffer;

// The place of the first of these bytes that is such a byte.
fn position_of(bytes: &[u8], byte: u8) -> Option<usize>
    ensures place { result ≡ position (λ b. b == byte) bytes.now }
    ensures within { IfSome result (λ at. at < length bytes.now) }
{
    bytes.iter().position(|other| *other == byte)
}

/// What stands before the first such byte, and what stands behind it.
pub fn split_once(bytes: &[u8], byte: u8) -> Option<(&[u8], &[u8])>
    ensures before { IfSome result
        (λ parts. parts.0.now ≡ before_first (λ b. b == byte) bytes.now) }
    ensures behind { IfSome result
        (λ parts. parts.1.now ≡ after_first (λ b. b == byte) bytes.now) }
    ensures found { IfSome result
        (λ _. position_or_len (λ b. b == byte) bytes.now < length bytes.now) }
    ensures none { IfNone result
        (length bytes.now ≤ position_or_len (λ b. b == byte) bytes.now) }
{
    match position_of(bytes, byte) {
        Some(at) => Some((&bytes[..at], &bytes[at + 1..])),
        None => None,
    }
}

// A line's first word, and what stands behind it.
fn split_word(line: &[u8]) -> (&[u8], &[u8])
    ensures first { result.0.now ≡ before_first is_space line.now }
    ensures rest { result.1.now ≡ after_first is_space line.now }
{
    match split_once(line, b' ') {
        Some(parts) => parts,
        None => (line, &[]),
    }
}

// A line's first word.
fn first_word(line: &[u8]) -> &[u8]
    ensures { result.now ≡ first_word line.now }
{
    split_word(line).0
}

// A line's second word, empty where there is none.
fn second_word(line: &[u8]) -> &[u8]
    ensures { result.now ≡ second_word line.now }
{
    let (_, rest) = split_word(line);
    split_word(rest).0
}

/// Whether a line says nothing to a replay.
pub fn is_comment(line: &[u8]) -> bool
    ensures { result ≡ is_comment line.now }
{
    match line {
        [] | [b'#', ..] => true,
        _ => false,
    }
}

/// Whether a line says that events are missing, as `# gap 12 events` does.
pub fn is_gap(line: &[u8]) -> bool
    ensures { result ≡ is_gap line.now }
{
    let (first, rest) = split_word(line);
    first == b"#".as_slice() && is_gap_rest(rest)
}

// Whether words behind the first say that events are missing.
fn is_gap_rest(rest: &[u8]) -> bool
    ensures { result ≡ is_gap_rest rest.now }
{
    let (gap, rest) = split_word(rest);
    let (number, rest) = split_word(rest);
    gap == b"gap".as_slice() && are_digits(number) && rest == b"events".as_slice()
}

// Whether all bytes are decimal digits.
fn are_digits(bytes: &[u8]) -> bool
    ensures { result ≡ list_all is_digit bytes.now }
{
    bytes.iter().all(|byte| byte.is_ascii_digit())
}

/// Whether a line configures a domain.
pub fn is_domain(line: &[u8]) -> bool
    ensures { result ≡ is_domain line.now }
{
    first_word(line) == b"domain".as_slice()
}

/// Whether a line is of the configuration.
pub fn is_head(line: &[u8]) -> bool
    ensures { result ≡ is_head line.now }
{
    first_word(line) == b"site".as_slice() || is_domain(line)
}

/// Whether a line is an event.
pub fn is_event(line: &[u8]) -> bool
    ensures { result ≡ is_event line.now }
{
    !is_comment(line) && !is_head(line)
}

// The fifth byte of a frame that is spelled so, which is the number of its domain.
fn fifth_byte(hex: &[u8]) -> Option<u8>
    ensures { result ≡ fifth_byte hex.now }
{
    let mut byte = [0];
    match hex::decode_to_slice(hex.get(8..10)?, &mut byte) {
        Ok(()) => Some(byte[0]),
        Err(_) => None,
    }
}

// Whether a word is the number of a domain.
fn is_number(word: &[u8], domain: DomainNo) -> bool
    ensures { result ≡ bytes_eq word.now (decimal domain.0) }
{
    let mut buffer = Buffer::new();
    word == buffer.format(domain.0).as_bytes()
}

// Whether a line names a domain: a frame in its header, any other line by its second word.
fn names(line: &[u8], domain: DomainNo) -> bool
    ensures { result ≡ names domain line.now }
{
    if first_word(line) == b"frame".as_slice() {
        fifth_byte(second_word(line)) == Some(domain.0)
    } else {
        is_number(second_word(line), domain)
    }
}

// Whether a line is for all domains.
fn is_for_all(line: &[u8]) -> bool
    ensures { result ≡ is_for_all line.now }
{
    let first = first_word(line);
    first == b"site".as_slice() || first == b"tick".as_slice()
}

/// Whether a line is for a domain, or for all.
pub fn is_for(line: &[u8], domain: DomainNo) -> bool
    ensures { result ≡ is_for domain line.now }
{
    is_for_all(line) || names(line, domain)
}
