//! The words of a line.
ghost use Rattle.std.specs.Prelude.{◌≡◌, ◌≤◌, ◌<◌, ◌∷◌, ◌&&◌, None, MatchOption, length};
ghost use Rattle.std.specs.Option.{option_map, option_copied};
ghost use Rattle.std.specs.List.{list_all};
ghost use Rattle.memchr.specs.Find.{IsFirstByte, is_byte};
ghost use Rattle.script.specs.Words.{is_printable, is_word, words_of, joins, joins_from};
ghost use Rattle.script.specs.Meaning.{has_option, after_option, one_of, two_of, three_of, four_of};
ghost use Rattle.script.specs.Reading.{words_left};

use base::text::same_bytes;
use memchr::memchr;

/// Whether the line is words of bytes 0x20 to 0x7e, separated by single spaces (profile).
pub(crate) fn has_only_words(line: &[u8]) -> bool
    ensures { result ≡ (list_all is_printable line.now && list_all is_word (words_of line.now)) }
{
    let len = line.len();
    if len == 0 || !goes_on(&line[..1], true) {
        return false;
    }
    let seen = goes_on_by(line, 1, 16);
    let seen = goes_on_by(line, seen, 8);
    goes_on(&line[seen..], line[seen - 1] == b' ') & (line[len - 1] != b' ')
}

// The place up to which the line is well formed. It is well formed up to `from`; this checks it from there, `step` bytes at a time.
fn goes_on_by(line: &[u8], from: usize, step: usize) -> usize
    requires behind { 0 < from }
    requires within { from ≤ length line.now }
    requires steps { 0 < step }
    ensures behind { 0 < result }
    ensures within { result ≤ length line.now }
    ensures left { joins_from result line.now ≡ joins_from from line.now }
{
    let mut seen = from;
    while step <= line.len() - seen && goes_on(&line[seen..seen + step], line[seen - 1] == b' ') {
        seen += step;
    }
    seen
}

// Whether these bytes continue a well-formed line, after a space or after another byte. It reads every byte, also after a fault, so that the
// compiler can check many at a time.
fn goes_on(bytes: &[u8], after_space: bool) -> bool
    ensures { result ≡ joins after_space bytes.now }
{
    let mut is_well = true;
    let mut is_after_space = after_space;
    for byte in bytes {
        let is_space = *byte == b' ';
        is_well = is_well & (b' ' <= *byte) & (*byte <= b'~') & !(is_space & is_after_space);
        is_after_space = is_space;
    }
    is_well
}

/// The first word, and the rest of the line after its space.
pub(crate) fn next_word(line: &[u8]) -> (&[u8], Option<&[u8]>)
    ensures { words_of line.now ≡ result.0.now ∷ words_left (option_copied result.1) }
{
    match space_place(line) {
        Some(end) => (&line[..end], Some(&line[end + 1..])),
        None => (line, None),
    }
}

/// Most words are short, so this many bytes are checked in a loop, before a search that takes longer to begin.
const NEAR: usize = 16;

// The place of the first space.
fn space_place(line: &[u8]) -> Option<usize>
    ensures { IsFirstByte (is_byte 32) line.now result }
{
    let near = line.len().min(NEAR);
    for i in 0..near {
        if line[i] == b' ' {
            return Some(i);
        }
    }
    if near == line.len() {
        return None;
    }
    match memchr(b' ', &line[near..]) {
        Some(place) => Some(near + place),
        None => None,
    }
}

/// The operand of a request that has exactly one.
pub(crate) fn one(rest: Option<&[u8]>) -> Option<&[u8]>
    ensures { option_copied result ≡ one_of (words_left (option_copied rest.entry)) }
{
    let (a, rest) = next_word(rest?);
    if let Some(more) = rest {
        let _ = next_word(more);
        return None;
    }
    Some(a)
}

/// The operands of a request that has exactly two.
pub(crate) fn two(rest: Option<&[u8]>) -> Option<(&[u8], &[u8])>
    ensures { option_map (λ w. (w.0.now, w.1.now)) result ≡ two_of (words_left (option_copied rest.entry)) }
{
    let (a, rest) = next_word(rest?);
    let (b, rest) = next_word(rest?);
    if let Some(more) = rest {
        let _ = next_word(more);
        return None;
    }
    Some((a, b))
}

/// The operands of a request that has exactly three.
pub(crate) fn three(rest: Option<&[u8]>) -> Option<(&[u8], &[u8], &[u8])>
    ensures { option_map (λ w. (w.0.now, w.1.now, w.2.now)) result ≡ three_of (words_left (option_copied rest.entry)) }
{
    let (a, rest) = next_word(rest?);
    let (b, rest) = next_word(rest?);
    let (c, rest) = next_word(rest?);
    if let Some(more) = rest {
        let _ = next_word(more);
        return None;
    }
    Some((a, b, c))
}

/// The first three operands of a request that has four or more, and the rest of the line: the fourth operand, or more words.
pub(crate) fn three_and_more(rest: Option<&[u8]>) -> Option<(&[u8], &[u8], &[u8], &[u8])>
    ensures { MatchOption result (four_of (words_left (option_copied rest.entry)) ≡ None)
        (λ w. words_left (option_copied rest.entry) ≡ w.0.now ∷ w.1.now ∷ w.2.now ∷ words_of w.3.now) }
{
    let (a, rest) = next_word(rest?);
    let (b, rest) = next_word(rest?);
    let (c, rest) = next_word(rest?);
    Some((a, b, c, rest?))
}

/// Whether the operands begin with this option, and the operands after it; where it isn't there, all operands.
pub(crate) fn leading_option<'a>(rest: Option<&'a [u8]>, word: &[u8]) -> (bool, Option<&'a [u8]>)
    ensures there { result.0 ≡ has_option word.now (words_left (option_copied rest.entry)) }
    ensures left { words_left (option_copied result.1) ≡ after_option word.now (words_left (option_copied rest.entry)) }
{
    let Some(words) = rest else {
        return (false, None);
    };
    let (first, later) = next_word(words);
    if same_bytes(first, word) {
        (true, later)
    } else {
        (false, rest)
    }
}
