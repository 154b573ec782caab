//! What the bytes of a regular expression do to the number of its states.
ghost use Rattle.std.specs.Prelude.{◌≡◌, ◌<◌, ◌+◌, ◌*◌, ◌-◌};
ghost use Rattle.filter_engine.specs.RegexSizes as sizes;

use crate::regex_size::size::Size;

/// Where a byte is.
#[derive(Clone, Copy)]
pub enum Mode {
    Pattern,
    /// In so many classes.
    Class(u16),
    /// Behind a `#`, where there may be a comment or more of the pattern.
    Comment,
}

/// What is read.
#[derive(Clone, Copy)]
pub enum Reading {
    /// An item, or what repeats it.
    Item,
    /// What follows a `(`.
    Opened,
    /// What follows `(?`.
    Flags,
    /// What follows a `\`.
    Escaped,
    /// So many bytes of an escape, or braces in their place.
    Named(u8),
    /// The braces of an escape.
    Braced,
    /// The braces of a repetition: the number that is read, and the greatest before it.
    Counted { number: u16, most: u16 },
    /// What follows the `[` of a class, or its `^`.
    First,
}

/// What a byte does.
#[derive(Clone, Copy)]
pub enum Act {
    Nothing,
    /// It adds an item.
    Adds(Size),
    /// It belongs to the last item.
    Joins(Size),
    /// It repeats the last item so often at most.
    Repeats(u16),
    /// It opens a group.
    Opens,
    /// It closes a group.
    Closes,
}

/// What a byte does, where the next one is, and what is read there.
#[derive(Clone, Copy)]
pub struct Turn {
    pub act: Act,
    pub mode: Mode,
    pub reading: Reading,
}

impl Turn {
    fn new(act: Act, mode: Mode, reading: Reading) -> Turn
        ensures { result ≡ sizes.turn act mode reading }
    {
        Turn { act, mode, reading }
    }
}

fn greater(a: u16, b: u16) -> u16
    ensures { result ≡ sizes.greater a b }
{
    if a < b { b } else { a }
}

// Numbers of copies beyond 65,535 count as that.
fn capped_count(number: u32) -> u16
    ensures { result ≡ sizes.capped_count number }
{
    if number < 65535 { number as u16 } else { 65535 }
}

fn is_blank(byte: u8) -> bool
    ensures { result ≡ sizes.is_blank byte }
{
    (8 < byte && byte < 14) || byte == b' '
}

// Whether it repeats the item in front of it.
fn repeats(byte: u8) -> bool
    ensures { result ≡ sizes.repeats byte }
{
    byte == b'*' || byte == b'+' || byte == b'?'
}

// A byte beyond ASCII: in a class, where it may end a range, it counts for all characters that fold to
// one of the range.
fn character_size(mode: Mode) -> Size
    ensures { result ≡ sizes.character_size mode }
{
    match mode {
        Mode::Pattern => Size::new(4, 0),
        Mode::Class(_) => Size::new(8, 0),
        Mode::Comment => Size::new(8, 0),
    }
}

// A byte that is literal: `k` and `s` fold to characters beyond ASCII.
fn byte_size(mode: Mode, byte: u8) -> Size
    ensures { result ≡ sizes.byte_size mode byte }
{
    if 127 < byte {
        return character_size(mode);
    }
    if byte == b'k' || byte == b'K' {
        return Size::new(3, 0);
    }
    if byte == b's' || byte == b'S' {
        return Size::new(2, 0);
    }
    Size::new(1, 0)
}

// A byte, literal or not.
fn sign_size(mode: Mode, byte: u8) -> Size
    ensures { result ≡ sizes.sign_size mode byte }
{
    if byte == b'.' {
        return Size::new(8, 0);
    }
    if byte == b'^' {
        return Size::new(8, 1);
    }
    if byte == b'$' || byte == b'|' {
        return Size::new(0, 1);
    }
    if byte == b'(' {
        return Size::new(0, 2);
    }
    byte_size(mode, byte)
}

// An escape, by the byte behind its `\`.
fn escape_size(byte: u8) -> Size
    ensures { result ≡ sizes.escape_size byte }
{
    if byte == b'w' || byte == b'W' {
        return Size::new(336, 0);
    }
    if byte == b'p' || byte == b'P' {
        return Size::new(360, 0);
    }
    if byte == b'd' || byte == b'D' {
        return Size::new(32, 0);
    }
    if byte == b's' || byte == b'S' {
        return Size::new(16, 0);
    }
    if byte == b'x' || byte == b'u' || byte == b'U' {
        return Size::new(32, 0);
    }
    Size::new(1, 1)
}

// How many bytes belong to an escape behind this one, unless braces do.
fn name_length(byte: u8) -> u8
    ensures { result ≡ sizes.name_length byte }
{
    if byte == b'p' || byte == b'P' {
        return 1;
    }
    if byte == b'x' {
        return 2;
    }
    if byte == b'u' {
        return 4;
    }
    if byte == b'U' {
        return 8;
    }
    0
}

fn named(count: u8) -> Reading
    ensures { result ≡ sizes.named count }
{
    if count == 0 {
        return Reading::Item;
    }
    Reading::Named(count)
}

fn adding(mode: Mode, item: Size) -> Act
    ensures { result ≡ sizes.adding mode item }
{
    match mode {
        Mode::Pattern => Act::Adds(item),
        Mode::Class(_) => Act::Joins(item),
        Mode::Comment => Act::Joins(item),
    }
}

fn deeper(depth: u16) -> u16
    ensures { result ≡ sizes.deeper depth }
{
    if depth < 65535 { depth + 1 } else { depth }
}

fn shallower(depth: u16) -> Mode
    ensures { result ≡ sizes.shallower depth }
{
    if depth < 2 {
        return Mode::Pattern;
    }
    Mode::Class(depth - 1)
}

fn in_pattern(byte: u8) -> Turn
    ensures { result ≡ sizes.in_pattern byte }
{
    if byte == b'\\' {
        return Turn::new(Act::Nothing, Mode::Pattern, Reading::Escaped);
    }
    if byte == b'[' {
        return Turn::new(Act::Adds(Size::new(4, 0)), Mode::Class(1), Reading::First);
    }
    if byte == b'(' {
        return Turn::new(Act::Opens, Mode::Pattern, Reading::Opened);
    }
    if byte == b')' {
        return Turn::new(Act::Closes, Mode::Pattern, Reading::Item);
    }
    if byte == b'{' {
        let reading = Reading::Counted { number: 0, most: 0 };
        return Turn::new(Act::Nothing, Mode::Pattern, reading);
    }
    if repeats(byte) {
        return Turn::new(Act::Repeats(1), Mode::Pattern, Reading::Item);
    }
    if byte == b'#' {
        return Turn::new(Act::Joins(Size::new(1, 0)), Mode::Comment, Reading::Item);
    }
    if is_blank(byte) || byte == b']' || 127 < byte {
        let more = byte_size(Mode::Pattern, byte);
        return Turn::new(Act::Joins(more), Mode::Pattern, Reading::Item);
    }
    let item = sign_size(Mode::Pattern, byte);
    Turn::new(Act::Adds(item), Mode::Pattern, Reading::Item)
}

fn in_class(depth: u16, byte: u8) -> Turn
    ensures { result ≡ sizes.in_class depth byte }
{
    let mode = Mode::Class(depth);
    if byte == b'\\' {
        return Turn::new(Act::Nothing, mode, Reading::Escaped);
    }
    if byte == b'[' {
        let mode = Mode::Class(deeper(depth));
        return Turn::new(Act::Joins(Size::new(4, 0)), mode, Reading::First);
    }
    if byte == b']' {
        return Turn::new(Act::Nothing, shallower(depth), Reading::Item);
    }
    Turn::new(Act::Joins(byte_size(mode, byte)), mode, Reading::Item)
}

fn in_comment(byte: u8) -> Turn
    ensures { result ≡ sizes.in_comment byte }
{
    let mode = Mode::Comment;
    if byte == b'\\' {
        return Turn::new(Act::Nothing, mode, Reading::Escaped);
    }
    if byte == b'{' {
        return Turn::new(Act::Nothing, mode, Reading::Counted { number: 0, most: 0 });
    }
    if repeats(byte) {
        return Turn::new(Act::Repeats(1), mode, Reading::Item);
    }
    if byte == b'\n' {
        return Turn::new(Act::Joins(Size::new(1, 0)), Mode::Pattern, Reading::Item);
    }
    Turn::new(Act::Joins(sign_size(mode, byte)), mode, Reading::Item)
}

// Where an item may begin.
fn at_item(mode: Mode, byte: u8) -> Turn
    ensures { result ≡ sizes.at_item mode byte }
{
    match mode {
        Mode::Pattern => in_pattern(byte),
        Mode::Class(depth) => in_class(depth, byte),
        Mode::Comment => in_comment(byte),
    }
}

// Behind `(?`, up to the colon, the name's end or the parenthesis.
fn in_flags(mode: Mode, byte: u8) -> Turn
    ensures { result ≡ sizes.in_flags mode byte }
{
    if byte == b':' || byte == b'>' {
        return Turn::new(Act::Nothing, mode, Reading::Item);
    }
    if byte == b')' {
        return Turn::new(Act::Closes, mode, Reading::Item);
    }
    Turn::new(Act::Nothing, mode, Reading::Flags)
}

// Behind the letter of an escape that goes on.
fn in_name(mode: Mode, count: u8, byte: u8) -> Turn
    ensures { result ≡ sizes.in_name mode count byte }
{
    if byte == b'{' {
        return Turn::new(Act::Nothing, mode, Reading::Braced);
    }
    if is_blank(byte) {
        return Turn::new(Act::Nothing, mode, Reading::Named(count));
    }
    Turn::new(Act::Nothing, mode, named(count.saturating_sub(1)))
}

fn in_braces(mode: Mode, byte: u8) -> Turn
    ensures { result ≡ sizes.in_braces mode byte }
{
    if byte == b'}' {
        return Turn::new(Act::Nothing, mode, Reading::Item);
    }
    Turn::new(Act::Nothing, mode, Reading::Braced)
}

// The number of which the digits so far and one more are those.
fn with_digit(number: u16, byte: u8) -> u16
    requires { 47 < byte }
    ensures { result ≡ sizes.capped_count (number * 10 + (byte - 48)) }
{
    capped_count(u32::from(number) * 10 + u32::from(byte - b'0'))
}

// In the braces of a repetition.
fn in_count(mode: Mode, number: u16, most: u16, byte: u8) -> Turn
    ensures { result ≡ sizes.in_count mode number most byte }
{
    if 47 < byte && byte < 58 {
        let number = with_digit(number, byte);
        return Turn::new(Act::Nothing, mode, Reading::Counted { number, most });
    }
    let most = greater(number, most);
    if byte == b'}' {
        return Turn::new(Act::Repeats(greater(most, 1)), mode, Reading::Item);
    }
    Turn::new(Act::Nothing, mode, Reading::Counted { number: 0, most })
}

// Behind the `[` of a class, and its `^`.
fn at_first(mode: Mode, byte: u8) -> Turn
    ensures { result ≡ sizes.at_first mode byte }
{
    if byte == b'^' {
        return Turn::new(Act::Joins(Size::new(8, 0)), mode, Reading::First);
    }
    if byte == b']' {
        return Turn::new(Act::Joins(Size::new(1, 0)), mode, Reading::Item);
    }
    at_item(mode, byte)
}

fn behind_parenthesis(mode: Mode, byte: u8) -> Turn
    ensures { result ≡ sizes.behind_parenthesis mode byte }
{
    if byte == b'?' {
        return Turn::new(Act::Nothing, mode, Reading::Flags);
    }
    at_item(mode, byte)
}

/// What a byte does.
pub fn turn_of(mode: Mode, reading: Reading, byte: u8) -> Turn
    ensures { result ≡ sizes.turn_of mode reading byte }
{
    match reading {
        Reading::Item => at_item(mode, byte),
        Reading::Opened => behind_parenthesis(mode, byte),
        Reading::Flags => in_flags(mode, byte),
        Reading::Escaped => {
            let act = adding(mode, escape_size(byte));
            Turn::new(act, mode, named(name_length(byte)))
        }
        Reading::Named(count) => in_name(mode, count, byte),
        Reading::Braced => in_braces(mode, byte),
        Reading::Counted { number, most } => in_count(mode, number, most, byte),
        Reading::First => at_first(mode, byte),
    }
}
