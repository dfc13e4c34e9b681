//! The items of a pattern, read one by one from its text.

ghost use Rattle.std.specs.Prelude.{◌≡◌, ◌≤◌, ◌<◌, ◌∷◌, ◌==◌, ℕ, Bool, [], length, MatchOption, IfSome};
ghost use Rattle.std.specs.Char.{to_ascii_lowercase, to_ascii_uppercase};
ghost use Rattle.std.specs.Option.{option_map};
ghost use Rattle.std.specs.Str.{chars};
ghost use Rattle.zerotrie_search.specs.Globs as glob;
ghost use Rattle.zerotrie_search.specs.Globs.{class_at, is_within, stays_in, with_letter};
ghost use Rattle.zerotrie_search.specs.GlobMasks.{letters_in, cases, closing, class_has, add_range, has_one, beside, role_of, read};

const ANY: u32 = b'?' as u32;

const CARET: u32 = b'^' as u32;

const CLOSE: u32 = b']' as u32;

const COMMA: u32 = b',' as u32;

const DASH: u32 = b'-' as u32;

const END: u32 = b'}' as u32;

const ESCAPE: u32 = b'\\' as u32;

const GROUP: u32 = b'{' as u32;

const MANY: u32 = b'*' as u32;

const NOT: u32 = b'!' as u32;

const OPEN: u32 = b'[' as u32;

/// A text of letters.
#[derive(Clone, Copy, Debug)]
pub(crate) enum Text<'p> {
    /// Each byte is a letter.
    Bytes(&'p [u8]),
    /// Each character is a letter.
    Chars(&'p str),
}

/// Returns the first character of a text, and what is left after it.
fn first_char(text: &str) -> Option<(u32, &str)>
    ensures { MatchOption result (chars text.now ≡ [])
        (λ r. chars text.now ≡ r.0 ∷ chars r.1.now) }
{
    let mut left = text.chars();
    let first = left.next()?;
    Some((u32::from(first), left.as_str()))
}

impl<'p> Text<'p> {
    /// Returns the first letter, and what is left after it.
    pub(crate) fn first(self) -> Option<(u32, Text<'p>)>
        ensures { MatchOption result (letters_in self.entry ≡ [])
            (λ r. letters_in self.entry ≡ r.0 ∷ letters_in r.1) }
    {
        match self {
            Text::Bytes(bytes) => {
                let (first, rest) = bytes.split_first()?;
                Some((u32::from(*first), Text::Bytes(rest)))
            }
            Text::Chars(text) => {
                let (first, rest) = first_char(text)?;
                Some((first, Text::Chars(rest)))
            }
        }
    }
}

/// Returns an ASCII letter in lower case, and another letter as it is.
fn lower(letter: u32) -> u32
    ensures { result ≡ to_ascii_lowercase letter }
{
    if 65 <= letter && letter < 91 {
        letter + 32
    } else {
        letter
    }
}

/// Returns an ASCII letter in upper case, and another letter as it is.
fn upper(letter: u32) -> u32
    ensures { result ≡ to_ascii_uppercase letter }
{
    if 97 <= letter && letter < 123 {
        letter - 32
    } else {
        letter
    }
}

/// Returns a letter in its two cases, or twice if its case counts.
pub(crate) fn cases(any_case: bool, letter: u32) -> (u32, u32)
    ensures { result ≡ cases any_case letter }
{
    if any_case {
        (lower(letter), upper(letter))
    } else {
        (letter, letter)
    }
}

/// Returns whether a letter has one of these cases.
fn is_one(letter: u32, cases: (u32, u32)) -> bool
    ensures { result ≡ has_one (λ b. letter == b) cases }
{
    letter == cases.0 || letter == cases.1
}

/// Returns whether one of the cases of a letter is in a range.
fn has_case(from: u32, to: u32, cases: (u32, u32)) -> bool
    ensures { result ≡ has_one (is_within from to) cases }
{
    (from <= cases.0 && cases.0 <= to) || (from <= cases.1 && cases.1 <= to)
}

/// What an item of a pattern is.
#[derive(Clone, Copy, Debug)]
pub(crate) enum Role {
    /// One letter.
    Letter,
    /// Any number of letters.
    Many,
    /// The beginning of a group.
    Group,
    /// What separates two alternatives of a group.
    Comma,
    /// The end of a group.
    End,
}

impl Role {
    /// Returns whether what is behind an item with this role is in a group. `in_group` says whether the
    /// item is.
    pub(crate) fn stays_in(self, in_group: bool) -> bool
        ensures { (i : glob.Item) → role_of i ≡ self → result ≡ stays_in in_group i }
    {
        match self {
            Role::Group => true,
            Role::End => false,
            Role::Many | Role::Comma | Role::Letter => in_group,
        }
    }
}

/// An item of a pattern, beside a letter.
#[derive(Clone, Copy, Debug)]
pub(crate) struct Item {
    /// What it is.
    pub(crate) role: Role,
    /// It takes the letter.
    pub(crate) takes: bool,
}

/// Returns the first letter of a class with whether it is escaped, and what is left after it, or
/// `None` if the class ends here.
fn class_letter(text: Text<'_>) -> Option<((bool, u32), Text<'_>)>
    ensures is { MatchOption result (class_at (letters_in text.entry) ≡ closing (letters_in text.entry))
        (λ r. class_at (letters_in text.entry) ≡ with_letter r.0 (class_at (letters_in r.1))) }
    ensures left { IfSome result (λ r. length (letters_in r.1) < length (letters_in text.entry)) }
{
    let (first, rest) = text.first()?;
    if first == CLOSE {
        return None;
    }
    if first != ESCAPE {
        return Some(((false, first), rest));
    }
    let (escaped, rest) = rest.first()?;
    Some(((true, escaped), rest))
}

/// Returns the last letter of a range whose first letter is `from`, and what is left of the class
/// after it. If no range continues here, that is the first letter itself.
fn range_end(from: u32, text: Text<'_>) -> (u32, Text<'_>)
    ensures has { (escaped : Bool) (b : ℕ × ℕ)
        → class_has b (with_letter (escaped, from) (class_at (letters_in text.entry)))
        ≡ add_range from result.0 b (class_has b (class_at (letters_in result.1))) }
    ensures left { length (letters_in result.1) ≤ length (letters_in text.entry) }
{
    let Some(((escaped, dash), after)) = class_letter(text) else {
        return (from, text);
    };
    if escaped {
        return (from, text);
    }
    if dash != DASH {
        return (from, text);
    }
    match class_letter(after) {
        Some(((_escaped, to), rest)) => (to, rest),
        None => (from, text),
    }
}

/// Returns whether a class has a case of the letter, and what is left after its closing bracket, or `None` if
/// it has none, or a range without letters.
fn class_takes(text: Text<'_>, letter: (u32, u32)) -> Option<(bool, Text<'_>)>
    ensures { option_map (λ r. (r.0, letters_in r.1)) result
        ≡ class_has letter (class_at (letters_in text.entry)) }
{
    let mut left = text;
    let mut found = false;
    while let Some(((_escaped, from), rest)) = class_letter(left) {
        let (to, more) = range_end(from, rest);
        if to < from {
            return None;
        }
        found = found | has_case(from, to, letter);
        left = more;
    }
    let (close, rest) = left.first()?;
    (close == CLOSE).then_some((found, rest))
}

/// Returns a class beside the letter, and what is left of the pattern after it.
fn class_item(text: Text<'_>, negated: bool, letter: (u32, u32)) -> Option<(Item, Text<'_>)>
    ensures { option_map (λ r. ((r.0.role, r.0.takes), letters_in r.1)) result
        ≡ read letter (glob.class_of negated (class_at (letters_in text.entry))) }
{
    let _first = class_letter(text)?;
    let (has, rest) = class_takes(text, letter)?;
    let item = Item {
        role: Role::Letter,
        takes: has != negated,
    };
    Some((item, rest))
}

/// Returns the class behind an opening bracket, beside the letter, and what is left of the pattern
/// after it.
fn opened(text: Text<'_>, letter: (u32, u32)) -> Option<(Item, Text<'_>)>
    ensures { option_map (λ r. ((r.0.role, r.0.takes), letters_in r.1)) result
        ≡ read letter (glob.opened (letters_in text.entry)) }
{
    let (first, rest) = text.first()?;
    if first == NOT || first == CARET {
        class_item(rest, true, letter)
    } else {
        class_item(text, false, letter)
    }
}

/// Returns an item that is one letter, beside a letter with these cases.
fn one(letter: u32, cases: (u32, u32)) -> Item
    ensures { (result.role, result.takes) ≡ beside cases (glob.one letter) }
{
    Item {
        role: Role::Letter,
        takes: is_one(letter, cases),
    }
}

/// Returns the item that a letter is in a group or outside of one, if it is neither a backslash nor an
/// opening bracket, beside a letter with these cases.
fn item_of(first: u32, in_group: bool, letter: (u32, u32)) -> Option<Item>
    ensures { option_map (λ r. (r.role, r.takes)) result
        ≡ option_map (beside letter) (glob.item_of in_group first) }
{
    let (role, takes) = match first {
        MANY => (Role::Many, true),
        ANY => (Role::Letter, true),
        GROUP => {
            if in_group {
                return None;
            }
            (Role::Group, false)
        }
        END => {
            if !in_group {
                return None;
            }
            (Role::End, false)
        }
        COMMA if in_group => (Role::Comma, false),
        _ => return Some(one(first, letter)),
    };
    Some(Item { role, takes })
}

/// Returns the first item of a pattern, or of what is left of it in a group, beside a letter with these
/// cases, and what is left after it.
pub(crate) fn first_item(
    pattern: Text<'_>,
    in_group: bool,
    letter: (u32, u32),
) -> Option<(Item, Text<'_>)>
    ensures is { option_map (λ r. ((r.0.role, r.0.takes), letters_in r.1)) result
        ≡ read letter (glob.first_item in_group (letters_in pattern.entry)) }
    ensures left { IfSome result (λ r. length (letters_in r.1) < length (letters_in pattern.entry)) }
{
    let (first, rest) = pattern.first()?;
    if first == ESCAPE {
        let (escaped, rest) = rest.first()?;
        return Some((one(escaped, letter), rest));
    }
    if first == OPEN {
        return opened(rest, letter);
    }
    let item = item_of(first, in_group, letter)?;
    Some((item, rest))
}
