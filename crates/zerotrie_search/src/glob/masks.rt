//! A pattern as masks: a bit for each item, and one for the end.

ghost use Rattle.std.specs.Prelude.{◌≡◌, ◌≢◌, ◌≤◌, ◌<◌, ◌+◌, ◌∷◌, ℕ, List, [], length, drop, slice_index, true, false, IfOk, IfErr, if◌then◌else◌};
ghost use Rattle.std.specs.Int.{bit_at};
ghost use Rattle.zerotrie_search.specs.Globs as glob;
ghost use Rattle.zerotrie_search.specs.Globs.{cased, items, no_item, matches};
ghost use Rattle.zerotrie_search.specs.GlobMasks.{letters_in, role_of, after, any_match, AreRoles, AreTakers, AreFollowers};
ghost use Rattle.zerotrie_search.specs.GlobAheads.{AreAhead};
ghost use Rattle.zerotrie_search.specs.declared.TheConstants.{WORD_LIMIT};
ghost use Rattle.zerotrie_search.specs.declared.glob.GlobError.TheVariants.{Malformed, TooLong};

use super::GlobError;
use super::pattern::{Role, Text, cases, first_item};
use crate::WORD_LIMIT;

/// The masks of a pattern.
#[derive(Clone, Copy, Debug)]
pub(crate) struct Masks {
    /// The items that take each letter below 256.
    takers: [u64; 256],
    /// The places that may be next after each item.
    followers: [u64; 64],
    /// The places that may be first.
    first: u64,
    /// The number of items, which is the place of the end.
    last: u32,
    ghost whole: { length takers ≡ 256 },
    ghost all: { length followers ≡ 64 },
    ghost few: { last ≤ WORD_LIMIT },
}

/// The places that may be next.
#[derive(Clone, Copy, Debug)]
struct Ahead {
    /// Those that may be first of all items from a place on.
    all: u64,
    /// Those that may be first of the other alternatives of its group.
    others: u64,
    /// Those that may be first behind the end of its group.
    behind: u64,
}

/// Returns the marks with one more.
fn marked(marks: u64, place: u32) -> u64
    requires { place < 64 }
    ensures same { bit_at result place ≡ 1 }
    ensures other { (i : ℕ) → i ≢ place → bit_at result i ≡ bit_at marks i }
{
    marks | 1 << place
}

/// Returns the marks, with one more if it is to be.
fn marked_if(marks: u64, place: u32, is: bool) -> u64
    requires { place < 64 }
    ensures same { bit_at result place ≡ (if is then 1 else bit_at marks place) }
    ensures other { (i : ℕ) → i ≢ place → bit_at result i ≡ bit_at marks i }
{
    if is { marked(marks, place) } else { marks }
}

/// Returns the roles of the items of a pattern, and their number.
fn roles_of(pattern: Text<'_>) -> Result<([Role; 64], u32), GlobError>
    ensures ok { IfOk result (λ r. AreRoles (items (letters_in pattern.entry)) r.0
        × (r.1 ≡ length (items (letters_in pattern.entry))) × (r.1 ≤ WORD_LIMIT)
        × (length r.0 ≡ 64) × (no_item (letters_in pattern.entry) ≡ [])) }
    ensures malformed { IfErr result (λ e. e ≡ Malformed → no_item (letters_in pattern.entry) ≢ []) }
    ensures long { IfErr result (λ e. e ≡ TooLong
        → WORD_LIMIT < length (items (letters_in pattern.entry))) }
{
    let mut left = pattern;
    let mut in_group = false;
    let mut place: u32 = 0;
    let mut roles = [Role::Letter; 64];
    while let Some((item, rest)) = first_item(left, in_group, (0, 0)) {
        if place as usize == WORD_LIMIT {
            return Err(GlobError::TooLong);
        }
        roles[place as usize] = item.role;
        place += 1;
        in_group = item.role.stays_in(in_group);
        left = rest;
    }
    if in_group {
        return Err(GlobError::Malformed);
    }
    match left.first() {
        None => Ok((roles, place)),
        Some(_) => Err(GlobError::Malformed),
    }
}

/// Returns the marks of the items that take the letter.
pub(crate) fn takers_of(pattern: Text<'_>, any_case: bool, letter: u32) -> u64
    requires { length (items (letters_in pattern)) ≤ WORD_LIMIT }
    ensures { AreTakers (cased any_case (items (letters_in pattern.entry))) letter result }
{
    let letters = cases(any_case, letter);
    let mut left = pattern;
    let mut in_group = false;
    let mut place: u32 = 0;
    let mut takers: u64 = 0;
    while let Some((item, rest)) = first_item(left, in_group, letters) {
        takers = marked_if(takers, place, item.takes);
        place += 1;
        in_group = item.role.stays_in(in_group);
        left = rest;
    }
    takers
}

/// Returns the marks of the items that take each letter below 256.
fn all_takers_of(pattern: Text<'_>, any_case: bool) -> [u64; 256]
    requires { length (items (letters_in pattern)) ≤ WORD_LIMIT }
    ensures whole { length result ≡ 256 }
    ensures are { (letter : ℕ) → letter < 256
        → AreTakers (cased any_case (items (letters_in pattern.entry))) letter
        (slice_index result letter) }
{
    let mut takers = [0; 256];
    let mut letter: usize = 0;
    while letter < 256 {
        takers[letter] = takers_of(pattern, any_case, letter as u32);
        letter += 1;
    }
    takers
}

/// Returns the places ahead from an item on, by its role and the places ahead behind it.
fn before(ahead: Ahead, role: Role, place: u32) -> Ahead
    requires { place < 64 }
    ensures { (i : glob.Item) (all : List glob.Item) (key : List ℕ)
        → drop place all ≡ i ∷ drop (place + 1) all → role_of i ≡ role
        → AreAhead all (drop (place + 1) all) ahead key
        → AreAhead all (i ∷ drop (place + 1) all) result key }
{
    let Ahead {
        all,
        others,
        behind,
    } = ahead;
    match role {
        Role::Many => Ahead {
            all: marked(all, place),
            others,
            behind,
        },
        Role::Letter => Ahead {
            all: marked(0, place),
            others,
            behind,
        },
        Role::Group => Ahead {
            all: all | others,
            others,
            behind,
        },
        Role::Comma => Ahead {
            all: behind,
            others: all | others,
            behind,
        },
        Role::End => Ahead {
            all,
            others: 0,
            behind: all,
        },
    }
}

/// Returns the places that may be next after an item. A star leads to itself too.
fn after(role: Role, ahead: Ahead, from: Ahead) -> u64
    ensures { (i : glob.Item) (all more : List glob.Item) (key : List ℕ) → role_of i ≡ role
        → AreAhead all more ahead key → AreAhead all (i ∷ more) from key
        → any_match result 0 all key ≡ after i more key }
{
    match role {
        Role::Many => from.all,
        Role::Group | Role::Comma | Role::End | Role::Letter => ahead.all,
    }
}

/// Returns the places that may be next after each item, and those that may be first.
fn followers_of(roles: [Role; 64], last: u32) -> ([u64; 64], u64)
    requires few { last ≤ WORD_LIMIT }
    requires whole { length roles ≡ 64 }
    ensures whole { length result.0 ≡ 64 }
    ensures are { (all : List glob.Item) → length all ≡ last → AreRoles all roles
        → AreFollowers all result.0 }
    ensures first { (all : List glob.Item) → length all ≡ last → AreRoles all roles
        → (key : List ℕ) → any_match result.1 0 all key ≡ matches all key }
{
    let mut followers = [0; 64];
    let mut place = last;
    let mut ahead = Ahead {
        all: marked(0, last),
        others: 0,
        behind: 0,
    };
    while place > 0 {
        place -= 1;
        let role = roles[place as usize];
        let from = before(ahead, role, place);
        followers[place as usize] = after(role, ahead, from);
        ahead = from;
    }
    (followers, ahead.all)
}

impl Masks {
    ghost use Rattle.zerotrie_search.specs.GlobTables.{AreMasks};

    /// Returns the masks of a pattern. With `any_case`, its letters are taken in both cases.
    pub(crate) fn of(pattern: Text<'_>, any_case: bool) -> Result<Self, GlobError>
        ensures ok { IfOk result (λ masks.
            AreMasks (cased any_case (items (letters_in pattern.entry))) masks
            × (no_item (letters_in pattern.entry) ≡ [])) }
        ensures malformed { IfErr result (λ e. e ≡ Malformed
            → no_item (letters_in pattern.entry) ≢ []) }
        ensures long { IfErr result (λ e. e ≡ TooLong
            → WORD_LIMIT < length (items (letters_in pattern.entry))) }
    {
        let (roles, last) = roles_of(pattern)?;
        let (followers, first) = followers_of(roles, last);
        Ok(Masks {
            takers: all_takers_of(pattern, any_case),
            followers,
            first,
            last,
        })
    }

    /// Returns the places before the first letter.
    pub(crate) fn first(&self) -> u64
        ensures { result ≡ self.now.first }
    {
        self.first
    }

    /// Returns the marks of the items that take a letter below 256.
    #[inline(always)]
    pub(crate) fn takers(&self, letter: u8) -> u64
        ensures { result ≡ slice_index self.now.takers letter }
    {
        self.takers[letter as usize]
    }

    /// Returns the places after one more letter, which these items take.
    #[inline]
    pub(crate) fn step(&self, marks: u64, takers: u64) -> u64
        ensures { (all : List glob.Item) (letter : ℕ) (key : List ℕ) → AreMasks all self.now
            → AreTakers all letter takers
            → any_match result 0 all key ≡ any_match marks 0 all (letter ∷ key) }
    {
        let mut left = marks & takers;
        let mut next: u64 = 0;
        while left != 0 {
            let place = left.trailing_zeros();
            next |= self.followers[place as usize];
            left &= !(1 << place);
        }
        next
    }

    /// Returns whether the end is marked.
    #[inline]
    pub(crate) fn is_match(&self, marks: u64) -> bool
        ensures { (all : List glob.Item) → AreMasks all self.now
            → result ≡ any_match marks 0 all [] }
    {
        (marks >> self.last) & 1 == 1
    }

    /// Returns whether nothing but the end is marked.
    #[inline]
    pub(crate) fn is_over(&self, marks: u64) -> bool
        ensures { result ≡ true → (all : List glob.Item) → AreMasks all self.now
            → (letter : ℕ) (key : List ℕ) → any_match marks 0 all (letter ∷ key) ≡ false }
    {
        marks & !(1 << self.last) == 0
    }
}
