//! The kinds of trie, as types.

ghost use Rattle.std.specs.Prelude.{◌≡◌, ℕ, ◌+◌, ◌*◌, ◌⊎◌, Bool, true, false, refl, cond};
ghost use Rattle.std.proofs.Common.{inl, inr};
ghost use Rattle.zerotrie_base.specs.Kind.{Kind, Flags, simple_ascii, ignore_case, perfect_hash, extended_capacity, tag, flags, kind_with};
ghost use Rattle.zerotrie_base.specs.Options.{IsTag};

use std::marker::Model;

/// The constants of a kind of trie.
///
/// `TAG` is the number of the kind in tagged bytes. It is the sum of 1, 2, 4 and 8 for each of the
/// other constants, in their order, that is set: 0, 3, 7 or 8.
pub trait ZeroTrieWithOptions {
    /// Whether a branch of 16 edges or more has a perfect hash as its search table.
    const USE_PHF: bool;
    /// Whether bytes of 128 or more that are not edges of a branch are in spans.
    const SPANS: bool;
    /// Whether the offsets of a branch may have more than four bytes.
    const EXTENDED: bool;
    /// Whether look-ups ignore the case of ASCII letters.
    const IGNORE_CASE: bool;
    /// The number of the kind.
    const TAG: u8;

    ghost USE_PHF: { Bool };

    ghost SPANS: { Bool };

    ghost EXTENDED: { Bool };

    ghost IGNORE_CASE: { Bool };

    ghost TAG: { ℕ };

    ghost kind: { Kind };

    ghost flags_are: { flags kind ≡ record { use_phf = USE_PHF; spans = SPANS; extended = EXTENDED; ignore_case = IGNORE_CASE } };

    ghost tag_is: { TAG ≡ tag kind };

    ghost lawful: { IsTag TAG (flags kind) };
}

/// The kind over ASCII keys.
#[derive(Clone, Copy, Debug, PartialEq, Eq)]
pub struct Simple;

impl ZeroTrieWithOptions for Simple {
    const USE_PHF: bool = false;

    const SPANS: bool = false;

    const EXTENDED: bool = false;

    const IGNORE_CASE: bool = false;

    const TAG: u8 = 0;

    ghost USE_PHF = { false };

    ghost SPANS = { false };

    ghost EXTENDED = { false };

    ghost IGNORE_CASE = { false };

    ghost TAG = { 0 };

    ghost kind = { simple_ascii };

    ghost flags_are = { refl };

    ghost tag_is = { refl };

    ghost lawful = { (refl, inl refl) };
}

/// The kind over ASCII keys that ignores their case.
#[derive(Clone, Copy, Debug, PartialEq, Eq)]
pub struct Ignore;

impl ZeroTrieWithOptions for Ignore {
    const USE_PHF: bool = false;

    const SPANS: bool = false;

    const EXTENDED: bool = false;

    const IGNORE_CASE: bool = true;

    const TAG: u8 = 8;

    ghost USE_PHF = { false };

    ghost SPANS = { false };

    ghost EXTENDED = { false };

    ghost IGNORE_CASE = { true };

    ghost TAG = { 8 };

    ghost kind = { ignore_case };

    ghost flags_are = { refl };

    ghost tag_is = { refl };

    ghost lawful = { (refl, inr (inr (inr refl))) };
}

/// The kind over keys of any bytes, with perfect hashes in wide branches.
#[derive(Clone, Copy, Debug, PartialEq, Eq)]
pub struct Hash;

impl ZeroTrieWithOptions for Hash {
    const USE_PHF: bool = true;

    const SPANS: bool = true;

    const EXTENDED: bool = false;

    const IGNORE_CASE: bool = false;

    const TAG: u8 = 3;

    ghost USE_PHF = { true };

    ghost SPANS = { true };

    ghost EXTENDED = { false };

    ghost IGNORE_CASE = { false };

    ghost TAG = { 3 };

    ghost kind = { perfect_hash };

    ghost flags_are = { refl };

    ghost tag_is = { refl };

    ghost lawful = { (refl, inr (inl refl)) };
}

/// The kind over keys of any bytes whose branches may have targets of any length.
#[derive(Clone, Copy, Debug, PartialEq, Eq)]
pub struct Ext;

impl ZeroTrieWithOptions for Ext {
    const USE_PHF: bool = true;

    const SPANS: bool = true;

    const EXTENDED: bool = true;

    const IGNORE_CASE: bool = false;

    const TAG: u8 = 7;

    ghost USE_PHF = { true };

    ghost SPANS = { true };

    ghost EXTENDED = { true };

    ghost IGNORE_CASE = { false };

    ghost TAG = { 7 };

    ghost kind = { extended_capacity };

    ghost flags_are = { refl };

    ghost tag_is = { refl };

    ghost lawful = { (refl, inr (inr (inl refl))) };
}

/// The constants of a kind of trie, as a value.
///
/// ```
/// let options = ZeroTrieBuilderOptions::of::<Simple>();
/// assert!(rt; !options.ignore_case());
/// ```
#[derive(Clone, Copy, Debug, PartialEq, Eq)]
pub struct ZeroTrieBuilderOptions {
    use_phf: bool,
    spans: bool,
    extended: bool,
    ignore_case: bool,
}

impl Model for ZeroTrieBuilderOptions {
    ghost use Rattle.zerotrie_base.specs.Kind.{Flags};
    ghost use Rattle.zerotrie_base.specs.Options.{IsLawful};

    ghost Value = { Flags };

    ghost view = { λ o. record { use_phf = o.use_phf; spans = o.spans; extended = o.extended; ignore_case = o.ignore_case } };

    ghost invariant = { λ o. IsLawful (record { use_phf = o.use_phf; spans = o.spans; extended = o.extended; ignore_case = o.ignore_case }) };

    ghost inverse = { λ f. record { use_phf = f.use_phf; spans = f.spans; extended = f.extended; ignore_case = f.ignore_case } };
}

impl ZeroTrieBuilderOptions {
    /// Returns the constants of `K`.
    pub fn of<K: ZeroTrieWithOptions>() -> Self
        ensures flags { result ≡ flags K.kind }
        ensures kind { kind_with result ≡ K.kind }
    {
        ZeroTrieBuilderOptions {
            use_phf: K::USE_PHF,
            spans: K::SPANS,
            extended: K::EXTENDED,
            ignore_case: K::IGNORE_CASE,
        }
    }

    /// Returns whether a branch of 16 edges or more has a perfect hash as its search table.
    pub fn use_phf(&self) -> bool
        ensures { result ≡ self.now.use_phf }
    {
        self.use_phf
    }

    /// Returns whether bytes of 128 or more that are not edges of a branch are in spans.
    pub fn spans(&self) -> bool
        ensures { result ≡ self.now.spans }
    {
        self.spans
    }

    /// Returns whether the offsets of a branch may have more than four bytes.
    pub fn extended(&self) -> bool
        ensures { result ≡ self.now.extended }
    {
        self.extended
    }

    /// Returns whether look-ups ignore the case of ASCII letters.
    pub fn ignore_case(&self) -> bool
        ensures { result ≡ self.now.ignore_case }
    {
        self.ignore_case
    }
}
