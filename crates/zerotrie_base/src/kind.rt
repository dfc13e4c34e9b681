//! The kind of a trie as a value, for code that learns the kind when the program runs.

ghost use Rattle.std.specs.Prelude.{◌≡◌, IfSome, IfNone};
ghost use Rattle.zerotrie_base.specs.Kind.{tag, flags, kind_with};
ghost use Rattle.zerotrie_base.specs.Kinds.{kind_of, kind_name, IsTag};
ghost use Rattle.zerotrie_base.specs.declared.kind.TrieKind.{TrieKind};

use crate::options::{Ext, Hash, Ignore, Simple, ZeroTrieBuilderOptions, ZeroTrieWithOptions};

/// A kind of trie.
///
/// ```
/// assert_eq!(rt; TrieKind::of_tag(3), Some(TrieKind::Hash));
/// assert_eq!(rt; TrieKind::named("ext"), Some(TrieKind::Ext));
/// assert_eq!(rt; TrieKind::Ignore.tag(), 8);
/// ```
#[derive(Clone, Copy, PartialEq, Eq, Debug)]
pub enum TrieKind {
    /// Keys are ASCII.
    Simple,
    /// Keys are ASCII, and a look-up ignores the case of their letters.
    Ignore,
    /// Keys are any bytes.
    Hash,
    /// Keys are any bytes, and a branch may have targets of any length.
    Ext,
}

/// Calls a function at a kind that is known only when the program runs.
///
/// The type of the kind takes the place of `_`: for `TrieKind::Hash`, `by_kind!(kind, f::<_, A>(x))`
/// is `f::<Hash, A>(x)`.
///
/// ```
/// assert_eq!(rt; by_kind!(TrieKind::Ignore, folded::<_>(b'A')), b'a');
/// ```
#[macro_export]
macro_rules! by_kind {
    ($kind:expr, $($f:ident)::+::<_ $(, $more:ty)*>($($arg:expr),* $(,)?)) => {
        match $kind {
            $crate::TrieKind::Simple => $($f)::+::<$crate::Simple $(, $more)*>($($arg),*),
            $crate::TrieKind::Ignore => $($f)::+::<$crate::Ignore $(, $more)*>($($arg),*),
            $crate::TrieKind::Hash => $($f)::+::<$crate::Hash $(, $more)*>($($arg),*),
            $crate::TrieKind::Ext => $($f)::+::<$crate::Ext $(, $more)*>($($arg),*),
        }
    };
}

impl TrieKind {
    /// The number of keys from which a trie whose kind the library chooses is no longer `Simple`.
    pub const SIMPLE_LIMIT: usize = 512;

    /// Returns the number of the kind, which tagged bytes begin with.
    pub fn tag(self) -> u8
        ensures { result ≡ tag (kind_of self) }
    {
        match self {
            TrieKind::Simple => Simple::TAG,
            TrieKind::Ignore => Ignore::TAG,
            TrieKind::Hash => Hash::TAG,
            TrieKind::Ext => Ext::TAG,
        }
    }

    /// Returns the kind with this number, or `None` if no kind has it.
    pub fn of_tag(number: u8) -> Option<Self>
        ensures some { IfSome result (λ kind. tag (kind_of kind) ≡ number) }
        ensures none { IfNone result (IsTag number → ⊥) }
    {
        match number {
            Simple::TAG => Some(TrieKind::Simple),
            Ignore::TAG => Some(TrieKind::Ignore),
            Hash::TAG => Some(TrieKind::Hash),
            Ext::TAG => Some(TrieKind::Ext),
            _ => None,
        }
    }

    /// Returns the name of the kind on a command line.
    pub fn name(self) -> &'static str
        ensures { result.now ≡ kind_name self }
    {
        match self {
            TrieKind::Simple => "simple",
            TrieKind::Ignore => "ignore",
            TrieKind::Hash => "hash",
            TrieKind::Ext => "ext",
        }
    }

    /// Returns the kind with this name on a command line, or `None` if no kind has it.
    pub fn named(name: &str) -> Option<Self>
        ensures some { IfSome result (λ kind. name.now ≡ kind_name kind) }
        ensures none { IfNone result ((kind : TrieKind) → name.now ≡ kind_name kind → ⊥) }
    {
        match name {
            "simple" => Some(TrieKind::Simple),
            "ignore" => Some(TrieKind::Ignore),
            "hash" => Some(TrieKind::Hash),
            "ext" => Some(TrieKind::Ext),
            _ => None,
        }
    }

    /// Returns the options of the kind.
    pub fn options(self) -> ZeroTrieBuilderOptions
        ensures { result ≡ flags (kind_of self) }
    {
        by_kind!(self, ZeroTrieBuilderOptions::of::<_>())
    }
}

impl ZeroTrieBuilderOptions {
    /// Returns the kind that has these options.
    pub fn kind(&self) -> TrieKind
        ensures { kind_of result ≡ kind_with self.now }
    {
        if self.ignore_case() {
            TrieKind::Ignore
        } else if self.extended() {
            TrieKind::Ext
        } else if self.use_phf() {
            TrieKind::Hash
        } else {
            TrieKind::Simple
        }
    }
}
