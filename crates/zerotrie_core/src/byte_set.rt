//! Sets of bytes.

ghost use Rattle.std.specs.Prelude.{◌≡◌, ◌<◌, ◌==◌, ◌↔◌, ◌||◌, ◌&&◌, ℕ, not, length, true, false, Contains, IfSome, IfNone};

/// A set of bytes, as a bit for each byte.
///
/// ```
/// let mut vowels = ByteSet::from_bytes(b"aeiou");
/// assert!(rt; vowels.has(b'e'));
/// assert!(rt; !vowels.has(b'f'));
/// vowels.remove(b'a');
/// assert_eq!(rt; vowels.least(), Some(b'e'));
/// ```
#[derive(Clone, Copy, Debug, PartialEq, Eq)]
pub struct ByteSet {
    words: [u64; 4],
    ghost whole: { length words ≡ 4 },
}

impl ByteSet {
    ghost use Rattle.zerotrie_core.specs.ByteSets.{is_in};

    /// Returns the set of no byte.
    #[inline]
    pub fn none() -> Self
        ensures { (byte : ℕ) → is_in result byte ≡ false }
    {
        ByteSet { words: [0; 4] }
    }

    /// Returns the set of all bytes.
    #[inline]
    pub fn all() -> Self
        ensures { (byte : ℕ) → byte < 256 → is_in result byte ≡ true }
    {
        ByteSet {
            words: [u64::MAX; 4],
        }
    }

    /// Returns the set of these bytes.
    ///
    /// ```
    /// let digits = ByteSet::from_bytes(b"0123456789");
    /// assert!(rt; digits.has(b'7'));
    /// assert!(rt; !digits.has(b'a'));
    /// ```
    #[inline]
    pub fn from_bytes(bytes: &[u8]) -> Self
        ensures { (byte : ℕ) → (is_in result byte ≡ true) ↔ Contains bytes.now byte }
    {
        let mut set = ByteSet::none();
        for byte in bytes {
            set.insert(*byte);
        }
        set
    }

    /// Returns whether a byte is in the set.
    #[inline(always)]
    pub fn has(&self, byte: u8) -> bool
        ensures { result ≡ is_in self.now byte }
    {
        (self.words[byte as usize / 64] >> (byte % 64)) & 1 == 1
    }

    /// Adds a byte to the set.
    ///
    /// ```
    /// let mut set = ByteSet::none();
    /// set.insert(b'a');
    /// assert!(rt; set.has(b'a'));
    /// ```
    #[inline(always)]
    pub fn insert(&mut self, byte: u8)
        ensures { (other : ℕ) → is_in self.new other ≡ ((other == byte) || is_in self.old other) }
    {
        self.words[byte as usize / 64] |= 1 << (byte % 64);
    }

    /// Removes a byte from the set.
    ///
    /// ```
    /// let mut set = ByteSet::all();
    /// set.remove(0);
    /// assert_eq!(rt; set.least(), Some(1));
    /// ```
    #[inline(always)]
    pub fn remove(&mut self, byte: u8)
        ensures { (other : ℕ) → is_in self.new other ≡ (not (other == byte) && is_in self.old other) }
    {
        self.words[byte as usize / 64] &= !(1 << (byte % 64));
    }

    /// Returns the set of the bytes that are in both sets.
    ///
    /// ```
    /// let both = ByteSet::from_bytes(b"abc").intersect(&ByteSet::from_bytes(b"bcd"));
    /// assert_eq!(rt; both, ByteSet::from_bytes(b"bc"));
    /// ```
    #[inline]
    pub fn intersect(&self, other: &ByteSet) -> Self
        ensures { (byte : ℕ) → is_in result byte ≡ (is_in self.now byte && is_in other.now byte) }
    {
        let [a, b, c, d] = self.words;
        let [e, f, g, h] = other.words;
        ByteSet {
            words: [a & e, b & f, c & g, d & h],
        }
    }

    /// Returns the set of the bytes that are in one of the sets or in both.
    ///
    /// ```
    /// let one = ByteSet::from_bytes(b"ab").unite(&ByteSet::from_bytes(b"bc"));
    /// assert_eq!(rt; one, ByteSet::from_bytes(b"abc"));
    /// ```
    #[inline]
    pub fn unite(&self, other: &ByteSet) -> Self
        ensures { (byte : ℕ) → is_in result byte ≡ (is_in self.now byte || is_in other.now byte) }
    {
        let [a, b, c, d] = self.words;
        let [e, f, g, h] = other.words;
        ByteSet {
            words: [a | e, b | f, c | g, d | h],
        }
    }

    /// Returns the least byte of the set, or `None` if it has none.
    ///
    /// ```
    /// assert_eq!(rt; ByteSet::from_bytes(b"zebra").least(), Some(b'a'));
    /// assert_eq!(rt; ByteSet::none().least(), None);
    /// ```
    #[inline]
    pub fn least(&self) -> Option<u8>
        ensures some { IfSome result (λ byte. is_in self.now byte ≡ true) }
        ensures least { IfSome result (λ byte. (other : ℕ) → other < byte → is_in self.now other ≡ false) }
        ensures none { IfNone result ((byte : ℕ) → is_in self.now byte ≡ false) }
    {
        for place in 0..4 {
            let word = self.words[place];
            if word != 0 {
                return Some((64 * place + word.trailing_zeros() as usize) as u8);
            }
        }
        None
    }
}
