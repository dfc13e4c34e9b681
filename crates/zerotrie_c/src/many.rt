//! Many keys, which are looked up by one call.

ghost use Rattle.std.specs.Prelude.{◌≡◌, ℕ, List, Option, length, take, drop};
ghost use Rattle.zerotrie_c.specs.Keys.{FindsAs, keys_from, values_or, written_over};

/// What looks keys up.
pub trait Finder {
    // Holds of what it may find of a key.
    ghost MayFind: { Self → List ℕ → Option ℕ → Type 0 };

    /// Returns the value of a key, or `None` if there is none.
    fn find(&mut self, key: &[u8]) -> Option<usize>
        ensures found { MayFind self.old key.now result }
        ensures kept { (word : List ℕ) (value : Option ℕ)
            → MayFind self.new word value → MayFind self.old word value };
}

/// Returns the bytes from one place up to another. A place past all bytes counts as their end.
pub fn key_between(bytes: &[u8], from: usize, to: usize) -> &[u8]
    ensures { result.now ≡ drop from (take to bytes.now) }
{
    let front = if to < bytes.len() {
        &bytes[..to]
    } else {
        bytes
    };
    if from < front.len() {
        &front[from..]
    } else {
        &[]
    }
}

/// Looks up keys, which are one after another, and writes the value of each, or `missing`.
pub fn look_up_all<F: Finder>(
    finder: &mut F,
    keys: &[u8],
    ends: &[usize],
    missing: usize,
    values: &mut [usize],
)
    ensures found { (look : List ℕ → Option ℕ) → FindsAs (F.MayFind finder.old) look
        → values.new ≡ written_over (values_or missing look (keys_from 0 keys.now ends.now))
        values.old }
    ensures any { drop (length ends.now) values.new ≡ drop (length ends.now) values.old }
{
    let mut from = 0;
    let count = ends.len().min(values.len());
    for number in 0..count {
        let to = ends[number];
        values[number] = finder.find(key_between(keys, from, to)).unwrap_or(missing);
        from = to;
    }
}
