//! A part of the bytes of a trie, and its place.

ghost use Rattle.std.specs.Prelude.{◌≡◌, ◌+◌, ◌<◌, ◌≤◌, ◌^◌, length};

/// A part of the bytes of a trie, and how it is reached.
#[derive(Clone, Copy, Debug)]
pub struct Part<'a> {
    /// The number of bytes before it.
    pub place: usize,
    /// The number of branches above it.
    pub depth: usize,
    /// The place of the node that it follows, or `None` if it is all of the bytes.
    pub above: Option<usize>,
    /// The byte of its edge, if it is the target of a branch.
    pub edge: Option<u8>,
    /// Its bytes, up to the end of the innermost target that it is in.
    pub bytes: &'a [u8],
    ghost within: { place + length bytes.now < 2 ^ 64 },
    ghost shallow: { depth ≤ place },
}

impl<'a> Part<'a> {
    ghost use Rattle.zerotrie_core.specs.walk.Visits.{whole, after_node, below_edge};
    ghost use Rattle.zerotrie_core.specs.walk.Seen.{part_of};

    /// Returns the part that is all of these bytes.
    pub(crate) fn whole(bytes: &'a [u8]) -> Self
        ensures { part_of result ≡ whole bytes.now }
    {
        Part {
            place: 0,
            depth: 0,
            above: None,
            edge: None,
            bytes,
        }
    }

    /// Returns the part after the first node, which is `rest`.
    pub(crate) fn after(self, rest: &'a [u8]) -> Self
        requires { length rest.now ≤ length self.bytes.now }
        ensures { part_of result ≡ after_node (part_of self.entry) rest.now }
    {
        Part {
            place: self.place + (self.bytes.len() - rest.len()),
            depth: self.depth,
            above: Some(self.place),
            edge: None,
            bytes: rest,
        }
    }

    /// Returns the target of an edge of the branch at the beginning of this part.
    pub(crate) fn below_edge(self, place: usize, edge: u8, bytes: &'a [u8]) -> Self
        requires { (self.place < place) × (place + length bytes.now < 2 ^ 64) }
        ensures { part_of result ≡ below_edge (part_of self.entry) place edge bytes.now }
    {
        Part {
            place,
            depth: self.depth + 1,
            above: Some(self.place),
            edge: Some(edge),
            bytes,
        }
    }
}
