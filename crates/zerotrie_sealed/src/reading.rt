//! Opening: the trie of a sealed file, or what is wrong with the file.

ghost use Rattle.std.specs.Prelude.{◌≡◌, ℕ, ◌+◌, ◌≤◌, ◌↔◌, IsTrue, IfOk, IfErr, IfSome, IfNone, List, length, take, drop};
ghost use Rattle.zerotrie_base.specs.Kind.{Kind, tag};
ghost use Rattle.zerotrie_base.specs.Kinds.{kind_of, IsTag};
ghost use Rattle.zerotrie_sealed.specs.Sealed.{magic, version, IsIndexNumber, IsSealed};
ghost use Rattle.zerotrie_sealed.specs.Faults.{IsFileFault, IsHeaderFault, IsHeaderRightBefore, IsSealFault, HasKnown, IsRightBefore, IsSealRightBefore, IsIndexRightBefore, version_in, kind_in, length_in, HasSumOf};

use crate::checksum::crc32c_of_both;
use crate::writing::{FRONT_LEN, HEADER_LEN, MAGIC, VERSION};
use std::io;
use std::io::ErrorKind;
use thiserror::Error;
use zerotrie_base::TrieKind;

/// Why a file is not taken for a sealed one.
#[derive(Clone, Copy, PartialEq, Eq, Debug, Error)]
pub enum SealError {
    /// The file does not begin with the magic of sealed files.
    #[error("the file does not begin as a sealed one")]
    NoMagic,
    /// The file has another version of the format, which is given.
    #[error("the file has the version {0} of the format, and only version 1 is known")]
    UnknownVersion(u16),
    /// The number in the file, which is given, is that of no kind; for `open_index`, it is not that
    /// of an index.
    #[error("the file has the number {0}, which stands for nothing that is asked for")]
    UnknownKind(u16),
    /// The file has fewer bytes than its header says, or not even a header; of an index in blocks,
    /// fewer than its table says.
    #[error("the file is cut short: get all of it")]
    CutShort,
    /// The file has more bytes than its header says; of an index in blocks, than its table says.
    #[error("bytes follow what is sealed: get the file alone")]
    TooLong,
    /// The checksum in the header is not that of the rest of the file; of an index in blocks, it is
    /// not that of the table, or the table is not that of the index.
    #[error("the file is damaged: its bytes do not have the checksum that it was written with")]
    Checksum,
}

/// Of the kind `InvalidData`, for those who read files at places.
impl From<SealError> for io::Error {
    ghost use Rattle.std.specs.IoError.{error_kind};
    ghost use Rattle.std.specs.declared.io.ErrorKind.TheVariants as kind;

    ghost from_gives = { λ _ e. error_kind e ≡ kind.InvalidData };

    fn from(_: SealError) -> Self {
        io::Error::from(ErrorKind::InvalidData)
    }
}

/// What a sealed file has.
#[derive(Clone, Copy, PartialEq, Eq, Debug)]
pub struct Sealed<'a> {
    /// The kind of the trie.
    pub kind: TrieKind,
    /// The bytes of the trie.
    pub trie: &'a [u8],
}

/// Returns whether a file begins as each sealed one does, with the magic of its 8 bytes.
///
/// ```
/// let file = seal(rt.alloc(), TrieKind::Simple, b"a\x85")?;
/// assert!(rt; begins_sealed(file.as_slice()));
/// assert!(rt; !begins_sealed(b"\x00a\x85"));
/// ```
///
/// No tagged trie does, as the first byte of the magic is the number of no kind.
pub fn begins_sealed(file: &[u8]) -> bool
    ensures { IsTrue result ↔ (take 8 file.now ≡ magic) }
{
    file.starts_with(&MAGIC)
}

/// Returns whether bytes are a beginning of the magic, as of a sealed file that is not yet written.
///
/// ```
/// let file = seal(rt.alloc(), TrieKind::Simple, b"a\x85")?;
/// let (magic, _) = file.as_slice().split_at(8);
/// assert!(rt; begins_magic(magic));
/// assert!(rt; begins_magic(b"zt"));
/// assert!(rt; begins_magic(b""));
/// assert!(rt; !begins_magic(file.as_slice()));
/// ```
pub fn begins_magic(bytes: &[u8]) -> bool
    ensures { IsTrue result ↔ (take (length bytes.now) magic ≡ bytes.now) }
{
    MAGIC.starts_with(bytes)
}

/// Returns the number in the header of a file, if it begins as a sealed one and its version is
/// known.
pub(crate) fn number_in(file: &[u8]) -> Result<u16, SealError>
    ensures magic { IfOk result (λ _. take 8 file.now ≡ magic) }
    ensures header { IfOk result (λ _. 24 ≤ length file.now) }
    ensures version { IfOk result (λ _. version_in file.now ≡ version) }
    ensures number { IfOk result (λ number. kind_in file.now ≡ number) }
    ensures fault { IfErr result (IsFileFault file.now) }
    ensures alone { IfErr result (IsHeaderFault file.now) }
    ensures trie { IfErr result (IsSealRightBefore file.now) }
    ensures index { IfErr result (IsIndexRightBefore file.now) }
    ensures blocks { IfErr result (IsHeaderRightBefore file.now) }
{
    if !begins_sealed(file) {
        return Err(SealError::NoMagic);
    }
    if file.len() < HEADER_LEN {
        return Err(SealError::CutShort);
    }
    let (_, numbers) = file.split_at(8);
    let version = u16::from_le_bytes([numbers[0], numbers[1]]);
    if version != VERSION {
        return Err(SealError::UnknownVersion(version));
    }
    let (_, numbers) = file.split_at(10);
    Ok(u16::from_le_bytes([numbers[0], numbers[1]]))
}

/// Returns the kind that a number is of.
fn kind_of(number: u16) -> Option<TrieKind>
    ensures kind { IfSome result (λ kind. tag (kind_of kind) ≡ number) }
    ensures some { IfSome result (λ _. IsTag number) }
    ensures none { IfNone result (IsTag number → ⊥) }
{
    let [low, high] = number.to_le_bytes();
    match TrieKind::of_tag(low) {
        Some(kind) if high == 0 => Some(kind),
        _ => None,
    }
}

/// Returns the length in the header of a file.
pub(crate) fn length_in(file: &[u8]) -> usize
    requires { 24 ≤ length file.now }
    ensures { result ≡ length_in file.now }
{
    let (_, numbers) = file.split_at(12);
    let len = u64::from_le_bytes([
        numbers[0], numbers[1], numbers[2], numbers[3], numbers[4], numbers[5], numbers[6],
        numbers[7],
    ]);
    usize::try_from(len).unwrap_or(usize::MAX)
}

/// Returns the bytes behind the header of a file, if they are as many as it says.
fn bytes_in(file: &[u8]) -> Result<&[u8], SealError>
    requires { 24 ≤ length file.now }
    ensures bytes { IfOk result (λ bytes. bytes.now ≡ drop 24 file.now) }
    ensures length { IfOk result (λ _. 24 + length_in file.now ≡ length file.now) }
    ensures fault { IfErr result (IsFileFault file.now) }
    ensures trie { HasKnown IsTag file.now → IfErr result (IsSealRightBefore file.now) }
    ensures index { HasKnown IsIndexNumber file.now
        → IfErr result (IsRightBefore IsIndexNumber file.now) }
{
    let length = length_in(file);
    let (_, bytes) = file.split_at(HEADER_LEN);
    if bytes.len() < length {
        return Err(SealError::CutShort);
    }
    if length < bytes.len() {
        return Err(SealError::TooLong);
    }
    Ok(bytes)
}

/// Returns whether the checksum in the header of a file is that of the rest of the header and of
/// these bytes.
pub(crate) fn has_checksum(file: &[u8], bytes: &[u8]) -> bool
    requires { 24 ≤ length file.now }
    ensures { IsTrue result ↔ HasSumOf bytes.now file.now }
{
    let (front, numbers) = file.split_at(FRONT_LEN);
    let checksum = u32::from_le_bytes([numbers[0], numbers[1], numbers[2], numbers[3]]);
    checksum == crc32c_of_both(front, bytes)
}

/// Returns the bytes behind the header of a file, if its length and its checksum are right.
pub(crate) fn whole_in(file: &[u8]) -> Result<&[u8], SealError>
    requires { 24 ≤ length file.now }
    ensures bytes { IfOk result (λ bytes. bytes.now ≡ drop 24 file.now) }
    ensures length { IfOk result (λ _. 24 + length_in file.now ≡ length file.now) }
    ensures checksum { IfOk result (λ _. HasSumOf (drop 24 file.now) file.now) }
    ensures fault { IfErr result (IsFileFault file.now) }
    ensures trie { HasKnown IsTag file.now → IfErr result (IsSealRightBefore file.now) }
    ensures index { HasKnown IsIndexNumber file.now
        → IfErr result (IsRightBefore IsIndexNumber file.now) }
{
    let bytes = bytes_in(file)?;
    if !has_checksum(file, bytes) {
        return Err(SealError::Checksum);
    }
    Ok(bytes)
}

/// Returns the kind and the trie of a sealed file. Does not copy or validate the trie, and does not
/// allocate.
///
/// ```
/// let mut file = seal(rt.alloc(), TrieKind::Hash, b"a\x85")?;
/// let sealed = open(file.as_slice())?;
/// assert_eq!(rt; sealed.kind, TrieKind::Hash);
/// assert_eq!(rt; sealed.trie, b"a\x85".as_slice());
///
/// assert!(rt; open(b"\x03a\x85").err() == Some(SealError::NoMagic));
/// file.push(0)?;
/// assert!(rt; open(file.as_slice()).err() == Some(SealError::TooLong));
/// ```
///
/// A file is taken exactly if it is what `seal` returns for some kind and some bytes, and these are
/// what is returned. What an error says is true of the file. If more than one is, the magic is
/// looked at first, then whether there is a header, the version, the kind, the length and the
/// checksum.
pub fn open(file: &[u8]) -> Result<Sealed<'_>, SealError>
    ensures ok { IfOk result (λ sealed.
        IsSealed (kind_of sealed.kind) sealed.trie.now file.now) }
    ensures fault { IfErr result (IsSealFault file.now) }
    ensures order { IfErr result (IsSealRightBefore file.now) }
    ensures none { IfErr result (λ _.
        (kind : Kind) (trie : List ℕ) → IsSealed kind trie file.now → ⊥) }
{
    let number = number_in(file)?;
    let Some(kind) = kind_of(number) else {
        return Err(SealError::UnknownKind(number));
    };
    let trie = whole_in(file)?;
    Ok(Sealed { kind, trie })
}
