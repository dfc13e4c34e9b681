//! Laws of the definitions alone, as contracts that a caller's proof can cite.
//!
//! Each function does nothing: a call brings its law into a proof.

ghost use Rattle.zerotrie_base.specs.Kind.{Kind, IsAscii};
ghost use Rattle.zerotrie_base.specs.Laws.{EachIsSpelled, OneSpelling, MetadataAlone, NoneLonger, OneMeaning, CanonicalMeans, MeansCanonical, MeansFits, EqualExactlyIfMapsAre, LengthIsSize, SameKeysAnswerAlike};

/// Each number below 2^64 has exactly one spelling in each form. Other metadata changes only its
/// own bits, and no spelling is the beginning of a longer one.
pub fn one_spelling()
    ensures each { EachIsSpelled }
    ensures one { OneSpelling }
    ensures metadata_alone { MetadataAlone }
    ensures none_longer { NoneLonger }
{}

/// No bytes mean two maps of one kind.
pub fn one_meaning()
    ensures { OneMeaning }
{}

/// In a kind over ASCII keys, bytes mean a map exactly if the map fits the kind and the bytes are
/// its canonical encoding.
pub fn canonical_exactly()
    ensures means { (kind : Kind) → IsAscii kind → CanonicalMeans kind }
    ensures text { (kind : Kind) → IsAscii kind → MeansCanonical kind }
    ensures fits { (kind : Kind) → IsAscii kind → MeansFits kind }
{}

/// In a kind over ASCII keys, bytes that mean maps are equal exactly if the maps are.
pub fn equal_exactly_if_maps_are()
    ensures { (kind : Kind) → IsAscii kind → EqualExactlyIfMapsAre kind }
{
    one_meaning();
    canonical_exactly();
}

/// A map that bytes of a kind mean fits the kind.
pub fn meant_fits()
    ensures { (kind : Kind) → MeansFits kind }
{}

/// Bytes that mean a map of a kind have the size of that map.
pub fn length_is_size()
    ensures { (kind : Kind) → LengthIsSize kind }
{}

/// Keys that are equal in the kind have the same result: equal keys, and in a kind that ignores
/// case keys that differ only in the case of ASCII letters.
pub fn same_keys_answer_alike()
    ensures { SameKeysAnswerAlike }
{}
