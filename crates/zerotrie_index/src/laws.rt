//! Laws of the definitions alone, as contracts that a caller's proof can cite.

ghost use Rattle.zerotrie_index.specs.Built.{AnswersAsGiven, IndexExcludesCauses};
ghost use Rattle.zerotrie_index.specs.InBlocks.{HasItsBlocks};

use zerotrie_sealed::laws::index_is_behind;

/// Pairs with distinct keys return the same in each order.
pub fn built_answers_as_given()
    ensures { AnswersAsGiven }
{}

/// Pairs that have an index have no cause of `DuplicateKey` and none of `CapacityExceeded`, and
/// its seed crowds none of its buckets.
pub fn index_excludes_causes()
    ensures { IndexExcludesCauses }
{}

/// A sealed index has the right blocks of its file. So what is read of it at places is the index.
pub fn has_its_blocks()
    ensures { HasItsBlocks }
{
    index_is_behind();
}
