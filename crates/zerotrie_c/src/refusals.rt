//! Which keys show why a build is refused.

ghost use Rattle.std.specs.Prelude.{◌≡◌, IfOk, IfSome, IfNone};
ghost use Rattle.zerotrie_build.specs.Refused.{IsWhyRefused};
ghost use Rattle.zerotrie_core.specs.Items.{pairs_of};
ghost use Rattle.zerotrie_core.specs.Kinds.{kind_of as kind_that_is};
ghost use Rattle.zerotrie_core.specs.Routes.{any_order};
ghost use Rattle.zerotrie_c.specs.Builds.{given};
ghost use Rattle.zerotrie_c.specs.Numbers.{kind_of};
ghost use Rattle.zerotrie_c.specs.Refusals.{IsRefusalTold, IsWhyTold};
ghost use Rattle.zerotrie_c.specs.Statuses.{unknown_kind};

use crate::builds::{Pair, items_of};
use crate::numbers::{DONE, OUT_OF_MEMORY, UNKNOWN_KIND, kind_of, status_of};
use std::alloc::{AllocError, Global};
use zerotrie_build::{Refusal, why_iter_refused};
use zerotrie_core::{TrieKind, by_kind};

/// Returns which of the items show why a build of them is refused.
fn why_refused(
    alloc: Global,
    kind: TrieKind,
    items: &[(&[u8], usize)],
) -> Result<Option<Refusal>, AllocError>
    ensures { IfOk result (IsWhyRefused any_order (kind_that_is kind) (pairs_of items.now)) }
{
    by_kind!(kind, why_iter_refused::<_, &[u8]>(alloc, items))
}

/// Sets the numbers of the keys that show the error, if there is one, and returns its status.
fn tell(answer: Option<Refusal>, first: &mut usize, second: &mut usize) -> u32
    ensures { IsRefusalTold answer result first.old first.new second.old second.new }
{
    match answer {
        Some(refusal) => {
            *first = refusal.first;
            *second = refusal.second;
            status_of(refusal.error)
        }
        None => DONE,
    }
}

/// Returns the status of a build of these pairs by `zerotrie_build` that keys are the cause of, and
/// sets `first` and `second` to the places of the two keys among the pairs, which are the same
/// place if one key is the cause. The status is `DONE` if no keys are a cause.
#[unsafe(no_mangle)]
pub extern "C" fn zerotrie_why_refused(
    alloc: Global,
    kind: u32,
    pairs: &[Pair<'_>],
    first: &mut usize,
    second: &mut usize,
) -> u32
    ensures known { IfSome (kind_of kind) (λ k. IsWhyTold k (given pairs.now)
        result first.old first.new second.old second.new) }
    ensures unknown { IfNone (kind_of kind) ((result ≡ unknown_kind) × (first.new ≡ first.old)
        × (second.new ≡ second.old)) }
{
    let Some(kind) = kind_of(kind) else {
        return UNKNOWN_KIND;
    };
    let Ok(items) = items_of(alloc, pairs) else {
        return OUT_OF_MEMORY;
    };
    match why_refused(alloc, kind, items.as_slice()) {
        Ok(answer) => tell(answer, first, second),
        Err(_) => OUT_OF_MEMORY,
    }
}
