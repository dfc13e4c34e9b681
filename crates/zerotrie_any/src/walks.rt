//! Lists of calls of a cursor.

ghost use Rattle.std.specs.Prelude.{IfOk};
ghost use Rattle.zerotrie_core.specs.Places.{ListsAt};
ghost use Rattle.zerotrie_any.specs.Walks.{IsTurn, IsWalk};

use std::alloc::{AllocError, Global};
use zerotrie_core::{SpanCursor, ZeroTrieWithOptions};

/// One call of a cursor.
#[derive(Clone, Debug, Drop, PartialEq, Eq)]
pub enum CursorOp {
    /// Follows the edge for this byte, ignoring case if the kind does.
    Step(u8),
    /// Takes the value of the key that ends here.
    Take,
    /// Follows the edge with this index.
    Probe(usize),
}

/// The result of one call of a cursor.
#[derive(Clone, Debug, Drop, PartialEq, Eq)]
pub enum CursorAnswer {
    /// The byte of the edge, as it is stored.
    Stepped(Option<u8>),
    /// The value.
    Taken(Option<usize>),
    /// The byte of the edge, and the number of edges here.
    Probed(Option<(u8, u16)>),
}

/// Makes one call.
fn turn<K: ZeroTrieWithOptions>(cursor: &mut SpanCursor<'_>, op: &CursorOp) -> CursorAnswer
    ensures { IsTurn K.kind (ListsAt K.kind cursor.old) op.now result (ListsAt K.kind cursor.new) }
{
    match op {
        CursorOp::Step(byte) => CursorAnswer::Stepped(cursor.step::<K>(*byte)),
        CursorOp::Take => CursorAnswer::Taken(cursor.take_value()),
        CursorOp::Probe(index) => CursorAnswer::Probed(
            cursor
                .probe::<K>(*index)
                .map(|found| (found.byte, found.total_siblings)),
        ),
    }
}

/// Makes these calls on a new cursor, one after another, and returns their results.
///
/// ```
/// let bytes = [0x61, 0x85];                           // the key "a" with value 5
/// let ops = [CursorOp::Step(b'a'), CursorOp::Take, CursorOp::Take, CursorOp::Probe(0)];
/// let answers = walk::<Simple>(rt.alloc(), &bytes, &ops)?;
/// assert_eq!(rt; answers[0], CursorAnswer::Stepped(Some(b'a')));
/// assert_eq!(rt; answers[1], CursorAnswer::Taken(Some(5)));
/// assert_eq!(rt; answers[2], CursorAnswer::Taken(None));
/// assert_eq!(rt; answers[3], CursorAnswer::Probed(None));
/// ```
///
/// An error means that an allocation failed. On malformed bytes the results are unspecified.
pub fn walk<K: ZeroTrieWithOptions>(
    alloc: Global,
    bytes: &[u8],
    ops: &[CursorOp],
) -> Result<Vec<CursorAnswer>, AllocError>
    ensures { IfOk result (λ answers. IsWalk K.kind bytes.now ops.now answers.items) }
{
    let mut cursor = SpanCursor::new(bytes);
    let mut answers = Vec::new(alloc);
    for op in ops {
        let answer = turn::<K>(&mut cursor, op);
        answers.push(answer)?;
    }
    Ok(answers)
}
