//! What is taken of any number of streams: which keys, and one value of each.

ghost use Rattle.std.specs.Prelude.{◌≡◌, ◌≢◌, IfOk, IfErr};
ghost use Rattle.zerotrie_sets.specs.Selections.{takes, one_of_two, one_more, IsNoOneOfTwo, IsNoNext, IsSmall, HasNoTwo, HasSame};
ghost use Rattle.zerotrie_sets.specs.declared.selection.Rule.TheVariants as rule;

use thiserror::Error;

/// Which keys are taken of any number of streams.
#[derive(Clone, Copy, Debug, PartialEq, Eq)]
pub enum Selection {
    /// The keys of any stream.
    Union,
    /// The keys that every stream has.
    Intersection,
    /// The keys that the first stream has, and no other.
    Difference,
    /// The keys that an odd number of streams has. Of two streams these are the keys of one alone.
    SymmetricDifference,
}

/// Which value a key gets, if more than one stream has it.
#[derive(Clone, Copy, Debug, PartialEq, Eq)]
pub enum Rule {
    /// The value of the first stream that has the key.
    First,
    /// The value of the last stream that has the key.
    Last,
    /// The sum of the values.
    Sum,
    /// The least value.
    Min,
    /// The greatest value.
    Max,
    /// The value that all of them are. If they differ, the key is an error.
    Equal,
    /// None: the key is an error.
    Refuse,
}

/// Why the values of a key are not made one.
#[derive(Clone, Copy, Debug, PartialEq, Eq, Error)]
pub enum RuleError {
    /// More than one stream has the key, and the rule is `Refuse`.
    #[error("more than one stream has the key")]
    SeveralValues,
    /// Streams have different values for the key, and the rule is `Equal`.
    #[error("streams have different values for the key")]
    DifferentValues,
    /// The sum of the values is 2^64 or more.
    #[error("the sum of the values is 2^64 or more")]
    SumTooLarge,
}

impl Selection {
    /// Returns whether a key is taken that `some` of `all` streams have, and the first one or not.
    pub(crate) fn takes(self, first: bool, some: usize, all: usize) -> bool
        ensures { result ≡ takes self first some all }
    {
        match self {
            Selection::Union => true,
            Selection::Intersection => some == all,
            Selection::Difference => first && some == 1,
            Selection::SymmetricDifference => some % 2 == 1,
        }
    }
}

impl Rule {
    /// Returns what is made of a value and the next one.
    fn one_of_two(self, value: usize, next: usize) -> Result<usize, RuleError>
        ensures ok { IfOk result (λ one. one ≡ one_of_two self value next) }
        ensures allowed { IfOk result (λ _. self ≢ rule.Refuse) }
        ensures same { IfOk result (λ _. self ≡ rule.Equal → value ≡ next) }
        ensures err { IfErr result (IsNoOneOfTwo self value next) }
    {
        match self {
            Rule::First => Ok(value),
            Rule::Last => Ok(next),
            Rule::Sum => value.checked_add(next).ok_or(RuleError::SumTooLarge),
            Rule::Min => Ok(value.min(next)),
            Rule::Max => Ok(value.max(next)),
            Rule::Equal if value == next => Ok(value),
            Rule::Equal => Err(RuleError::DifferentValues),
            Rule::Refuse => Err(RuleError::SeveralValues),
        }
    }

    /// Returns what is made of the values before, and the next one, if there is one.
    pub(crate) fn one_more(
        self,
        one: Option<usize>,
        next: Option<usize>,
    ) -> Result<Option<usize>, RuleError>
        ensures ok { IfOk result (λ more. more ≡ one_more self one next) }
        ensures allowed { IfOk result (λ _. self ≡ rule.Refuse → HasNoTwo one next) }
        ensures same { IfOk result (λ _. self ≡ rule.Equal → HasSame one next) }
        ensures small { IfOk result IsSmall }
        ensures err { IfErr result (IsNoNext self one next) }
    {
        match (one, next) {
            (Some(value), Some(next)) => Ok(Some(self.one_of_two(value, next)?)),
            (Some(value), None) => Ok(Some(value)),
            (None, Some(next)) => Ok(Some(next)),
            (None, None) => Ok(None),
        }
    }
}
