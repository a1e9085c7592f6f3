//! LIMIT and OFFSET.
ghost use Rattle.std.specs.Prelude.{FitsSigned, Ok, option_map};
ghost use Rattle.std.specs.Int.{w64};
ghost use Rattle.std.specs.Option.{SomeIff};
ghost use Rattle.semantics_names.specs.Statement as spec;
ghost use Rattle.resolver_terms.specs.Outcome.{Gives};
ghost use Rattle.sql_reader_grammar.specs.statement_trees.StatementView.{whole_of};

use sql_reader_grammar::SignedNumber;
use values::Fault;

// A whole number with its sign, where it has 64 bits.
fn number(written: SignedNumber) -> Option<i64>
    ensures { SomeIff result (FitsSigned w64 (whole_of written)) (whole_of written) }
{
    match written {
        SignedNumber::Number(number) => Some(number),
        SignedNumber::Negative(number) => number.checked_neg(),
    }
}

// What stands behind LIMIT, where that is written. The fault is `NoMemory` of a number of more than 64 bits, which no text spells.
fn limit(written: Option<SignedNumber>) -> Result<Option<i64>, Fault>
    ensures { Gives (λ n. n) result (Ok (option_map whole_of written)) }
{
    let Some(written) = written else {
        return Ok(None);
    };
    let Some(number) = number(written) else {
        return Err(Fault::NoMemory);
    };
    Ok(Some(number))
}

// What stands behind OFFSET, or 0 where none is written. The fault is one of `limit`.
fn offset(written: Option<SignedNumber>) -> Result<i64, Fault>
    ensures { Gives (λ n. n) result (Ok (spec.offset_or (option_map whole_of written))) }
{
    let number = limit(written)?;
    Ok(number.unwrap_or(0))
}

/// What stands behind LIMIT and OFFSET. The fault is `NoMemory` of a number of more than 64 bits, which no text spells. (SELECT, "The
/// LIMIT clause")
pub(crate) fn limits(
    most: Option<SignedNumber>,
    skipped: Option<SignedNumber>,
) -> Result<(Option<i64>, i64), Fault>
    ensures { Gives (λ n. n) result (Ok (option_map whole_of most, spec.offset_or (option_map whole_of skipped))) }
{
    let limit = limit(most)?;
    let offset = offset(skipped)?;
    Ok((limit, offset))
}
