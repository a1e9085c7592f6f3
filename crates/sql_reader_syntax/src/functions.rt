//! The functions that a call may name.
ghost use Rattle.std.specs.Prelude.{◌≡◌};
ghost use Rattle.sql_reader_syntax.specs.Functions.{function_of, functions, is_function, spelling, takes, takes_number};

use crate::Function;

const FUNCTIONS: [Function; 23] = [
    Function::Abs,
    Function::Coalesce,
    Function::Count,
    Function::DenseRank,
    Function::FirstValue,
    Function::Hex,
    Function::IfNull,
    Function::Iif,
    Function::Lag,
    Function::LastValue,
    Function::Lead,
    Function::Length,
    Function::Lower,
    Function::Max,
    Function::Min,
    Function::NthValue,
    Function::NTile,
    Function::NullIf,
    Function::Rank,
    Function::RowNumber,
    Function::Sum,
    Function::TypeOf,
    Function::Upper,
];

impl Function {
    /// The function's name, in small letters.
    pub fn as_str(self) -> &'static str
        ensures { result.now ≡ spelling self }
    {
        match self {
            Function::Abs => "abs",
            Function::Coalesce => "coalesce",
            Function::Count => "count",
            Function::DenseRank => "dense_rank",
            Function::FirstValue => "first_value",
            Function::Hex => "hex",
            Function::IfNull => "ifnull",
            Function::Iif => "iif",
            Function::Lag => "lag",
            Function::LastValue => "last_value",
            Function::Lead => "lead",
            Function::Length => "length",
            Function::Lower => "lower",
            Function::Max => "max",
            Function::Min => "min",
            Function::NthValue => "nth_value",
            Function::NTile => "ntile",
            Function::NullIf => "nullif",
            Function::Rank => "rank",
            Function::RowNumber => "row_number",
            Function::Sum => "sum",
            Function::TypeOf => "typeof",
            Function::Upper => "upper",
        }
    }

    /// Whether a word names this function, in letters of either case.
    fn is_word(self, word: &str) -> bool
        ensures { result ≡ is_function self word.now }
    {
        self.as_str().eq_ignore_ascii_case(word)
    }

    /// The function that an unquoted word names, in letters of either case.
    #[tactic(auto, unfolding(crate::specs::Functions::function_of))]
    pub fn named(word: &str) -> Option<Function>
        ensures { result ≡ function_of word.now }
    {
        let functions: &[Function] = &FUNCTIONS;
        functions
            .iter()
            .copied()
            .find(|function| function.is_word(word))
    }

    /// Whether the function has so many arguments.
    pub fn takes(self, count: usize) -> bool
        ensures { result ≡ takes self count }
    {
        match self {
            Function::DenseRank | Function::Rank | Function::RowNumber => count == 0,
            Function::IfNull | Function::NthValue | Function::NullIf => count == 2,
            Function::Iif => count == 3,
            Function::Lag | Function::Lead => 1 <= count && count <= 3,
            Function::Coalesce => 2 <= count,
            _ => count == 1,
        }
    }

    /// Whether the argument at this place, counted from 0, is a number alone.
    pub fn takes_number(self, place: usize) -> bool
        ensures { result ≡ takes_number self place }
    {
        match self {
            Function::Lag | Function::Lead | Function::NthValue => place == 1,
            Function::NTile => place == 0,
            _ => false,
        }
    }
}
