//! Operators and punctuation.
ghost use Rattle.std.specs.Prelude.{◌≡◌};
ghost use Rattle.sql_reader_tokens.specs.Reading.{is_long, sign_at};
ghost use Rattle.sql_reader_tokens.specs.Sign.{spelling};

/// An operator or a punctuation mark. (SQL Language Expressions, "Operators, and Parse-Affecting Attributes")
#[derive(Clone, Copy, Debug, PartialEq, Eq)]
pub enum Sign {
    Open,
    Close,
    Comma,
    Dot,
    Semicolon,
    Star,
    Slash,
    Percent,
    Plus,
    Minus,
    Tilde,
    Ampersand,
    Bar,
    DoubleBar,
    Equal,
    DoubleEqual,
    NotEqual,
    LessGreater,
    Less,
    LessEqual,
    Greater,
    GreaterEqual,
}

impl Sign {
    /// The sign as it is written.
    pub fn as_str(self) -> &'static str
        ensures { result.now ≡ spelling self }
    {
        match self {
            Sign::Open => "(",
            Sign::Close => ")",
            Sign::Comma => ",",
            Sign::Dot => ".",
            Sign::Semicolon => ";",
            Sign::Star => "*",
            Sign::Slash => "/",
            Sign::Percent => "%",
            Sign::Plus => "+",
            Sign::Minus => "-",
            Sign::Tilde => "~",
            Sign::Ampersand => "&",
            Sign::Bar => "|",
            Sign::DoubleBar => "||",
            Sign::Equal => "=",
            Sign::DoubleEqual => "==",
            Sign::NotEqual => "!=",
            Sign::LessGreater => "<>",
            Sign::Less => "<",
            Sign::LessEqual => "<=",
            Sign::Greater => ">",
            Sign::GreaterEqual => ">=",
        }
    }

    /// Whether the sign is two bytes long.
    pub(crate) fn is_long(self) -> bool
        ensures { result ≡ is_long self }
    {
        matches!(
            self,
            Sign::DoubleBar
                | Sign::DoubleEqual
                | Sign::NotEqual
                | Sign::LessGreater
                | Sign::LessEqual
                | Sign::GreaterEqual
        )
    }
}

/// The sign at the front, the longest that stands there. Two minuses and `/*` begin comments.
pub(crate) fn sign_at_front(first: u8, rest: &[u8]) -> Option<Sign>
    ensures { result ≡ sign_at first rest.now }
{
    match (first, rest) {
        (b'(', _) => Some(Sign::Open),
        (b')', _) => Some(Sign::Close),
        (b',', _) => Some(Sign::Comma),
        (b'.', _) => Some(Sign::Dot),
        (b';', _) => Some(Sign::Semicolon),
        (b'*', _) => Some(Sign::Star),
        (b'/', [b'*', ..]) => None,
        (b'/', _) => Some(Sign::Slash),
        (b'%', _) => Some(Sign::Percent),
        (b'+', _) => Some(Sign::Plus),
        (b'-', [b'-', ..]) => None,
        (b'-', _) => Some(Sign::Minus),
        (b'~', _) => Some(Sign::Tilde),
        (b'&', _) => Some(Sign::Ampersand),
        (b'|', [b'|', ..]) => Some(Sign::DoubleBar),
        (b'|', _) => Some(Sign::Bar),
        (b'=', [b'=', ..]) => Some(Sign::DoubleEqual),
        (b'=', _) => Some(Sign::Equal),
        (b'!', [b'=', ..]) => Some(Sign::NotEqual),
        (b'<', [b'>', ..]) => Some(Sign::LessGreater),
        (b'<', [b'=', ..]) => Some(Sign::LessEqual),
        (b'<', _) => Some(Sign::Less),
        (b'>', [b'=', ..]) => Some(Sign::GreaterEqual),
        (b'>', _) => Some(Sign::Greater),
        _ => None,
    }
}
