//! The kinds of tokens.
ghost use Rattle.std.specs.Prelude.{◌≡◌};
ghost use Rattle.sql_tokens.specs.Kinds.{spelling, kind_number, same_kind};

/// What a token is: a keyword, a symbol, or one of many words.
#[derive(Clone, Copy, Debug, PartialEq, Eq)]
pub enum TokenKind {
    Select,
    From,
    Where,
    As,
    Inner,
    Join,
    On,
    And,
    Or,
    Not,
    True,
    False,
    Create,
    Table,
    Primary,
    Key,
    Drop,
    Insert,
    Into,
    Values,
    Update,
    Set,
    Delete,
    Commit,
    Bigint,
    Text,
    Boolean,
    Null,
    Is,
    Index,
    Count,
    Sum,
    Limit,
    LeftParen,
    RightParen,
    Comma,
    Semicolon,
    Dot,
    Star,
    Equal,
    NotEqual,
    Less,
    LessEqual,
    Greater,
    GreaterEqual,
    /// A word that is not reserved.
    Name,
    Integer,
    /// An integer that may stand behind LIMIT.
    RowCount,
    /// A text in single quotes.
    Quoted,
}

/// The reserved words.
pub const KEYWORDS: [TokenKind; 33] = [
    TokenKind::Select,
    TokenKind::From,
    TokenKind::Where,
    TokenKind::As,
    TokenKind::Inner,
    TokenKind::Join,
    TokenKind::On,
    TokenKind::And,
    TokenKind::Or,
    TokenKind::Not,
    TokenKind::True,
    TokenKind::False,
    TokenKind::Create,
    TokenKind::Table,
    TokenKind::Primary,
    TokenKind::Key,
    TokenKind::Drop,
    TokenKind::Insert,
    TokenKind::Into,
    TokenKind::Values,
    TokenKind::Update,
    TokenKind::Set,
    TokenKind::Delete,
    TokenKind::Commit,
    TokenKind::Bigint,
    TokenKind::Text,
    TokenKind::Boolean,
    TokenKind::Null,
    TokenKind::Is,
    TokenKind::Index,
    TokenKind::Count,
    TokenKind::Sum,
    TokenKind::Limit,
];

impl TokenKind {
    /// How a keyword, in upper case, or a symbol is written. Empty for the kinds of many words.
    pub fn spelling(self) -> &'static [u8]
        ensures { result.now ≡ spelling self }
    {
        match self {
            TokenKind::Select => b"SELECT",
            TokenKind::From => b"FROM",
            TokenKind::Where => b"WHERE",
            TokenKind::As => b"AS",
            TokenKind::Inner => b"INNER",
            TokenKind::Join => b"JOIN",
            TokenKind::On => b"ON",
            TokenKind::And => b"AND",
            TokenKind::Or => b"OR",
            TokenKind::Not => b"NOT",
            TokenKind::True => b"TRUE",
            TokenKind::False => b"FALSE",
            TokenKind::Create => b"CREATE",
            TokenKind::Table => b"TABLE",
            TokenKind::Primary => b"PRIMARY",
            TokenKind::Key => b"KEY",
            TokenKind::Drop => b"DROP",
            TokenKind::Insert => b"INSERT",
            TokenKind::Into => b"INTO",
            TokenKind::Values => b"VALUES",
            TokenKind::Update => b"UPDATE",
            TokenKind::Set => b"SET",
            TokenKind::Delete => b"DELETE",
            TokenKind::Commit => b"COMMIT",
            TokenKind::Bigint => b"BIGINT",
            TokenKind::Text => b"TEXT",
            TokenKind::Boolean => b"BOOLEAN",
            TokenKind::Null => b"NULL",
            TokenKind::Is => b"IS",
            TokenKind::Index => b"INDEX",
            TokenKind::Count => b"COUNT",
            TokenKind::Sum => b"SUM",
            TokenKind::Limit => b"LIMIT",
            TokenKind::LeftParen => b"(",
            TokenKind::RightParen => b")",
            TokenKind::Comma => b",",
            TokenKind::Semicolon => b";",
            TokenKind::Dot => b".",
            TokenKind::Star => b"*",
            TokenKind::Equal => b"=",
            TokenKind::NotEqual => b"<>",
            TokenKind::Less => b"<",
            TokenKind::LessEqual => b"<=",
            TokenKind::Greater => b">",
            TokenKind::GreaterEqual => b">=",
            TokenKind::Name | TokenKind::Integer | TokenKind::RowCount | TokenKind::Quoted => b"",
        }
    }

    /// Its number in the order of the kinds.
    fn number(self) -> u8
        ensures { result ≡ kind_number self }
    {
        self as u8
    }

    /// Whether it is the other kind.
    pub fn is(self, other: TokenKind) -> bool
        ensures { result ≡ same_kind self other }
    {
        self.number() == other.number()
    }
}
