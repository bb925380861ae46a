ghost use Rattle.std.specs.Prelude.{◌≡◌};
ghost use Rattle.go_lexer.specs.Marks.{is_single, is_pair, is_triple};

/// Whether a character is an operator or a punctuation.
pub(crate) fn is_single(c: char) -> bool
    ensures { result ≡ is_single c }
{
    matches!(
        c,
        '+' | '-'
            | '*'
            | '/'
            | '%'
            | '&'
            | '|'
            | '^'
            | '<'
            | '>'
            | '='
            | '!'
            | '('
            | ')'
            | '['
            | ']'
            | '{'
            | '}'
            | ','
            | ';'
            | '.'
            | ':'
            | '~'
    )
}

/// Whether two characters are an operator.
pub(crate) fn is_pair(a: char, b: char) -> bool
    ensures { result ≡ is_pair a b }
{
    match b {
        '=' => matches!(
            a,
            '+' | '-' | '*' | '/' | '%' | '&' | '|' | '^' | '<' | '>' | '=' | '!' | ':'
        ),
        '-' => a == '-' || a == '<',
        '^' => a == '&',
        '<' | '>' | '+' | '&' | '|' => a == b,
        _ => false,
    }
}

pub(crate) fn is_triple(a: char, b: char, c: char) -> bool
    ensures { result ≡ is_triple a b c }
{
    match c {
        '=' => a == '<' && b == '<' || a == '>' && b == '>' || a == '&' && b == '^',
        '.' => a == '.' && b == '.',
        _ => false,
    }
}
