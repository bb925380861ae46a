ghost use Rattle.std.specs.Prelude.{◌≡◌, ◌<◌, ◌∷◌, [], length, IfSome, IfNone};
ghost use Rattle.std.specs.Str.{chars};
ghost use Rattle.std.specs.Option.{option_map};
ghost use Rattle.go_lexer.specs.Characters.{split, strip, strip_pair};

/// The first character of a text, and the text after it.
pub(crate) fn split_char(text: &str) -> Option<(char, &str)>
    ensures parts { option_map (λ p. (p.0, chars p.1.now)) result ≡ split (chars text.now) }
    ensures some { IfSome result (λ p. chars text.now ≡ p.0 ∷ chars p.1.now) }
    ensures none { IfNone result (chars text.now ≡ []) }
    ensures shorter { IfSome result (λ p. length p.1.now < length text.now) }
{
    let mut rest = text.chars();
    let first = rest.next()?;
    Some((first, rest.as_str()))
}

/// The text after this character, where the text begins with it.
pub(crate) fn strip(expected: char, text: &str) -> Option<&str>
    ensures rest { option_map (λ rest. chars rest.now) result ≡ strip expected (chars text.now) }
    ensures shorter { IfSome result (λ rest. length rest.now < length text.now) }
{
    let (first, rest) = split_char(text)?;
    if first == expected { Some(rest) } else { None }
}

/// The text after these two characters, where the text begins with them.
pub(crate) fn strip_pair(first: char, second: char, text: &str) -> Option<&str>
    ensures rest { option_map (λ rest. chars rest.now) result ≡ strip_pair first second (chars text.now) }
    ensures shorter { IfSome result (λ rest. length rest.now < length text.now) }
{
    strip(second, strip(first, text)?)
}
