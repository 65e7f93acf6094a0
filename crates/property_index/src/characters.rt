//! The characters that the format tells apart.
ghost use Rattle.std.specs.Prelude.{◌≡◌};
ghost use Rattle.property_index.specs.Characters.{begins_comment, is_blank, is_white_space, meant_by, stops_key};

/// Whether a character is white space; a line break is none.
pub fn is_white_space(c: char) -> bool
    ensures { result ≡ is_white_space c }
{
    c == ' ' || c == '\t' || c == '\u{c}'
}

/// Whether a character is white space or a line break.
pub fn is_blank(c: char) -> bool
    ensures { result ≡ is_blank c }
{
    c == '\n' || is_white_space(c)
}

/// Whether a comment begins with a character.
pub fn begins_comment(c: char) -> bool
    ensures { result ≡ begins_comment c }
{
    c == '#' || c == '!'
}

/// Whether a character ends a key, unless a backslash took it; a line break does too.
pub fn stops_key(c: char) -> bool
    ensures { result ≡ stops_key c }
{
    c == '\n' || c == '=' || c == ':' || is_white_space(c)
}

/// What a character stands for that a backslash took.
pub fn meant_by(c: char) -> char
    ensures { result ≡ meant_by c }
{
    match c {
        't' => '\t',
        'n' => '\n',
        'r' => '\r',
        'f' => '\u{c}',
        other => other,
    }
}
