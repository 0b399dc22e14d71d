ghost use Rattle.std.specs.Prelude.{◌≡◌, ◌≤◌};
ghost use Rattle.indent_lexer.specs.Tokens.{after_space, after_tab, ends_line, after_line_end, spaces_of};

use codon_base::Span;

/// Where in a logical line a place stands.
#[derive(Clone, Copy, Debug, PartialEq, Eq)]
pub enum Line {
    /// Before its first token: how many spaces were met, and the first tab.
    Lead(u32, Option<Span>),
    /// After its first token.
    Within,
}

pub fn after_space(line: Line) -> Line
    requires { spaces_of line ≤ 1_048_576 }
    ensures { result ≡ after_space line }
{
    match line {
        Line::Lead(spaces, tab) => Line::Lead(spaces + 1, tab),
        Line::Within => Line::Within,
    }
}

pub fn after_tab(line: Line, at: Span) -> Line
    ensures { result ≡ after_tab line at }
{
    match line {
        Line::Lead(spaces, None) => Line::Lead(spaces, Some(at)),
        Line::Lead(spaces, Some(before)) => Line::Lead(spaces, Some(before)),
        Line::Within => Line::Within,
    }
}

pub fn ends_line(line: Line, depth: u32) -> bool
    ensures { result ≡ ends_line line depth }
{
    match line {
        Line::Lead(_, _) => false,
        Line::Within => depth == 0,
    }
}

pub fn after_line_end(line: Line, depth: u32) -> Line
    ensures { result ≡ after_line_end line depth }
{
    match line {
        Line::Lead(_, _) => Line::Lead(0, None),
        Line::Within if depth == 0 => Line::Lead(0, None),
        Line::Within => Line::Within,
    }
}
