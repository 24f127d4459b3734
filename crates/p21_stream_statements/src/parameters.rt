ghost use Rattle.std.specs.Prelude.{◌≤◌, length};

use crate::marks::{Mark, Sign};

/// The parameters of a simple record, of which the rest of the tokens are not taken yet.
#[derive(Drop)]
pub(crate) struct Parameters<'a> {
    rest: &'a [Mark],
}

impl<'a> Parameters<'a> {
    /// Those of a record that begins with a keyword and a `(`.
    pub(crate) fn of(record: &'a [Mark]) -> Parameters<'a> {
        Parameters {
            rest: record.get(2..).unwrap_or(&[]),
        }
    }

    /// Those of a list, or that of a typed parameter.
    pub(crate) fn within(value: &'a [Mark]) -> Parameters<'a> {
        match value.first() {
            Some(first) if first.sign == Sign::Left => Parameters {
                rest: value.get(1..).unwrap_or(&[]),
            },
            _ => Parameters::of(value),
        }
    }

    /// The tokens of the next parameter, if there is one more.
    pub(crate) fn next(&mut self) -> Option<&'a [Mark]> {
        let count = tokens_of_parameter(self.rest);
        if count == 0 {
            return None;
        }
        let (parameter, rest) = self.rest.split_at(count);
        self.rest = behind_comma(rest);
        Some(parameter)
    }

    /// The `)` behind the last parameter.
    pub(crate) fn end(&self) -> Option<Mark> {
        self.rest.first().copied()
    }
}

/// What stands behind a comma, if one stands first.
fn behind_comma(tokens: &[Mark]) -> &[Mark] {
    let Some((first, behind)) = tokens.split_first() else {
        return tokens;
    };
    if first.sign == Sign::Comma {
        behind
    } else {
        tokens
    }
}

/// How many tokens a parameter has that stands first: up to the comma or the `)` behind it.
fn tokens_of_parameter(tokens: &[Mark]) -> usize
    ensures { result ≤ length tokens.now }
{
    let mut open: u64 = 0;
    for count in 0..tokens.len() {
        match tokens[count].sign {
            Sign::Left => open = open.saturating_add(1),
            Sign::Right => {
                if open == 0 {
                    return count;
                }
                open -= 1;
            }
            Sign::Comma => {
                if open == 0 {
                    return count;
                }
            }
            Sign::Text | Sign::Unset | Sign::Other => {}
        }
    }
    tokens.len()
}
