// What stands between quotes or brackets: strings, IEEE 488.2 7.7.5, and expressions, 7.7.7.
#![tactic(auto)]

ghost use Rattle.std.specs.Prelude.{◌≡◌};
ghost use Rattle.util.specs.Run.{run_end};
ghost use Rattle.enclosed.specs.String.{string_end, string_data};
ghost use Rattle.enclosed.specs.Expression.{in_expression, expression_data};

use error::ErrorCode;
use item::Read;
use kind::Class;
use token::{Token, View};

// 7.7.5: a string, from the place behind its opening quote.
pub fn read_string_data(s: &[u8], at: usize, quote: u8) -> Read
    ensures { result ≡ string_data quote s.now at }
{
    let end = string_end(s, at, quote);
    if s.len() <= end {
        return Err(ErrorCode::InvalidStringData);
    }
    if s[end] != quote {
        return Err(ErrorCode::InvalidCharacter);
    }
    item::skip_ws_to_separator(
        s,
        end + 1,
        Token::StringProgramData(View { start: at, end }),
        ErrorCode::SuffixNotAllowed,
    )
}

// 7.7.7: an expression, from the place behind its opening bracket.
pub fn read_expression_data(s: &[u8], at: usize) -> Read
    ensures { result ≡ expression_data s.now at }
{
    let end = util::run_end::<InExpression>(s, at);
    if s.len() <= end {
        return Err(ErrorCode::InvalidExpression);
    }
    if s[end] != b')' {
        return Err(ErrorCode::InvalidExpression);
    }
    item::skip_ws_to_separator(
        s,
        end + 1,
        Token::ExpressionProgramData(View { start: at, end }),
        ErrorCode::SuffixNotAllowed,
    )
}

// The place after what a string holds: the quote that closes it, a byte from 128 up, or the end of the text. A doubled quote is passed in one step
// of two, which no `for` takes.
fn string_end(s: &[u8], at: usize, quote: u8) -> usize
    ensures { result ≡ string_end quote s.now at }
{
    let mut end = at;
    while end < s.len() {
        if s[end] == quote {
            let next = end + 1;
            if s.len() <= next {
                return end;
            }
            if s[next] != quote {
                return end;
            }
            end += 2;
        } else {
            if 128 <= s[end] {
                return end;
            }
            end += 1;
        }
    }
    end
}

// The class of what may stand in an expression.
struct InExpression;

impl Class for InExpression {
    ghost class = { in_expression };

    fn has(b: u8) -> bool {
        in_expression(b)
    }
}

// What may stand in an expression.
fn in_expression(b: u8) -> bool
    ensures { result ≡ in_expression b }
{
    if b'*' <= b {
        if b <= b':' {
            return true;
        }
    }
    if b == b'"' {
        return false;
    }
    if b == b'\'' {
        return false;
    }
    if b == b';' {
        return false;
    }
    if b == b'(' {
        return false;
    }
    if b == b')' {
        return false;
    }
    b <= 127
}
