// What separators of a program message let follow them: newline, `:`, `?` and `,`. A part of tokenizer/mod.rs of the original. Each
// function answers the place that the separator leads to, or a refusal.
#![tactic(auto)]

ghost use Rattle.std.specs.Prelude.{◌≡◌};
ghost use Rattle.separator.specs.Separator.{newline_to, follows_colon, colon_to, follows_query, question_to, comma_to};

use error::ErrorCode;

// A newline before a place ends the message where it is the last byte.
pub fn newline(s: &[u8], next: usize) -> Result<usize, ErrorCode>
    ensures { result ≡ newline_to s.now next }
{
    if next < s.len() {
        return Err(ErrorCode::SyntaxError);
    }
    Ok(next)
}

// A colon before a place.
pub fn colon(s: &[u8], next: usize, in_header: bool, in_common: bool) -> Result<usize, ErrorCode>
    ensures { result ≡ colon_to s.now next in_header in_common }
{
    if !follows_colon(s, next) {
        return Err(ErrorCode::InvalidSeparator);
    }
    if !in_header {
        return Err(ErrorCode::InvalidSeparator);
    }
    if in_common {
        return Err(ErrorCode::InvalidSeparator);
    }
    Ok(next)
}

// Behind a colon stands a letter, or nothing at all.
fn follows_colon(s: &[u8], at: usize) -> bool
    ensures { result ≡ follows_colon s.now at }
{
    if s.len() <= at {
        return true;
    }
    kind::is_letter(s[at])
}

// A question mark before a place.
pub fn question(s: &[u8], next: usize, in_header: bool) -> Result<usize, ErrorCode>
    ensures { result ≡ question_to s.now next in_header }
{
    if !follows_query(s, next) {
        return Err(ErrorCode::SyntaxError);
    }
    if !in_header {
        return Err(ErrorCode::SyntaxError);
    }
    Ok(next)
}

// Behind a question mark stands white space, `;`, or nothing at all.
fn follows_query(s: &[u8], at: usize) -> bool
    ensures { result ≡ follows_query s.now at }
{
    if s.len() <= at {
        return true;
    }
    if s[at] == b';' {
        return true;
    }
    kind::is_white_space(s[at])
}

// A comma before a place.
pub fn comma(s: &[u8], at: usize, in_header: bool) -> Result<usize, ErrorCode>
    ensures { result ≡ comma_to s.now at in_header }
{
    if in_header {
        return Err(ErrorCode::HeaderSeparatorError);
    }
    let next = util::skip_ws(s, at);
    if util::stands(s, next, b',') {
        return Err(ErrorCode::SyntaxError);
    }
    if util::stands(s, next, b';') {
        return Err(ErrorCode::SyntaxError);
    }
    Ok(next)
}
