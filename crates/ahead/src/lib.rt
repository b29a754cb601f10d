// What the next token is to a header. `run_tokens` and `exec` of tree/mod.rs of the original peek at it.
#![tactic(auto)]

ghost use Rattle.std.specs.Prelude.{◌≡◌};
ghost use Rattle.ahead.specs.Seen.{token_ahead, ahead_of, seen_at};

use error::ErrorCode;
use token::{Token, View};
use tokenizer::{Answer, State};

// What ends a header: white space, `;` or the end of the text.
#[derive(Clone, Copy)]
pub enum Stop {
    Separator,
    Unit,
    Text,
}

// What a token is to a header.
#[derive(Clone, Copy)]
pub enum Ahead {
    // a mnemonic
    Word(View),
    // `:`
    Colon,
    // `?`
    Query,
    Stop(Stop),
    Refused(ErrorCode),
}

// What is ahead, and the state behind it.
#[derive(Clone, Copy)]
pub struct Seen {
    pub ahead: Ahead,
    pub state: State,
}

// What the next token is to a header, and the state behind it.
pub fn look(s: &[u8], state: State) -> Seen
    ensures { result ≡ seen_at s.now state }
{
    let step = tokenizer::next(s, state);
    let answer = step.answer;
    let state = step.state;
    Seen {
        ahead: answer_ahead(answer),
        state,
    }
}

// The end of the text ends a header.
fn answer_ahead(answer: Answer) -> Ahead
    ensures { result ≡ ahead_of answer }
{
    match answer {
        Answer::End => Ahead::Stop(Stop::Text),
        Answer::Refused(e) => Ahead::Refused(e),
        Answer::Token(token) => token_ahead(token),
    }
}

// Data and a comma have no place in a header.
fn token_ahead(token: Token) -> Ahead
    ensures { result ≡ token_ahead token }
{
    match token {
        Token::ProgramMnemonic(word) => Ahead::Word(word),
        Token::HeaderMnemonicSeparator => Ahead::Colon,
        Token::HeaderQuerySuffix => Ahead::Query,
        Token::ProgramHeaderSeparator => Ahead::Stop(Stop::Separator),
        Token::ProgramMessageUnitSeparator => Ahead::Stop(Stop::Unit),
        Token::ProgramDataSeparator => Ahead::Refused(ErrorCode::SyntaxError),
        Token::CharacterProgramData(_) => Ahead::Refused(ErrorCode::SyntaxError),
        Token::DecimalNumericProgramData(_) => Ahead::Refused(ErrorCode::SyntaxError),
        Token::DecimalNumericSuffixProgramData(_, _) => Ahead::Refused(ErrorCode::SyntaxError),
        Token::NonDecimalNumericProgramData(_) => Ahead::Refused(ErrorCode::SyntaxError),
        Token::StringProgramData(_) => Ahead::Refused(ErrorCode::SyntaxError),
        Token::ArbitraryBlockData(_) => Ahead::Refused(ErrorCode::SyntaxError),
        Token::ExpressionProgramData(_) => Ahead::Refused(ErrorCode::SyntaxError),
    }
}
