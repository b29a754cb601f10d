// The answers of the token step as text.
ghost use Rattle.std.specs.Prelude.{◌≡◌, ◌++◌, ◌+◌, ◌≤◌, length, take, drop};
ghost use Rattle.io.specs.Counts.{IsPrefixLen};
ghost use Rattle.report.specs.Added.{Adds};
ghost use Rattle.report.specs.Tokens.{view_text, token_text, place_text, flags_text, taken_text, end_text, refused_text, part_text};

use crate::write::Line;
use error::ErrorCode;
use token::{Token, View};
use tokenizer::{Answer, State, Step};

// Writes a step's part of the line to the front of a buffer, and answers how many bytes it has: 122 at most. The rest of the
// buffer stays as it was.
pub fn token_part(step: Step, line: &mut [u8; 128]) -> usize
    ensures { (IsPrefixLen result line.new) × (take result line.new ≡ part_text step) × (drop result line.new ≡ drop result line.old) }
{
    let mut part = Line {
        bytes: line,
        len: 0,
    };
    part.add_step(step);
    part.len
}

impl Line<'_> {
    // Adds the text of a step.
    fn add_step(&mut self, step: Step)
        requires { self.old.len ≡ 0 }
        ensures { Adds self.old (part_text step) self.new }
    {
        let answer = step.answer;
        let state = step.state;
        match answer {
            Answer::Token(token) => self.add_taken(token, state),
            Answer::End => self.add_end(state.place),
            Answer::Refused(e) => self.add_refused(e),
        }
    }

    // Adds a token and the state after it.
    fn add_taken(&mut self, token: Token, state: State)
        requires { self.old.len ≡ 0 }
        ensures { Adds self.old (taken_text token state) self.new }
    {
        self.add_token(token);
        self.add_place(state.place);
        self.add_flags(state.in_header, state.in_common);
        self.add(b" | ");
    }

    // Adds the end of a text.
    fn add_end(&mut self, place: usize)
        requires { self.old.len ≡ 0 }
        ensures { Adds self.old (end_text place) self.new }
    {
        self.add(b"end");
        self.add_place(place);
        self.add(b"\n");
    }

    // Adds a refusal.
    fn add_refused(&mut self, e: ErrorCode)
        requires { self.old.len ≡ 0 }
        ensures { Adds self.old (refused_text e) self.new }
    {
        self.add(b"refused ");
        self.add_signed(e.get_code());
        self.add(b"\n");
    }

    // Adds the word of a token's kind, with its views or its value.
    fn add_token(&mut self, token: Token)
        requires { self.old.len + 94 ≤ 128 }
        ensures { Adds self.old (token_text token) self.new × (self.new.len ≤ self.old.len + 94) }
    {
        match token {
            Token::HeaderMnemonicSeparator => self.add(b"colon"),
            Token::HeaderQuerySuffix => self.add(b"query"),
            Token::ProgramMessageUnitSeparator => self.add(b"unitsep"),
            Token::ProgramHeaderSeparator => self.add(b"headersep"),
            Token::ProgramDataSeparator => self.add(b"comma"),
            Token::ProgramMnemonic(view) => self.add_item(b"mnemonic ", view),
            Token::CharacterProgramData(view) => self.add_item(b"chars ", view),
            Token::DecimalNumericProgramData(view) => self.add_item(b"number ", view),
            Token::DecimalNumericSuffixProgramData(number, suffix) => {
                self.add_suffixed(number, suffix)
            }
            Token::NonDecimalNumericProgramData(value) => self.add_radix(value),
            Token::StringProgramData(view) => self.add_item(b"string ", view),
            Token::ArbitraryBlockData(view) => self.add_item(b"block ", view),
            Token::ExpressionProgramData(view) => self.add_item(b"expr ", view),
        }
    }

    // Adds a word and a view.
    fn add_item(&mut self, word: &[u8], view: View)
        requires { self.old.len + length word.now + 42 ≤ 128 }
        ensures { Adds self.old (word.now ++ view_text view) self.new × (self.new.len ≤ self.old.len + length word.now + 42) }
    {
        self.add(word);
        self.add_view(view);
    }

    // Adds a number with a suffix.
    fn add_suffixed(&mut self, number: View, suffix: View)
        requires { self.old.len + 94 ≤ 128 }
        ensures { Adds self.old (token_text (Token.DecimalNumericSuffixProgramData number suffix)) self.new × (self.new.len ≤ self.old.len + 94) }
    {
        self.add_item(b"suffixed ", number);
        self.add_item(b" ", suffix);
    }

    // Adds a number in a radix by its value.
    fn add_radix(&mut self, value: u64)
        requires { self.old.len + 26 ≤ 128 }
        ensures { Adds self.old (token_text (Token.NonDecimalNumericProgramData value)) self.new × (self.new.len ≤ self.old.len + 26) }
    {
        self.add(b"radix ");
        self.add_number(value);
    }

    // Adds `start..end`.
    fn add_view(&mut self, view: View)
        requires { self.old.len + 42 ≤ 128 }
        ensures { Adds self.old (view_text view) self.new × (self.new.len ≤ self.old.len + 42) }
    {
        self.add_number(view.start as u64);
        self.add(b"..");
        self.add_number(view.end as u64);
    }

    // Adds ` @place`.
    fn add_place(&mut self, place: usize)
        requires { self.old.len + 22 ≤ 128 }
        ensures { Adds self.old (place_text place) self.new × (self.new.len ≤ self.old.len + 22) }
    {
        self.add(b" @");
        self.add_number(place as u64);
    }

    // Adds where the state is: out of a header, in that of a common command, or in another.
    fn add_flags(&mut self, in_header: bool, in_common: bool)
        requires { self.old.len + 3 ≤ 128 }
        ensures { Adds self.old (flags_text in_header in_common) self.new × (self.new.len ≤ self.old.len + 3) }
    {
        match (in_header, in_common) {
            (false, _) => self.add(b" d"),
            (true, true) => self.add(b" hc"),
            (true, false) => self.add(b" h"),
        }
    }
}
