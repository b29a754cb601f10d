// The tokens of a program message. tokenizer/token.rs of the original, with places where that has slices.
#![tactic(auto)]

ghost use Rattle.std.specs.Prelude.{◌≡◌};
ghost use Rattle.token.specs.View.{part_of};
ghost use Rattle.token.specs.Token.{is_data, view_in, matches_header};

// A part of the text: from its start up to its end.
#[derive(Clone, Copy)]
pub struct View {
    pub start: usize,
    pub end: usize,
}

#[derive(Clone, Copy)]
pub enum Token {
    // `:`
    HeaderMnemonicSeparator,
    // `?`
    HeaderQuerySuffix,
    // `;`
    ProgramMessageUnitSeparator,
    // white space behind a header
    ProgramHeaderSeparator,
    // `,`
    ProgramDataSeparator,
    ProgramMnemonic(View),
    CharacterProgramData(View),
    DecimalNumericProgramData(View),
    DecimalNumericSuffixProgramData(View, View),
    NonDecimalNumericProgramData(u64),
    StringProgramData(View),
    ArbitraryBlockData(View),
    ExpressionProgramData(View),
}

// The part of the text that a view is; an empty one where its places do not fit the text.
pub fn part(s: &[u8], view: View) -> &[u8]
    ensures { result.now ≡ part_of s.now view }
{
    let start = view.start;
    let end = view.end;
    if s.len() < end {
        return &s[..0];
    }
    if end < start {
        return &s[..0];
    }
    &s[start..end]
}

impl Token {
    // Whether the token is an item of program data.
    pub fn is_data(self) -> bool
        ensures { result ≡ is_data self }
    {
        match self {
            Token::HeaderMnemonicSeparator => false,
            Token::HeaderQuerySuffix => false,
            Token::ProgramMessageUnitSeparator => false,
            Token::ProgramHeaderSeparator => false,
            Token::ProgramDataSeparator => false,
            Token::ProgramMnemonic(_) => false,
            Token::CharacterProgramData(_) => true,
            Token::DecimalNumericProgramData(_) => true,
            Token::DecimalNumericSuffixProgramData(_, _) => true,
            Token::NonDecimalNumericProgramData(_) => true,
            Token::StringProgramData(_) => true,
            Token::ArbitraryBlockData(_) => true,
            Token::ExpressionProgramData(_) => true,
        }
    }

    // The part of the text that the token is, without a number's suffix; an empty one where it names none.
    pub fn view(self) -> View
        ensures { result ≡ view_in self }
    {
        match self {
            Token::ProgramMnemonic(view) => view,
            Token::CharacterProgramData(view) => view,
            Token::DecimalNumericProgramData(view) => view,
            Token::DecimalNumericSuffixProgramData(view, _) => view,
            Token::StringProgramData(view) => view,
            Token::ArbitraryBlockData(view) => view,
            Token::ExpressionProgramData(view) => view,
            Token::HeaderMnemonicSeparator => View { start: 0, end: 0 },
            Token::HeaderQuerySuffix => View { start: 0, end: 0 },
            Token::ProgramMessageUnitSeparator => View { start: 0, end: 0 },
            Token::ProgramHeaderSeparator => View { start: 0, end: 0 },
            Token::ProgramDataSeparator => View { start: 0, end: 0 },
            Token::NonDecimalNumericProgramData(_) => View { start: 0, end: 0 },
        }
    }

    // Whether the token is a word that spells the mnemonic.
    pub fn match_program_header(self, s: &[u8], mnemonic: &[u8]) -> bool
        ensures { result ≡ matches_header mnemonic.now s.now self }
    {
        match self {
            Token::ProgramMnemonic(word) => mnemonic::mnemonic_match(mnemonic, part(s, word)),
            Token::CharacterProgramData(word) => mnemonic::mnemonic_match(mnemonic, part(s, word)),
            Token::HeaderMnemonicSeparator => false,
            Token::HeaderQuerySuffix => false,
            Token::ProgramMessageUnitSeparator => false,
            Token::ProgramHeaderSeparator => false,
            Token::ProgramDataSeparator => false,
            Token::DecimalNumericProgramData(_) => false,
            Token::DecimalNumericSuffixProgramData(_, _) => false,
            Token::NonDecimalNumericProgramData(_) => false,
            Token::StringProgramData(_) => false,
            Token::ArbitraryBlockData(_) => false,
            Token::ExpressionProgramData(_) => false,
        }
    }
}
