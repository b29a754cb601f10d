// The refusals of the reader. error.rs of the original.
#![tactic(auto)]

ghost use Rattle.std.specs.Prelude.{◌≡◌};
ghost use Rattle.error.specs.Code.{code_of};

// The original's names for the numbers of SCPI-99 21.8; behind them the port's own, 1 to 9.
#[derive(Clone, Copy)]
pub enum ErrorCode {
    InvalidCharacter,
    SyntaxError,
    InvalidSeparator,
    CommandHeaderError,
    HeaderSeparatorError,
    ProgramMnemonicTooLong,
    UndefinedHeader,
    NumericDataError,
    InvalidCharacterInNumber,
    InvalidSuffix,
    SuffixTooLong,
    SuffixNotAllowed,
    InvalidCharacterData,
    CharacterDataTooLong,
    InvalidStringData,
    BlockDataError,
    InvalidBlockData,
    ExpressionError,
    InvalidExpression,
    DataOutOfRange,
    IllegalParameterValue,
    NodeCount,
    NodeFields,
    ChildBlocks,
    NodeName,
    TwoDefaults,
    SharedSpelling,
    StartIsNoBranch,
    NoSlotLeft,
    MessageTooLong,
}

impl ErrorCode {
    // The number that a refusal is reported by, under the original's name.
    pub fn get_code(self) -> i32
        ensures { result ≡ code_of self }
    {
        match self {
            ErrorCode::InvalidCharacter => -101,
            ErrorCode::SyntaxError => -102,
            ErrorCode::InvalidSeparator => -103,
            ErrorCode::CommandHeaderError => -110,
            ErrorCode::HeaderSeparatorError => -111,
            ErrorCode::ProgramMnemonicTooLong => -112,
            ErrorCode::UndefinedHeader => -113,
            ErrorCode::NumericDataError => -120,
            ErrorCode::InvalidCharacterInNumber => -121,
            ErrorCode::InvalidSuffix => -131,
            ErrorCode::SuffixTooLong => -134,
            ErrorCode::SuffixNotAllowed => -138,
            ErrorCode::InvalidCharacterData => -141,
            ErrorCode::CharacterDataTooLong => -144,
            ErrorCode::InvalidStringData => -151,
            ErrorCode::BlockDataError => -160,
            ErrorCode::InvalidBlockData => -161,
            ErrorCode::ExpressionError => -170,
            ErrorCode::InvalidExpression => -171,
            ErrorCode::DataOutOfRange => -222,
            ErrorCode::IllegalParameterValue => -224,
            ErrorCode::NodeCount => 1,
            ErrorCode::NodeFields => 2,
            ErrorCode::ChildBlocks => 3,
            ErrorCode::NodeName => 4,
            ErrorCode::TwoDefaults => 5,
            ErrorCode::SharedSpelling => 6,
            ErrorCode::StartIsNoBranch => 7,
            ErrorCode::NoSlotLeft => 8,
            ErrorCode::MessageTooLong => 9,
        }
    }
}
