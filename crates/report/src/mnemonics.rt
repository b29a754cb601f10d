// The answer to a name and a word as a line of text.
ghost use Rattle.std.specs.Prelude.{◌≡◌};
ghost use Rattle.report.specs.Line.{flag, names_text};

// The line `match A compare B`.
pub fn names(matched: bool, compared: bool) -> [u8; 18]
    ensures { result ≡ names_text matched compared }
{
    let mut line = *b"match 0 compare 0\n";
    line[6] = digit(matched);
    line[16] = digit(compared);
    line
}

// 1 for yes, 0 for no.
fn digit(yes: bool) -> u8
    ensures { result ≡ flag yes }
{
    b'0' + u8::from(yes)
}
