// A channel spec, SCPI-99 8.3.2: its dimension and its items. expression/channel_list.rs of the original.
#![tactic(auto)]

ghost use Rattle.std.specs.Prelude.{◌≡◌};
ghost use Rattle.channel_spec.specs.Spec.{in_spec, bang, spec_at};
ghost use Rattle.channel_spec.specs.Item.{refusal, item_of, item_at};

use error::ErrorCode;
use token::View;

// A channel spec: its part of the text, and its dimension.
#[derive(Clone, Copy)]
pub struct ChannelSpec {
    pub view: View,
    pub dimension: usize,
}

// An item of a spec's walk, in the form that the scope names for the Option of a Result of the original.
#[derive(Clone, Copy)]
pub enum Item {
    Value(i64),
    End,
    Refused(ErrorCode),
}

// The answer of a step of the walk, and where the next one begins.
#[derive(Clone, Copy)]
pub struct Step {
    pub item: Item,
    pub place: usize,
}

// The spec that begins at a place: digits, signs and `!` as far as they go, perhaps none.
pub fn read_channel_spec(s: &[u8], at: usize) -> ChannelSpec
    ensures { result ≡ spec_at s.now at }
{
    let mut dimension = 1;
    for end in at..s.len() {
        let b = s[end];
        if !in_spec(b) {
            return ChannelSpec {
                view: View { start: at, end },
                dimension,
            };
        }
        dimension += bang(b);
    }
    ChannelSpec {
        view: View {
            start: at,
            end: at.max(s.len()),
        },
        dimension,
    }
}

// What may stand in a spec.
fn in_spec(b: u8) -> bool
    ensures { result ≡ in_spec b }
{
    if kind::is_digit(b) {
        return true;
    }
    if kind::is_sign(b) {
        return true;
    }
    b == b'!'
}

// 1 for a `!`, 0 for any other byte.
fn bang(b: u8) -> usize
    ensures { result ≡ bang b }
{
    if b == b'!' { 1 } else { 0 }
}

// The next item of a spec, which is given as its part of the text, from a place on: one `!` is passed, and then a signed integer is read.
pub fn next(spec: &[u8], place: usize) -> Step
    ensures { result ≡ item_at spec.now place }
{
    if spec.len() <= place {
        return Step {
            item: Item::End,
            place,
        };
    }
    if spec[place] == b'!' {
        return read_item(spec, place + 1);
    }
    read_item(spec, place)
}

// The signed integer that begins at a place, as an item.
fn read_item(spec: &[u8], at: usize) -> Step
    ensures { result ≡ item_of spec.now at }
{
    match integer::read_signed(spec, at) {
        Ok((value, end)) => Step {
            item: Item::Value(value),
            place: end,
        },
        Err(_) => refused(spec),
    }
}

// A refusal ends the walk.
fn refused(spec: &[u8]) -> Step
    ensures { result ≡ refusal spec.now }
{
    Step {
        item: Item::Refused(ErrorCode::ExpressionError),
        place: spec.len(),
    }
}
