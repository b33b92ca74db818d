// The lines of a report.
// They are put together part by part: `write!` promises its bytes only where it succeeds, and no contract of std says that it does.
// Each is written out: a function of names and numbers for both would save two lines and cost a contract and a lemma.
#![tactic(auto, using(crate::proofs::Clips::lines))]

ghost use Rattle.std.specs.Prelude.{◌≡◌};
ghost use Rattle.listing.specs.Lines.{refusal_line, opened_line};

use crate::text::Text;

/// The line of an image that does not open: the refusal's number, and the block or place that it names.
pub fn refusal(number: u32, place: usize) -> Text
    ensures { result ≡ refusal_line number place }
{
    let mut text = Text::new();
    text.push_all(b"refused ");
    text.push_number(number as usize);
    text.push_all(b" place ");
    text.push_number(place);
    text.push(b'\n');
    text
}

/// The line of an image that opens: its program's length, its data's size and its depth.
pub fn opened(program_len: usize, data_size: usize, depth: u32) -> Text
    ensures { result ≡ opened_line program_len data_size depth }
{
    let mut text = Text::new();
    text.push_all(b"program ");
    text.push_number(program_len);
    text.push_all(b" data ");
    text.push_number(data_size);
    text.push_all(b" depth ");
    text.push_number(depth as usize);
    text.push(b'\n');
    text
}
