// What the workbench does with the bytes of an image.
#![tactic(auto)]

ghost use Rattle.host.specs.Report.{Reported};

use image::opening::open;
use listing::lines::{opened, refusal};
use listing::text::Text;
use refusal::Refusal;

pub mod pile;

/// One line that says what the image holds, or why it does not open.
pub fn report(bytes: &[u8]) -> Text
    ensures { Reported bytes.now result }
{
    match open(bytes) {
        Ok(image) => opened(image.program_len(), image.data_size(), image.depth()),
        Err(fault) => refusal(fault.number(), fault.figure()),
    }
}
