// A line of the log: of a frame that has a report, and of one that is refused.
ghost use Rattle.std.specs.Prelude.{◌≡◌};
ghost use Rattle.basics.specs.Outcome.{outcome};
ghost use Rattle.frame_log.specs.Line.{placed, line_of, refused_line};

use crate::text::Text;
use frames::answer::Answer;
use frames::kind::REPORT_BYTES;

// A room of so many bytes has place for every line: n, four bytes in hex, five numbers in decimal, a newline.
pub const LONGEST: usize = 138;

// Writes the line of frame n, whose report is given, at the front of the room, and gives its length.
// A room shorter than LONGEST stays as it is.
#[tactic(auto, unfolding(crate::specs::Line::line_of))]
pub fn line(n: u64, report: &[u8; REPORT_BYTES], room: &mut [u8]) -> Option<usize>
    ensures { outcome result room.new ≡ placed (line_of n report.now) room.old }
{
    let mut text = Text::new();
    text.put_decimal(n);
    text.put_hex(report[1]);
    text.put_number(u64::from(report[2]));
    text.put_number(u64::from(u16::from_be_bytes([report[3], report[4]])));
    text.put_number(u64::from(report[5]));
    text.put_number(u64::from(report[6]));
    text.put_hex(report[7]);
    text.put_hex(report[8]);
    text.put_hex(report[9]);
    text.put_number(u64::from(report[10]));
    text.put_bytes(b"\n");
    text.place(room)
}

// Writes the line that says that frame n is refused, likewise.
#[tactic(auto, unfolding(crate::specs::Line::refused_line, crate::specs::Text::spaced))]
pub fn refused(n: u64, answer: Answer, room: &mut [u8]) -> Option<usize>
    ensures { outcome result room.new ≡ placed (refused_line n answer) room.old }
{
    let mut text = Text::new();
    text.put_decimal(n);
    text.put_bytes(b" refused");
    text.put_number(u64::from(answer.number()));
    text.put_bytes(b"\n");
    text.place(room)
}
