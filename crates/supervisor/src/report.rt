// The report: eleven bytes at the start of the room.
ghost use Rattle.std.specs.Prelude.{◌≡◌, ◌++◌, ◌≤◌, length, drop};
ghost use Rattle.frames.specs.Kind.{report_bytes};
ghost use Rattle.supervisor.specs.State.{HasMasks};
ghost use Rattle.supervisor.specs.Report.{report_of};

use crate::acted::Acted;
use frames::frame::Frame;
use frames::kind::REPORT;

// Writes the report of a frame that was worked, with the masks that the state keeps. Bytes past it stay.
#[tactic(auto, unfolding(crate::specs::Report::report_of))]
pub(crate) fn write(room: &mut [u8], frame: Frame, acted: Acted)
    requires { (report_bytes ≤ length room.old) × HasMasks acted.state }
    ensures { room.new ≡ report_of frame acted ++ drop report_bytes room.old }
{
    let head = frame.head();
    let [high, low] = head.serial.to_be_bytes();
    let masks = acted.state.masks;
    let report = [
        REPORT,
        head.kind.number(),
        head.origin,
        high,
        low,
        acted.answer.number(),
        acted.state.watch.mode.number(),
        masks.requested,
        masks.on,
        masks.failed,
        acted.due_number(),
    ];
    basics::copy(&report, room);
}
