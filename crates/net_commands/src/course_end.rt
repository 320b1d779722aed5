// The end of a course: its status, and the line of a link that failed.
ghost use Rattle.std.specs.Prelude.{◌≡◌};
ghost use Rattle.std.specs.List.{concat};
ghost use Rattle.net_commands.specs.Courses.{Served, course_status, fault_lines};

use command_parts::Status;
use printed_lines::lines::link_fault_line;

/// The status where links were served, whether one failed or not.
pub fn end_status(link_fault: bool) -> Status
    ensures { result ≡ course_status (Served link_fault) }
{
    if link_fault {
        Status::ReadFault
    } else {
        Status::Done
    }
}

/// The line of a link that failed, where one did.
pub fn fault_text(link_fault: bool) -> &'static str
    ensures { result.now ≡ concat (fault_lines link_fault) }
{
    if link_fault { link_fault_line() } else { "" }
}
