// The text of `help`.
ghost use Rattle.std.specs.Prelude.{◌≡◌, IfOk};
ghost use Rattle.ld_answer.specs.Help.{help_text};

use std::alloc::{AllocError, Global};

/// A line for each form of a command.
const LINES: &[u8] = b"\
load stripe WEIGHTS POSITION N\n\
load stripe N [--segment S] [--sequence S]\n\
load plan TEST [--segment S] [--sequence S] [--entries N] [--list]\n\
load rehearse TEST --iteration D --journal NAME [--segment S] [--sequence S] [--entries N]\n\
load rehearse --rate N --unit D --duration D --pre N --max N --iteration D --journal NAME [--entries N]\n\
load help\n";

// The lines of all forms of commands.
pub fn help_text(alloc: Global) -> Result<Vec<u8>, AllocError>
    ensures { IfOk result (λ text. text.items ≡ help_text) }
{
    Vec::from_slice(alloc, LINES)
}
