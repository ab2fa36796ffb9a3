// Words that are no command, and the command that tells all of them.

use crate::tests::desk::AtADesk;
use crate::tests::table::check;
use std::test::Fail;

// Words that end too early, no command, values that are none, options that are unknown, given twice, of another form or
// missing, and a word too many.
const REFUSED: &str = r#"=> 2, err "error words 0\n"
rehears => 2, err "error words 0\n"
rehearse => 2, err "error words 1\n"
stripe x 0 5 => 2, err "error words 1\n"
rehearse --rates 2 => 2, err "error words 1\n"
rehearse --rate => 2, err "error words 2\n"
rehearse --rate two => 2, err "error words 2\n"
rehearse --rate 2 --unit=0 => 2, err "error words 3\n"
rehearse --rate 2 --rate=2 => 2, err "error words 3\n"
rehearse --rate 2 --segment 1 => 2, err "error words 3\n"
rehearse --rate 2 --unit 1s --duration 1s --pre 1 --max 1 --iteration 1s => 2, err "error words 13\n"
rehearse --rate 2 --unit 1s --duration 1s --pre 1 --max 1 --iteration 1s --journal j k => 2, err "error words 15\n""#;

// The lines of all commands that there are.
const HELP: &str =
    r#"help => 0, out "load stripe WEIGHTS POSITION N\nload stripe N [--segment S] [--sequence S]\nload plan TEST [--segment S] [--sequence S] [--entries N] [--list]\nload rehearse TEST --iteration D --journal NAME [--segment S] [--sequence S] [--entries N]\nload rehearse --rate N --unit D --duration D --pre N --max N --iteration D --journal NAME [--entries N]\nload help\n""#;

/// Words that are refused. No file is started.
#[test]
fn refused(rt: HostRuntime) -> Result<(), Fail> {
    check::<AtADesk, _>(&rt, REFUSED)
}

/// The lines of all commands.
#[test]
fn help(rt: HostRuntime) -> Result<(), Fail> {
    check::<AtADesk, _>(&rt, HELP)
}
