//! Lines of scripts that are refused.

use crate::verbs::answer;
use sample_rows::assert_rows;
use std::test::Fail;

/// A line, and why it is refused.
const ROWS: &[u8] = b"\
    # operator and verb come first\n\
    line\tA\t\tline 1: bad operator\n\
    line\tA fly\t\tline 1: bad operator\n\
    line\tA link a\t\tline 1: bad operator\n\
    line\ta\t\tline 1: unknown verb\n\
    line\ta fly\t\tline 1: unknown verb\n\
    line\ta Link /a\t\tline 1: unknown verb\n\
    line\ta link\\t/a\t\tline 1: unknown verb\n\
    line\ta add a b\t\tline 1: unknown verb\n\
    line\ta Enable x.service\t\tline 1: unknown verb\n\
    line\ta check x.service\t\tline 1: unknown verb\n\
    line\ta Redo 1\t\tline 1: unknown verb\n\
    \n\
    # then arguments are counted\n\
    line\ta enable\t\tline 1: wrong arguments\n\
    line\ta enable --runtime\t\tline 1: wrong arguments\n\
    line\ta disable\t\tline 1: wrong arguments\n\
    line\ta disable --runtime\t\tline 1: wrong arguments\n\
    line\ta reenable\t\tline 1: wrong arguments\n\
    line\ta reenable --runtime\t\tline 1: wrong arguments\n\
    line\ta preset\t\tline 1: wrong arguments\n\
    line\ta preset --runtime\t\tline 1: wrong arguments\n\
    line\ta mask\t\tline 1: wrong arguments\n\
    line\ta link\t\tline 1: wrong arguments\n\
    line\ta link --runtime\t\tline 1: wrong arguments\n\
    line\ta add-wants\t\tline 1: wrong arguments\n\
    line\ta add-wants x\t\tline 1: wrong arguments\n\
    line\ta add-wants --runtime\t\tline 1: wrong arguments\n\
    line\ta add-wants --runtime x\t\tline 1: wrong arguments\n\
    line\ta add-requires x\t\tline 1: wrong arguments\n\
    line\ta set-default\t\tline 1: wrong arguments\n\
    line\ta set-default x y\t\tline 1: wrong arguments\n\
    line\ta remove\t\tline 1: wrong arguments\n\
    line\ta remove x y\t\tline 1: wrong arguments\n\
    line\ta undo\t\tline 1: wrong arguments\n\
    line\ta undo x y\t\tline 1: wrong arguments\n\
    line\ta redo\t\tline 1: wrong arguments\n\
    line\ta redo 1 2\t\tline 1: wrong arguments\n\
    line\ta redo x y\t\tline 1: wrong arguments\n\
    # those of questions\n\
    line\ta is-enabled\t\tline 1: wrong arguments\n\
    line\ta is-enabled x.service y.service\t\tline 1: wrong arguments\n\
    line\ta is-enabled --runtime x.service\t\tline 1: wrong arguments\n\
    line\ta get-default x.target\t\tline 1: wrong arguments\n\
    line\ta dependencies\t\tline 1: wrong arguments\n\
    line\ta dependencies --reverse\t\tline 1: wrong arguments\n\
    line\ta dependencies x.service y.service\t\tline 1: wrong arguments\n\
    line\ta dependencies x.service --reverse\t\tline 1: wrong arguments\n\
    line\ta dependencies --reverse --reverse x.service\t\tline 1: wrong arguments\n\
    # those of place\n\
    line\ta place\t\tline 1: wrong arguments\n\
    line\ta place x\t\tline 1: wrong arguments\n\
    line\ta place x y\t\tline 1: wrong arguments\n\
    line\ta place x link\t\tline 1: wrong arguments\n\
    line\ta place x link \\x00 y\t\tline 1: wrong arguments\n\
    line\ta place x file \\\\ y\t\tline 1: wrong arguments\n\
    line\ta place x Link y\t\tline 1: wrong arguments\n\
    line\ta place x files\t\tline 1: wrong arguments\n\
    line\ta place --runtime x file\t\tline 1: wrong arguments\n\
    \n\
    # then the first bad argument decides\n\
    line\ta is-enabled x\t\tline 1: bad name\n\
    line\ta dependencies x\t\tline 1: bad name\n\
    line\ta dependencies --reverse --reverse\t\tline 1: bad name\n\
    line\ta enable x.service x\t\tline 1: bad name\n\
    line\ta enable /x.service\t\tline 1: bad name\n\
    line\ta enable --runtime --runtime\t\tline 1: bad name\n\
    line\ta disable x.service --runtime\t\tline 1: bad name\n\
    line\ta disable --runtime x\t\tline 1: bad name\n\
    line\ta reenable --runtime x\t\tline 1: bad name\n\
    line\ta preset x.service --runtime\t\tline 1: bad name\n\
    line\ta mask x.service x\t\tline 1: bad name\n\
    line\ta mask --runtime --runtime\t\tline 1: bad name\n\
    line\ta mask x.service --runtime\t\tline 1: bad name\n\
    line\ta add-wants x y.service\t\tline 1: bad name\n\
    line\ta add-wants x.target y.service y\t\tline 1: bad name\n\
    line\ta add-requires x.target --runtime y.service\t\tline 1: bad name\n\
    line\ta set-default x\t\tline 1: bad name\n\
    line\ta set-default --runtime\t\tline 1: bad name\n\
    line\ta link x\t\tline 1: bad path\n\
    line\ta link /x y /x\t\tline 1: bad path\n\
    line\ta link /x --runtime\t\tline 1: bad path\n\
    line\ta link --runtime --runtime\t\tline 1: bad path\n\
    line\ta place x link \\x00\t\tline 1: bad path\n\
    line\ta place x link y\t\tline 1: bad path\n\
    line\ta place / file \\\\\t\tline 1: bad path\n\
    line\ta place x file\t\tline 1: bad path\n\
    line\ta remove /x/\t\tline 1: bad path\n\
    line\ta remove --runtime\t\tline 1: bad path\n\
    \n\
    # what is placed comes last\n\
    line\ta place /x link \\x00\t\tline 1: bad target\n\
    line\ta place /x link y\\tz\t\tline 1: bad target\n\
    line\ta place /x file \\\\\t\tline 1: bad text\n\
    line\ta place /x file y\\\\\t\tline 1: bad text\n\
    line\ta place /x file \\\\\\\\\\\\\t\tline 1: bad text\n\
    line\ta place /x file \\\\x\t\tline 1: bad text\n\
    line\ta place /x file \\\\N\t\tline 1: bad text\n\
    line\ta place /x file \\\\\\t\t\tline 1: bad text\n\
    line\ta place /x file y\\\\0z\t\tline 1: bad text\n\
    line\ta undo x\t\tline 1: bad number\n\
    line\ta undo \\\\n\t\tline 1: bad number\n\
    line\ta redo one\t\tline 1: bad number\n\
    line\ta redo --runtime\t\tline 1: bad number\n\
    line\ta redo 4294967296\t\tline 1: bad number\n\
    ";

#[test]
fn the_first_fault_of_a_line_is_reported(rt: HostRuntime) -> Result<(), Fail> {
    assert_rows(rt.alloc(), ROWS, answer)
}
