//! Which texts patterns match.
use preset_rules::pattern_matches;
use sample_rows::{Row, assert_rows, is};
use std::alloc::{AllocError, Global};
use std::test::Fail;

const ROWS: &[u8] = b"\
    # matches: whether the pattern ONE matches the whole text TWO\n\
    matches\t\t\tyes\n\
    matches\t\ta\tno\n\
    matches\ta\t\tno\n\
    matches\ta\ta\tyes\n\
    matches\ta\tA\tno\n\
    matches\tabc\tab\tno\n\
    matches\tab\tabc\tno\n\
    matches\t?\t\tno\n\
    matches\t?\t\\xff\tyes\n\
    matches\t?\tab\tno\n\
    matches\t*\t\tyes\n\
    matches\t*\tabc\tyes\n\
    matches\t*c\tabc\tyes\n\
    matches\t*b\tabc\tno\n\
    matches\ta*\tabc\tyes\n\
    matches\ta*\ta\tyes\n\
    matches\ta*c\tac\tyes\n\
    matches\ta*c\tabcbc\tyes\n\
    matches\ta*c\tabcb\tno\n\
    matches\t*a*b*\txaxb\tyes\n\
    matches\t*a*b*\txbxa\tno\n\
    matches\t**\t\tyes\n\
    matches\ta**b\tab\tyes\n\
    matches\t*ab\taab\tyes\n\
    matches\t*a?c*\tabdaxcd\tyes\n\
    matches\tssh*.service\tsshd.service\tyes\n\
    matches\tssh*.service\tsshd.socket\tno\n\
    matches\t[ab]\ta\tyes\n\
    matches\t[ab]\tb\tyes\n\
    matches\t[ab]\tc\tno\n\
    matches\t[ab]\t\tno\n\
    matches\t[!ab]\ta\tno\n\
    matches\t[!ab]\tc\tyes\n\
    matches\t[!ab]\t\tno\n\
    matches\t[^a]\t^\tyes\n\
    matches\t[^a]\tb\tno\n\
    matches\t[a-c]\tb\tyes\n\
    matches\t[a-c]\t-\tno\n\
    matches\t[a-c]\td\tno\n\
    matches\t[c-a]\tb\tno\n\
    matches\t[c-a]\tc\tno\n\
    matches\t[a-]\t-\tyes\n\
    matches\t[a-]\ta\tyes\n\
    matches\t[-a]\t-\tyes\n\
    matches\t[--z]\ta\tyes\n\
    matches\t[--z]\t-\tyes\n\
    matches\t[--z]\t+\tno\n\
    matches\t[a--]\ta\tno\n\
    matches\t[a--]\t-\tno\n\
    matches\t[a-b-z]\t-\tyes\n\
    matches\t[a-b-z]\tc\tno\n\
    matches\t[a-b-z]\tz\tyes\n\
    matches\t[]\t[]\tyes\n\
    matches\t[]\t]\tno\n\
    matches\t[]a]\t]\tyes\n\
    matches\t[!]\t[!]\tyes\n\
    matches\t[!]a]\t]\tno\n\
    matches\t[!]a]\tb\tyes\n\
    matches\t[!a-c]*.service\tdhcp.service\tyes\n\
    matches\t[!a-c]*.service\tbus.service\tno\n\
    matches\t[]x]\t]\tyes\n\
    matches\t[]x]\tx\tyes\n\
    matches\t*[\\x80-\\xff]\ta\\x80\\xff\tyes\n\
    matches\t*[\\x80-\\xff]*\tabc\tno\n\
    matches\t[*?]\ta\tno\n\
    matches\t\\\\*\t*\tno\n\
    matches\t[a\t[a\tyes\n\
    matches\t[a\ta\tno\n\
    matches\tx[ab]*[!z]\txaqqy\tyes\n\
    matches\tx[ab]*[!z]\txaqqz\tno\n\
    # Many stars cost little.\n\
    matches\t*a*a*a*a*a*a*a*b\t\
        aaaaaaaaaaaaaaaaaaaaaaaaaaaaaaaaaaaaaaaaaaaaaaaaaaaaaaaaaaaaaaaaaaaaaaaaaaaaaaaaaaaaaaaaaaaaaaaaaaaaaaaaaaaaaaaaaaaaaaaaaaaaaaaaaaaaaaaaaaaaaaaaaaaaaaaaaaaaaaaaaaaaaaaaaaaaaaaaaaaaaaaaaaaaaaaaaaaaaaaaaaaaaaaaaaaaaaaaaaaaaaaaaaaaaaaaaaaaaaaaaaaaaaaaaaaaaaa\t\
        no\n\
    matches\t*a*a*a*a*a*a*a*\t\
        aaaaaaaaaaaaaaaaaaaaaaaaaaaaaaaaaaaaaaaaaaaaaaaaaaaaaaaaaaaaaaaaaaaaaaaaaaaaaaaaaaaaaaaaaaaaaaaaaaaaaaaaaaaaaaaaaaaaaaaaaaaaaaaaaaaaaaaaaaaaaaaaaaaaaaaaaaaaaaaaaaaaaaaaaaaaaaaaaaaaaaaaaaaaaaaaaaaaaaaaaaaaaaaaaaaaaaaaaaaaaaaaaaaaaaaaaaaaaaaaaaaaaaaaaaaaaaa\t\
        yes\n";

fn answer(alloc: Global, row: &Row) -> Result<Vec<u8>, AllocError> {
    if !is(row, b"matches") {
        return Vec::from_slice(alloc, b"unknown kind");
    }
    let matches = pattern_matches(&row.one, &row.two);
    Vec::from_slice(alloc, if matches { b"yes" } else { b"no" })
}

#[test]
fn patterns_match_whole_texts(rt: HostRuntime) -> Result<(), Fail> {
    assert_rows(rt.alloc(), ROWS, answer)
}
