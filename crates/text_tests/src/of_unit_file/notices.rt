//! Notices: their lines, their order, and copies.
use sample_rows::{Row, assert_rows, is};
use sample_values::name;
use std::alloc::{AllocError, Global};
use std::test::Fail;
use unit_file::{Notice, NoticeKey, Notices, Reason, Word};
use unit_name::ample;

const ROWS: &[u8] = b"\
    # Each notice has a line. They are in byte order of these.\n\
    line\t0\t\t  ! a-b.service: WantedBy x: bad name\\n\n\
    line\t1\t\t  ! a.service: Alias b.socket: bad alias\\n\n\
    line\t2\t\t  ! a.service: Also %q: bad specifier\\n\n\
    line\t3\t\t  ! a.service: Also c.service: masked\\n\n\
    line\t4\t\t  ! a.service: Also c.service: not found\\n\n\
    line\t5\t\t  ! a.service: Preset \\xff: is an alias\\n\n\
    line\t6\t\t  ! a.socket: RequiredBy : not found\\n\n\
    line\t7\t\t  ! a:b.socket: RequiredBy c:: dangling\\n\n\
    line\t8\t\t  ! a:b.socket: UpheldBy c:: bad name\\n\n\
    \n\
    # In which order they are added, and which there are then: each once, in order of the lines.\n\
    added\t\t\t\n\
    added\t5\t\t5\n\
    added\t01234567\t\t01234567\n\
    added\t76543210\t\t01234567\n\
    added\t42473274\t\t2347\n\
    added\t87848\t\t478\n\
    \n\
    # Which are joined with others.\n\
    joined\t\t\t\n\
    joined\t31\t\t13\n\
    joined\t\t31\t13\n\
    joined\t604\t753\t034567\n\
    joined\t415\t524\t1245\n";

/// A notice's unit, key, word and reason.
type Fields = (&'static [u8], NoticeKey, &'static [u8], Reason);

/// Each key and each reason.
const NOTICES: [Fields; 9] = [
    (b"a-b.service", NoticeKey::WantedBy, b"x", Reason::BadName),
    (
        b"a.service",
        NoticeKey::Alias,
        b"b.socket",
        Reason::BadAlias,
    ),
    (b"a.service", NoticeKey::Also, b"%q", Reason::BadSpecifier),
    (b"a.service", NoticeKey::Also, b"c.service", Reason::Masked),
    (
        b"a.service",
        NoticeKey::Also,
        b"c.service",
        Reason::NotFound,
    ),
    (b"a.service", NoticeKey::Preset, b"\xff", Reason::IsAlias),
    (b"a.socket", NoticeKey::RequiredBy, b"", Reason::NotFound),
    (
        b"a:b.socket",
        NoticeKey::RequiredBy,
        b"c:",
        Reason::Dangling,
    ),
    (b"a:b.socket", NoticeKey::UpheldBy, b"c:", Reason::BadName),
];

fn notice(alloc: Global, fields: &Fields) -> Result<Notice, AllocError> {
    let (unit, key, word, reason) = fields;
    Ok(Notice {
        unit: name(alloc, unit)?,
        key: *key,
        word: Word::from_slice(alloc, word)?,
        reason: *reason,
    })
}

/// The fields of a digit's notice.
fn fields_of(digit: u8) -> Option<Fields> {
    NOTICES.get(usize::from(digit.wrapping_sub(b'0'))).copied()
}

fn has_fields(notice: &Notice, fields: &Fields) -> bool {
    let (unit, key, word, reason) = fields;
    notice.unit.text() == *unit
        && notice.key == *key
        && notice.word.bytes() == *word
        && notice.reason == *reason
}

/// The digit of a notice.
fn digit_of(notice: &Notice) -> u8 {
    for digit in b'0'..b'9' {
        if let Some(fields) = fields_of(digit) {
            if has_fields(notice, &fields) {
                return digit;
            }
        }
    }
    b'?'
}

/// The line of a notice, which its copy has too.
fn shared_line(alloc: Global, notice: &Notice, copy: &Notice) -> Result<Vec<u8>, AllocError> {
    let line = notice.line(alloc)?;
    if copy.line(alloc)? != line {
        return Vec::from_slice(alloc, b"another line of the copy");
    }
    Ok(line)
}

/// The line of a digit's notice.
fn line_of(alloc: Global, digits: &[u8]) -> Result<Vec<u8>, AllocError> {
    let Some(fields) = fields_of(digits.first().copied().unwrap_or(b'?')) else {
        return Vec::from_slice(alloc, b"no notice");
    };
    let notice = notice(alloc, &fields)?;
    let copy = notice.copy()?;
    if !has_fields(&copy, &fields) {
        return Vec::from_slice(alloc, b"another copy");
    }
    shared_line(alloc, &notice, &copy)
}

/// Adds a digit's notice.
fn add(alloc: Global, notices: &mut Notices, digit: u8) -> Result<(), AllocError> {
    match fields_of(digit) {
        Some(fields) => notices.add(notice(alloc, &fields)?),
        None => Err(AllocError),
    }
}

/// The notices of these digits, added in this order. If memory runs out for one, the notices are as
/// before, and it is added again.
fn notices_of(alloc: Global, digits: &[u8]) -> Result<Notices, AllocError> {
    let mut notices = Notices::none(alloc);
    for digit in digits {
        ample!(add(alloc, &mut notices, *digit), AllocError)?;
    }
    Ok(notices)
}

/// The lines of all, after a word. If memory runs out, only the word is there, and they are
/// appended again.
fn text_of(alloc: Global, notices: &Notices) -> Result<Vec<u8>, AllocError> {
    let mut text = Vec::from_slice(alloc, b"lines\n")?;
    if notices.push_lines(&mut text).is_err() {
        if text.as_slice() != b"lines\n".as_slice() {
            return Vec::from_slice(alloc, b"lines were left");
        }
        notices.push_lines(&mut text)?;
    }
    Ok(text)
}

/// The digits of the notices that `iter` returns. Their lines together are the lines of all.
fn digits_of(alloc: Global, notices: &Notices) -> Result<Vec<u8>, AllocError> {
    let mut digits = Vec::new(alloc);
    let mut lines = Vec::from_slice(alloc, b"lines\n")?;
    for notice in notices.iter() {
        digits.push(digit_of(notice))?;
        lines.extend_from_slice(&notice.line(alloc)?)?;
    }
    if notices.len() != digits.len() || notices.is_empty() != digits.is_empty() {
        return Vec::from_slice(alloc, b"another number of notices");
    }
    if text_of(alloc, notices)? != lines {
        return Vec::from_slice(alloc, b"other lines");
    }
    Ok(digits)
}

/// The digits of a copy of notices. If memory runs out, the notices are as before, with these
/// digits, and are copied again.
fn copied_digits(alloc: Global, notices: &Notices, digits: &[u8]) -> Result<Vec<u8>, AllocError> {
    if let Ok(copy) = notices.copy() {
        return digits_of(alloc, &copy);
    }
    if digits_of(alloc, notices)?.as_slice() != digits {
        return Vec::from_slice(alloc, b"notices were left");
    }
    let copy = notices.copy()?;
    digits_of(alloc, &copy)
}

/// The digits of notices, which their copy has too.
fn shared_digits(alloc: Global, notices: &Notices) -> Result<Vec<u8>, AllocError> {
    let digits = digits_of(alloc, notices)?;
    if copied_digits(alloc, notices, &digits)? != digits {
        return Vec::from_slice(alloc, b"another copy");
    }
    Ok(digits)
}

fn added(alloc: Global, digits: &[u8]) -> Result<Vec<u8>, AllocError> {
    let notices = notices_of(alloc, digits)?;
    shared_digits(alloc, &notices)
}

/// Notices that are joined with others. If memory runs out, the notices are as before, and they are
/// joined again.
fn joined(alloc: Global, digits: &[u8], others: &[u8]) -> Result<Vec<u8>, AllocError> {
    let mut notices = notices_of(alloc, digits)?;
    let before = shared_digits(alloc, &notices)?;
    let others = notices_of(alloc, others)?;
    if notices.add_all(&others).is_err() {
        if shared_digits(alloc, &notices)? != before {
            return Vec::from_slice(alloc, b"notices were left");
        }
        notices.add_all(&others)?;
    }
    shared_digits(alloc, &notices)
}

fn answer(alloc: Global, row: &Row) -> Result<Vec<u8>, AllocError> {
    if is(row, b"line") {
        line_of(alloc, &row.one)
    } else if is(row, b"added") {
        added(alloc, &row.one)
    } else if is(row, b"joined") {
        joined(alloc, &row.one, &row.two)
    } else {
        Vec::from_slice(alloc, b"unknown kind")
    }
}

#[test]
fn notices_are_a_set_of_lines(rt: HostRuntime) -> Result<(), Fail> {
    assert_rows(rt.alloc(), ROWS, answer)
}
