//! Patterns: systemd.preset(5), "Preset File Format", and glob(7), "Wildcard matching".
ghost use Rattle.std.specs.Prelude.{◌≡◌, ◌<◌, ◌≤◌, [], ◌∷◌, ◌||◌, true, false, length, IsTrue, ◌↔◌, MatchOption, IfSome, Some, None};
ghost use Rattle.std.specs.List.{position};
ghost use Rattle.std.specs.Option.{option_map, option_copied};
ghost use Rattle.preset_rules.specs.Patterns.{Set, ends_set, set_from, set_behind, is_between, is_member, is_in, by_set, after_byte, Matches, is_matched};
ghost use Rattle.preset_rules.specs.Walk.{along, after_star, are_ended, first_taken, first_and_rest, range_end, first_member, without_first};

/// Whether a pattern matches a whole text. `*` matches any bytes or none, `?` one byte, and a set
/// as `[a-z_]` one byte that is in it, or as `[!a-z_]` one that isn't. A set ends at the first `]`
/// after at least one member; `x-y` in it means the bytes from `x` to `y`, and none if `x` is
/// greater; a `-` that is first or last means itself. A `[` without an end and any other byte match
/// themselves, and there is no escape. Pattern and text may have any bytes and any length.
///
/// It takes no memory. The time is at most about the length of the pattern times that of the text,
/// since only the last star is ever tried again. Only the bytes `[` in the text may each cost
/// another search of the pattern for a `]`.
///
/// systemd.preset(5), "Preset File Format"; glob(7), "Wildcard matching".
pub fn pattern_matches(pattern: &[u8], text: &[u8]) -> bool
    ensures matches { IsTrue result ↔ Matches pattern.now text.now }
    ensures value { result ≡ is_matched pattern.now text.now }
{
    matches_whole(pattern, text)
}

fn matches_whole(pattern: &[u8], text: &[u8]) -> bool
    ensures yes { result ≡ true → Matches pattern.now text.now }
    ensures no { Matches pattern.now text.now → result ≡ true }
{
    let (pattern, text) = along(pattern, text);
    match after_star(pattern) {
        Some(rest) => matches_behind_star(rest, text),
        None => are_ended(pattern, text),
    }
}

/// Whether a star and then this pattern match the text. If the pattern leads to another star, the
/// first one need not be tried with more bytes: having taken as few as possible, it leaves the
/// most.
fn matches_behind_star<'a>(mut pattern: &'a [u8], mut text: &'a [u8]) -> bool
    ensures yes { result ≡ true → Matches (42 ∷ pattern.entry.now) text.entry.now }
    ensures no { Matches (42 ∷ pattern.entry.now) text.entry.now → result ≡ true }
{
    loop {
        let (left, rest) = along(pattern, text);
        if are_ended(left, rest) {
            return true;
        }
        match after_star(left) {
            Some(behind) => {
                pattern = behind;
                text = rest;
            }
            None => match without_first(text) {
                Some(later) => text = later,
                None => return false,
            },
        }
    }
}

/// Takes one byte after another, as long as the pattern does, and returns the rest of the pattern
/// and of the text.
// (after a star this begins at each byte of the text, and mostly ends there: half of the time was
// spent on the call)
#[inline(always)]
fn along<'a>(mut pattern: &'a [u8], mut text: &'a [u8]) -> (&'a [u8], &'a [u8])
    ensures pattern { result.0.now ≡ (along text.entry.now pattern.entry.now).0 }
    ensures text { result.1.now ≡ (along text.entry.now pattern.entry.now).1 }
{
    while let Some((left, rest)) = first_taken(pattern, text) {
        pattern = left;
        text = rest;
    }
    (pattern, text)
}

/// The same for the first byte only, if it is taken.
fn first_taken<'a>(pattern: &'a [u8], text: &'a [u8]) -> Option<(&'a [u8], &'a [u8])>
    ensures taken { option_map (λ left. (left.0.now, left.1.now)) result ≡ first_taken pattern.now text.now }
    ensures shorter { IfSome result (λ left. length left.1.now < length text.now) }
{
    match text {
        [] => None,
        [b, rest @ ..] => match after_byte(pattern, *b) {
            Some(left) => Some((left, rest)),
            None => None,
        },
    }
}

fn after_star(pattern: &[u8]) -> Option<&[u8]>
    ensures star { option_copied result ≡ after_star pattern.now }
    ensures shorter { IfSome result (λ rest. length rest.now < length pattern.now) }
{
    match pattern {
        [] => None,
        [first, rest @ ..] => { if *first == b'*' { Some(rest) } else { None } }
    }
}

fn without_first(text: &[u8]) -> Option<&[u8]>
    ensures rest { option_copied result ≡ without_first text.now }
    ensures shorter { IfSome result (λ rest. length rest.now < length text.now) }
{
    match text {
        [] => None,
        [_first, rest @ ..] => Some(rest),
    }
}

fn are_ended(pattern: &[u8], text: &[u8]) -> bool
    ensures { result ≡ are_ended pattern.now text.now }
{
    match (pattern, text) {
        ([], []) => true,
        _ => false,
    }
}

/// The rest of a pattern after its first element has taken this byte, if that isn't a star and
/// takes the byte.
#[tactic(auto, unfolding(crate::specs::Patterns::after_byte))]
fn after_byte(pattern: &[u8], b: u8) -> Option<&[u8]>
    ensures { option_copied result ≡ after_byte pattern.now b }
{
    match pattern {
        [] => None,
        [first, rest @ ..] => {
            if *first == b'*' {
                None
            } else if *first == b'?' {
                Some(rest)
            } else if *first == b'[' {
                by_set(rest, b)
            } else if *first == b {
                Some(rest)
            } else {
                None
            }
        }
    }
}

/// The same after a `[`, which opens a set or means itself.
// (separate, to keep the code short that walks along a pattern without sets)
#[inline(never)]
fn by_set(rest: &[u8], b: u8) -> Option<&[u8]>
    ensures { option_copied result ≡ by_set (set_behind rest.now) rest.now b }
{
    match set_behind(rest) {
        None => { if b == b'[' { Some(rest) } else { None } }
        Some((turned, members, after)) => {
            if is_in(turned, members, b) {
                Some(after)
            } else {
                None
            }
        }
    }
}

/// The set that a `[` before this text opens: whether it is negated, its members, and what follows
/// it.
#[tactic(auto, unfolding(crate::specs::Patterns::set_behind))]
fn set_behind(rest: &[u8]) -> Option<(bool, &[u8], &[u8])>
    ensures { option_map (λ set. record { turned = set.0; members = set.1.now; after = set.2.now }) result ≡ set_behind rest.now }
{
    match rest {
        [] => None,
        [first, more @ ..] => {
            if *first == b'!' {
                set_from(true, more)
            } else {
                set_from(false, rest)
            }
        }
    }
}

fn set_from(turned: bool, rest: &[u8]) -> Option<(bool, &[u8], &[u8])>
    ensures { option_map (λ set. record { turned = set.0; members = set.1.now; after = set.2.now }) result ≡ set_from turned rest.now }
{
    match rest {
        [] => None,
        [_member, more @ ..] => match set_end(more) {
            Some(at) => Some((turned, &rest[..at + 1], &more[at + 1..])),
            None => None,
        },
    }
}

fn set_end(rest: &[u8]) -> Option<usize>
    ensures at { result ≡ position ends_set rest.now }
    ensures within { IfSome result (λ at. at < length rest.now) }
{
    rest.iter().position(|b| *b == b']')
}

fn is_in(turned: bool, members: &[u8], b: u8) -> bool
    ensures { result ≡ is_in (record { turned = turned; members = members.now; after = [] }) b }
{
    if turned {
        !is_member(members, b)
    } else {
        is_member(members, b)
    }
}

/// Whether the byte is one of the members, which are read from the left.
#[tactic(auto, unfolding(crate::specs::Patterns::is_member))]
fn is_member<'a>(mut members: &'a [u8], b: u8) -> bool
    ensures { result ≡ is_member members.entry.now b }
{
    while let Some((found, rest)) = is_first_member(members, b) {
        if found {
            return true;
        }
        members = rest;
    }
    false
}

/// Whether the byte is the first member, and the members after that.
fn is_first_member(members: &[u8], b: u8) -> Option<(bool, &[u8])>
    ensures { MatchOption result (is_member members.now b ≡ false) (λ first. (is_member members.now b ≡ first.0 || is_member first.1.now b) × (length first.1.now < length members.now)) }
{
    match members {
        [] => None,
        [one, more @ ..] => Some(first_member(*one, more, b)),
    }
}

/// The same for this member, followed by these.
fn first_member(one: u8, more: &[u8], b: u8) -> (bool, &[u8])
    ensures found { result.0 ≡ (first_member one b more.now (range_end more.now)).0 }
    ensures behind { result.1.now ≡ (first_member one b more.now (range_end more.now)).1 }
    ensures short { length result.1.now ≤ length more.now }
{
    match range_end(more) {
        Some((to, behind)) => (is_between(one, to, b), behind),
        None => (b == one, more),
    }
}

/// The end of a range and the members after it, if these bytes continue a range.
fn range_end(more: &[u8]) -> Option<(u8, &[u8])>
    ensures range { option_map (λ end. (end.0, end.1.now)) result ≡ range_end more.now }
    ensures short { IfSome result (λ end. length end.1.now ≤ length more.now) }
{
    match more {
        [] => None,
        [dash, rest @ ..] => {
            if *dash == b'-' {
                first_and_rest(rest)
            } else {
                None
            }
        }
    }
}

fn first_and_rest(members: &[u8]) -> Option<(u8, &[u8])>
    ensures cut { option_map (λ end. (end.0, end.1.now)) result ≡ first_and_rest members.now }
    ensures short { IfSome result (λ end. length end.1.now ≤ length members.now) }
{
    match members {
        [] => None,
        [first, rest @ ..] => Some((*first, rest)),
    }
}

fn is_between(from: u8, to: u8, b: u8) -> bool
    ensures { result ≡ is_between from to b }
{
    from <= b && b <= to
}
