//! Names that are reserved for new files and directories until they are renamed to their own names.
ghost use Rattle.std.specs.Prelude.{◌≡◌};
ghost use Rattle.std.specs.Char.{is_ascii_digit};
ghost use Rattle.std.specs.List.{list_all};
ghost use Rattle.real_roots.specs.Reserved.{is_number, is_reserved};

/// New things are made under this name, with a dot and the number of the process after it, and get
/// their own name in one step, by link(2) or rename(2).
pub(crate) const NEW_NAME: &str = ".unitroot-new";

#[tactic(auto, unfolding(crate::specs::Reserved::is_number))]
fn is_number(text: &[u8]) -> bool
    ensures { result ≡ is_number text.now }
{
    match text {
        [] => false,
        [_, ..] => are_digits(text),
    }
}

fn are_digits(text: &[u8]) -> bool
    ensures { result ≡ list_all is_ascii_digit text.now }
{
    text.iter().all(|b| b.is_ascii_digit())
}

/// Whether a name is reserved: `.unitroot-new.N`, for the process N, or without a number, as in
/// earlier versions.
pub(crate) fn is_reserved(name: &[u8]) -> bool
    ensures { result ≡ is_reserved name.now }
{
    name == b".unitroot-new".as_slice()
        || name.starts_with(b".unitroot-new.") && is_number(&name[14..])
}
