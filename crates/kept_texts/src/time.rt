//! The times of runs.
ghost use Rattle.std.specs.Prelude.{◌≡◌, true, map as list_map};
ghost use Rattle.kept_texts.specs.Values.{form_of, has_form, is_time};
ghost use Rattle.kept_texts.specs.Sayings.{time_of};

use std::marker::Model;

/// The time of a run in UTC, written `YYYY-MM-DDTHH:MM:SSZ`. Only this form is checked, not that
/// there is such a day. Contracts see its 20 bytes.
#[derive(Clone, Copy, Debug, Drop)]
pub struct Time {
    text: [u8; 20],
}

impl Model for Time {
    ghost use Rattle.std.specs.Prelude.{List, ℕ, IsTrue};
    ghost use Rattle.kept_texts.specs.Values.{is_time};

    ghost Value = { List ℕ };

    ghost view = { λ time. time.text };

    ghost invariant = { λ time. IsTrue (is_time time.text) };

    ghost inverse = { λ text. record { text = text } };

    ghost inverse_ok = { λ time h i. record { text = time.text } };
}

fn form_of(b: u8) -> u8
    ensures { result ≡ form_of b }
{
    if b.is_ascii_digit() { b'0' } else { b }
}

fn form_of_all(text: &[u8; 20]) -> [u8; 20]
    ensures { result ≡ list_map form_of text.now }
{
    let mut form = [0; 20];
    for i in 0..20 {
        form[i] = form_of(text[i]);
    }
    form
}

/// Whether 20 bytes have the form of a time.
fn has_form(text: &[u8; 20]) -> bool
    ensures { result ≡ has_form text.now }
{
    form_of_all(text).as_slice() == b"0000-00-00T00:00:00Z".as_slice()
}

impl Time {
    /// Reads a time; `None` if the text doesn't have its form.
    pub fn parse(text: &[u8]) -> Option<Time>
        ensures { result ≡ time_of text.now }
    {
        if text.len() != 20 {
            return None;
        }
        let mut bytes = [0; 20];
        bytes.copy_from_slice(text);
        if has_form(&bytes) {
            Some(Time { text: bytes })
        } else {
            None
        }
    }

    /// The 20 bytes, which always have the form of a time.
    pub fn text(&self) -> &[u8]
        ensures text { result.now ≡ self.now }
        ensures time { is_time self.now ≡ true }
    {
        &self.text
    }
}
