//! Objects, member by member.
ghost use Rattle.std.specs.Prelude.{◌≡◌, OnOk};
ghost use Rattle.serde_json.specs.Data.{boolean, string};
ghost use Rattle.serde_json.specs.View.{members_view, view};
ghost use Rattle.root_json.specs.Objects.{◌with◌being◌, count};

use serde_json::{Map, Value};
use std::alloc::{AllocError, Global};

/// The members of an object, while it is put together.
pub(crate) type Object = Map<String, Value>;

/// Puts a value under a key.
#[tactic(auto, unfolding(crate::specs::Objects::with_member))]
pub(crate) fn put_value(
    alloc: Global,
    object: &mut Object,
    key: &str,
    value: Value,
) -> Result<(), AllocError>
    ensures { OnOk result (members_view object.new.entries ≡ (members_view object.old.entries with key.now being view value)) }
{
    serde_json::put(object, alloc, key, value)
}

/// Puts a word of ours under a key.
pub(crate) fn put_word(
    alloc: Global,
    object: &mut Object,
    key: &str,
    word: &str,
) -> Result<(), AllocError>
    ensures { OnOk result (members_view object.new.entries ≡ (members_view object.old.entries with key.now being string word.now)) }
{
    let value = Value::try_from_str(alloc, word)?;
    put_value(alloc, object, key, value)
}

/// Puts a number under a key.
pub(crate) fn put_count(
    alloc: Global,
    object: &mut Object,
    key: &str,
    n: usize,
) -> Result<(), AllocError>
    ensures { OnOk result (members_view object.new.entries ≡ (members_view object.old.entries with key.now being count n)) }
{
    put_value(alloc, object, key, Value::from(n))
}

/// Puts a truth value under a key.
pub(crate) fn put_truth(
    alloc: Global,
    object: &mut Object,
    key: &str,
    truth: bool,
) -> Result<(), AllocError>
    ensures { OnOk result (members_view object.new.entries ≡ (members_view object.old.entries with key.now being boolean truth)) }
{
    put_value(alloc, object, key, Value::Bool(truth))
}
