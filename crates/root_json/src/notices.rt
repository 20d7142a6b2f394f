//! Notices as JSON.
ghost use Rattle.std.specs.Prelude.{◌≡◌, ◌++◌, ◌∷◌, [], IfOk, OnOk, map};
ghost use Rattle.std.specs.FinMap as finite;
ghost use Rattle.serde_json.specs.View.{view};
ghost use Rattle.root_json.specs.Answers.{notice_data, notices_data};

use crate::objects::{Object, put_word};
use crate::texts::put_text;
use footprint::{Notice, Notices};
use serde_json::Value;
use std::alloc::{AllocError, Global};

fn notice_value(alloc: Global, notice: &Notice) -> Result<Value, AllocError>
    ensures { IfOk result (λ value. view value ≡ notice_data notice.now) }
{
    let mut object = Object::new(alloc);
    put_text(alloc, &mut object, "unit", notice.unit.text())?;
    put_word(alloc, &mut object, "key", notice.key.text())?;
    put_text(alloc, &mut object, "word", notice.word.bytes())?;
    put_word(alloc, &mut object, "reason", notice.reason.text())?;
    Ok(Value::Object(object))
}

pub(crate) fn notices_value(alloc: Global, notices: &Notices) -> Result<Value, AllocError>
    ensures { IfOk result (λ value. view value ≡ notices_data notices.now) }
{
    let mut values = Vec::new(alloc);
    push_notices(alloc, &mut values, notices)?;
    Ok(Value::Array(values))
}

fn push_notices(alloc: Global, values: &mut Vec<Value>, notices: &Notices) -> Result<(), AllocError>
    ensures { OnOk result (map view values.new.items ≡ map view values.old.items ++ map notice_data (finite.values notices.now)) }
{
    for notice in notices.iter() {
        push_notice(alloc, values, notice)?;
    }
    Ok(())
}

fn push_notice(alloc: Global, values: &mut Vec<Value>, notice: &Notice) -> Result<(), AllocError>
    ensures { OnOk result (map view values.new.items ≡ map view values.old.items ++ notice_data notice.now ∷ []) }
{
    let value = notice_value(alloc, notice)?;
    serde_json::push(values, value)
}
