//! Lines of preset files: systemd.preset(5), "Preset File Format".
ghost use Rattle.std.specs.Prelude.{◌≡◌, ◌<◌, ◌++◌, not, true, false, length, OnOk, IfOk, IfSome, codes};
ghost use Rattle.std.specs.List.{position};
ghost use Rattle.unit_file.specs.Lines.{is_blank, stripped};
ghost use Rattle.unit_file.specs.Install.{words, is_empty};
ghost use Rattle.preset_rules.specs.Lines.{cut_at, first_word, names_template, with_instances, enable_rule, disable_rule, ignore_rule, rule_from, rule_of, with_rule, rules_of};

use crate::rule::{Instances, Rule};
use bstr::ByteSlice;
use std::alloc::{AllocError, Global};
use unit_file::{Word, is_blank, is_template, stripped};
use unit_name::{UnitName, is_unit_name};

fn first_blank(text: &[u8]) -> Option<usize>
    ensures at { result ≡ position is_blank text.now }
    ensures within { IfSome result (λ at. at < length text.now) }
{
    text.iter().position(|b| is_blank(*b))
}

/// The first word, and what follows it.
#[tactic(auto, unfolding(crate::specs::Lines::first_word))]
fn first_word(text: &[u8]) -> (&[u8], &[u8])
    ensures word { result.0.now ≡ (first_word text.now).0 }
    ensures rest { result.1.now ≡ (first_word text.now).1 }
{
    match first_blank(text) {
        None => (text, &[]),
        Some(at) => (&text[..at], stripped(&text[at..])),
    }
}

/// The words of a text.
fn instances(alloc: Global, text: &[u8]) -> Result<Instances, AllocError>
    ensures { IfOk result (λ list. list ≡ words text.now) }
{
    let mut list = Instances::none(alloc);
    for word in text.split(|b| is_blank(*b)) {
        if !word.is_empty() {
            list.push(Word::from_slice(alloc, word)?)?;
        }
    }
    Ok(list)
}

/// Whether a text is the name of a template.
#[tactic(auto, unfolding(crate::specs::Lines::names_template))]
fn names_template(alloc: Global, text: &[u8]) -> Result<bool, AllocError>
    ensures { IfOk result (λ is. is ≡ names_template text.now) }
{
    if !is_unit_name(text) {
        return Ok(false);
    }
    match UnitName::parse(alloc, text) {
        Ok(name) => Ok(is_template(&name)),
        Err(_) => Err(AllocError),
    }
}

/// The rule of a line that begins with `enable`, by the rest of it.
fn enable_rule(alloc: Global, rest: &[u8]) -> Result<Option<Rule>, AllocError>
    ensures { IfOk result (λ rule. rule ≡ enable_rule rest.now) }
{
    let (pattern, more) = first_word(rest);
    if pattern.is_empty() {
        return Ok(None);
    }
    with_instances(alloc, pattern, instances(alloc, more)?)
}

fn with_instances(
    alloc: Global,
    pattern: &[u8],
    instances: Instances,
) -> Result<Option<Rule>, AllocError>
    ensures { IfOk result (λ rule. rule ≡ with_instances pattern.now instances) }
{
    if !instances.is_empty() && !names_template(alloc, pattern)? {
        return Ok(None);
    }
    let pattern = Word::from_slice(alloc, pattern)?;
    Ok(Some(Rule::Enable { pattern, instances }))
}

/// The rule of a line that begins with `disable`, by the rest of it.
fn disable_rule(alloc: Global, rest: &[u8]) -> Result<Option<Rule>, AllocError>
    ensures { IfOk result (λ rule. rule ≡ disable_rule rest.now) }
{
    if rest.is_empty() {
        return Ok(None);
    }
    let pattern = Word::from_slice(alloc, rest)?;
    Ok(Some(Rule::Disable { pattern }))
}

/// The rule of a line that begins with `ignore`, by the rest of it.
fn ignore_rule(alloc: Global, rest: &[u8]) -> Result<Option<Rule>, AllocError>
    ensures { IfOk result (λ rule. rule ≡ ignore_rule rest.now) }
{
    if rest.is_empty() {
        return Ok(None);
    }
    let pattern = Word::from_slice(alloc, rest)?;
    Ok(Some(Rule::Ignore { pattern }))
}

/// The rule of a line, if it has one.
#[tactic(auto, unfolding(crate::specs::Lines::rule_of))]
fn rule_of(alloc: Global, line: &[u8]) -> Result<Option<Rule>, AllocError>
    ensures { IfOk result (λ rule. rule ≡ rule_of line.now) }
{
    let (word, rest) = first_word(stripped(line));
    if word == b"enable".as_slice() {
        enable_rule(alloc, rest)
    } else if word == b"disable".as_slice() {
        disable_rule(alloc, rest)
    } else if word == b"ignore".as_slice() {
        ignore_rule(alloc, rest)
    } else {
        Ok(None)
    }
}

/// Adds the rules of a file, in the order of its lines, to these.
pub(crate) fn push_rules(
    alloc: Global,
    bytes: &[u8],
    rules: &mut Vec<Rule>,
) -> Result<(), AllocError>
    ensures { OnOk result (rules.new.items ≡ rules.old.items ++ rules_of bytes.now) }
{
    for line in bytes.lines() {
        push_rule(alloc, line, rules)?;
    }
    Ok(())
}

fn push_rule(alloc: Global, line: &[u8], rules: &mut Vec<Rule>) -> Result<(), AllocError>
    ensures { OnOk result (rules.new.items ≡ with_rule rules.old.items (rule_of line.now)) }
{
    match rule_of(alloc, line)? {
        None => Ok(()),
        Some(rule) => Ok(rules.push(rule)?),
    }
}
