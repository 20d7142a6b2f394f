//! What preset files say about units.
use crate::trees::tree;
use link_tree::Tree;
use preset_rules::{Instances, Policy, Verdict};
use sample_values::name;
use std::alloc::{AllocError, Global};

fn boxed(alloc: Global, tree: &Tree) -> Result<Box<Policy>, AllocError> {
    Ok(Box::new(alloc, Policy::of(alloc, tree)?)?)
}

/// The policy of a tree with these presets.
pub(crate) fn policy(alloc: Global, presets: &[u8]) -> Result<Box<Policy>, AllocError> {
    let tree = tree(alloc, presets)?;
    boxed(alloc, &tree)
}

/// The policy of a tree with one preset file, which has these lines.
pub(crate) fn policy_of_file(
    alloc: Global,
    at: &[u8],
    lines: &[u8],
) -> Result<Box<Policy>, AllocError> {
    let mut presets = Vec::from_slice(alloc, at)?;
    presets.push(b' ')?;
    presets.extend_from_slice(lines)?;
    policy(alloc, &presets)
}

/// What a policy says about a unit.
pub(crate) fn verdict(alloc: Global, policy: &Policy, unit: &[u8]) -> Result<Verdict, AllocError> {
    let unit = name(alloc, unit)?;
    policy.verdict(alloc, &unit)
}

/// The word `enable`, and these instances.
pub(crate) fn enabled(alloc: Global, instances: &Instances) -> Result<Vec<u8>, AllocError> {
    let mut text = Vec::from_slice(alloc, b"enable")?;
    for instance in instances.as_slice() {
        text.push(b' ')?;
        text.extend_from_slice(instance.bytes())?;
    }
    Ok(text)
}

/// The word `disable` or `ignore`, or `enable` with the instances that are listed.
pub(crate) fn verdict_text(alloc: Global, verdict: &Verdict) -> Result<Vec<u8>, AllocError> {
    match verdict {
        Verdict::Disable => Vec::from_slice(alloc, b"disable"),
        Verdict::Ignore => Vec::from_slice(alloc, b"ignore"),
        Verdict::Enable(instances) => enabled(alloc, instances),
    }
}
