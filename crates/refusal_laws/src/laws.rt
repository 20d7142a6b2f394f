//! Which refusal is answered, and exactly when: each function does nothing, and its contract is the
//! law, for any tree and any arguments, in both directions.
ghost use Rattle.refusal_laws.specs.Enable.{EnableRefused};
ghost use Rattle.refusal_laws.specs.Slots.{AddRefused, LinkRefused, SetDefaultRefused};

/// `set-default` is refused exactly if its unit isn't found; or the name that was given is that of
/// no target; or the unit is a template; or there is a file at the path of the link. Of these
/// reasons the first is answered.
pub fn set_default_is_refused_for_these_reasons()
    ensures { SetDefaultRefused }
{}

/// `link` is refused exactly if one of its paths is, for the first such path, in the tree that has
/// the links to the earlier ones: nothing is there, it leads to `/dev/null` or to an empty file,
/// its links lead to no file, its name is that of no unit, or something other than a link to it is
/// at its slot. Of these reasons the first is answered.
pub fn link_is_refused_for_these_reasons()
    ensures { LinkRefused }
{}

/// `add-wants` and `add-requires` are refused exactly if the target isn't found; or if one of the
/// units is refused, for the first such unit, in the tree that has the links to the earlier ones:
/// it isn't found, it is a template that represents its default instance and has none, or something
/// other than a link to it is at the slot of its link. Of these reasons the first is answered.
pub fn add_is_refused_for_these_reasons()
    ensures { AddRefused }
{}

/// `enable` is refused exactly if a unit isn't found under its own name, for the first such unit;
/// or over 1,024 units are enabled; or one of them is a template that represents its default
/// instance and has none, for the least such name; or links to two files are wanted at a path, for
/// the least such path; or something other than a wanted link is at its path, for the least such
/// path. Of these reasons the first is answered.
pub fn enable_is_refused_for_these_reasons()
    ensures { EnableRefused }
{}
