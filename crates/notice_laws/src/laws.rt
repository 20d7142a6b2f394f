//! Which notices commands report: each function does nothing, and its contract is the law. The
//! notices are those of the outcome of the command in any tree, with any arguments. A command that
//! is refused reports none.
ghost use Rattle.notice_laws.specs.Installs.{DisableReports, EnableReports, PresetReports, ReenableReports};
ghost use Rattle.notice_laws.specs.Lines.{NoTwoHaveOneLine};
ghost use Rattle.notice_laws.specs.Reports.{AddIsSilent, CheckIsSilent, LinkIsSilent, MaskIsSilent, PlaceIsSilent, RemoveIsSilent, SetDefaultIsSilent, UnmaskIsSilent};

/// `mask`, `unmask`, `link`, `add-wants`, `add-requires` and `set-default` never report a notice;
/// nor do entries that are placed or removed by hand, or a check of units.
pub fn commands_on_slots_report_nothing()
    ensures mask { MaskIsSilent }
    ensures unmask { UnmaskIsSilent }
    ensures link { LinkIsSilent }
    ensures add { AddIsSilent }
    ensures set_default { SetDefaultIsSilent }
    ensures place { PlaceIsSilent }
    ensures remove { RemoveIsSilent }
    ensures check { CheckIsSilent }
{}

/// An accepted `disable` reports exactly the words of `Also=` that include no unit, of the units
/// that are included with those that are given.
pub fn disable_reports_words_of_also()
    ensures { DisableReports }
{}

/// An accepted `enable` reports exactly these words of the units that are reached from those that
/// are given: of `Also=` those that include no unit; of `WantedBy=`, `RequiredBy=` and `UpheldBy=`
/// those that are no unit's name; and of `Alias=` those that give no alias.
pub fn enable_reports_words_of_its_lists()
    ensures { EnableReports }
{}

/// An accepted `reenable` reports exactly what a `disable` reports, and what an `enable` reports in
/// the tree that the disable part leaves. So it may report one word twice, for two reasons.
pub fn reenable_reports_both_parts()
    ensures { ReenableReports }
{}

/// An accepted `preset` reports exactly these: the instances that a preset file lists for one of
/// its templates and that don't give a valid name; what a `disable` of the units to disable
/// reports; and what an `enable` of those to enable reports, in the tree that the disable part
/// leaves.
pub fn preset_reports_listed_instances_and_both_parts()
    ensures { PresetReports }
{}

/// Two notices with the same line are equal, if no unit and no word has a space.
pub fn no_two_notices_have_one_line()
    ensures { NoTwoHaveOneLine }
{}
