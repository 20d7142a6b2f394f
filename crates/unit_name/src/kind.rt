ghost use Rattle.std.specs.Prelude.{◌≡◌};
ghost use Rattle.unit_name.specs.Parts.{type_text};
ghost use Rattle.unit_name.specs.Name.{type_named};

/// Whether a name is a template or an instance of one.
#[derive(Clone, Copy, Debug, PartialEq, Eq, Hash, PartialOrd, Ord)]
pub enum Kind {
    Plain,
    Template,
    Instance,
}

/// The type of a unit, given by the end of its name.
#[derive(Clone, Copy, Debug, PartialEq, Eq, Hash, PartialOrd, Ord)]
pub enum UnitType {
    Service,
    Socket,
    Device,
    Mount,
    Automount,
    Swap,
    Target,
    Path,
    Timer,
    Slice,
    Scope,
}

const TYPES: [UnitType; 11] = [
    UnitType::Service,
    UnitType::Socket,
    UnitType::Device,
    UnitType::Mount,
    UnitType::Automount,
    UnitType::Swap,
    UnitType::Target,
    UnitType::Path,
    UnitType::Timer,
    UnitType::Slice,
    UnitType::Scope,
];

impl UnitType {
    /// The text after the last dot of a name.
    #[tactic(auto, unfolding(crate::specs::Parts::type_text))]
    pub fn text(self) -> &'static str
        ensures { result.now ≡ type_text self }
    {
        match self {
            UnitType::Service => "service",
            UnitType::Socket => "socket",
            UnitType::Device => "device",
            UnitType::Mount => "mount",
            UnitType::Automount => "automount",
            UnitType::Swap => "swap",
            UnitType::Target => "target",
            UnitType::Path => "path",
            UnitType::Timer => "timer",
            UnitType::Slice => "slice",
            UnitType::Scope => "scope",
        }
    }

    /// The type with this text.
    #[tactic(auto, unfolding(crate::specs::Name::type_named))]
    pub(crate) fn named(text: &[u8]) -> Option<UnitType>
        ensures { result ≡ type_named text.now }
    {
        TYPES
            .iter()
            .copied()
            .find(|unit_type| unit_type.text().as_bytes() == text)
    }
}
