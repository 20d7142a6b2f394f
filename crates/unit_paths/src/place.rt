//! The directories of units.
ghost use Rattle.std.specs.Prelude.{◌≡◌};
ghost use Rattle.unit_paths.specs.Places.{unit_directory, preset_directory, place_of, preset_place_of, scope_place, scope_of_place};

/// Where a command places its entries: below `/etc`, or with `--runtime` below `/run`.
/// systemctl(1), `--runtime`.
#[derive(Clone, Copy, Debug, PartialEq, Eq, Hash, PartialOrd, Ord)]
pub enum Scope {
    /// Permanently.
    Etc,
    /// Until the next boot.
    Run,
}

impl Scope {
    /// The directory of units of the scope.
    pub fn place(self) -> Place
        ensures { result ≡ scope_place self }
    {
        match self {
            Scope::Etc => Place::Etc,
            Scope::Run => Place::Run,
        }
    }
}

/// The directories of units, in the order in which they are searched: systemd.unit(5), "Unit File
/// Load Path".
#[derive(Clone, Copy, Debug, PartialEq, Eq, Hash, PartialOrd, Ord)]
pub enum Place {
    /// `/etc/systemd/system`, the administrator's.
    Etc,
    /// `/run/systemd/system`, until the next boot.
    Run,
    /// `/usr/local/lib/systemd/system`, for units that were installed locally.
    Local,
    /// `/usr/lib/systemd/system`, for units that packages installed.
    Vendor,
}

/// The directories of units, in the order in which they are searched.
pub(crate) const PLACES: [Place; 4] = [Place::Etc, Place::Run, Place::Local, Place::Vendor];

/// The directories of units that have a directory of presets next to them.
pub(crate) const PRESET_PLACES: [Place; 3] = [Place::Etc, Place::Run, Place::Vendor];

impl Place {
    /// The path of the directory.
    #[tactic(auto, unfolding(crate::specs::Places::unit_directory))]
    pub fn directory(self) -> &'static str
        ensures { result.now ≡ unit_directory self }
    {
        match self {
            Place::Etc => "/etc/systemd/system",
            Place::Run => "/run/systemd/system",
            Place::Local => "/usr/local/lib/systemd/system",
            Place::Vendor => "/usr/lib/systemd/system",
        }
    }

    /// The path of the directory of presets next to it: systemd.preset(5). That of `Local` is not
    /// read.
    #[tactic(auto, unfolding(crate::specs::Places::unit_directory))]
    pub fn preset_directory(self) -> &'static str
        ensures { result.now ≡ preset_directory self }
    {
        match self {
            Place::Etc => "/etc/systemd/system-preset",
            Place::Run => "/run/systemd/system-preset",
            Place::Local => "/usr/local/lib/systemd/system-preset",
            Place::Vendor => "/usr/lib/systemd/system-preset",
        }
    }

    /// The scope whose commands place entries in the directory; `None` for those below `/usr`.
    pub fn scope(self) -> Option<Scope>
        ensures { result ≡ scope_of_place self }
    {
        match self {
            Place::Etc => Some(Scope::Etc),
            Place::Run => Some(Scope::Run),
            Place::Local | Place::Vendor => None,
        }
    }
}

/// Which directory of units it is, if it is one.
#[tactic(auto, unfolding(crate::specs::Places::place_of))]
pub(crate) fn place_of(dir: &[u8]) -> Option<Place>
    ensures { result ≡ place_of dir.now }
{
    PLACES
        .iter()
        .copied()
        .find(|place| dir == place.directory().as_bytes())
}

/// Which directory of presets it is, if it is one.
#[tactic(auto, unfolding(crate::specs::Places::preset_place_of))]
pub(crate) fn preset_place_of(dir: &[u8]) -> Option<Place>
    ensures { result ≡ preset_place_of dir.now }
{
    PRESET_PLACES
        .iter()
        .copied()
        .find(|place| dir == place.preset_directory().as_bytes())
}
