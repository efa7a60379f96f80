//! Phases.
ghost use Rattle.std.specs.Prelude.{◌≡◌};
ghost use Rattle.hgs_model.specs.Phase.{phase_name, phase_named, phase_number, greater, lesser};

use hgs_bytes::parts::equal;

/// How far a changeset has been shared, and whether its history may still change.
///
/// The numbers and the names are those of Mercurial's wiki page "Phases".
#[derive(Clone, Copy, Debug, PartialEq, Eq)]
pub enum Phase {
    /// Shared for good.
    Public,
    /// Not shared yet.
    Draft,
    /// Not to be shared.
    Secret,
}

impl Phase {
    /// The number that stands for this phase in `phaseroots`. A changeset's is never below a parent's.
    pub fn number(self) -> u8
        ensures { result ≡ phase_number self }
    {
        match self {
            Phase::Public => 0,
            Phase::Draft => 1,
            Phase::Secret => 2,
        }
    }

    /// The name that commands and answers use.
    pub fn name(self) -> &'static [u8]
        ensures { result.now ≡ phase_name self }
    {
        match self {
            Phase::Public => b"public",
            Phase::Draft => b"draft",
            Phase::Secret => b"secret",
        }
    }

    /// The phase with this name.
    pub fn named(name: &[u8]) -> Option<Phase>
        ensures { result ≡ phase_named name.now }
    {
        if equal(name, Phase::Public.name()) {
            Some(Phase::Public)
        } else if equal(name, Phase::Draft.name()) {
            Some(Phase::Draft)
        } else if equal(name, Phase::Secret.name()) {
            Some(Phase::Secret)
        } else {
            None
        }
    }

    /// The one with the greater number.
    pub fn or_greater(self, other: Phase) -> Phase
        ensures { result ≡ greater self other }
    {
        match (self, other) {
            (Phase::Public, _) => other,
            (Phase::Draft, Phase::Secret) => other,
            (Phase::Draft, _) => self,
            (Phase::Secret, _) => self,
        }
    }

    /// The one with the lesser number.
    pub fn or_lesser(self, other: Phase) -> Phase
        ensures { result ≡ lesser self other }
    {
        match (self, other) {
            (Phase::Public, _) => self,
            (Phase::Draft, Phase::Public) => other,
            (Phase::Draft, _) => self,
            (Phase::Secret, _) => other,
        }
    }
}
