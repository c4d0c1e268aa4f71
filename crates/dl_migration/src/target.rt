//! The version to write.

ghost use Rattle.std.specs.Prelude.{◌≡◌};
ghost use Rattle.dl_migration.specs.Migrated.{number_of};

/// The version in which to write a plan file of an earlier one.
#[derive(Clone, Copy, Debug, PartialEq, Eq)]
pub enum Target {
    /// Version 2, of a plan file of version 1.
    Second,
    /// Version 3, of a plan file of version 1 or 2.
    Third,
}

impl Target {
    /// The number of the version.
    pub(crate) fn number(self) -> u64
        ensures { result ≡ number_of self }
    {
        match self {
            Target::Second => 2,
            Target::Third => 3,
        }
    }
}
